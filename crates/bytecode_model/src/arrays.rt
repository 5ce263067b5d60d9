//! Arrays, which are named by their descriptors.

ghost use Rattle.std.specs.Prelude.{◌≡◌, ◌++◌, OnOk};
ghost use Rattle.bytecode_model.specs.Arrays.{described, is_array};

use mon_base::{Bytes, NoMemory};

/// Whether a name is the descriptor of an array.
pub fn is_array(name: &[u8]) -> bool
    ensures { result ≡ is_array name.now }
{
    match name {
        [] => false,
        [first, ..] => *first == b'[',
    }
}

/// Appends the descriptor of a class or an array.
pub fn push_described(out: &mut Bytes, name: &[u8]) -> Result<(), NoMemory>
    ensures { OnOk result (out.new ≡ out.old ++ described name.now) }
{
    if is_array(name) {
        return out.extend(name);
    }
    out.push(b'L')?;
    out.extend(name)?;
    out.push(b';')
}
