//! Constants of the classes.

ghost use Rattle.std.specs.Prelude.{◌≡◌, ◌∷◌, [], ◌++◌, IfOk, OnOk};
ghost use Rattle.bundle_gen.specs.Generated.{thread_name};
ghost use Rattle.class_codec.specs.declared.tree.Const.TheVariants.{Utf8};

use class_codec::Const;
use mon_base::{Bytes, List, NoMemory, push_count};
use std::alloc::Global;

/// Appends a text.
pub fn put_text(alloc: Global, pool: &mut List<Const>, text: &str) -> Result<(), NoMemory>
    ensures { OnOk result (pool.new ≡ pool.old ++ Utf8 text.now ∷ []) }
{
    let text = Bytes::from_slice(alloc, text.as_bytes())?;
    pool.push(Const::Utf8(text))
}

/// Appends the name of the thread class of this index.
pub fn put_thread_name(alloc: Global, pool: &mut List<Const>, index: u32) -> Result<(), NoMemory>
    ensures { OnOk result (pool.new ≡ pool.old ++ Utf8 (thread_name index) ∷ []) }
{
    let name = thread_name(alloc, index)?;
    pool.push(Const::Utf8(name))
}

/// The name of the thread class of this index.
fn thread_name(alloc: Global, index: u32) -> Result<Bytes, NoMemory>
    ensures { IfOk result (λ name. name ≡ thread_name index) }
{
    let mut name = Bytes::from_slice(alloc, b"g/C".as_slice())?;
    push_count(&mut name, u64::from(index))?;
    Ok(name)
}
