//! Names that are shared.

ghost use Rattle.std.specs.Prelude.{◌≡◌, length, nat_eq, IfOk};
ghost use Rattle.std.specs.Cmp.Lexicographic.{pointwise};
ghost use Rattle.std.proofs.Common.{rules};
ghost use Rattle.std.specs.Cmp.Rules.{comparing};

use mon_base::{Bytes, NoMemory};
use std::alloc::Global;
use std::marker::Model;
use std::rc::Rc;

/// The name of a class or of an array type. All who [share](Name::share) it hold the same bytes in memory. A contract sees the list
/// of its bytes.
#[derive(Drop)]
pub struct Name {
    text: Rc<Bytes>,
}

impl Model for Name {
    ghost use Rattle.std.specs.Prelude.{ℕ, List};

    ghost Value = { List ℕ };

    ghost view = { λ n. n.text.value };
}

impl Name {
    /// The name of these bytes, which are copied.
    pub fn from_slice(alloc: Global, bytes: &[u8]) -> Result<Name, NoMemory>
        ensures { IfOk result (λ name. name ≡ bytes.now) }
    {
        Name::from_bytes(alloc, Bytes::from_slice(alloc, bytes)?)
    }

    /// The name of these bytes.
    pub fn from_bytes(alloc: Global, bytes: Bytes) -> Result<Name, NoMemory>
        ensures { IfOk result (λ name. name ≡ bytes) }
    {
        Ok(Name {
            text: Rc::new(alloc, bytes)?,
        })
    }

    /// The same name once more. It takes no memory; it is refused where more share it than can be counted.
    pub fn share(&self) -> Result<Name, NoMemory>
        ensures { IfOk result (λ name. name ≡ self.now) }
    {
        Ok(Name {
            text: self.text.clone()?,
        })
    }

    /// The bytes.
    pub fn as_slice(&self) -> &[u8]
        ensures { result.now ≡ self.now }
    {
        let text = self.text.as_ref();
        text.as_slice()
    }

    /// The number of bytes.
    pub fn len(&self) -> usize
        ensures { result ≡ length self.now }
    {
        self.text.as_ref().len()
    }
}

impl PartialEq for Name {
    ghost eq = { pointwise nat_eq };

    ghost laws = { Prim.search (comparing, rules) };

    fn eq(&self, other: &Name) -> bool {
        self.as_slice() == other.as_slice()
    }
}

impl Eq for Name {
    ghost laws = { Prim.search (comparing, rules) };
}
