//! Lists that several hold.

ghost use Rattle.std.specs.Prelude.{◌≡◌, length, IfOk};
ghost use Rattle.std.specs.Cmp.Lexicographic.{pointwise};
ghost use Rattle.std.proofs.Common.{rules};
ghost use Rattle.std.specs.Cmp.Rules.{comparing};

use crate::list::List;
use crate::memory::NoMemory;
use std::alloc::Global;
use std::convert::AsSlice;
use std::marker::Model;
use std::rc::Rc;

/// A list. All who [share](SharedList::share) it hold the same items in memory. A contract sees the list of its items.
#[derive(Drop)]
pub struct SharedList<T> {
    list: Rc<List<T>>,
}

impl<T> Model for SharedList<T> {
    ghost use Rattle.std.specs.Prelude.{List as Items};

    ghost Value = { Items T };

    ghost view = { λ s. s.list.value };
}

impl<T: Drop> SharedList<T> {
    /// The list, whose items are not copied.
    pub fn new(alloc: Global, list: List<T>) -> Result<SharedList<T>, NoMemory>
        ensures { IfOk result (λ shared. shared ≡ list) }
    {
        Ok(SharedList {
            list: Rc::new(alloc, list)?,
        })
    }

    /// The same list once more. It takes no memory; it is refused where more share it than can be counted.
    pub fn share(&self) -> Result<SharedList<T>, NoMemory>
        ensures { IfOk result (λ shared. shared ≡ self.now) }
    {
        Ok(SharedList {
            list: self.list.clone()?,
        })
    }
}

impl<T> SharedList<T> {
    /// The items as a slice.
    pub fn as_slice(&self) -> &[T]
        ensures { result.now ≡ self.now }
    {
        self.list.as_ref().as_slice()
    }

    /// The number of items.
    pub fn len(&self) -> usize
        ensures { result ≡ length self.now }
    {
        self.list.as_ref().len()
    }
}

impl<T> AsSlice<T> for SharedList<T> {
    ghost items = { λ s. s };

    fn as_slice(&self) -> &[T] {
        self.list.as_ref().as_slice()
    }
}

impl<T: PartialEq> PartialEq for SharedList<T> {
    ghost eq = { pointwise T.eq };

    ghost laws = { Prim.search (comparing, rules) };

    fn eq(&self, other: &SharedList<T>) -> bool {
        self.as_slice() == other.as_slice()
    }
}

impl<T: Eq> Eq for SharedList<T> {
    ghost laws = { Prim.search (comparing, rules) };
}
