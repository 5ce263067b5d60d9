//! Lists that take one word where they stand.

ghost use Rattle.std.specs.Prelude.{◌≡◌, length, IfOk};
ghost use Rattle.std.specs.Cmp.Lexicographic.{pointwise};
ghost use Rattle.std.proofs.Common.{rules};
ghost use Rattle.std.specs.Cmp.Rules.{comparing};

use crate::list::List;
use crate::memory::NoMemory;
use std::alloc::Global;
use std::boxed::Box;
use std::convert::AsSlice;
use std::marker::Model;

/// A list that is held by one word, for types of which few values have it. A contract sees the list of its items.
#[derive(Drop)]
pub struct BoxedList<T> {
    list: Box<List<T>>,
}

impl<T> Model for BoxedList<T> {
    ghost use Rattle.std.specs.Prelude.{List as Items};

    ghost Value = { Items T };

    ghost view = { λ b. b.list.value };
}

impl<T: Drop> BoxedList<T> {
    /// The list, whose items are not copied.
    pub fn new(alloc: Global, list: List<T>) -> Result<BoxedList<T>, NoMemory>
        ensures { IfOk result (λ boxed. boxed ≡ list) }
    {
        Ok(BoxedList {
            list: Box::new(alloc, list)?,
        })
    }
}

impl<T> BoxedList<T> {
    /// The items as a slice.
    pub fn as_slice(&self) -> &[T]
        ensures { result.now ≡ self.now }
    {
        self.list.as_slice()
    }

    /// The number of items.
    pub fn len(&self) -> usize
        ensures { result ≡ length self.now }
    {
        self.list.len()
    }
}

impl<T> AsSlice<T> for BoxedList<T> {
    ghost items = { λ b. b };

    fn as_slice(&self) -> &[T] {
        self.list.as_slice()
    }
}

impl<T: PartialEq> PartialEq for BoxedList<T> {
    ghost eq = { pointwise T.eq };

    ghost laws = { Prim.search (comparing, rules) };

    fn eq(&self, other: &BoxedList<T>) -> bool {
        self.as_slice() == other.as_slice()
    }
}

impl<T: Eq> Eq for BoxedList<T> {
    ghost laws = { Prim.search (comparing, rules) };
}
