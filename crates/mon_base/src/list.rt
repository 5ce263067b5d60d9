//! Lists that are owned.

ghost use Rattle.std.specs.Prelude.{◌≡◌, ◌∷◌, [], ◌++◌, ◌↔◌, ◌<◌, ◌+◌, length, take, drop, slice_get, slice_set};
ghost use Rattle.std.specs.Prelude.{Option, Some, IfOk, OnOk, OnErr, IsTrue, IsErr};
ghost use Rattle.std.specs.Cmp.Lexicographic.{pointwise};
ghost use Rattle.std.proofs.Common.{rules};
ghost use Rattle.std.specs.Cmp.Rules.{comparing};
ghost use Rattle.std.specs.Borrow.{sem};
ghost use Rattle.mon_base.specs.Borrowing.{BorrowsItem};
ghost use Rattle.mon_base.specs.Popping.{IsPopped};

use crate::memory::NoMemory;
use std::alloc::Global;
use std::convert::AsSlice;
use std::marker::Model;

/// A list. A contract sees the list of its items.
#[derive(Drop)]
pub struct List<T> {
    items: Vec<T>,
}

impl<T> Model for List<T> {
    ghost use Rattle.std.specs.Prelude.{List as Items};

    ghost Value = { Items T };

    ghost view = { λ l. l.items.items };
}

impl<T> List<T> {
    /// The list without items. It takes no memory.
    pub fn new(alloc: Global) -> List<T>
        ensures { result ≡ [] }
    {
        List {
            items: Vec::new(alloc),
        }
    }

    /// The list without items that takes so many without being moved.
    pub fn with_room(alloc: Global, n: usize) -> Result<List<T>, NoMemory>
        ensures { IfOk result (λ list. list ≡ []) }
    {
        Ok(List {
            items: Vec::with_capacity(alloc, n)?,
        })
    }

    /// The items of the vector, which is not copied.
    pub fn from_vec(items: Vec<T>) -> List<T>
        ensures { result ≡ items.items }
    {
        List { items }
    }

    /// The items as a vector, without a copy.
    pub fn into_vec(self) -> Vec<T>
        ensures { result.items ≡ self }
    {
        let List { items } = self;
        items
    }

    /// The items as a slice.
    pub fn as_slice(&self) -> &[T]
        ensures { result.now ≡ self.now }
    {
        self.items.as_slice()
    }

    /// The item in this place, which can be written.
    pub fn item_mut(&mut self, place: usize) -> &mut T
        requires { place < length self.old }
        ensures* borrows { sem 𝓛 (BorrowsItem T.row self.entry place result) }
        ensures item { slice_get self.old place ≡ Some result.now }
    {
        &mut self.items[place]
    }

    /// The number of items.
    pub fn len(&self) -> usize
        ensures { result ≡ length self.now }
    {
        self.items.len()
    }

    /// Whether there is no item.
    pub fn is_empty(&self) -> bool
        ensures { IsTrue result ↔ (self.now ≡ []) }
    {
        self.items.is_empty()
    }
}

impl<T: Drop> List<T> {
    /// Appends an item. On refusal the item is dropped and the list is unchanged.
    pub fn push(&mut self, item: T) -> Result<(), NoMemory>
        ensures ok { OnOk result (self.new ≡ self.old ++ item ∷ []) }
        ensures err { OnErr result (self.new ≡ self.old) }
    {
        self.items.push(item)?;
        Ok(())
    }

    /// Takes the last item; `None` where there is none. It takes no memory.
    pub fn pop(&mut self) -> Option<T>
        ensures { IsPopped result self.old self.new }
    {
        self.items.pop()
    }

    /// Puts the item into this place, and answers the one that stood there. It takes no memory.
    pub fn replace(&mut self, place: usize, item: T) -> T
        requires { place < length self.old }
        ensures was { slice_get self.old place ≡ Some result }
        ensures is { self.new ≡ slice_set self.old place item }
    {
        std::mem::replace(&mut self.items[place], item)
    }

    /// Takes the item from this place; those after it move up. It takes no memory.
    pub fn remove(&mut self, place: usize) -> T
        requires { place < length self.old }
        ensures was { slice_get self.old place ≡ Some result }
        ensures left { self.new ≡ take place self.old ++ drop (place + 1) self.old }
    {
        self.items.remove(place)
    }
}

impl<T> AsSlice<T> for List<T> {
    ghost items = { λ l. l };

    fn as_slice(&self) -> &[T] {
        self.items.as_slice()
    }
}

impl<T: PartialEq> PartialEq for List<T> {
    ghost eq = { pointwise T.eq };

    ghost laws = { Prim.search (comparing, rules) };

    fn eq(&self, other: &List<T>) -> bool {
        self.items == other.items
    }
}

impl<T: Eq> Eq for List<T> {
    ghost laws = { Prim.search (comparing, rules) };
}
