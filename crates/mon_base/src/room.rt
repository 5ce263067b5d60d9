//! Lists whose memory is taken before their items come.

ghost use Rattle.std.specs.Prelude.{◌≡◌, ◌∷◌, [], ◌++◌, ◌+◌, ◌<◌, ◌≤◌, IfOk, OnOk, OnErr};

use crate::list::List;
use crate::memory::NoMemory;
use std::alloc::Global;
use std::marker::Model;

/// A list with memory for some items more. A contract sees its items, and as `spare` how many more it takes.
#[derive(Drop)]
pub struct Room<T> {
    items: Vec<T>,
}

impl<T> Model for Room<T> {
    ghost use Rattle.std.specs.Prelude.{◌-◌, vec_len, vec_capacity};
    ghost use Rattle.mon_base.specs.Room.{Held};

    ghost Value = { Held T };

    ghost view = { λ r. record { items = r.items.items; spare = vec_capacity r.items - vec_len r.items } };
}

impl<T> Room<T> {
    /// A room without items that takes at least `n`.
    pub fn with(alloc: Global, n: usize) -> Result<Room<T>, NoMemory>
        ensures empty { IfOk result (λ r. r.items ≡ []) }
        ensures spare { IfOk result (λ r. n ≤ r.spare) }
    {
        Ok(Room {
            items: Vec::with_capacity(alloc, n)?,
        })
    }

    /// Makes place for at least `n` items more. The items stay; a refusal changes nothing, and there is never less place than before.
    pub fn reserve(&mut self, n: usize) -> Result<(), NoMemory>
        ensures items { self.new.items ≡ self.old.items }
        ensures spare { OnOk result (n ≤ self.new.spare) }
        ensures same { OnErr result (self.new ≡ self.old) }
        ensures no_less { self.old.spare ≤ self.new.spare }
    {
        self.items.reserve(n)?;
        Ok(())
    }

    /// The items as a list. It takes no memory.
    pub fn into_list(self) -> List<T>
        ensures { result ≡ self.items }
    {
        let Room { items } = self;
        List::from_vec(items)
    }
}

impl<T: Drop> Room<T> {
    /// Appends the item, for which there is place. It takes no memory.
    pub fn push(&mut self, item: T)
        requires { 0 < self.old.spare }
        ensures items { self.new.items ≡ self.old.items ++ item ∷ [] }
        ensures spare { self.old.spare ≤ self.new.spare + 1 }
    {
        self.items.push(item).unwrap()
    }
}
