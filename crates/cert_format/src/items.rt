//! Items that use names of the table, one after another.

ghost use Rattle.std.specs.Prelude.{◌≡◌, ◌≤◌, []};
ghost use Rattle.mon_base.specs.Answer.{ReadsAs};
ghost use Rattle.cert_format.specs.Reading.{Uses, several_at, short_list_at};

use crate::fault::CertForm;
use crate::name::Name;
use crate::place::u2;
use mon_base::{Cursor, List};
use std::alloc::Global;

/// What the items of a certificate are read with: the table of names, and the number of the policy's variables.
#[derive(Clone, Copy)]
pub struct Table<'a> {
    pub names: &'a [Name],
    pub vars: u32,
}

/// What stands in a certificate one after another, and uses names.
pub trait Item: Drop {
    ghost use Rattle.std.specs.Prelude.{ℕ, List as Items};
    ghost use Rattle.mon_base.specs.Reading.{Place};
    ghost use Rattle.cert_format.specs.Reading.{Decoded};

    /// What reading it gives, with the number of variables, the names, and how many of these were used before.
    ghost item_at: { ℕ → Items (Items ℕ) → ℕ → Place → Decoded (Self × ℕ) };

    /// The next item. `used` is how many of the names were used so far.
    fn read(
        alloc: Global,
        table: &Table,
        used: &mut usize,
        from: &mut Cursor,
    ) -> Result<Self, CertForm>
    where
        Self: Sized,
        ensures { Uses result (item_at table.now.vars table.now.names.now used.old from.old) used.new from.new };
}

/// The items that two bytes count.
#[tactic(auto, unfolding(crate::specs::Reading::short_list_at))]
pub fn short_list<T: Item>(
    alloc: Global,
    table: &Table,
    used: &mut usize,
    from: &mut Cursor,
) -> Result<List<T>, CertForm>
    ensures { Uses result (short_list_at (T.item_at table.now.vars table.now.names.now) used.old from.old) used.new from.new }
{
    let count = u2(from)?;
    several(alloc, table, count as u32, used, from)
}

/// How many items there is room for at most before they are read: as many as a method has instructions, or less than one more.
const MOST_ROOM: usize = 65_536;

/// For how many of so many items there is room before they are read.
pub fn room_for(count: u32) -> usize
    ensures { result ≤ 65536 }
{
    (count as usize).min(MOST_ROOM)
}

/// Reads that many items onto the list, which has none.
fn fill<T: Item>(
    items: &mut List<T>,
    alloc: Global,
    table: &Table,
    count: u32,
    used: &mut usize,
    from: &mut Cursor,
) -> Result<(), CertForm>
    requires { items.old ≡ [] }
    ensures { ReadsAs CertForm.Memory (λ _. (items.new, used.new)) result
        (several_at (T.item_at table.now.vars table.now.names.now) count used.old from.old) from.new }
{
    for _ in 0..count {
        let item = T::read(alloc, table, used, from)?;
        items.push(item)?;
    }
    Ok(())
}

/// That many items. Memory is taken for some before they are read, so for more than there are only where reading fails.
fn several<T: Item>(
    alloc: Global,
    table: &Table,
    count: u32,
    used: &mut usize,
    from: &mut Cursor,
) -> Result<List<T>, CertForm>
    ensures { Uses result (several_at (T.item_at table.now.vars table.now.names.now) count used.old from.old) used.new from.new }
{
    let mut items = List::with_room(alloc, room_for(count))?;
    fill(&mut items, alloc, table, count, used, from)?;
    Ok(items)
}
