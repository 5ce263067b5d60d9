//! Items that are counted: two bytes of count, and the items.

ghost use Rattle.std.specs.Prelude.{◌≡◌, []};
ghost use Rattle.mon_base.specs.Reading.{counted};
ghost use Rattle.mon_base.specs.Answer.{Reads, ReadsAs};
ghost use Rattle.class_codec.specs.Reading.{counted_at};

use crate::fault::ClassFault;
use crate::place::u2;
use crate::tree::Const;
use mon_base::{Cursor, List};
use std::alloc::Global;

/// What is counted in a class file.
pub trait Item: Drop {
    ghost use Rattle.std.specs.Prelude.{List, Bool};
    ghost use Rattle.mon_base.specs.Reading.{Place};
    ghost use Rattle.class_codec.specs.declared.tree.Const.{Const};
    ghost use Rattle.class_codec.specs.Reading.{Read};

    /// What reading it gives, with the pool, and whether a method has it.
    ghost item_at: { List Const → Bool → Place → Read Self };

    fn read(
        alloc: Global,
        pool: &[Const],
        of_method: bool,
        from: &mut Cursor,
    ) -> Result<Self, ClassFault>
    where
        Self: Sized,
        ensures { Reads ClassFault.Memory result (item_at pool.now of_method from.old) from.new };
}

/// The items that two bytes count.
#[tactic(auto, unfolding(crate::specs::Reading::counted_at))]
pub fn counted<T: Item>(
    alloc: Global,
    pool: &[Const],
    of_method: bool,
    from: &mut Cursor,
) -> Result<List<T>, ClassFault>
    ensures { Reads ClassFault.Memory result (counted_at (T.item_at pool.now of_method) from.old) from.new }
{
    let count = u2(from)?;
    let items = several(alloc, pool, of_method, count, from)?;
    Ok(List::from_vec(items))
}

/// Reads that many items onto the list, which has none.
fn fill<T: Item>(
    items: &mut Vec<T>,
    alloc: Global,
    pool: &[Const],
    of_method: bool,
    count: u16,
    from: &mut Cursor,
) -> Result<(), ClassFault>
    requires { items.old.items ≡ [] }
    ensures { ReadsAs ClassFault.Memory (λ _. items.new.items) result (counted (T.item_at pool.now of_method) count from.old) from.new }
{
    for _ in 0..count {
        let item = T::read(alloc, pool, of_method, from)?;
        items.push(item)?;
    }
    Ok(())
}

/// That many items.
fn several<T: Item>(
    alloc: Global,
    pool: &[Const],
    of_method: bool,
    count: u16,
    from: &mut Cursor,
) -> Result<Vec<T>, ClassFault>
    ensures { ReadsAs ClassFault.Memory (λ v. v.items) result (counted (T.item_at pool.now of_method) count from.old) from.new }
{
    let mut items = Vec::new(alloc);
    fill(&mut items, alloc, pool, of_method, count, from)?;
    Ok(items)
}
