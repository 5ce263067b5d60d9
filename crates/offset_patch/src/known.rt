//! Where the entries stand that blocks named before.

ghost use Rattle.std.specs.Prelude.{◌≡◌, Some, if◌then◌else◌, IfOk};
ghost use Rattle.std.specs.Ordering.{is_eq};
ghost use Rattle.offset_patch.specs.declared.block.PoolWant.{PoolWant as Want};
ghost use Rattle.offset_patch.specs.Known.{want_cmp, known_at, known_place};

use crate::block::PoolWant;
use mon_base::NoMemory;
use std::alloc::Global;
use std::collections::BTreeMap;

/// The place of each entry that was named.
pub type Known = BTreeMap<PoolWant, u64>;

/// Where the entry stands, if it was named.
pub fn known_place(known: &Option<Known>, want: PoolWant) -> Option<u64>
    ensures { result ≡ known_place known.now want }
{
    match known {
        Some(places) => places.get(&want).copied(),
        None => None,
    }
}

/// The places with one more, of an entry that was not named.
pub fn noted(
    alloc: Global,
    known: Option<Known>,
    want: PoolWant,
    place: u64,
) -> Result<Known, NoMemory>
    ensures { IfOk result (λ places. (q : Want) → known_at places q ≡ if is_eq (want_cmp want q) then Some place else known_place known q) }
{
    let mut places = match known {
        Some(places) => places,
        None => BTreeMap::new(alloc),
    };
    places.insert(want, place)?;
    Ok(places)
}
