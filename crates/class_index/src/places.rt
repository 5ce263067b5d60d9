//! Sets of names.

ghost use Rattle.std.specs.Prelude.{◌≡◌, ◌||◌, ℕ, List, bytes_eq, OnOk};
ghost use Rattle.api_listing.specs.Seen.{has_name};

use mon_base::{Bytes, NoMemory};
use std::alloc::Global;
use std::collections::BTreeSet;

/// Adds the name.
pub fn add_name(alloc: Global, names: &mut BTreeSet<Bytes>, name: &Bytes) -> Result<(), NoMemory>
    ensures { OnOk result ((q : List ℕ) → has_name names.new q ≡ (bytes_eq name.now q || has_name names.old q)) }
{
    names.insert(name.copy(alloc)?)?;
    Ok(())
}
