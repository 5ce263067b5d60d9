//! Sets of names: whether one is there takes no search through a list.

ghost use Rattle.std.specs.Prelude.{◌≡◌, ◌||◌, ℕ, List, IfOk, OnOk, bytes_eq};
ghost use Rattle.mon_base.specs.declared.method.MethodId.{MethodId};
ghost use Rattle.api_listing.specs.BuiltIn.{is_method};
ghost use Rattle.api_listing.specs.Seen.{has_name, has_id};
ghost use Rattle.api_listing.specs.Listing.{is_known};

use api_listing::ListedClass;
use mon_base::{Bytes, MethodId, NoMemory};
use std::alloc::Global;
use std::collections::BTreeSet;

/// The names of the classes.
pub fn names_of(alloc: Global, classes: &[ListedClass]) -> Result<BTreeSet<Bytes>, NoMemory>
    ensures { IfOk result (λ names. (q : List ℕ) → has_name names q ≡ is_known classes.now q) }
{
    let mut names = BTreeSet::new(alloc);
    for class in classes {
        add_name(alloc, &mut names, &class.name)?;
    }
    Ok(names)
}

/// Adds the name.
pub fn add_name(alloc: Global, names: &mut BTreeSet<Bytes>, name: &Bytes) -> Result<(), NoMemory>
    ensures { OnOk result ((q : List ℕ) → has_name names.new q ≡ (bytes_eq name.now q || has_name names.old q)) }
{
    let copy = name.copy(alloc)?;
    names.insert(copy)?;
    Ok(())
}

/// Adds the method or field.
pub fn add_id(alloc: Global, ids: &mut BTreeSet<MethodId>, id: &MethodId) -> Result<(), NoMemory>
    ensures { OnOk result ((q : MethodId) → has_id ids.new q
        ≡ (is_method q.class q.name q.desc id.now || has_id ids.old q)) }
{
    let copy = id.copy(alloc)?;
    ids.insert(copy)?;
    Ok(())
}
