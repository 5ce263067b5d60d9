//! Classes that are found by their names without a search through them.

ghost use Rattle.std.specs.Prelude.{◌≡◌, IfOk, option_copied};
ghost use Rattle.api_listing.specs.Nearest.{class_named};
ghost use Rattle.bytecode_model.specs.Places.{ClassesPlaced};

use crate::by_name::{ByName, note, noted};
use api_listing::ListedClass;
use mon_base::NoMemory;
use std::alloc::Global;
use std::collections::BTreeMap;

/// The place of the first class of each name.
pub fn class_places(alloc: Global, classes: &[ListedClass]) -> Result<ByName<usize>, NoMemory>
    ensures { IfOk result (λ places. ClassesPlaced places classes.now) }
{
    let mut places = BTreeMap::new(alloc);
    let mut index = 0;
    let mut left = classes;
    while let [class, rest @ ..] = left {
        note(alloc, &mut places, &class.name, index)?;
        index += 1;
        left = rest;
    }
    Ok(places)
}

/// The first class with the name.
pub fn placed_class<'a>(
    classes: &'a [ListedClass],
    places: &ByName<usize>,
    name: &[u8],
) -> Option<&'a ListedClass>
    requires { ClassesPlaced places.now classes.now }
    ensures { option_copied result ≡ class_named classes.now name.now }
{
    match noted(places, name) {
        Some(place) => classes.get(place),
        None => None,
    }
}
