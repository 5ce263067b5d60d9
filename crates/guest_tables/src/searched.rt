//! The classes in which the members of each class are looked for, told once, so that it takes no memory to ask for one of them.
//! (The Java Virtual Machine Specification, section 5.4.3.)

ghost use Rattle.std.specs.Prelude.{IfOk, OnOk, filter_map, ◌++◌, ◌∷◌, ◌==◌, ◌≡◌, ℕ};
ghost use Rattle.std.specs.List.{list_any};
ghost use Rattle.bytecode_model.specs.Classes.{classes_of};
ghost use Rattle.bytecode_model.specs.SearchOrder.{Name};
ghost use Rattle.guest_model.specs.Places.{class_index};
ghost use Rattle.guest_model.specs.Ready.{IsReady};
ghost use Rattle.guest_tables.specs.Searched.{TellsSearched, row_of, rows_of};

use crate::given::class_index;
use api_listing::ListedClass;
use class_index::{Classes, search_order};
use mon_base::{Bytes, List, NoMemory};
use std::alloc::Global;
use type_lattice::{Indexed, classes_of};

/// Of each class that names interfaces itself the places of those in which its members are looked for.
pub fn rows_of(alloc: Global, program: &Indexed) -> Result<List<List<u32>>, NoMemory>
    requires { IsReady program.now }
    ensures { IfOk result (λ rows. rows ≡ rows_of program.now) }
{
    let classes = classes_of(alloc, program.program())?;
    let classes = Classes::new(alloc, classes)?;
    rows_among(alloc, program, &classes)
}

/// The same of these classes, which are those of the program.
fn rows_among(
    alloc: Global,
    program: &Indexed,
    classes: &Classes,
) -> Result<List<List<u32>>, NoMemory>
    requires ready { IsReady program.now }
    requires classes { classes.now ≡ classes_of program.now }
    ensures { IfOk result (λ rows. rows ≡ rows_of program.now) }
{
    let mut rows = List::new(alloc);
    for class in classes.as_slice() {
        rows.push(row_of(alloc, program, classes, class)?)?;
    }
    Ok(rows)
}

/// The same of this class; nothing where it names none.
fn row_of(
    alloc: Global,
    program: &Indexed,
    classes: &Classes,
    class: &ListedClass,
) -> Result<List<u32>, NoMemory>
    requires ready { IsReady program.now }
    requires classes { classes.now ≡ classes_of program.now }
    ensures { IfOk result (λ row. row ≡ row_of program.now class.now) }
{
    if class.interfaces.is_empty() {
        return Ok(List::new(alloc));
    }
    let order = search_order(alloc, classes, &class.name)?;
    places_of(alloc, program, order.as_slice())
}

/// The places of those of the names that are of classes.
fn places_of(alloc: Global, program: &Indexed, names: &[Bytes]) -> Result<List<u32>, NoMemory>
    requires { IsReady program.now }
    ensures { IfOk result (λ places. places ≡ filter_map (class_index program.now) names.now) }
{
    let mut places = List::new(alloc);
    let mut left = names;
    while let [name, rest @ ..] = left {
        add_place(&mut places, program, name.as_slice())?;
        left = rest;
    }
    Ok(places)
}

/// Adds the place of the name, where it is of a class.
fn add_place(places: &mut List<u32>, program: &Indexed, name: &[u8]) -> Result<(), NoMemory>
    requires { IsReady program.now }
    ensures { OnOk result ((more : List Name) → places.new ++ filter_map (class_index program.now) more
        ≡ places.old ++ filter_map (class_index program.now) (name.now ∷ more)) }
{
    match class_index(program, name) {
        Some(place) => places.push(place),
        None => Ok(()),
    }
}

/// Whether members of the class are looked for in the one that has this place. The way up is gone to the first class that
/// names interfaces itself.
pub fn is_searched(program: &Indexed, rows: &List<List<u32>>, name: &[u8], other: u32) -> bool
    requires ready { IsReady program.now }
    requires rows { rows.now ≡ rows_of program.now }
    ensures { TellsSearched program.now name.now other result }
{
    let classes = program.classes();
    let rows = rows.as_slice();
    let mut at = name;
    while let Some(place) = class_index(program, at) {
        let class = &classes[place as usize];
        if !class.interfaces.is_empty() {
            return has_place(&rows[place as usize], other);
        }
        if place == other {
            return true;
        }
        at = class.parent.as_slice();
    }
    false
}

/// Whether the place is one of these.
fn has_place(places: &List<u32>, place: u32) -> bool
    ensures { result ≡ list_any (λ (p : ℕ). p == place) places.now }
{
    places.as_slice().iter().any(|other| *other == place)
}
