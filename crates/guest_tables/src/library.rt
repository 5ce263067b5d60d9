//! What the listing tells that is asked at each call of the library and each of its answers, told once.

ghost use Rattle.std.specs.Prelude.{Bool, IfOk, false, map, option_copied, slice_get, ◌≡◌};
ghost use Rattle.std.specs.Option.{option_map_or};
ghost use Rattle.api_listing.specs.BuiltIn.{built_in_classes};
ghost use Rattle.api_listing.specs.Listing.{is_known};
ghost use Rattle.api_listing.specs.declared.types.ListedMethod.{ListedMethod};
ghost use Rattle.guest_model.specs.Calls.{types_of};
ghost use Rattle.guest_tables.specs.Library.{gives, is_fresh, library_of};

use crate::arities::listed_arities;
use crate::encoding::result_class;
use api_listing::{
    FieldType, FormFault, ListedClass, ListedMethod, Listing, built_in_classes, parse_descriptor,
};
use mon_base::{Bytes, List, NoMemory};
use std::alloc::Global;

/// The result of a listed method: its type, if there is one, and the class or the array, where it is no number.
#[derive(Drop)]
pub struct ListedResult {
    pub of: Option<FieldType>,
    pub class: Option<Bytes>,
}

/// Of each listed method how many arguments it takes and what it gives; of each listed class whether an answer may make an
/// object of it.
#[derive(Drop)]
pub struct Library {
    pub arities: List<u8>,
    pub gives: List<ListedResult>,
    pub fresh: List<bool>,
}

/// What the listing tells.
pub fn library_of(alloc: Global, listing: &Listing) -> Result<Library, NoMemory>
    ensures { IfOk result (λ library. library ≡ library_of listing.now) }
{
    Ok(Library {
        arities: listed_arities(alloc, listing.methods.as_slice())?,
        gives: results_of(alloc, listing.methods.as_slice())?,
        fresh: fresh_among(alloc, listing.classes.as_slice())?,
    })
}

/// What each of the methods gives.
fn results_of(alloc: Global, methods: &[ListedMethod]) -> Result<List<ListedResult>, NoMemory>
    ensures { IfOk result (λ results. results ≡ map (λ (m : ListedMethod). gives m.id.desc) methods.now) }
{
    let mut results = List::new(alloc);
    for method in methods {
        results.push(result_of(alloc, method.id.desc.as_slice())?)?;
    }
    Ok(results)
}

/// What a method of the descriptor gives.
fn result_of(alloc: Global, desc: &[u8]) -> Result<ListedResult, NoMemory>
    ensures { IfOk result (λ it. it ≡ gives desc.now) }
{
    let of = result_type(alloc, desc)?;
    let class = result_class(alloc, &of)?;
    Ok(ListedResult { of, class })
}

/// The type of the result of a method of this descriptor.
fn result_type(alloc: Global, desc: &[u8]) -> Result<Option<FieldType>, NoMemory>
    ensures { IfOk result (λ t. t ≡ (types_of desc.now).result) }
{
    match parse_descriptor(alloc, desc) {
        Ok(types) => Ok(types.result),
        Err(FormFault::NoForm) => Ok(None),
        Err(FormFault::Memory) => Err(NoMemory),
    }
}

/// Whether an answer may make an object of each of the classes.
fn fresh_among(alloc: Global, classes: &[ListedClass]) -> Result<List<bool>, NoMemory>
    ensures { IfOk result (λ fresh. fresh ≡ map is_fresh classes.now) }
{
    let built_in = built_in_classes(alloc)?;
    tested(alloc, built_in.as_slice(), classes)
}

/// Whether it is one of the classes that are not built in, and no interface, of each of these.
fn tested(
    alloc: Global,
    built_in: &[ListedClass],
    classes: &[ListedClass],
) -> Result<List<bool>, NoMemory>
    requires { built_in.now ≡ built_in_classes }
    ensures { IfOk result (λ fresh. fresh ≡ map is_fresh classes.now) }
{
    let mut fresh = List::new(alloc);
    for class in classes {
        fresh.push(!class.is_interface && !is_known(built_in, class.name.as_slice()))?;
    }
    Ok(fresh)
}

/// Whether one of the classes has the name.
fn is_known(classes: &[ListedClass], name: &[u8]) -> bool
    ensures { result ≡ is_known classes.now name.now }
{
    classes.iter().any(|class| class.name.as_slice() == name)
}

/// The truth in the place; false where there is none.
pub fn truth_at(truths: &List<bool>, place: usize) -> bool
    ensures { result ≡ option_map_or (λ (b : Bool). b) (slice_get truths.now place) false }
{
    match truths.as_slice().get(place) {
        Some(truth) => *truth,
        None => false,
    }
}
