//! How many arguments methods take, told once of each.

ghost use Rattle.std.specs.Prelude.{IfOk, map, ◌≡◌};
ghost use Rattle.api_listing.specs.declared.types.ListedMethod.{ListedMethod};
ghost use Rattle.bytecode_model.specs.declared.program.Method.{Method};
ghost use Rattle.guest_model.specs.Calls.{arity};
ghost use Rattle.guest_tables.specs.Arities.{arities_of, class_arities};

use api_listing::ListedMethod;
use bytecode_model::{LinkedClass, Method, Program};
use guest_model::arity;
use mon_base::{List, NoMemory};
use std::alloc::Global;

/// How many arguments a method of the descriptor takes, which is at most 255.
fn arity_of(alloc: Global, desc: &[u8]) -> Result<u8, NoMemory>
    ensures { IfOk result (λ count. count ≡ arity desc.now) }
{
    let count = arity(alloc, desc)?;
    Ok(count as u8)
}

/// The same of each of these listed methods.
pub fn listed_arities(alloc: Global, methods: &[ListedMethod]) -> Result<List<u8>, NoMemory>
    ensures { IfOk result (λ counts. counts ≡ map (λ (m : ListedMethod). arity m.id.desc) methods.now) }
{
    let mut counts = List::new(alloc);
    for method in methods {
        counts.push(arity_of(alloc, method.id.desc.as_slice())?)?;
    }
    Ok(counts)
}

/// The same of each method of a given class.
#[tactic(auto, unfolding(crate::specs::Arities::class_arities))]
fn class_arities(alloc: Global, class: &LinkedClass) -> Result<List<u8>, NoMemory>
    ensures { IfOk result (λ counts. counts ≡ class_arities class.now) }
{
    let counts = arities_in(alloc, class.methods.as_slice())?;
    Ok(counts)
}

fn arities_in(alloc: Global, methods: &[Method]) -> Result<List<u8>, NoMemory>
    ensures { IfOk result (λ counts. counts ≡ map (λ (m : Method). arity m.desc) methods.now) }
{
    let mut counts = List::new(alloc);
    for method in methods {
        counts.push(arity_of(alloc, method.desc.as_slice())?)?;
    }
    Ok(counts)
}

/// The same of the methods of each given class.
pub fn arities_of(alloc: Global, program: &Program) -> Result<List<List<u8>>, NoMemory>
    ensures { IfOk result (λ counts. counts ≡ arities_of program.now) }
{
    let mut counts = List::new(alloc);
    for class in program.classes.as_slice() {
        counts.push(class_arities(alloc, class)?)?;
    }
    Ok(counts)
}
