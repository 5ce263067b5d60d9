//! What a handler finds: the locals that are left, and the object that is thrown.
//! (The Java Virtual Machine Specification, section 4.10.1.6.)

ghost use Rattle.std.specs.Prelude.{◌≡◌, ◌∷◌, [], map, IfOk};
ghost use Rattle.cert_format.specs.declared.typing.VType.TheVariants.{Ref};
ghost use Rattle.bytecode_model.specs.Borrowing.{type_borrowed};
ghost use Rattle.bytecode_model.specs.Rules.{class_caught, is_alone, is_reference_to, local_caught, when_thrown};

use bytecode_model::{Handler, TypeRef, borrow, own};
use cert_format::{Name, VType};
use mon_base::{List, NoMemory};
use std::alloc::Global;

/// The class that each other is below that is caught.
pub const THROWABLE: &[u8] = b"java/lang/Throwable";

/// The class of what is caught.
pub fn class_caught(handler: &Handler) -> &[u8]
    ensures { result.now ≡ class_caught handler.now }
{
    match &handler.class {
        Some(class) => class.as_slice(),
        None => THROWABLE,
    }
}

/// A local as a handler finds it.
pub fn when_thrown(t: &VType) -> TypeRef<'_>
    ensures { type_borrowed result ≡ when_thrown t.now }
{
    match t {
        VType::UninitThis => TypeRef::Top,
        VType::Uninit(_) => TypeRef::Top,
        _ => borrow(t),
    }
}

/// The local of this place as a handler finds it; one that is absent is Top.
pub fn local_caught(locals: &[VType], j: usize) -> TypeRef<'_>
    ensures { type_borrowed result ≡ local_caught locals.now j }
{
    let Some(t) = locals.get(j) else {
        return TypeRef::Top;
    };
    when_thrown(t)
}

fn is_reference_to(class: &[u8], t: &VType) -> bool
    ensures { result ≡ is_reference_to class.now t.now }
{
    match t {
        VType::Ref(name) => name.as_slice() == class,
        _ => false,
    }
}

/// Whether a reference to the class is the only operand.
pub fn is_alone(class: &[u8], stack: &[VType]) -> bool
    ensures { result ≡ is_alone class.now stack.now }
{
    match stack {
        [] => false,
        [first, rest @ ..] => {
            match rest {
                [] => is_reference_to(class, first),
                [_, ..] => false,
            }
        }
    }
}

/// The locals that a handler finds where one of these is left.
pub fn locals_thrown(alloc: Global, locals: &[VType]) -> Result<List<VType>, NoMemory>
    ensures { IfOk result (λ found. found ≡ map when_thrown locals.now) }
{
    let mut found = List::new(alloc);
    for t in locals {
        let left = own(alloc, when_thrown(t))?;
        found.push(left)?;
    }
    Ok(found)
}

/// The operands that a handler finds.
pub fn stack_thrown(alloc: Global, handler: &Handler) -> Result<List<VType>, NoMemory>
    ensures { IfOk result (λ stack. stack ≡ Ref (class_caught handler.now) ∷ []) }
{
    let mut stack = List::new(alloc);
    let class = Name::from_slice(alloc, class_caught(handler))?;
    stack.push(VType::Ref(class))?;
    Ok(stack)
}
