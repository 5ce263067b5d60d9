//! What the rules of the notes ask of an instruction and of what its operand names.

ghost use Rattle.std.specs.Prelude.{◌≡◌};
ghost use Rattle.block_logic.specs.Operands.{adds, calls, compared, enters, goes, has_clause, is_state_name, is_way_out, leaves};
ghost use Rattle.block_logic.specs.Operands.{loaded, loaded_number, loads_constant, number_named, number_pushed, pushes, pushes_null};
ghost use Rattle.block_logic.specs.Operands.{pushes_state, reads_static, stops, stored, throws, variable_named, writes_static};

use bytecode_model::Target;
use conspec_automaton::{Policy, has_clauses};
use guest_model::{Builtin, builtin_at};
use insn_codec::{Heap, Relation, Shape, Two, ValueKind};

/// The name of the class that holds the policy's variables, and whose monitor is the lock.
pub const STATE: &[u8] = b"conspec/State";

fn loads_constant(shape: Shape) -> bool
    ensures { result ≡ loads_constant shape }
{
    matches!(shape, Shape::Heap(Heap::Constant))
}

/// Whether the instruction calls a method.
pub fn calls(shape: Shape) -> bool
    ensures { result ≡ calls shape }
{
    matches!(shape, Shape::Heap(Heap::Call(_)))
}

/// Whether it enters a monitor.
pub fn enters(shape: Shape) -> bool
    ensures { result ≡ enters shape }
{
    matches!(shape, Shape::Heap(Heap::Enter))
}

/// Whether it leaves a monitor.
pub fn leaves(shape: Shape) -> bool
    ensures { result ≡ leaves shape }
{
    matches!(shape, Shape::Heap(Heap::Exit))
}

/// Whether it writes a static field.
pub fn writes_static(shape: Shape) -> bool
    ensures { result ≡ writes_static shape }
{
    matches!(shape, Shape::Heap(Heap::WriteStatic))
}

/// Whether it pushes null.
pub fn pushes_null(shape: Shape) -> bool
    ensures { result ≡ pushes_null shape }
{
    matches!(shape, Shape::PushNull)
}

/// Whether it throws.
pub fn throws(shape: Shape) -> bool
    ensures { result ≡ throws shape }
{
    matches!(shape, Shape::Heap(Heap::Throw))
}

/// Whether it reads a static field.
pub fn reads_static(shape: Shape) -> bool
    ensures { result ≡ reads_static shape }
{
    matches!(shape, Shape::Heap(Heap::ReadStatic))
}

/// Whether it adds the two topmost numbers.
pub fn adds(shape: Shape) -> bool
    ensures { result ≡ adds shape }
{
    matches!(shape, Shape::Two(Two::Add))
}

/// Whether it goes elsewhere, whatever stands on the stack.
pub fn goes(shape: Shape) -> bool
    ensures { result ≡ goes shape }
{
    matches!(shape, Shape::Goto { .. })
}

/// The relation by which it compares two numbers.
pub fn compared(shape: Shape) -> Option<Relation>
    ensures { result ≡ compared shape }
{
    match shape {
        Shape::Compare { relation, .. } => Some(relation),
        _ => None,
    }
}

/// The local that it loads.
pub fn loaded(shape: Shape) -> Option<u16>
    ensures { result ≡ loaded shape }
{
    match shape {
        Shape::Load { slot, .. } => Some(slot),
        _ => None,
    }
}

/// The local that it loads a number from.
pub fn loaded_number(shape: Shape) -> Option<u16>
    ensures { result ≡ loaded_number shape }
{
    match shape {
        Shape::Load {
            kind: ValueKind::Int,
            slot,
        } => Some(slot),
        _ => None,
    }
}

/// The local that it stores into.
pub fn stored(shape: Shape) -> Option<u16>
    ensures { result ≡ stored shape }
{
    match shape {
        Shape::Store { slot, .. } => Some(slot),
        _ => None,
    }
}

/// Whether the instruction pushes the object of the class that holds the policy's variables.
pub fn pushes_state(shape: Shape, target: &Target) -> bool
    ensures { result ≡ pushes_state shape target.now }
{
    loads_constant(shape) && is_state_name(target)
}

fn is_state_name(target: &Target) -> bool
    ensures { result ≡ is_state_name target.now }
{
    match target {
        Target::ClassName(name) => name.as_slice() == STATE,
        _ => false,
    }
}

/// The policy's variable that is named, where the class of this number holds them.
pub fn variable_named(state: u32, target: &Target) -> Option<u32>
    ensures { result ≡ variable_named state target.now }
{
    match target {
        Target::Field { class, field } => if *class == state { Some(*field) } else { None },
        _ => None,
    }
}

/// Whether the operand names a method that the policy has a clause for.
pub fn has_clause(policy: &Policy, target: &Target) -> bool
    ensures { result ≡ has_clause policy.now target.now }
{
    match target {
        Target::ApiMethod(method) => has_clauses(policy, *method),
        _ => false,
    }
}

/// Whether the operand names the method that stops the program.
pub fn is_way_out(target: &Target) -> bool
    ensures { result ≡ is_way_out target.now }
{
    match target {
        Target::Builtin(index) => match builtin_at(*index) {
            Some(builtin) => stops(builtin),
            None => false,
        },
        _ => false,
    }
}

/// Whether the built-in method stops the program.
fn stops(builtin: Builtin) -> bool
    ensures { result ≡ stops builtin }
{
    matches!(builtin, Builtin::Exit)
}

/// The number that the instruction pushes.
pub fn number_pushed(shape: Shape, target: &Target) -> Option<i32>
    ensures { result ≡ number_pushed shape target.now }
{
    match shape {
        Shape::Push(n) => Some(n),
        Shape::Heap(Heap::Constant) => number_named(target),
        _ => None,
    }
}

fn number_named(target: &Target) -> Option<i32>
    ensures { result ≡ number_named target.now }
{
    match target {
        Target::Number(n) => Some(*n),
        _ => None,
    }
}

/// Whether the instruction pushes this number.
pub fn pushes(n: i32, shape: Shape, target: &Target) -> bool
    ensures { result ≡ pushes n shape target.now }
{
    match number_pushed(shape, target) {
        Some(m) => m == n,
        None => false,
    }
}
