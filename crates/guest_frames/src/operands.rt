//! What instructions do to locals and operands.

ghost use Rattle.std.specs.Prelude.{◌≡◌, ◌∷◌, ◌++◌, ◌+◌, ◌<◌, ◌≤◌, option_map, length, slice_get};
ghost use Rattle.std.specs.List.{cons_option, filter_map};
ghost use Rattle.std.specs.Option.{option_map_or};
ghost use Rattle.insn_codec.specs.declared.shape.Shape.TheVariants as shapes;
ghost use Rattle.insn_codec.specs.Effect.{effect, moved_by, operand, local, without_one, without_two};
ghost use Rattle.insn_codec.specs.Forms.{order_of};
ghost use Rattle.guest_heap.specs.declared.value.Value.{Value};
ghost use Rattle.guest_heap.specs.declared.value.Value.TheVariants as values;
ghost use Rattle.guest_frames.specs.Values.{fits, values_moved};
ghost use Rattle.guest_frames.specs.Became.{Became};
ghost use Rattle.guest_frames.specs.Making.{incremented, made_of_top, made_of_tops};
ghost use Rattle.guest_frames.specs.Room.{held_by, left_on, with_items};

use crate::numbers::{made_of_one, made_of_two};
use guest_heap::{Stack, Value};
use insn_codec::{One, Shape, StackForm, Two, ValueKind, depth_of};
use mon_base::List;

/// Does to locals and operands what the shape says, where what it takes is there and there is room; and whether it did.
pub fn effect(shape: Shape, locals: &mut List<Value>, stack: &mut Stack) -> bool
    requires few { length stack.old.items ≤ stack.old.size }
    ensures { Became result (locals.old, stack.old) (locals.new, stack.new)
        (held_by stack.old (effect values_moved shape locals.old stack.old.items)) }
{
    match shape {
        Shape::Nothing | Shape::Goto { .. } => true,
        Shape::Push(n) => push(stack, Value::Int(n)),
        Shape::PushNull => push(stack, Value::Null),
        Shape::Load { kind, slot } => load(kind, slot, locals, stack),
        Shape::Store { kind, slot } => store(kind, slot, locals, stack),
        Shape::Move(form) => moved(form, stack),
        Shape::Two(op) => two(op, stack),
        Shape::One(op) => one(op, stack),
        Shape::Increment { slot, by } => increment(slot, by, locals),
        Shape::Test { .. } | Shape::Switch => without_one(ValueKind::Int, stack),
        Shape::Compare { .. } => without_two(ValueKind::Int, stack),
        Shape::CompareReferences { .. } => without_two(ValueKind::Reference, stack),
        Shape::TestNull { .. } => without_one(ValueKind::Reference, stack),
        Shape::Heap(_) => false,
    }
}

/// Whether the value is a number, or else a reference or null.
pub fn fits(kind: ValueKind, value: Value) -> bool
    ensures { result ≡ fits kind value }
{
    let is_number = match value {
        Value::Int(_) => true,
        Value::Null | Value::Ref(_) | Value::Class(_) | Value::Lit(_) => false,
    };
    match kind {
        ValueKind::Int => is_number,
        ValueKind::Reference => !is_number,
    }
}

/// The operand at this depth, where it is of the kind.
fn operand(kind: ValueKind, depth: u8, stack: &Stack) -> Option<Value>
    ensures { result ≡ operand values_moved kind depth stack.now.items }
{
    let value = stack.get(depth)?;
    if fits(kind, value) {
        return Some(value);
    }
    None
}

/// The local, where it is one, and of the kind.
fn local(kind: ValueKind, slot: u16, locals: &List<Value>) -> Option<Value>
    ensures { result ≡ local values_moved kind slot locals.now }
{
    let found = locals.as_slice().get(slot as usize)?;
    let value = *found;
    if fits(kind, value) {
        return Some(value);
    }
    None
}

/// Puts the value on top, where there is room.
fn push(stack: &mut Stack, value: Value) -> bool
    ensures { Became result stack.old stack.new (with_items stack.old (value ∷ stack.old.items)) }
{
    if stack.len() < stack.size() as usize {
        stack.push(value);
        return true;
    }
    false
}

/// Puts the local on top.
fn load(kind: ValueKind, slot: u16, locals: &List<Value>, stack: &mut Stack) -> bool
    ensures { Became result stack.old stack.new
        (left_on stack.old (option_map (λ (v : Value). v ∷ stack.old.items) (local values_moved kind slot locals.now))) }
{
    match local(kind, slot, locals) {
        Some(value) => push(stack, value),
        None => false,
    }
}

/// Puts the top operand into the local.
fn store(kind: ValueKind, slot: u16, locals: &mut List<Value>, stack: &mut Stack) -> bool
    ensures { Became result (locals.old, stack.old) (locals.new, stack.new)
        (held_by stack.old (effect values_moved (shapes.Store kind slot) locals.old stack.old.items)) }
{
    let Some(value) = operand(kind, 0, stack) else {
        return false;
    };
    if slot as usize >= locals.len() {
        return false;
    }
    *locals.item_mut(slot as usize) = value;
    stack.drop_top(1);
    true
}

/// Adds to a local.
fn increment(slot: u16, by: i16, locals: &mut List<Value>) -> bool
    ensures { Became result locals.old locals.new (incremented slot by locals.old) }
{
    let Some(Value::Int(n)) = local(ValueKind::Int, slot, locals) else {
        return false;
    };
    *locals.item_mut(slot as usize) = Value::Int(made_of_two(Two::Add, n, by as i32));
    true
}

/// Makes one number of the two topmost.
fn two(op: Two, stack: &mut Stack) -> bool
    ensures { Became result stack.old stack.new (left_on stack.old (made_of_tops op stack.old.items)) }
{
    let Some(Value::Int(y)) = operand(ValueKind::Int, 0, stack) else {
        return false;
    };
    let Some(Value::Int(x)) = operand(ValueKind::Int, 1, stack) else {
        return false;
    };
    stack.drop_top(2);
    stack.push(Value::Int(made_of_two(op, x, y)));
    true
}

/// Makes one number of the top one.
fn one(op: One, stack: &mut Stack) -> bool
    ensures { Became result stack.old stack.new (left_on stack.old (made_of_top op stack.old.items)) }
{
    let Some(Value::Int(x)) = operand(ValueKind::Int, 0, stack) else {
        return false;
    };
    stack.drop_top(1);
    stack.push(Value::Int(made_of_one(op, x)));
    true
}

/// Drops the top operand, where it is of the kind.
fn without_one(kind: ValueKind, stack: &mut Stack) -> bool
    ensures { Became result stack.old stack.new (left_on stack.old (without_one values_moved kind stack.old.items)) }
{
    let is_there = operand(kind, 0, stack).is_some();
    if is_there {
        stack.drop_top(1);
    }
    is_there
}

/// Drops the two topmost operands, where they are of the kind.
fn without_two(kind: ValueKind, stack: &mut Stack) -> bool
    ensures { Became result stack.old stack.new (left_on stack.old (without_two values_moved kind stack.old.items)) }
{
    let are_there = operand(kind, 0, stack).is_some() && operand(kind, 1, stack).is_some();
    if are_there {
        stack.drop_top(2);
    }
    are_there
}

/// Moves the topmost operands by the form, where there are enough.
fn moved(form: StackForm, stack: &mut Stack) -> bool
    ensures { Became result stack.old stack.new (left_on stack.old (moved_by form stack.old.items)) }
{
    let order = order_of(form);
    let depth = depth_of(form) as usize;
    let count = stack.len();
    if count < depth || stack.size() as usize + depth < count + order.len() {
        return false;
    }
    let top = [
        at_depth(stack, 0),
        at_depth(stack, 1),
        at_depth(stack, 2),
        at_depth(stack, 3),
    ];
    stack.drop_top(depth);
    put_back(&top, order, stack);
    true
}

/// The operand at this depth, or null where there are not so many.
fn at_depth(stack: &Stack, depth: u8) -> Value
    ensures { result ≡ option_map_or (λ (v : Value). v) (slice_get stack.now.items depth) values.Null }
{
    match stack.get(depth) {
        Some(value) => value,
        None => Value::Null,
    }
}

/// Puts these of the values on the stack, so that the first comes to stand on top.
fn put_back(top: &[Value], order: &[u8], stack: &mut Stack)
    requires { length stack.old.items + length order.now ≤ stack.old.size }
    ensures { stack.new ≡ record { items = filter_map (slice_get top.now) order.now ++ stack.old.items; size = stack.old.size } }
{
    let [first, rest @ ..] = order else {
        return;
    };
    put_back(top, rest, stack);
    put(top, *first, stack);
}

/// Puts one of the values on the stack, where it is there.
fn put(top: &[Value], place: u8, stack: &mut Stack)
    requires { length stack.old.items < stack.old.size }
    ensures { stack.new ≡ record { items = cons_option (slice_get top.now place) stack.old.items; size = stack.old.size } }
{
    let Some(value) = top.get(place as usize) else {
        return;
    };
    stack.push(*value);
}

/// Which of the operands that a form takes are put back, the topmost first.
fn order_of(form: StackForm) -> &'static [u8]
    ensures order { result.now ≡ order_of form }
    ensures few { length result.now ≤ 6 }
{
    match form {
        StackForm::Pop | StackForm::Pop2 => &[],
        StackForm::Dup => &[0, 0],
        StackForm::DupX1 => &[0, 1, 0],
        StackForm::DupX2 => &[0, 1, 2, 0],
        StackForm::Dup2 => &[0, 1, 0, 1],
        StackForm::Dup2X1 => &[0, 1, 2, 0, 1],
        StackForm::Dup2X2 => &[0, 1, 2, 3, 0, 1],
        StackForm::Swap => &[1, 0],
    }
}
