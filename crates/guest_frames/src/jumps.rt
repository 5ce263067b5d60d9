//! Where control goes.

ghost use Rattle.std.specs.Prelude.{◌≡◌, ◌<◌, ◌≤◌, ◌^◌, ◌-◌, pos, false, if◌then◌else◌, length, slice_get, ℕ};
ghost use Rattle.std.specs.Bool.{beq};
ghost use Rattle.std.specs.Option.{option_map_or};
ghost use Rattle.insn_codec.specs.Control.{relates, next_of, switched, in_range, by_key};
ghost use Rattle.guest_frames.specs.Values.{are_one, is_null, number_of, values_seen};

use guest_heap::{Stack, Value};
use insn_codec::{Insn, Relation, Shape, shape_of};

/// The index of the instruction that comes next after one at this index, by the operands before it.
pub fn next_of(insn: &Insn, at: u32, stack: &Stack) -> u32
    requires { at < 2 ^ 32 - 1 }
    ensures next { result ≡ next_of values_seen insn.now at stack.now.items }
    ensures few { length stack.now.items ≤ stack.now.size }
{
    let top = stack.get(0);
    let below = stack.get(1);
    let next = at + 1;
    match shape_of(insn) {
        Shape::Test { relation, to } => either(tests(relation, top), to, next),
        Shape::Compare { relation, to } => either(compares(relation, below, top), to, next),
        Shape::CompareReferences { same, to } => either(are_same(same, below, top), to, next),
        Shape::TestNull { null, to } => either(tests_null(null, top), to, next),
        Shape::Goto { to } => to,
        Shape::Switch => switched(insn, top_number(top), next),
        _ => next,
    }
}

/// The target where the test holds, and else the next instruction.
fn either(test: bool, to: u32, next: u32) -> u32
    ensures { result ≡ (if test then to else next) }
{
    if test { to } else { next }
}

/// Whether two numbers relate so.
fn relates(relation: Relation, x: i32, y: i32) -> bool
    ensures { result ≡ relates relation x y }
{
    match relation {
        Relation::Equal => x == y,
        Relation::NotEqual => x != y,
        Relation::Less => x < y,
        Relation::GreaterOrEqual => x >= y,
        Relation::Greater => x > y,
        Relation::LessOrEqual => x <= y,
    }
}

/// The number, or 0 of what is none.
fn number_of(value: Value) -> i32
    ensures { result ≡ number_of value }
{
    match value {
        Value::Int(n) => n,
        _ => 0,
    }
}

/// Whether a value is null.
pub fn is_null(value: Value) -> bool
    ensures { result ≡ is_null value }
{
    match value {
        Value::Null => true,
        _ => false,
    }
}

/// Whether two references are of one object.
pub fn are_one(x: Value, y: Value) -> bool
    ensures { result ≡ are_one x y }
{
    match x {
        Value::Null => match y {
            Value::Null => true,
            _ => false,
        },
        Value::Ref(i) => match y {
            Value::Ref(j) => i == j,
            _ => false,
        },
        Value::Class(i) => match y {
            Value::Class(j) => i == j,
            _ => false,
        },
        Value::Lit(i) => match y {
            Value::Lit(j) => i == j,
            _ => false,
        },
        Value::Int(_) => false,
    }
}

/// Whether the top number relates so to 0; false where there is no operand.
fn tests(relation: Relation, top: Option<Value>) -> bool
    ensures { result ≡ option_map_or (λ x. relates relation (number_of x) (pos 0)) top false }
{
    let Some(x) = top else {
        return false;
    };
    relates(relation, number_of(x), 0)
}

/// Whether the two topmost numbers relate so, the lower first.
fn compares(relation: Relation, below: Option<Value>, top: Option<Value>) -> bool
    ensures { result ≡ option_map_or (λ y. option_map_or (λ x. relates relation (number_of x) (number_of y)) below false) top false }
{
    match top {
        Some(y) => match below {
            Some(x) => relates(relation, number_of(x), number_of(y)),
            None => false,
        },
        None => false,
    }
}

/// Whether the two topmost references are of one object, or are not.
fn are_same(same: bool, below: Option<Value>, top: Option<Value>) -> bool
    ensures { result ≡ option_map_or (λ y. option_map_or (λ x. beq (are_one x y) same) below false) top false }
{
    match top {
        Some(y) => match below {
            Some(x) => are_one(x, y) == same,
            None => false,
        },
        None => false,
    }
}

/// Whether the top reference is null, or is not.
fn tests_null(null: bool, top: Option<Value>) -> bool
    ensures { result ≡ option_map_or (λ x. beq (is_null x) null) top false }
{
    match top {
        Some(x) => is_null(x) == null,
        None => false,
    }
}

/// The top number, or 0 where there is none.
fn top_number(top: Option<Value>) -> i32
    ensures { result ≡ option_map_or number_of top (pos 0) }
{
    match top {
        Some(x) => number_of(x),
        None => 0,
    }
}

/// The target of a switch for the number; of another instruction the next one.
fn switched(insn: &Insn, n: i32, next: u32) -> u32
    ensures { result ≡ switched insn.now n next }
{
    match insn {
        Insn::Table {
            other,
            low,
            targets,
        } => in_range(*other, *low, targets.as_slice(), n),
        Insn::Lookup {
            other,
            keys,
            targets,
        } => by_key(*other, keys.as_slice(), targets.as_slice(), n),
        _ => next,
    }
}

/// The target of a number among those from `low` on, or the other.
fn in_range(other: u32, low: i32, targets: &[u32], n: i32) -> u32
    ensures { result ≡ in_range other low targets.now n }
{
    if n < low {
        return other;
    }
    target_at(other, targets, n.abs_diff(low) as usize)
}

/// The target in this place, or the other.
fn target_at(other: u32, targets: &[u32], place: usize) -> u32
    ensures { result ≡ option_map_or (λ (to : ℕ). to) (slice_get targets.now place) other }
{
    let Some(to) = targets.get(place) else {
        return other;
    };
    *to
}

/// The target of the key that the number is, or the other.
fn by_key(other: u32, keys: &[i32], targets: &[u32], n: i32) -> u32
    ensures { result ≡ by_key other keys.now targets.now n }
{
    let mut keys_left = keys;
    let mut targets_left = targets;
    while let [key, more_keys @ ..] = keys_left {
        let [to, more @ ..] = targets_left else {
            return other;
        };
        if *key == n {
            return *to;
        }
        keys_left = more_keys;
        targets_left = more;
    }
    other
}
