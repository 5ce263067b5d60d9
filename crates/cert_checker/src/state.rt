//! The class that holds the policy's variables, and whose monitor is the lock: what it has to be. (docs/BLOCKS.md)

ghost use Rattle.std.specs.Prelude.{◌≡◌, ◌^◌, ◌<◌, bytes_eq, length, option_and_then, option_copied, slice_get};
ghost use Rattle.block_logic.specs.State.{class_fault, field_name, field_type, has_no_more, is_field_of, is_first, names_first};
ghost use Rattle.block_logic.specs.State.{state_at, state_fault, tells_first, wrong_field};

use block_logic::STATE;
use bytecode_model::{LinkedClass, is_text, text_at};
use class_codec::{Attr, Const, Member};
use conspec_automaton::Policy;
use conspec_tree::Var;
use itoa::Buffer;

/// The number of the class that holds the policy's variables, the first of its name.
pub fn state_at(classes: &[LinkedClass]) -> Option<u32>
    requires { length classes.now < 2 ^ 32 }
    ensures { result ≡ state_at classes.now }
{
    let mut at = 0u32;
    let mut left = classes;
    while let [class, later @ ..] = left {
        if class.name.as_slice() == STATE {
            return Some(at);
        }
        left = later;
        at += 1;
    }
    None
}

/// The first variable whose field is missing or wrong; or the number of the variables, where the class is missing, or
/// has anything else.
pub fn state_fault(classes: &[LinkedClass], policy: &Policy) -> Option<u32>
    requires few_classes { length classes.now < 2 ^ 32 }
    requires few_vars { length policy.now.vars < 2 ^ 32 }
    ensures { result ≡ state_fault classes.now policy.now }
{
    match state_class(classes) {
        Some(class) => class_fault(policy.vars.as_slice(), class),
        None => Some(policy.vars.len() as u32),
    }
}

/// The class itself.
fn state_class(classes: &[LinkedClass]) -> Option<&LinkedClass>
    requires { length classes.now < 2 ^ 32 }
    ensures { option_copied result ≡ option_and_then (slice_get classes.now) (state_at classes.now) }
{
    classes.get(state_at(classes)? as usize)
}

// ---- the class

fn class_fault(vars: &[Var], class: &LinkedClass) -> Option<u32>
    requires { length vars.now < 2 ^ 32 }
    ensures { result ≡ class_fault vars.now class.now }
{
    let pool = class.file.pool.as_slice();
    if let Some(var) = wrong_field(pool, vars, class.file.fields.as_slice()) {
        return Some(var);
    }
    if has_no_more(vars, class) {
        None
    } else {
        Some(vars.len() as u32)
    }
}

/// Whether it is public, and a class and no interface, and has nothing but the fields of the variables.
fn has_no_more(vars: &[Var], class: &LinkedClass) -> bool
    ensures { result ≡ has_no_more vars.now class.now }
{
    class.file.flags == 0x0021
        && is_text(class.parent.as_slice(), "java/lang/Object")
        && class.file.interfaces.is_empty()
        && class.methods.is_empty()
        && class.file.fields.len() == vars.len()
}

// ---- fields

/// The first variable whose field is missing or wrong.
fn wrong_field(pool: &[Const], vars: &[Var], fields: &[Member]) -> Option<u32>
    requires { length vars.now < 2 ^ 32 }
    ensures { result ≡ wrong_field pool.now 0 vars.now fields.now }
{
    let mut at = 0u32;
    let mut fields = fields;
    let mut left = vars;
    while let [var, vars @ ..] = left {
        let [field, others @ ..] = fields else {
            return Some(at);
        };
        if !is_field_of(pool, at, var, field) {
            return Some(at);
        }
        left = vars;
        fields = others;
        at += 1;
    }
    None
}

/// Whether the field is a public static one of the variable's name and type, with its first value.
fn is_field_of(pool: &[Const], at: u32, var: &Var, member: &Member) -> bool
    ensures { result ≡ is_field_of pool.now at var.now member.now }
{
    member.flags == 0x0009
        && is_field_name(at, text_at(pool, member.name))
        && is_text(text_at(pool, member.desc), field_type(var))
        && tells_first(pool, var, member.attrs.as_slice())
}

/// Whether the text is v and the number of the variable.
fn is_field_name(at: u32, text: &[u8]) -> bool
    ensures { result ≡ bytes_eq text.now (field_name at) }
{
    let [first, digits @ ..] = text else {
        return false;
    };
    let mut buffer = Buffer::new();
    *first == b'v' && digits == buffer.format(at).as_bytes()
}

fn field_type(var: &Var) -> &str
    ensures { result.now ≡ field_type var.now }
{
    if var.is_bool { "Z" } else { "I" }
}

/// Whether the one attribute is the variable's first value.
fn tells_first(pool: &[Const], var: &Var, attrs: &[Attr]) -> bool
    ensures { result ≡ tells_first pool.now var.now attrs.now }
{
    let [attr] = attrs else {
        return false;
    };
    match attr {
        Attr::Code(_) => false,
        Attr::Other(other) => {
            is_text(text_at(pool, other.name), "ConstantValue")
                && names_first(pool, var, other.bytes.as_slice())
        }
    }
}

/// Whether two bytes name the variable's first value.
fn names_first(pool: &[Const], var: &Var, bytes: &[u8]) -> bool
    ensures { result ≡ names_first pool.now var.now bytes.now }
{
    if bytes.len() != 2 {
        return false;
    }
    let index = 256 * usize::from(bytes[0]) + usize::from(bytes[1]);
    is_first(var, pool.get(index))
}

/// Whether the constant is the variable's first value.
fn is_first(var: &Var, constant: Option<&Const>) -> bool
    ensures { result ≡ is_first var.now (option_copied constant.entry) }
{
    match constant {
        Some(Const::Integer(n)) => *n == var.first,
        _ => false,
    }
}
