//! Which given method a call on an object runs. (The Java Virtual Machine Specification, section 6.5, invokevirtual and
//! invokespecial.)

ghost use Rattle.std.specs.Prelude.{◌≡◌};
ghost use Rattle.guest_model.specs.Finding.{
  client_run,
  if_run,
  is_above,
  is_run,
  is_run_by_objects,
  method_itself,
  method_of_class,
  method_run,
  nearest_given,
};

use crate::guest::Guest;
use bytecode_model::{Method, is_static, is_text};
use insn_codec::How;

/// That of the nearest given class that declares it, from this one upwards, by the indices of its class and of it there.
pub fn nearest_given(guest: &Guest, name: &[u8], desc: &[u8], class: &[u8]) -> Option<(u32, u32)>
    ensures { result ≡ nearest_given guest.now name.now desc.now class.now }
{
    let mut at = class;
    for _ in 0..guest.count() {
        let index = guest.given_at(at)?;
        let of = guest.class(index)?;
        match guest.declared(index, name, desc) {
            Some(method) => return Some((index, method)),
            None => at = of.parent.as_slice(),
        }
    }
    None
}

/// Whether an object runs the method: it is no static one, and has code.
fn is_run_by_objects(guest: &Guest, to: (u32, u32)) -> bool
    ensures { result ≡ is_run_by_objects guest.now to }
{
    match guest.method(to.0, to.1) {
        Some(method) => !is_static(method.flags) && !method.insns.is_empty(),
        None => false,
    }
}

/// The method, where an object runs it.
fn if_run(guest: &Guest, found: Option<(u32, u32)>) -> Option<(u32, u32)>
    ensures { result ≡ if_run guest.now found }
{
    let to = found?;
    if is_run_by_objects(guest, to) {
        Some(to)
    } else {
        None
    }
}

/// What a call of the method on an object of the class runs.
pub fn method_of_class(guest: &Guest, name: &[u8], desc: &[u8], class: &[u8]) -> Option<(u32, u32)>
    ensures { result ≡ method_of_class guest.now name.now desc.now class.now }
{
    if_run(guest, nearest_given(guest, name, desc, class))
}

/// The `run` that the program gives the class.
pub fn client_run(guest: &Guest, class: &[u8]) -> Option<(u32, u32)>
    ensures { result ≡ client_run guest.now class.now }
{
    method_of_class(guest, b"run", b"()V", class)
}

/// Whether the method is a `run`.
pub fn is_run(method: &Method) -> bool
    ensures { result ≡ is_run method.now }
{
    is_text(method.name.as_slice(), "run") && is_text(method.desc.as_slice(), "()V")
}

/// Whether one given class is above another.
fn is_above(guest: &Guest, above: u32, own: u32) -> bool
    ensures { result ≡ is_above guest.now above own }
{
    if above == own {
        return false;
    }
    match guest.class(own) {
        None => false,
        Some(class) => match guest.class(above) {
            None => false,
            Some(above) => guest.is_below(class.name.as_slice(), above.name.as_slice()),
        },
    }
}

/// What a call of the very method runs, from the code of the class `own`: one of a class above, which makes no object, is
/// looked for from the superclass on.
fn method_itself(guest: &Guest, own: u32, to: (u32, u32), method: &Method) -> Option<(u32, u32)>
    ensures { result ≡ method_itself guest.now own to method.now }
{
    let is_maker = is_text(method.name.as_slice(), "<init>");
    if is_maker || !is_above(guest, to.0, own) {
        return Some(to);
    }
    match guest.class(own) {
        Some(class) => nearest_given(
            guest,
            method.name.as_slice(),
            method.desc.as_slice(),
            class.parent.as_slice(),
        ),
        None => None,
    }
}

/// What a call of the method `to` runs, from the code of the class `own`, on an object of the class.
pub fn method_run(
    guest: &Guest,
    own: u32,
    how: How,
    to: (u32, u32),
    method: &Method,
    class: &[u8],
) -> Option<(u32, u32)>
    ensures { result ≡ method_run guest.now own how to method.now class.now }
{
    match how {
        How::Virtual | How::Interface => {
            method_of_class(guest, method.name.as_slice(), method.desc.as_slice(), class)
        }
        How::Special => if_run(guest, method_itself(guest, own, to, method)),
        How::Static => Some(to),
    }
}
