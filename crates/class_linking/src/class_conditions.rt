//! The conditions that each class meets. (The Java Virtual Machine Specification, sections 4.1, 4.4 and 5.3.5.)

ghost use Rattle.std.specs.Prelude.{◌≡◌, ◌≤◌, ℕ, List, length, bytes_eq, IfOk};
ghost use Rattle.std.specs.List.{list_all, list_any};
ghost use Rattle.class_codec.specs.declared.tree.Member.{Member};
ghost use Rattle.api_listing.specs.Seen.{has_name};
ghost use Rattle.api_listing.specs.Listing.{is_known, own_class};
ghost use Rattle.api_listing.specs.Words.{is_class_name};
ghost use Rattle.api_listing.specs.BuiltIn.{throwables};
ghost use Rattle.bytecode_model.specs.SearchOrder.{is_one_of};
ghost use Rattle.mon_base.specs.Answer.{Answers};
ghost use Rattle.bytecode_model.specs.Heads.{is_static};
ghost use Rattle.bytecode_model.specs.Conditions.{
  holds,
  names_own_class,
  is_free,
  may_be_extended,
  is_super,
  is_above,
  stands_below,
  is_good_interface,
  is_below_own,
  has_supers,
};
ghost use Rattle.class_linking.specs.ClassConditions.{class_linked, classes_linked};

use crate::fault::LinkFault;
use crate::heights::Heads;
use api_listing::{ListedClass, class_name};
use bytecode_model::{Side, head_of, is_static, is_text};
use class_codec::{ClassFile, Const, Member};
use class_index::add_name;
use mon_base::{Bytes, NoMemory};
use std::alloc::Global;
use std::collections::BTreeSet;

/// The built-in classes whose objects can be thrown.
static THROWABLES: [&str; 14] = [
    "java/lang/Throwable",
    "java/lang/Exception",
    "java/lang/RuntimeException",
    "java/lang/InterruptedException",
    "java/lang/NullPointerException",
    "java/lang/ArithmeticException",
    "java/lang/ClassCastException",
    "java/lang/ArrayStoreException",
    "java/lang/NegativeArraySizeException",
    "java/lang/IllegalMonitorStateException",
    "java/lang/IndexOutOfBoundsException",
    "java/lang/IllegalArgumentException",
    "java/lang/ArrayIndexOutOfBoundsException",
    "java/lang/IllegalThreadStateException",
];

/// Whether each class meets its conditions, or the first that one does not meet.
pub fn classes_linked(
    alloc: Global,
    side: Side,
    heads: &Heads,
    listed: &[ListedClass],
    files: &[ClassFile],
) -> Result<(), LinkFault>
    requires { length heads.now ≤ 1001 }
    ensures { Answers LinkFault.Memory result (classes_linked side heads.now listed.now files.now) }
{
    let mut taken = names_of(alloc, listed)?;
    let mut left = files;
    while let [file, rest @ ..] = left {
        let head = head_of(alloc, file)?;
        let is_taken = taken.contains(&head.name);
        class_linked(alloc, side, heads, is_taken, file, &head)?;
        add_name(alloc, &mut taken, &head.name)?;
        left = rest;
    }
    Ok(())
}

/// The names of the classes.
fn names_of(alloc: Global, classes: &[ListedClass]) -> Result<BTreeSet<Bytes>, NoMemory>
    ensures { IfOk result (λ names. (q : List ℕ) → has_name names q ≡ is_known classes.now q) }
{
    let mut names = BTreeSet::new(alloc);
    for class in classes {
        add_name(alloc, &mut names, &class.name)?;
    }
    Ok(names)
}

fn class_linked(
    alloc: Global,
    side: Side,
    heads: &Heads,
    is_taken: bool,
    file: &ClassFile,
    head: &ListedClass,
) -> Result<(), LinkFault>
    requires { length heads.now ≤ 1001 }
    ensures { Answers LinkFault.Memory result (class_linked side heads.now is_taken head.now file.now) }
{
    if !is_class_name(head.name.as_slice()) {
        return Err(LinkFault::Name {
            class: head.name.copy(alloc)?,
        });
    }
    if is_taken {
        return Err(LinkFault::Twice {
            class: head.name.copy(alloc)?,
        });
    }
    if !is_free(side, file) {
        return Err(LinkFault::NameTaken {
            class: head.name.copy(alloc)?,
        });
    }
    if !has_supers(heads, head, file.fields.as_slice()) {
        return Err(LinkFault::SuperLeftOut {
            class: head.name.copy(alloc)?,
        });
    }
    Ok(())
}

fn is_class_name(name: &[u8]) -> bool
    ensures { result ≡ is_class_name name.now }
{
    class_name(name)
}

fn is_free(side: Side, file: &ClassFile) -> bool
    ensures { result ≡ is_free side file.now }
{
    match side {
        Side::Original => !any_names_own_class(file.pool.as_slice()),
        Side::Inlined => true,
    }
}

fn any_names_own_class(pool: &[Const]) -> bool
    ensures { result ≡ list_any names_own_class pool.now }
{
    for constant in pool {
        if names_own_class(constant) {
            return true;
        }
    }
    false
}

fn names_own_class(constant: &Const) -> bool
    ensures { result ≡ names_own_class constant.now }
{
    match constant {
        Const::Utf8(text) => holds(b"conspec/State".as_slice(), text.as_slice()),
        _ => false,
    }
}

/// Whether the part stands somewhere in the text.
fn holds(part: &[u8], text: &[u8]) -> bool
    ensures { result ≡ holds part.now text.now }
{
    let mut left = text;
    while let [_, rest @ ..] = left {
        if left.starts_with(part) {
            return true;
        }
        left = rest;
    }
    left.starts_with(part)
}

/// Whether the class may stand where it does.
fn has_supers(heads: &Heads, head: &ListedClass, fields: &[Member]) -> bool
    requires { length heads.now ≤ 1001 }
    ensures { result ≡ has_supers heads.now head.now fields.now }
{
    stands_below(heads, head) && (is_good_interface(head, fields) && !is_below_own(head))
}

/// Whether it names the class that holds a policy's variables as its superclass or as an interface.
fn is_below_own(head: &ListedClass) -> bool
    ensures { result ≡ is_below_own head.now }
{
    is_own_class(&head.parent) || any_is_own(head.interfaces.as_slice())
}

fn any_is_own(names: &[Bytes]) -> bool
    ensures { result ≡ is_one_of names.now own_class }
{
    for name in names {
        if is_own_class(name) {
            return true;
        }
    }
    false
}

fn is_own_class(name: &Bytes) -> bool
    ensures { result ≡ bytes_eq name.now own_class }
{
    is_text(name.as_slice(), "conspec/State")
}

/// Whether its superclass and its interfaces may stand above it.
fn stands_below(heads: &Heads, head: &ListedClass) -> bool
    requires { length heads.now ≤ 1001 }
    ensures { result ≡ stands_below heads.now head.now }
{
    is_super(heads, &head.parent)
        && are_above(heads, head.interfaces.as_slice())
        && !heads.runs_in_circle(&head.name)
}

fn is_super(heads: &Heads, name: &Bytes) -> bool
    ensures { result ≡ is_super heads.now name.now }
{
    heads.has(name) || may_be_extended(name.as_slice())
}

/// Whether a given class may have this built-in superclass.
fn may_be_extended(name: &[u8]) -> bool
    ensures { result ≡ may_be_extended name.now }
{
    is_text(name, "java/lang/Object") || is_text(name, "java/lang/Thread") || is_throwable(name)
}

/// Whether it is a built-in class whose objects can be thrown.
fn is_throwable(name: &[u8]) -> bool
    ensures { result ≡ is_one_of throwables name.now }
{
    is_among(THROWABLES.as_slice(), name)
}

fn is_among(texts: &[&str], name: &[u8]) -> bool
    ensures { result ≡ list_any (λ t. bytes_eq t.now name.now) texts.now }
{
    for text in texts {
        if text.as_bytes() == name {
            return true;
        }
    }
    false
}

fn are_above(heads: &Heads, names: &[Bytes]) -> bool
    ensures { result ≡ list_all (is_above heads.now) names.now }
{
    for name in names {
        if !is_above(heads, name) {
            return false;
        }
    }
    true
}

fn is_above(heads: &Heads, name: &Bytes) -> bool
    ensures { result ≡ is_above heads.now name.now }
{
    heads.has_interface(name) || is_text(name.as_slice(), "java/lang/Runnable")
}

/// Whether an interface is below Object and has static fields alone.
fn is_good_interface(head: &ListedClass, fields: &[Member]) -> bool
    ensures { result ≡ is_good_interface head.now fields.now }
{
    !head.is_interface || is_text(head.parent.as_slice(), "java/lang/Object") && are_static(fields)
}

fn are_static(fields: &[Member]) -> bool
    ensures { result ≡ list_all (λ (m : Member). is_static m.flags) fields.now }
{
    for field in fields {
        if !is_static(field.flags) {
            return false;
        }
    }
    true
}
