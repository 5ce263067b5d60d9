//! Class files, a listing and a main class become one program.

ghost use Rattle.std.specs.Prelude.{◌≡◌, ◌≤◌, ℕ, List, length, Ok, Some, ◌++◌, IfErr, IfOk, OnOk};
ghost use Rattle.std.specs.List.{AllByRecursion};
ghost use Rattle.class_codec.specs.Fits.{IsEncodable};
ghost use Rattle.api_listing.specs.Listing.{IsFew, EncodesListing};
ghost use Rattle.mon_base.specs.Answer.{Answers, Fails};
ghost use Rattle.bytecode_model.specs.Heads.{all_classes, head_of, heads_of, is_member, main_name, main_desc};
ghost use Rattle.bytecode_model.specs.Named.{AreRightOperands};
ghost use Rattle.bytecode_model.specs.Operands.{literals_of};
ghost use Rattle.bytecode_model.specs.Order.{IsInOrder};
ghost use Rattle.bytecode_model.specs.Sound.{IsSoundMethod, IsSound};
ghost use Rattle.bytecode_model.specs.LinkedClasses.{IsLinkedOf};
ghost use Rattle.class_linking.specs.ClassConditions.{classes_linked};
ghost use Rattle.class_linking.specs.Linking.{if_static, static_main, main_of, each_linked, class_with, classes_with};
ghost use Rattle.class_linking.specs.Linking.{members_of, assembled, linked};
ghost use Rattle.bytecode_model.specs.Files.{max_files, unlinked};

use crate::class_conditions::classes_linked;
use crate::fault::LinkFault;
use crate::heights::Heads;
use crate::laws::{linked_is_in_order, linked_operands_are_right, linked_programs_are_named};
use crate::methods::methods_linked;
use api_listing::{ListedClass, Listing};
use bytecode_model::{
    LinkedClass, Literals, Method, Program, Side, class_at, copy_class, is_static, is_text, text_at,
};
use class_codec::{ClassFile, Const, Member};
use class_index::{Classes, Index, all_classes, heads_of};
use mon_base::{Bytes, List, NoMemory};
use std::alloc::Global;
use std::collections::VecDeque;

/// The greatest number of class files that may be given.
pub const MAX_FILES: usize = 1000;

/// What the files, the listing and the main class link to, or the first condition that fails. The conditions are tried
/// in this order: the number of files; those of each class; those of each method, of each of its instructions and of
/// each of its handlers; and the main class. (The Java Virtual Machine Specification, chapter 5.)
pub fn link(
    alloc: Global,
    files: List<ClassFile>,
    listing: Listing,
    main: &Bytes,
    side: Side,
) -> Result<Program, LinkFault>
    requires fits { AllByRecursion IsEncodable files }
    requires listed { IsFew listing }
    ensures exact { Answers LinkFault.Memory result (linked files listing main.now side) }
    ensures few { IfOk result (λ program. length program.classes ≤ max_files) }
    ensures back { IfOk result (λ program. unlinked program ≡ files) }
    ensures sound { IfOk result IsSound }
    ensures operands { IfOk result AreRightOperands }
    ensures named { IfOk result (IsLinkedOf side listing main.now) }
    ensures order { IfOk result (λ program. (text : List ℕ) → EncodesListing text listing → IsInOrder program) }
{
    let count = files.len();
    if count > MAX_FILES {
        return Err(LinkFault::TooMany {
            count: count as u64,
        });
    }
    assemble(alloc, files, listing, main, side)
}

/// The same of files that were woven, of which there may be one more than may be given.
pub fn assemble(
    alloc: Global,
    files: List<ClassFile>,
    listing: Listing,
    main: &Bytes,
    side: Side,
) -> Result<Program, LinkFault>
    requires few { length files ≤ 1001 }
    requires fits { AllByRecursion IsEncodable files }
    requires listed { IsFew listing }
    ensures exact { Answers LinkFault.Memory result (assembled files listing main.now side) }
    ensures back { IfOk result (λ program. unlinked program ≡ files) }
    ensures sound { IfOk result IsSound }
    ensures operands { IfOk result AreRightOperands }
    ensures named { IfOk result (IsLinkedOf side listing main.now) }
    ensures order { IfOk result (λ program. (text : List ℕ) → EncodesListing text listing → IsInOrder program) }
{
    linked_operands_are_right();
    linked_programs_are_named();
    linked_is_in_order();
    assembled_program(alloc, files, listing, main, side)
}

fn assembled_program(
    alloc: Global,
    files: List<ClassFile>,
    listing: Listing,
    main: &Bytes,
    side: Side,
) -> Result<Program, LinkFault>
    requires few { length files ≤ 1001 }
    requires fits { AllByRecursion IsEncodable files }
    requires listed { IsFew listing }
    ensures exact { Answers LinkFault.Memory result (assembled files listing main.now side) }
    ensures back { IfOk result (λ program. unlinked program ≡ files) }
    ensures sound { IfOk result IsSound }
{
    let (members, begin) = parts(alloc, files.as_slice(), &listing, main.as_slice(), side)?;
    let (methods, literals) = members;
    let classes = classes_with(alloc, files, methods)?;
    Ok(Program {
        classes,
        listing,
        literals,
        main_class: begin.0,
        main_method: begin.1,
    })
}

/// The methods of each class, and the literals.
type Members = (List<List<Method>>, List<Bytes>);

/// What a program has beside its files and its listing: the members, and the class and the method that it begins with.
fn parts(
    alloc: Global,
    files: &[ClassFile],
    listing: &Listing,
    main: &[u8],
    side: Side,
) -> Result<(Members, (u32, u32)), LinkFault>
    requires few { length files.now ≤ 1001 }
    requires fits { AllByRecursion IsEncodable files.now }
    requires listed { IsFew listing.now }
    ensures classes { IfOk result (λ parts. classes_linked side (heads_of files.now) listing.now.classes files.now ≡ Ok tt) }
    ensures members { IfOk result (λ parts. members_of files.now listing.now ≡ Ok parts.0) }
    ensures main { IfOk result (λ parts. main_of files.now main.now ≡ Some parts.1) }
    ensures sound { IfOk result (λ parts. AllByRecursion (AllByRecursion IsSoundMethod) parts.0.0) }
    ensures fails { IfErr result (λ fault. Fails LinkFault.Memory fault (assembled files.now listing.now main.now side)) }
{
    let members = members_checked(alloc, files, listing, side)?;
    match main_of(files, main) {
        Some(begin) => Ok((members, begin)),
        None => Err(LinkFault::NoMain),
    }
}

/// The members, where each class meets its conditions.
fn members_checked(
    alloc: Global,
    files: &[ClassFile],
    listing: &Listing,
    side: Side,
) -> Result<Members, LinkFault>
    requires few { length files.now ≤ 1001 }
    requires fits { AllByRecursion IsEncodable files.now }
    requires listed { IsFew listing.now }
    ensures classes { IfOk result (λ members. classes_linked side (heads_of files.now) listing.now.classes files.now ≡ Ok tt) }
    ensures members { IfOk result (λ members. members_of files.now listing.now ≡ Ok members) }
    ensures sound { IfOk result (λ members. AllByRecursion (AllByRecursion IsSoundMethod) members.0) }
    ensures fails { IfErr result (λ fault. (main : List ℕ) → Fails LinkFault.Memory fault (assembled files.now listing.now main side)) }
{
    let heads = heads(alloc, files)?;
    members_under(alloc, files, &heads, listing, side)
}

/// The classes of the files.
fn heads(alloc: Global, files: &[ClassFile]) -> Result<Heads, NoMemory>
    ensures { IfOk result (λ heads. heads ≡ heads_of files.now) }
{
    let list = heads_of(alloc, files)?;
    Heads::new(alloc, list)
}

/// The members of the files that have these classes, where each class meets its conditions.
fn members_under(
    alloc: Global,
    files: &[ClassFile],
    heads: &Heads,
    listing: &Listing,
    side: Side,
) -> Result<Members, LinkFault>
    requires few { length files.now ≤ 1001 }
    requires fits { AllByRecursion IsEncodable files.now }
    requires heads { heads.now ≡ heads_of files.now }
    requires listed { IsFew listing.now }
    ensures classes { IfOk result (λ members. classes_linked side (heads_of files.now) listing.now.classes files.now ≡ Ok tt) }
    ensures members { IfOk result (λ members. members_of files.now listing.now ≡ Ok members) }
    ensures sound { IfOk result (λ members. AllByRecursion (AllByRecursion IsSoundMethod) members.0) }
    ensures fails { IfErr result (λ fault. (main : List ℕ) → Fails LinkFault.Memory fault (assembled files.now listing.now main side)) }
{
    classes_linked(alloc, side, heads, listing.classes.as_slice(), files)?;
    let members = members(alloc, files, heads.as_slice(), listing)?;
    Ok(members)
}

/// The members of files whose classes meet their conditions.
fn members(
    alloc: Global,
    files: &[ClassFile],
    heads: &[ListedClass],
    listing: &Listing,
) -> Result<Members, LinkFault>
    requires count { length files.now ≤ 1001 }
    requires fits { AllByRecursion IsEncodable files.now }
    requires heads { heads.now ≡ heads_of files.now }
    requires listed { IsFew listing.now }
    ensures answers { Answers LinkFault.Memory result (members_of files.now listing.now) }
    ensures sound { IfOk result (λ members. AllByRecursion (AllByRecursion IsSoundMethod) members.0) }
{
    let literals = Literals::new(alloc, files)?;
    let methods = methods_of(alloc, files, heads, &literals, listing)?;
    Ok((methods, literals.into_list()))
}

/// The methods of each of the files.
fn methods_of(
    alloc: Global,
    files: &[ClassFile],
    heads: &[ListedClass],
    literals: &Literals,
    listing: &Listing,
) -> Result<List<List<Method>>, LinkFault>
    requires count { length files.now ≤ 1001 }
    requires fits { AllByRecursion IsEncodable files.now }
    requires heads { heads.now ≡ heads_of files.now }
    requires literals { literals.now ≡ literals_of files.now }
    requires listed { IsFew listing.now }
    ensures answers { Answers LinkFault.Memory result (each_linked files.now listing.now files.now) }
    ensures sound { IfOk result (AllByRecursion (AllByRecursion IsSoundMethod)) }
{
    let classes = all_classes(alloc, listing, heads)?;
    let methods = methods_among(alloc, files, heads, &classes, literals, listing);
    drop(classes);
    methods
}

/// The same, where these are all classes.
fn methods_among(
    alloc: Global,
    files: &[ClassFile],
    heads: &[ListedClass],
    classes: &Classes,
    literals: &Literals,
    listing: &Listing,
) -> Result<List<List<Method>>, LinkFault>
    requires count { length files.now ≤ 1001 }
    requires fits { AllByRecursion IsEncodable files.now }
    requires heads { heads.now ≡ heads_of files.now }
    requires classes { classes.now ≡ all_classes listing.now files.now }
    requires literals { literals.now ≡ literals_of files.now }
    requires listed { IsFew listing.now }
    ensures answers { Answers LinkFault.Memory result (each_linked files.now listing.now files.now) }
    ensures sound { IfOk result (AllByRecursion (AllByRecursion IsSoundMethod)) }
{
    let index = Index::new(alloc, files, listing, heads, classes, literals)?;
    let methods = each_linked(alloc, &index, files);
    drop(index);
    methods
}

/// What each of some of the files links to.
fn each_linked(
    alloc: Global,
    index: &Index,
    files: &[ClassFile],
) -> Result<List<List<Method>>, LinkFault>
    requires { AllByRecursion IsEncodable files.now }
    ensures answers { Answers LinkFault.Memory result (each_linked index.now.files index.now.listing files.now) }
    ensures sound { IfOk result (AllByRecursion (AllByRecursion IsSoundMethod)) }
{
    let mut classes = Vec::with_capacity(alloc, files.len())?;
    let mut left = files;
    while let [file, rest @ ..] = left {
        let methods = methods_linked(alloc, index, file)?;
        classes.push(methods)?;
        left = rest;
    }
    Ok(List::from_vec(classes))
}

/// The classes of the files, each with its methods.
fn classes_with(
    alloc: Global,
    files: List<ClassFile>,
    methods: List<List<Method>>,
) -> Result<List<LinkedClass>, NoMemory>
    ensures { IfOk result (λ classes. classes ≡ classes_with files methods) }
{
    let count = files.len();
    let mut classes = Vec::with_capacity(alloc, count)?;
    let mut files = VecDeque::from_vec(files.into_vec());
    let mut methods = VecDeque::from_vec(methods.into_vec());
    add_classes(alloc, count, &mut classes, &mut files, &mut methods)?;
    Ok(List::from_vec(classes))
}

/// Adds the classes of so many files, each with its methods.
fn add_classes(
    alloc: Global,
    count: usize,
    classes: &mut Vec<LinkedClass>,
    files: &mut VecDeque<ClassFile>,
    methods: &mut VecDeque<List<Method>>,
) -> Result<(), NoMemory>
    requires { count ≡ length files.old.items }
    ensures { OnOk result (classes.new.items ≡ classes.old.items ++ classes_with files.old.items methods.old.items) }
{
    for _ in 0..count {
        let Some(file) = files.pop_front() else {
            return Ok(());
        };
        let Some(first) = methods.pop_front() else {
            return Ok(());
        };
        let class = class_with(alloc, file, first)?;
        classes.push(class)?;
    }
    Ok(())
}

fn class_with(
    alloc: Global,
    file: ClassFile,
    methods: List<Method>,
) -> Result<LinkedClass, NoMemory>
    ensures { IfOk result (λ class. class ≡ class_with file methods) }
{
    let (name, parent) = class_names(alloc, &file)?;
    Ok(LinkedClass {
        name,
        parent,
        file,
        methods,
    })
}

/// The names of the file's class and of its superclass.
fn class_names(alloc: Global, file: &ClassFile) -> Result<(Bytes, Bytes), NoMemory>
    ensures { IfOk result (λ names. (names.0 ≡ (head_of file.now).name) × (names.1 ≡ (head_of file.now).parent)) }
{
    let name = copy_class(alloc, file.pool.as_slice(), file.this_class)?;
    let parent = copy_class(alloc, file.pool.as_slice(), file.super_class)?;
    Ok((name, parent))
}

/// The class and the method, by their indices, that a program begins with.
fn main_of(files: &[ClassFile], main: &[u8]) -> Option<(u32, u32)>
    requires count { length files.now ≤ 1001 }
    requires fits { AllByRecursion IsEncodable files.now }
    ensures { result ≡ main_of files.now main.now }
{
    let mut class: u32 = 0;
    let mut left = files;
    while let [file, rest @ ..] = left {
        if class_at(file.pool.as_slice(), file.this_class) == main {
            return static_main(class, file);
        }
        class += 1;
        left = rest;
    }
    None
}

/// The first `main` of the class, if it is static.
fn static_main(class: u32, file: &ClassFile) -> Option<(u32, u32)>
    requires { IsEncodable file.now }
    ensures { result ≡ static_main class file.now.pool 0 file.now.methods }
{
    let pool = file.pool.as_slice();
    let mut method: u32 = 0;
    let mut left = file.methods.as_slice();
    while let [member, rest @ ..] = left {
        if is_main(pool, member) {
            return if_static(class, method, member);
        }
        method += 1;
        left = rest;
    }
    None
}

fn is_main(pool: &[Const], member: &Member) -> bool
    ensures { result ≡ is_member pool.now main_name main_desc member.now }
{
    is_text(text_at(pool, member.name), "main")
        && is_text(text_at(pool, member.desc), "([Ljava/lang/String;)V")
}

fn if_static(class: u32, method: u32, member: &Member) -> Option<(u32, u32)>
    ensures { result ≡ if_static class method member.now }
{
    if is_static(member.flags) {
        Some((class, method))
    } else {
        None
    }
}
