//! The program that woven class files link to, made of the program that was woven.

ghost use Rattle.std.specs.Prelude.{◌≡◌, IfOk, Ok};
ghost use Rattle.bytecode_model.specs.Heads.{class_at};
ghost use Rattle.woven_linking.specs.Program.{class_with, classes_with, program_with, state_with};

use api_listing::{ListedClass, ListedMethod, Listing};
use bytecode_model::{LinkedClass, Method, Program, copy_class};
use class_codec::ClassFile;
use mon_base::{Bytes, List, MethodId, NoMemory};
use std::alloc::Global;
use std::collections::VecDeque;

/// The program with its blocks, whose class files and methods these are, and the classes that it had.
pub fn program_with(
    alloc: Global,
    old: Program,
    files: List<ClassFile>,
    methods: List<List<Method>>,
) -> Result<(Program, List<LinkedClass>), NoMemory>
    ensures is { IfOk result (λ made. made.0 ≡ program_with old files methods) }
    ensures old { IfOk result (λ made. made.1 ≡ old.classes) }
{
    let Program {
        classes,
        listing,
        literals,
        main_class,
        main_method,
    } = old;
    let woven = classes_with(alloc, classes.as_slice(), files, methods)?;
    let program = Program {
        classes: woven,
        listing,
        literals,
        main_class,
        main_method,
    };
    Ok((program, classes))
}

/// The same, and the program stays as it is: its listing and its literals are copied.
pub fn program_beside(
    alloc: Global,
    old: &Program,
    files: List<ClassFile>,
    methods: List<List<Method>>,
) -> Result<Program, NoMemory>
    ensures { IfOk result (λ made. made ≡ program_with old.now files methods) }
{
    let classes = classes_with(alloc, old.classes.as_slice(), files, methods)?;
    let listing = listing_copied(alloc, &old.listing)?;
    let literals = names_copied(alloc, old.literals.as_slice())?;
    Ok(Program {
        classes,
        listing,
        literals,
        main_class: old.main_class,
        main_method: old.main_method,
    })
}

fn listing_copied(alloc: Global, listing: &Listing) -> Result<Listing, NoMemory>
    ensures { IfOk result (λ copy. copy ≡ listing.now) }
{
    let classes = classes_copied(alloc, listing.classes.as_slice())?;
    let methods = methods_copied(alloc, listing.methods.as_slice())?;
    let fields = fields_copied(alloc, listing.fields.as_slice())?;
    Ok(Listing {
        classes,
        methods,
        fields,
    })
}

fn classes_copied(alloc: Global, classes: &[ListedClass]) -> Result<List<ListedClass>, NoMemory>
    ensures { IfOk result (λ copies. copies ≡ classes.now) }
{
    let mut copies = List::new(alloc);
    for class in classes {
        copies.push(class.copy(alloc)?)?;
    }
    Ok(copies)
}

fn methods_copied(alloc: Global, methods: &[ListedMethod]) -> Result<List<ListedMethod>, NoMemory>
    ensures { IfOk result (λ copies. copies ≡ methods.now) }
{
    let mut copies = List::new(alloc);
    for method in methods {
        copies.push(method.copy(alloc)?)?;
    }
    Ok(copies)
}

fn fields_copied(alloc: Global, fields: &[MethodId]) -> Result<List<MethodId>, NoMemory>
    ensures { IfOk result (λ copies. copies ≡ fields.now) }
{
    let mut copies = List::new(alloc);
    for field in fields {
        copies.push(field.copy(alloc)?)?;
    }
    Ok(copies)
}

fn names_copied(alloc: Global, names: &[Bytes]) -> Result<List<Bytes>, NoMemory>
    ensures { IfOk result (λ copies. copies ≡ names.now) }
{
    let mut copies = List::new(alloc);
    for name in names {
        copies.push(name.copy(alloc)?)?;
    }
    Ok(copies)
}

/// The classes with their files and methods, and after them `conspec/State`.
fn classes_with(
    alloc: Global,
    olds: &[LinkedClass],
    files: List<ClassFile>,
    methods: List<List<Method>>,
) -> Result<List<LinkedClass>, NoMemory>
    ensures { IfOk result (λ classes. classes ≡ classes_with olds.now files methods) }
{
    let mut classes = List::with_room(alloc, files.len())?;
    let mut files = VecDeque::from_vec(files.into_vec());
    let mut methods = VecDeque::from_vec(methods.into_vec());
    let mut left = olds;
    while let [old, rest @ ..] = left {
        let Some(file) = files.pop_front() else {
            return Ok(classes);
        };
        let Some(first) = methods.pop_front() else {
            return Ok(classes);
        };
        classes.push(class_with(alloc, old, file, first)?)?;
        left = rest;
    }
    if let Some(file) = files.pop_front() {
        classes.push(state_with(alloc, file)?)?;
    }
    Ok(classes)
}

/// The class `conspec/State` of this file.
fn state_with(alloc: Global, file: ClassFile) -> Result<LinkedClass, NoMemory>
    ensures { IfOk result (λ class. class ≡ state_with file) }
{
    let names = names_in(alloc, &file);
    class_of(names, file, List::new(alloc))
}

/// The names of the file's class and of its superclass.
fn names_in(alloc: Global, file: &ClassFile) -> Result<(Bytes, Bytes), NoMemory>
    ensures { IfOk result (λ names. names ≡ (class_at file.now.pool file.now.this_class, class_at file.now.pool file.now.super_class)) }
{
    let name = copy_class(alloc, file.pool.as_slice(), file.this_class)?;
    let parent = copy_class(alloc, file.pool.as_slice(), file.super_class)?;
    Ok((name, parent))
}

/// The class of these names, with its file and its methods.
fn class_of(
    names: Result<(Bytes, Bytes), NoMemory>,
    file: ClassFile,
    methods: List<Method>,
) -> Result<LinkedClass, NoMemory>
    ensures { IfOk result (λ class. names ≡ Ok (class.name, class.parent)
        × ((class.file ≡ file) × (class.methods ≡ methods))) }
{
    match names {
        Ok(names) => {
            let (name, parent) = names;
            Ok(LinkedClass {
                name,
                parent,
                file,
                methods,
            })
        }
        Err(NoMemory) => {
            drop(methods);
            drop(file);
            Err(NoMemory)
        }
    }
}

/// The class with its woven file, and its methods with their blocks.
fn class_with(
    alloc: Global,
    old: &LinkedClass,
    file: ClassFile,
    methods: List<Method>,
) -> Result<LinkedClass, NoMemory>
    ensures { IfOk result (λ class. class ≡ class_with old.now file methods) }
{
    class_of(names_of(alloc, old), file, methods)
}

/// The names of the class and of its superclass.
fn names_of(alloc: Global, class: &LinkedClass) -> Result<(Bytes, Bytes), NoMemory>
    ensures { IfOk result (λ names. names ≡ (class.now.name, class.now.parent)) }
{
    let name = class.name.copy(alloc)?;
    let parent = class.parent.copy(alloc)?;
    Ok((name, parent))
}
