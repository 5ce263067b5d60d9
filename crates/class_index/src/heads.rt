//! What class files say of their classes.

ghost use Rattle.std.specs.Prelude.{◌≡◌, ◌++◌, IfOk, OnOk};
ghost use Rattle.bytecode_model.specs.Heads.{heads_of};

use crate::classes::Classes;
use api_listing::{ListedClass, Listing};
use bytecode_model::{copy_classes, head_of};
use class_codec::ClassFile;
use mon_base::{List, NoMemory};
use std::alloc::Global;

/// What each class file says of its class.
pub fn heads_of(alloc: Global, files: &[ClassFile]) -> Result<List<ListedClass>, NoMemory>
    ensures { IfOk result (λ heads. heads ≡ heads_of files.now) }
{
    let mut heads = List::new(alloc);
    add_heads(alloc, &mut heads, files)?;
    Ok(heads)
}

/// Adds what each class file says of its class.
fn add_heads(
    alloc: Global,
    heads: &mut List<ListedClass>,
    files: &[ClassFile],
) -> Result<(), NoMemory>
    ensures { OnOk result (heads.new ≡ heads.old ++ heads_of files.now) }
{
    for file in files {
        heads.push(head_of(alloc, file)?)?;
    }
    Ok(())
}

/// The classes of a listing, and then the others.
pub fn all_classes(
    alloc: Global,
    listing: &Listing,
    others: &[ListedClass],
) -> Result<Classes, NoMemory>
    ensures { IfOk result (λ classes. classes ≡ listing.now.classes ++ others.now) }
{
    let mut all = copy_classes(alloc, listing.classes.as_slice())?;
    add_classes(alloc, &mut all, others)?;
    Classes::new(alloc, all)
}

/// Adds the others after the classes.
fn add_classes(
    alloc: Global,
    classes: &mut List<ListedClass>,
    others: &[ListedClass],
) -> Result<(), NoMemory>
    ensures { OnOk result (classes.new ≡ classes.old ++ others.now) }
{
    for class in others {
        classes.push(class.copy(alloc)?)?;
    }
    Ok(())
}
