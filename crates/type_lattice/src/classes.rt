//! The classes of a program, as a list.

ghost use Rattle.std.specs.Prelude.{◌≡◌, ◌++◌, map, IfOk, OnOk};
ghost use Rattle.bytecode_model.specs.declared.program.LinkedClass.{LinkedClass};
ghost use Rattle.bytecode_model.specs.Classes.{classes_of};
ghost use Rattle.bytecode_model.specs.Heads.{head_of};

use api_listing::ListedClass;
use bytecode_model::{LinkedClass, Program, copy_classes, head_of};
use mon_base::{List, NoMemory};
use std::alloc::Global;

/// The classes of the listing, and then what the file of each given class says of it.
pub fn classes_of(alloc: Global, program: &Program) -> Result<List<ListedClass>, NoMemory>
    ensures { IfOk result (λ classes. classes ≡ classes_of program.now) }
{
    let mut classes = copy_classes(alloc, program.listing.classes.as_slice())?;
    push_heads(alloc, &mut classes, program.classes.as_slice())?;
    Ok(classes)
}

/// Appends what the file of each class says of it.
fn push_heads(
    alloc: Global,
    out: &mut List<ListedClass>,
    classes: &[LinkedClass],
) -> Result<(), NoMemory>
    ensures { OnOk result (out.new ≡ out.old ++ map (λ (c : LinkedClass). head_of c.file) classes.now) }
{
    for class in classes {
        let head = head_of(alloc, &class.file)?;
        out.push(head)?;
    }
    Ok(())
}
