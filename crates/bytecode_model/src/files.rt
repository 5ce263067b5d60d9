//! The class files of programs.

ghost use Rattle.std.specs.Prelude.{◌≡◌, IfOk};
ghost use Rattle.bytecode_model.specs.Files.{unlinked};

use crate::program::Program;
use class_codec::ClassFile;
use mon_base::{List, NoMemory};
use std::alloc::Global;

/// The class files of a program.
pub fn unlink(alloc: Global, program: &Program) -> Result<List<ClassFile>, NoMemory>
    ensures { IfOk result (λ files. files ≡ unlinked program.now) }
{
    let mut files = List::new(alloc);
    for class in program.classes.as_slice() {
        let file = class.file.copy(alloc)?;
        files.push(file)?;
    }
    Ok(files)
}
