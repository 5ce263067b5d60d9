//! What class files say of their classes.

ghost use Rattle.std.specs.Prelude.{◌≡◌, IfOk, map};
ghost use Rattle.bytecode_model.specs.Heads.{class_at, head_of};

use crate::flags::is_interface;
use crate::text::copy_class;
use api_listing::ListedClass;
use class_codec::{ClassFile, Const};
use mon_base::{Bytes, List, NoMemory};
use std::alloc::Global;

/// What a class file says of its class.
pub fn head_of(alloc: Global, file: &ClassFile) -> Result<ListedClass, NoMemory>
    ensures { IfOk result (λ head. head ≡ head_of file.now) }
{
    let pool = file.pool.as_slice();
    Ok(ListedClass {
        name: copy_class(alloc, pool, file.this_class)?,
        parent: copy_class(alloc, pool, file.super_class)?,
        interfaces: class_names(alloc, pool, file.interfaces.as_slice())?,
        is_interface: is_interface(file.flags),
    })
}

/// The names of the classes that the indices name.
fn class_names(alloc: Global, pool: &[Const], indices: &[u16]) -> Result<List<Bytes>, NoMemory>
    ensures { IfOk result (λ names. names ≡ map (class_at pool.now) indices.now) }
{
    let mut names = List::new(alloc);
    for index in indices {
        let name = copy_class(alloc, pool, *index)?;
        names.push(name)?;
    }
    Ok(names)
}
