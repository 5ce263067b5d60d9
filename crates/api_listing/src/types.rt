//! What a listing tells.

ghost use Rattle.std.specs.Prelude.{◌≡◌, IfOk};

use mon_base::{Bytes, List, MethodId, NoMemory};
use std::alloc::Global;

/// A method that a listing declares.
#[derive(Drop)]
pub struct ListedMethod {
    pub id: MethodId,
    pub is_static: bool,
}

/// A class or an interface that is built in or that a listing declares. `java/lang/Object` alone has an empty parent.
#[derive(Drop)]
pub struct ListedClass {
    pub name: Bytes,
    pub parent: Bytes,
    pub interfaces: List<Bytes>,
    pub is_interface: bool,
}

/// What a listing tells: the built-in classes and then its own, its methods and its fields, each in order of lines.
#[derive(Drop)]
pub struct Listing {
    pub classes: List<ListedClass>,
    pub methods: List<ListedMethod>,
    pub fields: List<MethodId>,
}

impl ListedClass {
    /// An equal class.
    pub fn copy(&self, alloc: Global) -> Result<ListedClass, NoMemory>
        ensures { IfOk result (λ c. c ≡ self.now) }
    {
        let name = self.name.copy(alloc)?;
        let parent = self.parent.copy(alloc)?;
        let interfaces = copies(alloc, self.interfaces.as_slice())?;
        Ok(ListedClass {
            name,
            parent,
            interfaces,
            is_interface: self.is_interface,
        })
    }
}

impl ListedMethod {
    /// An equal method.
    pub fn copy(&self, alloc: Global) -> Result<ListedMethod, NoMemory>
        ensures { IfOk result (λ m. m ≡ self.now) }
    {
        let id = self.id.copy(alloc)?;
        Ok(ListedMethod {
            id,
            is_static: self.is_static,
        })
    }
}

fn copies(alloc: Global, names: &[Bytes]) -> Result<List<Bytes>, NoMemory>
    ensures { IfOk result (λ l. l ≡ names.now) }
{
    let mut made = List::new(alloc);
    for name in names {
        let copy = name.copy(alloc)?;
        made.push(copy)?;
    }
    Ok(made)
}
