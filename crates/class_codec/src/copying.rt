//! Equal copies of class files and their parts.

ghost use Rattle.std.specs.Prelude.{◌≡◌, IfOk};

use crate::tree::{Attr, ClassFile, Code, Const, Member, Other, TableEntry};
use mon_base::{List, NoMemory};
use std::alloc::Global;

/// What can be copied, if memory is left.
pub trait Copied: Drop {
    /// An equal value.
    fn copy(&self, alloc: Global) -> Result<Self, NoMemory>
    where
        Self: Sized,
        ensures { IfOk result (λ copy. copy ≡ self.now) };
}

/// An equal list.
pub fn copy_list<T: Copied>(alloc: Global, list: &List<T>) -> Result<List<T>, NoMemory>
    ensures { IfOk result (λ copy. copy ≡ list.now) }
{
    let items = copy_items(alloc, list.as_slice())?;
    Ok(List::from_vec(items))
}

/// Equal items.
fn copy_items<T: Copied>(alloc: Global, items: &[T]) -> Result<Vec<T>, NoMemory>
    ensures { IfOk result (λ copy. copy.items ≡ items.now) }
{
    let mut copy = Vec::with_capacity(alloc, items.len())?;
    for item in items {
        let one = item.copy(alloc)?;
        copy.push(one)?;
    }
    Ok(copy)
}

impl Copied for u16 {
    fn copy(&self, _alloc: Global) -> Result<u16, NoMemory> {
        Ok(*self)
    }
}

impl Copied for TableEntry {
    fn copy(&self, _alloc: Global) -> Result<TableEntry, NoMemory> {
        Ok(*self)
    }
}

impl Copied for Const {
    fn copy(&self, alloc: Global) -> Result<Const, NoMemory> {
        match self {
            Const::Utf8(text) => text.copy(alloc).map(Const::Utf8),
            Const::Integer(n) => Ok(Const::Integer(*n)),
            Const::Float(bits) => Ok(Const::Float(*bits)),
            Const::Long(n) => Ok(Const::Long(*n)),
            Const::Double(bits) => Ok(Const::Double(*bits)),
            Const::Class(name) => Ok(Const::Class(*name)),
            Const::Str(text) => Ok(Const::Str(*text)),
            Const::Field(class, name) => Ok(Const::Field(*class, *name)),
            Const::Method(class, name) => Ok(Const::Method(*class, *name)),
            Const::IMethod(class, name) => Ok(Const::IMethod(*class, *name)),
            Const::NameAndType(name, desc) => Ok(Const::NameAndType(*name, *desc)),
            Const::Second => Ok(Const::Second),
        }
    }
}

impl Copied for Other {
    fn copy(&self, alloc: Global) -> Result<Other, NoMemory> {
        let bytes = self.bytes.copy(alloc)?;
        Ok(Other {
            name: self.name,
            bytes,
        })
    }
}

impl Copied for Attr {
    fn copy(&self, alloc: Global) -> Result<Attr, NoMemory> {
        match self {
            Attr::Code(code) => copy_code(alloc, code).map(Attr::Code),
            Attr::Other(other) => other.copy(alloc).map(Attr::Other),
        }
    }
}

/// Equal code.
fn copy_code(alloc: Global, code: &Code) -> Result<Code, NoMemory>
    ensures { IfOk result (λ copy. copy ≡ code.now) }
{
    Ok(Code {
        name: code.name,
        max_stack: code.max_stack,
        max_locals: code.max_locals,
        code: code.code.copy(alloc)?,
        table: copy_list(alloc, &code.table)?,
        attrs: copy_list(alloc, &code.attrs)?,
    })
}

impl Copied for Member {
    fn copy(&self, alloc: Global) -> Result<Member, NoMemory> {
        Ok(Member {
            flags: self.flags,
            name: self.name,
            desc: self.desc,
            attrs: copy_list(alloc, &self.attrs)?,
        })
    }
}

impl ClassFile {
    /// An equal class file.
    pub fn copy(&self, alloc: Global) -> Result<ClassFile, NoMemory>
        ensures { IfOk result (λ copy. copy ≡ self.now) }
    {
        let pool = copy_list(alloc, &self.pool)?;
        let interfaces = copy_list(alloc, &self.interfaces)?;
        let fields = copy_list(alloc, &self.fields)?;
        let methods = copy_list(alloc, &self.methods)?;
        let attrs = copy_list(alloc, &self.attrs)?;
        Ok(ClassFile {
            minor: self.minor,
            pool,
            flags: self.flags,
            this_class: self.this_class,
            super_class: self.super_class,
            interfaces,
            fields,
            methods,
            attrs,
        })
    }
}
