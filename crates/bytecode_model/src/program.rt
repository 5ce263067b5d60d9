//! What a program is once it is linked.

use crate::exception_table::Handlers;
use api_listing::Listing;
use class_codec::{ClassFile, Copied};
use insn_codec::Insn;
use mon_base::{Bytes, List, NoMemory};
use std::alloc::Global;

/// Whether the files come from a compiler, or were written by this tool.
#[derive(Clone, Copy)]
pub enum Side {
    Original,
    Inlined,
}

/// An entry of an exception table, by indices of instructions: the first that is covered, the first after those
/// that are, and the handler. `class` is what is caught, or `None` for anything.
#[derive(Drop)]
pub struct Handler {
    pub from: u32,
    pub to: u32,
    pub at: u32,
    pub class: Option<Bytes>,
}

/// What an instruction's operand names.
#[derive(Drop)]
pub enum Target {
    /// Nothing: the instruction names no constant.
    None,
    /// A method of the listing, by its index there.
    ApiMethod(u32),
    /// A built-in method, by its index in the table of these.
    Builtin(u32),
    /// A method of a given class, by the indices of both.
    Method { class: u32, method: u32 },
    /// A field of a given class, by the indices of both.
    Field { class: u32, field: u32 },
    /// A field of the listing, by its index there.
    ApiField(u32),
    /// A class or an array type, by its name or its descriptor.
    ClassName(Bytes),
    /// A number.
    Number(i32),
    /// A string, by its index among the program's literals.
    Literal(u32),
}

impl Copied for Target {
    fn copy(&self, alloc: Global) -> Result<Target, NoMemory> {
        match self {
            Target::None => Ok(Target::None),
            Target::ApiMethod(index) => Ok(Target::ApiMethod(*index)),
            Target::Builtin(index) => Ok(Target::Builtin(*index)),
            Target::Method { class, method } => Ok(Target::Method {
                class: *class,
                method: *method,
            }),
            Target::Field { class, field } => Ok(Target::Field {
                class: *class,
                field: *field,
            }),
            Target::ApiField(index) => Ok(Target::ApiField(*index)),
            Target::ClassName(name) => {
                let name = name.copy(alloc)?;
                Ok(Target::ClassName(name))
            }
            Target::Number(n) => Ok(Target::Number(*n)),
            Target::Literal(index) => Ok(Target::Literal(*index)),
        }
    }
}

/// A method of a given class. One without code has no instructions, and sizes of 0.
#[derive(Drop)]
pub struct Method {
    pub flags: u16,
    pub name: Bytes,
    pub desc: Bytes,
    pub max_stack: u16,
    pub max_locals: u16,
    pub insns: List<Insn>,
    /// What the operand of each instruction names.
    pub refs: List<Target>,
    pub handlers: Handlers,
}

/// A given class, with its file.
#[derive(Drop)]
pub struct LinkedClass {
    pub name: Bytes,
    pub parent: Bytes,
    pub file: ClassFile,
    pub methods: List<Method>,
}

/// Class files that are linked with a listing.
#[derive(Drop)]
pub struct Program {
    pub classes: List<LinkedClass>,
    pub listing: Listing,
    /// The texts of the string constants of the classes, each once, in order.
    pub literals: List<Bytes>,
    /// The index of the class whose `main` is run first.
    pub main_class: u32,
    /// The index of that `main` among its methods.
    pub main_method: u32,
}
