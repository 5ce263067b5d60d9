//! The tree of a class file. (The Java Virtual Machine Specification, chapter 4.)

use mon_base::{Bytes, List};

/// A place of the constant pool. Numbers of 16 bits are indices into the pool. (Section 4.4.)
#[derive(Drop)]
pub enum Const {
    /// Text, each byte of which is neither 0 nor in 0xF0 to 0xFF.
    Utf8(Bytes),
    Integer(i32),
    /// The bits of a number of 32 bits with a fraction.
    Float(u32),
    Long(i64),
    /// The bits of a number of 64 bits with a fraction.
    Double(u64),
    /// A class, by the index of its name.
    Class(u16),
    /// A string, by the index of its text.
    Str(u16),
    /// A field, by its class, and its name and type.
    Field(u16, u16),
    /// A method of a class, by its class, and its name and type.
    Method(u16, u16),
    /// A method of an interface, by its interface, and its name and type.
    IMethod(u16, u16),
    /// A name and a descriptor.
    NameAndType(u16, u16),
    /// No constant: place 0, and the second place of a Long or a Double.
    Second,
}

/// The code of a method. (Section 4.7.3.)
#[derive(Drop)]
pub struct Code {
    /// The index of the attribute's name. More than one constant may have the text `Code`.
    pub name: u16,
    pub max_stack: u16,
    pub max_locals: u16,
    pub code: Bytes,
    pub table: List<TableEntry>,
    pub attrs: List<Other>,
}

/// An entry of an exception table: the code from byte `from` up to `to`, the handler's first byte, and the index of
/// the class that is caught, or 0 for any.
#[derive(Clone, Copy)]
pub struct TableEntry {
    pub from: u16,
    pub to: u16,
    pub at: u16,
    pub class: u16,
}

/// An attribute whose contents are kept as they are: the index of its name, and its bytes. (Section 4.7.)
#[derive(Drop)]
pub struct Other {
    pub name: u16,
    pub bytes: Bytes,
}

/// An attribute.
#[derive(Drop)]
pub enum Attr {
    Code(Code),
    Other(Other),
}

/// A field or a method: its flags, the indices of its name and its descriptor, and its attributes. (Sections 4.5
/// and 4.6.)
#[derive(Drop)]
pub struct Member {
    pub flags: u16,
    pub name: u16,
    pub desc: u16,
    pub attrs: List<Attr>,
}

/// A class file. (Section 4.1.)
#[derive(Drop)]
pub struct ClassFile {
    pub minor: u16,
    /// The constant pool, with one place for each index. Place 0, and the place after each Long or Double, is
    /// [`Const::Second`].
    pub pool: List<Const>,
    pub flags: u16,
    pub this_class: u16,
    pub super_class: u16,
    pub interfaces: List<u16>,
    pub fields: List<Member>,
    pub methods: List<Member>,
    pub attrs: List<Attr>,
}
