//! Values.

/// What a local, an operand, a field or an item of an array holds. (The Java Virtual Machine Specification, sections
/// 2.3 and 2.4.)
#[derive(Clone, Copy)]
pub enum Value {
    /// A number of 32 bits.
    Int(i32),
    /// The reference to no object.
    Null,
    /// The object of the heap with this index.
    Ref(u32),
    /// The object of a class, by the class's index: those of the listing first, then the given ones.
    Class(u32),
    /// The string of the program with this index among its literals.
    Lit(u32),
}
