//! What holds of linked programs.

ghost use Rattle.class_linking.specs.Laws.{LinkedOperandsAreRight, LinkedAreNamed, LinkedIsInOrder};

/// The constant of each instruction of a linked program is in the pool of its class, and what names a method of the listing
/// calls it, by its descriptor.
pub fn linked_operands_are_right()
    ensures right { LinkedOperandsAreRight }
{}

/// A linked program is that of its files: each operand names what its constant does, each method and class stands where
/// its file has it, and the program begins with the first `main` of its class.
pub fn linked_programs_are_named()
    ensures named { LinkedAreNamed }
{}

/// The classes of each program that links with a listing that was read are in order.
pub fn linked_is_in_order()
    ensures ordered { LinkedIsInOrder }
{}
