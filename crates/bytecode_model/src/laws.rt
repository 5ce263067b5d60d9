//! What holds of instructions.

ghost use Rattle.bytecode_model.specs.Uses.{UsesAreShaped};

/// Each instruction uses its constant as its shape tells, so that what its operand names is told of its shape, too.
pub fn uses_are_shaped()
    ensures shaped { UsesAreShaped }
{}
