//! Why operands have no target.

ghost use Rattle.std.specs.Prelude.{◌≡◌};
ghost use Rattle.class_linking.specs.declared.operand_fault.OperandFault.TheVariants.{Memory};

use mon_base::{Bytes, NoMemory};

/// Why an operand has no target.
#[derive(Drop)]
pub enum OperandFault {
    /// The instruction does not take such a constant.
    Wrong,
    /// There is no field, method or class of this name, or not as the instruction wants it.
    Missing(Bytes),
    /// Memory ran out.
    Memory,
}

impl From<NoMemory> for OperandFault {
    ghost from_gives = { λ _ e. e ≡ Memory };

    fn from(_error: NoMemory) -> OperandFault {
        OperandFault::Memory
    }
}
