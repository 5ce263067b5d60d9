//! The laws of types and frames that frames are found by.

ghost use Rattle.bytecode_model.specs.declared.program.Program.{Program};
ghost use Rattle.bytecode_model.specs.Order.{IsInOrder};
ghost use Rattle.type_infer.specs.Laws.{Laws};

use code_typing::rows_follow_the_order;
use type_lattice::assignable_is_an_order;

/// The laws hold of each program whose classes are in order.
pub fn laws_hold()
    ensures { (program : Program) → IsInOrder program → Laws program }
{
    assignable_is_an_order();
    rows_follow_the_order();
}
