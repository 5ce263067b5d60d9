//! The instructions that move what is on the operand stack.

ghost use Rattle.std.specs.Prelude.{◌≡◌};
ghost use Rattle.insn_codec.specs.Forms.{depth_of};

/// A form of moving the topmost operands.
#[derive(Clone, Copy)]
pub enum StackForm {
    Pop,
    Pop2,
    Dup,
    DupX1,
    DupX2,
    Dup2,
    Dup2X1,
    Dup2X2,
    Swap,
}

/// How many operands the form takes.
pub fn depth_of(form: StackForm) -> u8
    ensures { result ≡ depth_of form }
{
    match form {
        StackForm::Pop | StackForm::Dup => 1,
        StackForm::Pop2 | StackForm::DupX1 | StackForm::Dup2 | StackForm::Swap => 2,
        StackForm::DupX2 | StackForm::Dup2X1 => 3,
        StackForm::Dup2X2 => 4,
    }
}
