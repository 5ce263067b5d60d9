//! Why a program is not accepted.

use thiserror::Error;

/// The first test that fails, with its first place. Classes, methods and instructions are counted from 0; of a shape the
/// methods with code alone are counted.
#[derive(Clone, Copy, Debug, Error)]
pub enum CheckFault {
    /// The certificate is of a program of another shape.
    #[error("the certificate is of another program")]
    Shape {
        class: u32,
        method: u32,
    },
    /// A rule of the typing fails.
    #[error("rule {rule} of the typing fails")]
    Typing {
        class: u32,
        method: u32,
        at: u32,
        rule: u8,
    },
    /// The class of the policy's variables is missing, or is not as they have it: the first variable whose field is
    /// missing or wrong, or the number of the variables.
    #[error("the class of the policy's variables is not as they have it")]
    StateClass {
        field: u32,
    },
    /// A rule of the notes fails.
    #[error("rule {rule} of the notes fails")]
    Local {
        class: u32,
        method: u32,
        at: u32,
        rule: u8,
    },
}
