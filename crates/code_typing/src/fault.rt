//! Where a typing is wrong.

/// An instruction at which a rule of the typing fails: the index of its class, of its method among all methods of the
/// class, and its own; and the rule, from 1 to 7 (docs/TYPING.md).
#[derive(Clone, Copy)]
pub struct TypeFault {
    pub class: u32,
    pub method: u32,
    pub at: u32,
    pub rule: u8,
}
