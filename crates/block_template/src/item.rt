//! What blocks are made of: instructions, each with what is so where it stands.

use conspec_tree::Phase;
use offset_patch::BlockInsn;

/// What is so before an instruction of a block. From it the types and the note are told that a certificate has there.
#[derive(Clone, Copy)]
pub enum Role {
    /// So many arguments are not kept yet, and the next one is.
    Save {
        left: u32,
    },
    /// The lock is to be taken for a check of this phase; `pushed`, its class is on top.
    Lock {
        phase: Phase,
        pushed: bool,
    },
    /// The branches before this one fail and so many of its atoms hold; of the next atom's comparison so many steps are
    /// done.
    Ask {
        phase: Phase,
        branch: u32,
        atom: u32,
        done: u32,
    },
    /// The branch is taken and so many of its updates are made; so many steps of the next one are done.
    Update {
        phase: Phase,
        branch: u32,
        update: u32,
        done: u32,
    },
    /// All updates of the branch are made.
    Taken {
        phase: Phase,
        branch: u32,
    },
    /// No branch is taken; so many instructions of the way out are done.
    Stop {
        phase: Phase,
        done: u32,
    },
    /// The lock is to be left; `pushed`, its class is on top. A check was made under it, or there was none to make.
    Unlock {
        phase: Phase,
        checked: bool,
        pushed: bool,
    },
    /// So many arguments stand on the stack again, and the next one is loaded; `locked`, the lock is held.
    Load {
        loaded: u32,
        locked: bool,
    },
    /// The client's call is made; `locked`, the lock is held.
    Call {
        locked: bool,
    },
    /// The call gave its result, which is kept; `locked`, the lock is held.
    Keep {
        locked: bool,
    },
    /// The kept result is given back.
    Give,
    /// The block is left after its handler.
    Leave,
    /// What the call threw is thrown on.
    Rethrow,
    /// Control never comes here.
    Unreached,
}

/// An instruction of a block.
#[derive(Clone, Copy)]
pub struct Item {
    pub insn: BlockInsn,
    pub role: Role,
}
