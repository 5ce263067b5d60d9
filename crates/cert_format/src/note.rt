//! What a thread has done of a block where it stands before an instruction.

use mon_base::List;

/// The event that a clause is about: before a call, after its return, or after its exception.
#[derive(Clone, Copy)]
pub enum Phase8 {
    Before,
    After,
    Exceptional,
}

/// What a block is about: a method by its place in the listing, the phase, and the first local that the block may use.
#[derive(Clone, Copy)]
pub struct Site {
    pub method: u16,
    pub phase: Phase8,
    pub base: u16,
}

/// A number on the stack, or the value that a field has, told by numbers that stood when the lock was taken.
#[derive(Clone, Copy)]
pub enum Term {
    /// This number.
    Const(i32),
    /// The policy's variable of this number.
    Var(u8),
    /// That variable and this addend.
    VarAdd(u8, i32),
    /// The argument of this number of the method.
    Arg(u8),
    /// What the method returned.
    Result,
    /// The class whose monitor is the lock.
    Lock,
}

/// What the thread that stands before an instruction has done of a block.
#[derive(Drop)]
pub enum Note {
    /// It is in no block.
    Free,
    /// The class of the lock is on top of the stack, and nothing is held.
    Taking(Site),
    /// The lock is held. The first `failed` branches fail, and `holding` atoms of the next one hold. The top of the
    /// stack is `terms`, and the policy's variables are `map`.
    Held {
        site: Site,
        failed: u8,
        holding: u8,
        terms: List<Term>,
        map: List<Term>,
    },
    /// The check and its update are made, with the lock held or not, and `loaded` arguments are on the stack. `top`:
    /// the class of the lock is on top of them.
    Granted {
        site: Site,
        locked: bool,
        loaded: u8,
        top: bool,
    },
    /// The call has returned. `stage` 0: the update is due, without the lock; 1: it is due, with the lock; 2: it is
    /// made, with the lock. `kept`: the result stands in its local. `top` as before.
    Owed {
        site: Site,
        stage: u8,
        kept: bool,
        top: bool,
    },
    /// On the way to the exit, at this place of it.
    Stop {
        site: Site,
        place: u8,
    },
}
