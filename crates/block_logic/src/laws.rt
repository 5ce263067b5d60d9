//! What accepted programs do.

ghost use Rattle.block_logic.specs.Locking.{FreeLockIsTaken};
ghost use Rattle.block_logic.specs.Obeying.{AcceptedObeys, LockIsHeld, LockOrders};
ghost use Rattle.block_logic.specs.Outside.{ErrorsLeaveBlocks};

use conspec_automaton::seen_is_enough;
use guest_model::steps_are_enabled;

/// Whatever the steps of an accepted program are, its events obey the policy: where the lock is held round each call, or the
/// policy is race-free. Where it is held round each call, no step has an event with a clause while another thread holds the
/// lock; and in mode hold a step with such an event is of the thread that holds the lock, which it holds once: the order in
/// which the lock is taken is the order of the events.
pub fn accepted_obeys()
    ensures obeys { AcceptedObeys }
    ensures orders { LockOrders }
    ensures held { LockIsHeld }
{
    seen_is_enough();
}

/// A Java machine may throw an error at any instruction. Of an accepted program, but at a granted call, each handler that may
/// take it stands out of each block: no lock is held there, no call with a clause before it is granted, and nothing is owed.
pub fn errors_leave_blocks()
    ensures leaves { ErrorsLeaveBlocks }
{}

/// What is promised of the lock is not empty: where nobody holds it, and a thread stands before `monitorenter` with the lock on
/// top of its operands, the step of this thread is enabled, and after it the thread holds the lock.
pub fn free_lock_is_taken()
    ensures taken { FreeLockIsTaken }
{
    steps_are_enabled();
}
