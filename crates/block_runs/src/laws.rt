//! What each block of a policy that was read does, in both modes; and that what weaving asks of a client holds of each that a
//! compiler's files link to, and that has types.

ghost use Rattle.block_runs.specs.ClientRuns.{AcceptedRunsAreLifted, OneThreadIsApart};
ghost use Rattle.block_runs.specs.Clients.{ClientsAreRoomy, ClientsFit, ClientsKeepTheirMachine, ClientsStartAlike};
ghost use Rattle.block_runs.specs.Example.{ArgumentsAreGivenBack, FourthIsRefused, ThirdIsCalled};
ghost use Rattle.block_runs.specs.Joining.{RunsAreLifted, StartsWait, StepsAreLifted, WaitsAreKept};
ghost use Rattle.block_runs.specs.Made.{RunsAreMade};
ghost use Rattle.block_runs.specs.Reaching.{CallsAreReached, EndsAreReached, ThrowsAreReached};
ghost use Rattle.block_runs.specs.Steps.{MovesAreMade, ThrowsAreMade};
ghost use Rattle.block_runs.specs.Weaves.{WovenAddsState};
ghost use Rattle.block_runs.specs.WovenClients.{WovenClientsAreKnown, WovenClientsHaveRoom, WovenStartsInFirst};
ghost use Rattle.block_runs.specs.Transparent.{BlocksNeedNoHandler, BlocksReachCalls, BlocksReturn, BlocksThrowOn};

use block_template::plans_are_good;
use bytecode_model::uses_are_shaped;
use guest_erasing::{
    linked_clients_are_named, machines_start_alike, mirrors_are_erased, programs_tell_alike,
};
use typed_runs::typed_programs_run;

/// Where the automaton accepts a call, its block reaches it, with the operands and the client's locals as they were, the new
/// state in the fields of conspec/State, and the lock held in mode hold and free in mode release. Where the automaton refuses,
/// the block stops the program.
pub fn blocks_reach_calls()
    ensures { BlocksReachCalls }
{}

/// After the call, where the automaton accepts its return, the block is left at its end, with the operands and the client's
/// locals as they were, the new state, and the lock free; else it stops the program.
pub fn blocks_return()
    ensures { BlocksReturn }
{}

/// Where the call has thrown and the automaton accepts that, the block's handler throws on what it caught, with the client's
/// locals as they were, the new state, and the lock free; else it stops the program. A block has no handler only in mode
/// release, where no clause is for the exception.
pub fn blocks_throw_on()
    ensures throws { BlocksThrowOn }
    ensures needs { BlocksNeedNoHandler }
{}

/// What is told of blocks is not empty: where a policy allows three calls and counts them, in mode hold, the block of the third
/// comes to the call with the count made and the lock held, and that of the fourth stops the program; and two arguments that are
/// kept for a check are given back in their order.
pub fn a_block_runs()
    ensures third { ThirdIsCalled }
    ensures fourth { FourthIsRefused }
    ensures arguments { ArgumentsAreGivenBack }
{}

/// Where an instruction of a block goes on or throws, the machine does so: its step changes the frame, the fields of
/// conspec/State and its monitor as is told of blocks, and nothing else.
pub fn moves_are_made()
    ensures moves { MovesAreMade }
    ensures throws { ThrowsAreMade }
{}

/// The machine makes each run of a block: plain steps of its thread, of which the library sees nothing, lead to where the run
/// ends, each from a place before that.
pub fn runs_are_made()
    ensures { RunsAreMade }
{}

/// So in the machine, where the automaton accepts the event, a thread comes from the front of a block to its call, from after the
/// call to the block's end, and from its handler to where it throws on; its operands and the client's locals are as they were, the
/// policy's variables are what the automaton tells, and no other thread, no object and no other monitor changes.
pub fn calls_are_reached()
    ensures call { CallsAreReached }
    ensures end { EndsAreReached }
    ensures throw { ThrowsAreReached }
{}

/// What a good plan makes of a sound program is that program with blocks in its methods, each laid out as its sites say, and with
/// `conspec/State` after its classes.
pub fn woven_adds_state()
    ensures { WovenAddsState }
{}

/// Arguments fit the locals of a typed client's methods, and neither its operands nor the classes of its listing are
/// `conspec/State`.
pub fn clients_are_roomy()
    ensures { ClientsAreRoomy }
{
    uses_are_shaped();
}

/// After every list of steps each object is of a class of the client; no operand, lock, argument or target is the object of
/// `conspec/State`; and a frame under a handler has room for what is caught.
pub fn clients_keep_their_machine()
    ensures { ClientsKeepTheirMachine }
{
    typed_programs_run();
}

/// Where each clause of a policy tells the types of its method, every step that a typed client makes after a list of steps is as
/// lifting asks for it: the operands are at most the stack's size, and what is passed and given is of the kinds of the clauses.
pub fn clients_fit()
    ensures { ClientsFit }
{
    uses_are_shaped();
    typed_programs_run();
}

/// At the start the machine of what is woven of a typed client mirrors its own, where the static fields are the client's and those
/// of `conspec/State`.
pub fn clients_start_alike()
    ensures { ClientsStartAlike }
{
    typed_programs_run();
    linked_clients_are_named();
    programs_tell_alike();
    machines_start_alike();
}

/// A thread that waits for the library stands at the call for which it waits: at the start, and after each step of any program.
pub fn waiting_threads_stand_at_calls()
    ensures kept { WaitsAreKept }
    ensures start { StartsWait }
{}

/// One step of the client, whatever it is, is lifted to the woven program: its thread goes up to the call of a block, makes the step,
/// and leaves the block; the library sees the same, and the machines mirror each other again, with the policy's new state in the
/// fields of `conspec/State`. The policy accepts what is seen, and in mode hold one call of a method with clauses is under way at a time.
pub fn steps_are_lifted()
    ensures { StepsAreLifted }
{}

/// So is every list of steps: the lifted one is a run of the woven program with the same events.
pub fn runs_are_lifted()
    ensures { RunsAreLifted }
{}

/// Of a client that a compiler's files link to, over a listing that was read, and of what weaving makes of it, where its files link
/// too, all is known that lifting asks for: the two tell the same of the client's names, `conspec/State` stands after all classes, the
/// block of each call stands in its method, which has room for it, and what names a method of the library calls it. The woven
/// program starts with the client's static fields and, in those of `conspec/State`, the first state of the policy, where what each
/// ConstantValue of the client names is a constant of its file.
pub fn woven_clients_are_known()
    ensures known { WovenClientsAreKnown }
    // The locals of its blocks fit.
    ensures room { WovenClientsHaveRoom }
    ensures start { WovenStartsInFirst }
{
    plans_are_good();
    uses_are_shaped();
}

/// Every run of a typed client that the policy accepts, and in which in mode hold calls of methods with clauses do not overlap, is one
/// of what is woven of it: that makes the lifted steps, the library sees the same events, and its machine is the client's once what
/// weaving added is erased.
pub fn accepted_runs_are_lifted()
    ensures { AcceptedRunsAreLifted }
{
    clients_are_roomy();
    clients_keep_their_machine();
    clients_fit();
    clients_start_alike();
    woven_clients_are_known();
    waiting_threads_stand_at_calls();
    runs_are_lifted();
    mirrors_are_erased();
}

/// What mode hold asks of runs besides is not empty: in a run of which one thread makes all steps, whatever they are, calls of methods
/// with clauses do not overlap.
pub fn one_thread_is_apart()
    ensures { OneThreadIsApart }
{
    uses_are_shaped();
}
