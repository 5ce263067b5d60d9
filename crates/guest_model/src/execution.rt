//! A program that runs: its steps, and the machine that they have come to, in one value. (docs/RUNS.md)

ghost use Rattle.std.specs.Prelude.{IfOk, IsSome, OnErr, OnOk, Some, ◌≡◌};
ghost use Rattle.guest_model.specs.declared.machine.Choice.TheVariants as choices;
ghost use Rattle.guest_model.specs.Asking.{takes_answer};
ghost use Rattle.guest_model.specs.Ending.{end_of};
ghost use Rattle.guest_model.specs.LibraryCalls.{call_asked};
ghost use Rattle.guest_model.specs.Stepping.{stepped};
ghost use Rattle.guest_model.specs.Turns.{next_enabled};

use crate::machine::End;
use api_listing::{ApiAnswer, ApiCall, Event};
use bytecode_model::Program;
use mon_base::NoMemory;
use std::alloc::Global;

/// A program that runs, as code. Steps are asked for where the machine makes them; they are refused for want of memory alone, and
/// one that takes an answer of the library never is: the memory for it is taken before the library is asked (`prepare`).
pub trait Execution: Drop {
    ghost use Rattle.std.specs.Prelude.{ℕ};
    ghost use Rattle.bytecode_model.specs.declared.program.Program.{Program};
    ghost use Rattle.guest_model.specs.declared.machine.Machine.{Machine};

    /// The program that runs.
    ghost program: { Self → Program };

    /// The machine after the steps so far.
    ghost machine: { Self → Machine };

    /// It may be asked, and make a step.
    ghost is_ready: { Self → Type 0 };

    /// It waits for the library's answer to the call of the thread with this number, and has memory for whatever the answer makes.
    ghost is_prepared: { Self → ℕ → Type 0 };

    /// The program that runs. It takes no memory.
    fn program(&self) -> &Program
        ensures { result.now ≡ program self.now };

    /// The first thread from this number on, cyclically, that can make a step. It takes no memory.
    fn next_enabled(&self, first: u32) -> Option<u32>
        requires { is_ready self.now }
        ensures { result ≡ next_enabled (program self.now) (machine self.now) first };

    /// How the run ended; nothing while a thread can make a step. It takes no memory.
    fn ended(&self) -> Option<End>
        requires { is_ready self.now }
        ensures { result ≡ end_of (program self.now) (machine self.now) };

    /// The call to which the thread waits for the library's answer, if it does.
    fn call_asked(&self, alloc: Global, thread: u32) -> Result<Option<ApiCall>, NoMemory>
        requires { is_ready self.now }
        ensures { IfOk result (λ call. call ≡ call_asked (program self.now) (machine self.now) thread) };

    /// Makes the thread's plain step, and answers what the library sees of it.
    fn go(&mut self, alloc: Global, thread: u32) -> Result<Option<Event>, NoMemory>
        requires ready { is_ready self.old }
        requires made { IsSome (stepped (program self.old) (machine self.old) (record { thread = thread; choice = choices.Plain })) }
        ensures ready { is_ready self.new }
        ensures program { program self.new ≡ program self.old }
        ensures made { IfOk result (λ seen. stepped (program self.old) (machine self.old)
            (record { thread = thread; choice = choices.Plain })
            ≡ Some (machine self.new, seen)) }
        ensures refused { OnErr result (machine self.new ≡ machine self.old) };

    /// Takes the memory for whatever the library answers to the thread's call.
    fn prepare(&mut self, alloc: Global, thread: u32) -> Result<(), NoMemory>
        requires { is_ready self.old }
        ensures program { program self.new ≡ program self.old }
        ensures machine { machine self.new ≡ machine self.old }
        ensures prepared { OnOk result (is_prepared self.new thread) }
        ensures ready { OnErr result (is_ready self.new) };

    /// Whether the answer fits the call that the thread is in. It takes no memory.
    fn answer_fits(&self, thread: u32, answer: &ApiAnswer) -> bool
        requires { is_prepared self.now thread }
        ensures { result ≡ takes_answer (program self.now) (machine self.now) thread answer.now };

    /// The thread takes the library's answer to its call, and this is what the library sees of it. It is never refused.
    fn take(&mut self, alloc: Global, thread: u32, answer: &ApiAnswer) -> Option<Event>
        requires prepared { is_prepared self.old thread }
        requires made { IsSome (stepped (program self.old) (machine self.old)
            (record { thread = thread; choice = choices.Answer answer.now })) }
        ensures ready { is_ready self.new }
        ensures program { program self.new ≡ program self.old }
        ensures made { stepped (program self.old) (machine self.old) (record { thread = thread; choice = choices.Answer answer.now })
            ≡ Some (machine self.new, result) };

    /// Waits for no answer any more. It takes no memory.
    fn release(&mut self, thread: u32)
        requires { is_prepared self.old thread }
        ensures ready { is_ready self.new }
        ensures program { program self.new ≡ program self.old }
        ensures machine { machine self.new ≡ machine self.old };
}
