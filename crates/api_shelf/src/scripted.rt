//! A device that gives the answers it was given.

ghost use Rattle.std.specs.Prelude.{◌≡◌, ◌++◌, ◌∷◌, [], Some, IfOk, OnErr, IsErrOf};
ghost use Rattle.api_shelf.specs.Scripted.{next_answer};

use crate::copying::{copy_answer, copy_call};
use crate::device::{ApiDevice, DeviceFault};
use crate::plain::plain_answer;
use api_listing::{ApiAnswer, ApiCall};
use mon_base::{List, NoMemory};
use std::alloc::Global;
use std::marker::Model;

/// A device that gives the answers it was given, in their order, and then plain ones. It tells its log.
#[derive(Drop)]
pub struct Scripted {
    alloc: Global,
    answers: List<ApiAnswer>,
    log: List<(ApiCall, ApiAnswer)>,
}

impl Model for Scripted {
    ghost use Rattle.api_shelf.specs.Scripted.{ScriptedState};

    ghost Value = { ScriptedState };

    ghost view = { λ s. record { answers = s.answers; log = s.log } };
}

impl Scripted {
    /// A device that gives these answers first. It takes no memory.
    pub fn new(answers: List<ApiAnswer>) -> Scripted
        ensures { result ≡ record { answers = answers; log = [] } }
    {
        let answers = answers.into_vec();
        let alloc = *answers.allocator();
        Scripted {
            alloc,
            answers: List::from_vec(answers),
            log: List::new(alloc),
        }
    }

    /// The answer to this call.
    fn next_answer(&self, call: &ApiCall) -> Result<ApiAnswer, NoMemory>
        ensures { IfOk result (λ given. given ≡ next_answer self.now call.now) }
    {
        match self.answers.as_slice().get(self.log.len()) {
            Some(answer) => copy_answer(self.alloc, answer),
            None => Ok(plain_answer(self.alloc, call)),
        }
    }
}

impl ApiDevice for Scripted {
    ghost told = { λ s. Some s.log };

    ghost faults = { λ _. 0 };

    /// The next answer of those given, or else the plain one, which is then in the log. Without memory nothing changes.
    fn answer(&mut self, call: &ApiCall) -> Result<ApiAnswer, DeviceFault>
        ensures ok { IfOk result (λ given. self.new ≡ record self.old { log = self.old.log ++ (call.now, given) ∷ [] }) }
        ensures next { IfOk result (λ given. given ≡ next_answer self.old call.now) }
        ensures refused { OnErr result (self.new ≡ self.old) }
        ensures failed { IsErrOf result DeviceFault.Failed → ⊥ }
    {
        let answer = self.next_answer(call)?;
        let kept = copy_answer(self.alloc, &answer)?;
        let asked = copy_call(self.alloc, call)?;
        self.log.push((asked, kept))?;
        Ok(answer)
    }

    fn fault_count(&self) -> u64 {
        0
    }
}
