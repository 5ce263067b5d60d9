//! What a command makes of its inputs: its answer, and the files that are written before it is given.

ghost use Rattle.std.specs.Prelude.{◌≡◌};
ghost use Rattle.inliner_tool.specs.Steps.{just};

use cert_checker::Accepted;
use conspec_automaton::Verdict;
use event_record::EndLine;
use mon_base::{Bytes, List};
use mon_store::Output;
use std::alloc::Global;

/// What is answered to a command that is carried out.
#[derive(Drop)]
pub enum Answer {
    /// The program is accepted.
    Accepted(Accepted),
    /// The text of the class files.
    Shown(Bytes),
    /// What a policy says of the events of a run.
    Judged(Verdict),
    /// The events of a policy do not race.
    RaceFree,
    /// The program was woven, checked and written, in so many class files.
    Inlined {
        accepted: Accepted,
        classes: u64,
    },
    /// A program was made from a number and written: so many class files, with so many sites and bytes in all.
    Generated {
        classes: u64,
        sites: u64,
        bytes: u64,
    },
    /// A program with so many class files and sites in all was made from a number, woven, checked and written.
    Loaded {
        accepted: Accepted,
        classes: u64,
        sites: u64,
    },
    /// The events of a run and its end, as they are printed.
    Replayed(Bytes),
    /// The record of a run that was made, as it is printed, and how it ended.
    Ran {
        end: EndLine,
        text: Bytes,
    },
    /// The record of a lifted run, as it is printed.
    Lifted(Bytes),
}

/// What a command makes of its inputs: its answer, and the files that are written, in their order, before it is given.
#[derive(Drop)]
pub struct Made {
    pub answer: Answer,
    pub outputs: List<Output>,
}

impl Made {
    /// An answer for which no file is written.
    pub fn just(alloc: Global, answer: Answer) -> Made
        ensures { result ≡ just answer }
    {
        Made {
            answer,
            outputs: List::new(alloc),
        }
    }
}
