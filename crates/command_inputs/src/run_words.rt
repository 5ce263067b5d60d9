//! The words of the command `run`.

ghost use Rattle.std.specs.Prelude.{◌≡◌, IfNone, IfSome};
ghost use Rattle.command_inputs.specs.Words.{IsRunCommand, NamedRun, run_named};

use crate::numbers::count_of;
use crate::words::{CheckWords, following, two_of};
use mon_base::Bytes;

/// The most workers that a run may have.
const MOST_WORKERS: u32 = 64;
/// The most steps that a run may be asked to make.
const MOST_STEPS: u32 = 1_000_000;

/// The words of the command `run`: those of a check, and two numbers.
#[derive(Clone, Copy)]
pub struct RunWords<'a> {
    pub check: CheckWords<'a>,
    /// How many threads run the program.
    pub workers: u32,
    /// How many steps there may be.
    pub budget: u32,
}

/// The words of `run` among these.
pub fn run_words(words: &[Bytes]) -> Option<RunWords<'_>>
    ensures found { IfSome result (λ c. IsRunCommand words.now (run_named c)) }
    ensures none { IfNone result ((named : NamedRun) → IsRunCommand words.now named → ⊥) }
{
    let words = following(b"run".as_slice(), words)?;
    let (policy, listing, words) = two_of(words)?;
    let (certificate, main, words) = two_of(words)?;
    let (workers, budget, classes) = two_of(words)?;
    let workers = count_of(workers.as_slice(), MOST_WORKERS)?;
    let budget = count_of(budget.as_slice(), MOST_STEPS)?;
    if classes.is_empty() {
        return None;
    }
    let check = CheckWords {
        policy,
        listing,
        certificate,
        main,
        classes,
    };
    Some(RunWords {
        check,
        workers,
        budget,
    })
}
