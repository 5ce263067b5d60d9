//! The words of the command `replay`.

ghost use Rattle.std.specs.Prelude.{◌≡◌, IfNone, IfSome};
ghost use Rattle.command_inputs.specs.ReplayWords.{IsReplay, NamedReplay, replay_named};

use crate::words::{first_of, following, two_of};
use mon_base::Bytes;

/// The words of the command `replay`: names of files, but for `main`.
#[derive(Clone, Copy)]
pub struct ReplayWords<'a> {
    pub listing: &'a Bytes,
    /// The name of the main class.
    pub main: &'a Bytes,
    /// The record of a run.
    pub recorded: &'a Bytes,
    pub classes: &'a [Bytes],
}

/// The words of `replay` among these.
pub fn replay_words(words: &[Bytes]) -> Option<ReplayWords<'_>>
    ensures found { IfSome result (λ c. IsReplay words.now (replay_named c)) }
    ensures none { IfNone result ((named : NamedReplay) → IsReplay words.now named → ⊥) }
{
    let words = following(b"replay".as_slice(), words)?;
    let (listing, main, words) = two_of(words)?;
    let (recorded, classes) = first_of(words)?;
    if classes.is_empty() {
        return None;
    }
    Some(ReplayWords {
        listing,
        main,
        recorded,
        classes,
    })
}
