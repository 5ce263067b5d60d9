//! The words of the command `lift`.

ghost use Rattle.std.specs.Prelude.{◌≡◌, IfNone, IfSome};
ghost use Rattle.command_inputs.specs.LiftWords.{IsLift, NamedLift, lift_named};

use crate::words::{following, two_of};
use mon_base::Bytes;

/// The words of the command `lift`: names of files, but for `main`.
#[derive(Clone, Copy)]
pub struct LiftWords<'a> {
    pub policy: &'a Bytes,
    pub listing: &'a Bytes,
    /// The name of the main class.
    pub main: &'a Bytes,
    /// The record of a run.
    pub recorded: &'a Bytes,
    pub classes: &'a [Bytes],
}

/// The words of `lift` among these.
pub fn lift_words(words: &[Bytes]) -> Option<LiftWords<'_>>
    ensures found { IfSome result (λ c. IsLift words.now (lift_named c)) }
    ensures none { IfNone result ((named : NamedLift) → IsLift words.now named → ⊥) }
{
    let words = following(b"lift".as_slice(), words)?;
    let (policy, listing, words) = two_of(words)?;
    let (main, recorded, classes) = two_of(words)?;
    if classes.is_empty() {
        return None;
    }
    Some(LiftWords {
        policy,
        listing,
        main,
        recorded,
        classes,
    })
}
