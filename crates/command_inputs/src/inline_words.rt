//! The words of the command `inline`.

ghost use Rattle.std.specs.Prelude.{◌≡◌, ◌∷◌, ℕ, List, IfNone, IfSome};
ghost use Rattle.command_inputs.specs.InlineWords.{IsInline, NamedInline, inline_named, weaving_word};
ghost use Rattle.command_inputs.specs.declared.inline_words.Weaving.{Weaving as AWeaving};

use crate::words::{first_of, following, two_of};
use mon_base::Bytes;

/// How the blocks that are woven are to use the lock.
#[derive(Clone, Copy)]
pub enum Weaving {
    /// They let it go before the call where the policy allows that, and hold it over the call elsewhere.
    Auto,
    /// They hold it over the call.
    Hold,
    /// They let it go before the call.
    Release,
}

/// The words of the command `inline`: names of files, but for `main`, `folder` and `weaving`.
#[derive(Clone, Copy)]
pub struct InlineWords<'a> {
    pub policy: &'a Bytes,
    pub listing: &'a Bytes,
    /// The name of the main class.
    pub main: &'a Bytes,
    /// What the names of the files that are written begin with, before a `/`.
    pub folder: &'a Bytes,
    pub weaving: Weaving,
    pub classes: &'a [Bytes],
}

/// The words of `inline` among these.
pub fn inline_words(words: &[Bytes]) -> Option<InlineWords<'_>>
    ensures found { IfSome result (λ c. IsInline words.now (inline_named c)) }
    ensures none { IfNone result ((named : NamedInline) → IsInline words.now named → ⊥) }
{
    let words = following(b"inline".as_slice(), words)?;
    let (policy, listing, words) = two_of(words)?;
    let (main, folder, words) = two_of(words)?;
    let (weaving, classes) = woven_as(words)?;
    if classes.is_empty() {
        return None;
    }
    Some(InlineWords {
        policy,
        listing,
        main,
        folder,
        weaving,
        classes,
    })
}

/// What the first word says of the blocks, and the others.
fn woven_as(words: &[Bytes]) -> Option<(Weaving, &[Bytes])>
    ensures found { IfSome result (λ parts. words.now ≡ weaving_word parts.0 ∷ parts.1.now) }
    ensures none { IfNone result ((weaving : AWeaving) (others : List (List ℕ)) → words.now ≡ weaving_word weaving ∷ others → ⊥) }
{
    let (word, others) = first_of(words)?;
    let weaving = weaving_of(word.as_slice())?;
    Some((weaving, others))
}

/// What a word says of the blocks.
fn weaving_of(word: &[u8]) -> Option<Weaving>
    ensures found { IfSome result (λ weaving. word.now ≡ weaving_word weaving) }
    ensures none { IfNone result ((weaving : AWeaving) → word.now ≡ weaving_word weaving → ⊥) }
{
    if word == b"auto".as_slice() {
        return Some(Weaving::Auto);
    }
    if word == b"hold".as_slice() {
        return Some(Weaving::Hold);
    }
    if word == b"release".as_slice() {
        return Some(Weaving::Release);
    }
    None
}
