//! The words of the command line.

ghost use Rattle.std.specs.Prelude.{◌≡◌, ◌≢◌, ◌↔◌, ℕ, List, ◌∷◌, [], ◌++◌, IfSome, IfNone, IsTrue};
ghost use Rattle.std.specs.List.{AllByRecursion};
ghost use Rattle.command_inputs.specs.Words.{
  Encodes,
  IsCheck,
  IsCommand,
  IsOverFiles,
  IsPolicyCommand,
  IsRace,
  IsShow,
  NamedCheck,
  NamedCommand,
  NamedPolicy,
  NamedRace,
  NamedShow,
  check_named,
  files_named,
  named_by,
  policy_named,
  race_named,
  show_named,
};

use crate::gen_words::{GenWords, gen_words, load_words};
use crate::inline_words::{InlineWords, inline_words};
use crate::lift_words::{LiftWords, lift_words};
use crate::replay_words::{ReplayWords, replay_words};
use crate::run_words::{RunWords, run_words};
use mon_base::Bytes;

/// The words of the command `check`, each the name of a file but `main`.
#[derive(Clone, Copy)]
pub struct CheckWords<'a> {
    pub policy: &'a Bytes,
    pub listing: &'a Bytes,
    pub certificate: &'a Bytes,
    /// The name of the main class.
    pub main: &'a Bytes,
    pub classes: &'a [Bytes],
}

/// The words of the command `show`, each the name of a file.
#[derive(Clone, Copy)]
pub struct ShowWords<'a> {
    pub listing: &'a Bytes,
    pub classes: &'a [Bytes],
}

/// The words of the command `policy`, each the name of a file.
#[derive(Clone, Copy)]
pub struct PolicyWords<'a> {
    pub policy: &'a Bytes,
    pub listing: &'a Bytes,
    /// The record of a run.
    pub recorded: &'a Bytes,
}

/// The words of the command `race`, each the name of a file.
#[derive(Clone, Copy)]
pub struct RaceWords<'a> {
    pub policy: &'a Bytes,
    pub listing: &'a Bytes,
}

/// A command that reads files or writes some, and runs nothing, with its words.
#[derive(Clone, Copy)]
pub enum FileCommand<'a> {
    Check(CheckWords<'a>),
    Show(ShowWords<'a>),
    Policy(PolicyWords<'a>),
    Race(RaceWords<'a>),
    Inline(InlineWords<'a>),
    Replay(ReplayWords<'a>),
    Lift(LiftWords<'a>),
    Gen(GenWords<'a>),
    Load(GenWords<'a>),
}

/// A command and its words.
#[derive(Clone, Copy)]
pub enum Command<'a> {
    Files(FileCommand<'a>),
    /// The program is checked and then run.
    Run(RunWords<'a>),
}

/// The command whose words these are. No word is empty, and where classes are named there is at least one.
pub fn command_of(words: &[Bytes]) -> Option<Command<'_>>
    ensures found { IfSome result (λ c. IsCommand words.now (named_by c)) }
    ensures none { IfNone result ((named : NamedCommand) → IsCommand words.now named → ⊥) }
{
    if !are_full(words) {
        return None;
    }
    if let Some(words) = run_words(words) {
        return Some(Command::Run(words));
    }
    if let Some(command) = file_command_of(words) {
        return Some(Command::Files(command));
    }
    None
}

/// The command over files whose words these are.
fn file_command_of(words: &[Bytes]) -> Option<FileCommand<'_>>
    ensures found { IfSome result (λ c. Encodes words.now (files_named c)) }
    ensures none { IfNone result ((named : NamedCommand) → IsOverFiles named → Encodes words.now named → ⊥) }
{
    if let Some(words) = check_words(words) {
        return Some(FileCommand::Check(words));
    }
    if let Some(words) = show_words(words) {
        return Some(FileCommand::Show(words));
    }
    if let Some(words) = policy_words(words) {
        return Some(FileCommand::Policy(words));
    }
    if let Some(words) = race_words(words) {
        return Some(FileCommand::Race(words));
    }
    if let Some(words) = inline_words(words) {
        return Some(FileCommand::Inline(words));
    }
    if let Some(words) = replay_words(words) {
        return Some(FileCommand::Replay(words));
    }
    if let Some(words) = lift_words(words) {
        return Some(FileCommand::Lift(words));
    }
    if let Some(words) = gen_words(words) {
        return Some(FileCommand::Gen(words));
    }
    if let Some(words) = load_words(words) {
        return Some(FileCommand::Load(words));
    }
    None
}

fn check_words(words: &[Bytes]) -> Option<CheckWords<'_>>
    ensures found { IfSome result (λ c. IsCheck words.now (check_named c)) }
    ensures none { IfNone result ((named : NamedCheck) → IsCheck words.now named → ⊥) }
{
    let words = following(b"check".as_slice(), words)?;
    let (policy, listing, words) = two_of(words)?;
    let (certificate, main, classes) = two_of(words)?;
    if classes.is_empty() {
        return None;
    }
    Some(CheckWords {
        policy,
        listing,
        certificate,
        main,
        classes,
    })
}

fn show_words(words: &[Bytes]) -> Option<ShowWords<'_>>
    ensures found { IfSome result (λ c. IsShow words.now (show_named c)) }
    ensures none { IfNone result ((named : NamedShow) → IsShow words.now named → ⊥) }
{
    let words = following(b"show".as_slice(), words)?;
    let (listing, classes) = first_of(words)?;
    if classes.is_empty() {
        return None;
    }
    Some(ShowWords { listing, classes })
}

fn policy_words(words: &[Bytes]) -> Option<PolicyWords<'_>>
    ensures found { IfSome result (λ c. IsPolicyCommand words.now (policy_named c)) }
    ensures none { IfNone result ((named : NamedPolicy) → IsPolicyCommand words.now named → ⊥) }
{
    let words = following(b"policy".as_slice(), words)?;
    let (policy, listing, words) = two_of(words)?;
    let recorded = last_of(words)?;
    Some(PolicyWords {
        policy,
        listing,
        recorded,
    })
}

fn race_words(words: &[Bytes]) -> Option<RaceWords<'_>>
    ensures found { IfSome result (λ c. IsRace words.now (race_named c)) }
    ensures none { IfNone result ((named : NamedRace) → IsRace words.now named → ⊥) }
{
    let words = following(b"race".as_slice(), words)?;
    let (policy, words) = first_of(words)?;
    let listing = last_of(words)?;
    Some(RaceWords { policy, listing })
}

/// Whether no word is empty.
fn are_full(words: &[Bytes]) -> bool
    ensures { IsTrue result ↔ AllByRecursion (λ word. word ≢ []) words.now }
{
    let mut rest = words;
    while let [word, later @ ..] = rest {
        if word.is_empty() {
            return false;
        }
        rest = later;
    }
    true
}

/// The words after the one that names the command.
pub fn following<'a>(command: &[u8], words: &'a [Bytes]) -> Option<&'a [Bytes]>
    ensures found { IfSome result (λ others. words.now ≡ command.now ∷ others.now) }
    ensures none { IfNone result ((others : List (List ℕ)) → words.now ≡ command.now ∷ others → ⊥) }
{
    let (first, others) = first_of(words)?;
    if first.as_slice() == command {
        Some(others)
    } else {
        None
    }
}

/// The first word and the others.
pub fn first_of(words: &[Bytes]) -> Option<(&Bytes, &[Bytes])>
    ensures found { IfSome result (λ parts. words.now ≡ parts.0.now ∷ parts.1.now) }
    ensures none { IfNone result (words.now ≡ []) }
{
    match words {
        [] => None,
        [first, others @ ..] => Some((first, others)),
    }
}

/// The first two words and the others.
pub fn two_of(words: &[Bytes]) -> Option<(&Bytes, &Bytes, &[Bytes])>
    ensures found { IfSome result (λ parts. words.now ≡ parts.0.now ∷ parts.1.now ∷ parts.2.now) }
    ensures none { IfNone result ((first second : List ℕ) (others : List (List ℕ)) → words.now ≡ first ∷ second ∷ others → ⊥) }
{
    let (first, others) = first_of(words)?;
    let (second, others) = first_of(others)?;
    Some((first, second, others))
}

/// The only word.
pub fn last_of(words: &[Bytes]) -> Option<&Bytes>
    ensures found { IfSome result (λ word. words.now ≡ word.now ∷ []) }
    ensures none { IfNone result ((word : List ℕ) → words.now ≡ word ∷ [] → ⊥) }
{
    match words {
        [word] => Some(word),
        _ => None,
    }
}
