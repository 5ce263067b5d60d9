//! The words of the commands `gen` and `load`.

ghost use Rattle.std.specs.Prelude.{◌≡◌, IfNone, IfSome};
ghost use Rattle.command_inputs.specs.GenWords.{IsGen, IsLoad, IsProgramOf, NamedGen, gen_named};

use crate::numbers::{count_of, number_of};
use crate::words::{first_of, following, last_of, two_of};
use mon_base::Bytes;

/// The most classes of threads that a program may have.
const MOST_CLASSES: u32 = 200;
/// The most sites that each of them may have.
const MOST_SITES: u32 = 500;

/// The words of the commands `gen` and `load`: three numbers and a folder.
#[derive(Clone, Copy)]
pub struct GenWords<'a> {
    /// The number of the program.
    pub seed: u64,
    /// How many classes of threads there are.
    pub classes: u32,
    /// How many sites each of them has.
    pub sites: u32,
    /// What the names of the files that are written begin with, before a `/`.
    pub folder: &'a Bytes,
}

/// The words of `gen` among these.
pub fn gen_words(words: &[Bytes]) -> Option<GenWords<'_>>
    ensures found { IfSome result (λ c. IsGen words.now (gen_named c)) }
    ensures none { IfNone result ((named : NamedGen) → IsGen words.now named → ⊥) }
{
    program_words(b"gen".as_slice(), words)
}

/// The words of `load` among these.
pub fn load_words(words: &[Bytes]) -> Option<GenWords<'_>>
    ensures found { IfSome result (λ c. IsLoad words.now (gen_named c)) }
    ensures none { IfNone result ((named : NamedGen) → IsLoad words.now named → ⊥) }
{
    program_words(b"load".as_slice(), words)
}

/// The words of a command that makes a program from a number.
fn program_words<'a>(command: &[u8], words: &'a [Bytes]) -> Option<GenWords<'a>>
    ensures found { IfSome result (λ c. IsProgramOf command.now words.now (gen_named c)) }
    ensures none { IfNone result ((named : NamedGen) → IsProgramOf command.now words.now named → ⊥) }
{
    let words = following(command, words)?;
    let (seed, classes, words) = two_of(words)?;
    let (sites, words) = first_of(words)?;
    let folder = last_of(words)?;
    let seed = number_of(seed.as_slice())?;
    let classes = count_of(classes.as_slice(), MOST_CLASSES)?;
    let sites = count_of(sites.as_slice(), MOST_SITES)?;
    Some(GenWords {
        seed,
        classes,
        sites,
        folder,
    })
}
