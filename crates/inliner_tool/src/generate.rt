//! The command `gen`: a program that is made from a number, and its files.

ghost use Rattle.std.specs.Prelude.{◌≡◌};
ghost use Rattle.command_inputs.specs.GenWords.{IsInBounds, gen_named};
ghost use Rattle.inliner_tool.specs.GenDecision.{GenDecides};
ghost use Rattle.inliner_tool.specs.Generate.{Generates, bundle_of};
ghost use Rattle.inliner_tool.specs.Steps.{UnlessMemory};

use crate::answer::{Answer, Made};
use crate::refusal::Ended;
use bundle_gen::{Bundle, generate, generated_is_small};
use command_inputs::GenWords;
use command_outputs::generated_outputs;
use mon_base::NoMemory;
use std::alloc::Global;

/// What `gen` makes. It reads no file.
pub fn make_gen(alloc: Global, words: &GenWords) -> Result<Made, Ended>
    requires { IsInBounds (gen_named words.now) }
    ensures { UnlessMemory (Generates (gen_named words.now)) result }
{
    match generate(alloc, words.seed, words.classes, words.sites) {
        Ok(bundle) => {
            let made = gen_made(alloc, words, &bundle);
            drop(bundle);
            made
        }
        Err(NoMemory) => Err(Ended::Memory),
    }
}

/// The files of the program, and what is answered.
fn gen_made(alloc: Global, words: &GenWords, bundle: &Bundle) -> Result<Made, Ended>
    requires bounds { IsInBounds (gen_named words.now) }
    requires bundle { bundle.now ≡ bundle_of (gen_named words.now) }
    ensures { UnlessMemory (Generates (gen_named words.now)) result }
{
    generated_is_small(words.seed, words.classes, words.sites);
    let classes = bundle.files.len() as u64;
    let sites = u64::from(words.classes) * u64::from(words.sites);
    match generated_outputs(alloc, words.folder, bundle) {
        Ok((outputs, bytes)) => Ok(Made {
            answer: Answer::Generated {
                classes,
                sites,
                bytes,
            },
            outputs,
        }),
        Err(NoMemory) => Err(Ended::Memory),
    }
}

/// Where the store counts no fault, `gen` writes the files of its program and says so, unless memory runs out: its status is 0
/// or 7.
pub fn gen_decides()
    ensures { GenDecides }
{}
