//! The command `load`: a program that is made from a number, and woven as `inline` weaves.

ghost use Rattle.std.specs.Prelude.{◌≡◌, length, IfOk, Ok};
ghost use Rattle.bundle_gen.specs.Generated.{listing_text, main_name, policy_text};
ghost use Rattle.command_inputs.specs.declared.inline_words.Weaving.TheVariants.{Auto};
ghost use Rattle.command_inputs.specs.GenWords.{IsInBounds, gen_named};
ghost use Rattle.command_inputs.specs.InlineInputs.{InlineSound};
ghost use Rattle.command_inputs.specs.RaceInputs.{RaceSound, texts_read};
ghost use Rattle.inliner_tool.specs.Generate.{bundle_of};
ghost use Rattle.inliner_tool.specs.Load.{IsReadyToLoad, Loads, bundle_inputs, loaded_made};
ghost use Rattle.inliner_tool.specs.LoadDecision.{LoadDecides};
ghost use Rattle.inliner_tool.specs.Steps.{UnlessMemory};

use crate::answer::{Answer, Made};
use crate::inline::{Ready, plan};
use crate::refusal::Ended;
use bundle_gen::{Bundle, bytes_of, generate, generated_is_encodable, generated_is_small};
use bundle_linking::{
    bundle_listing_is_read, bundle_policy_is_read, bundles_are_short, bundles_link,
};
use bundle_typing::bundles_can_be_typed;
use command_inputs::{
    GenWords, InlineInputs, InputFault, RaceInputs, ReadClasses, Weaving, policy_of_texts,
};
use mon_base::{Bytes, NoMemory};
use std::alloc::Global;

/// What `load` makes. It reads no file.
pub fn make_load(alloc: Global, words: &GenWords) -> Result<Made, Ended>
    requires { IsInBounds (gen_named words.now) }
    ensures makes { UnlessMemory (Loads (gen_named words.now)) result }
    ensures ready { IfOk result (IsReadyToLoad (gen_named words.now)) }
{
    let inputs = inputs_of(alloc, words)?;
    let classes = inputs.classes.files.len() as u64;
    let main = main_name(alloc)?;
    match plan(alloc, inputs, &main, words.folder, Weaving::Auto) {
        Ok(ready) => Ok(loaded_made(words, classes, ready)),
        Err(ended) => Err(ended),
    }
}

/// The name of the main class.
fn main_name(alloc: Global) -> Result<Bytes, NoMemory>
    ensures { IfOk result (λ name. name ≡ main_name) }
{
    Bytes::from_slice(alloc, b"g/Main".as_slice())
}

/// What is written, and then answered.
fn loaded_made(words: &GenWords, classes: u64, ready: Ready) -> Made
    requires bounds { IsInBounds (gen_named words.now) }
    requires classes { classes ≡ length (bundle_of (gen_named words.now)).files }
    ensures { result ≡ loaded_made (gen_named words.now) ready }
{
    let Ready {
        outputs,
        accepted,
        ..
    } = ready;
    Made {
        answer: Answer::Loaded {
            accepted,
            classes,
            sites: u64::from(words.classes) * u64::from(words.sites),
        },
        outputs,
    }
}

/// The program of the words, as what a program is woven of.
fn inputs_of(alloc: Global, words: &GenWords) -> Result<InlineInputs, NoMemory>
    requires { IsInBounds (gen_named words.now) }
    ensures is { IfOk result (λ inputs. bundle_inputs (bundle_of (gen_named words.now)) ≡ Ok inputs) }
    ensures files { IfOk result (λ inputs. inputs.classes.files ≡ (bundle_of (gen_named words.now)).files) }
    ensures sound { IfOk result InlineSound }
{
    let Bundle {
        files,
        listing,
        policy,
    } = generate(alloc, words.seed, words.classes, words.sites)?;
    generated_is_encodable(words.seed, words.classes, words.sites);
    generated_is_small(words.seed, words.classes, words.sites);
    let total = bytes_of(alloc, files.as_slice())?;
    let texts = texts_of(alloc, &listing, &policy)?;
    Ok(InlineInputs {
        listing: texts.listing,
        policy: texts.policy,
        classes: ReadClasses { files, total },
    })
}

/// What the texts are read as. They are never refused.
fn texts_of(alloc: Global, listing: &Bytes, policy: &Bytes) -> Result<RaceInputs, NoMemory>
    requires listing { listing.now ≡ listing_text }
    requires policy { policy.now ≡ policy_text }
    ensures is { IfOk result (λ texts. texts_read listing_text policy_text ≡ Ok texts) }
    ensures sound { IfOk result RaceSound }
{
    bundle_listing_is_read();
    bundle_policy_is_read();
    match policy_of_texts(alloc, listing.as_slice(), policy.as_slice()) {
        Ok(texts) => Ok(texts),
        Err(InputFault::Memory) => Err(NoMemory),
        Err(_) => unreachable!(),
    }
}

/// Where the store counts no fault, `load` writes what is woven of the program of its number and says so, or a size of that is too
/// large, unless memory runs out: its status is 0, 4 or 7. It refuses none of its own files.
pub fn load_decides()
    ensures { LoadDecides }
{
    bundle_listing_is_read();
    bundle_policy_is_read();
    bundles_are_short();
    bundles_link();
    bundles_can_be_typed();
}
