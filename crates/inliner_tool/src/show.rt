//! The command `show`: its inputs, and their text.

ghost use Rattle.std.specs.Prelude.{◌≡◌, ◌≤◌};
ghost use Rattle.std.specs.List.{AllByRecursion};
ghost use Rattle.class_codec.specs.Fits.{IsEncodable};
ghost use Rattle.command_inputs.specs.Words.{Show, show_named};
ghost use Rattle.inliner_tool.specs.Commands.{Makes, readings_of};
ghost use Rattle.inliner_tool.specs.Seen.{seen};
ghost use Rattle.inliner_tool.specs.Show.{Shows, show_end, text_shown};
ghost use Rattle.inliner_tool.specs.Steps.{Equals, UnlessMemory};

use crate::answer::{Answer, Made};
use crate::classes::within_total;
use crate::refusal::{Ended, Refusal, stopped};
use class_linking::LinkFault;
use class_text::{ShowFault, show};
use command_inputs::{ShowInputs, ShowWords, read_show};
use mon_base::Bytes;
use mon_store::Store;
use std::alloc::Global;

/// What `show` makes of its files.
pub fn make_show<S: Store>(alloc: Global, words: &ShowWords, store: &mut S) -> Result<Made, Ended>
    ensures makes { UnlessMemory (Makes (readings_of (seen S.files S.faults S.last store.old store.new))
        (Show (show_named words.now))) result }
    ensures files { S.files store.new ≡ S.files store.old }
    ensures faults { S.faults store.old ≤ S.faults store.new }
{
    match read_show(alloc, store, words) {
        Ok(inputs) => {
            let made = show_made(alloc, &inputs);
            drop(inputs);
            made
        }
        Err(stop) => Err(stopped(stop)),
    }
}

/// The class files, shown.
fn show_made(alloc: Global, inputs: &ShowInputs) -> Result<Made, Ended>
    requires { AllByRecursion IsEncodable inputs.now.classes.files }
    ensures { UnlessMemory (Shows inputs.now) result }
{
    match text_shown(alloc, inputs) {
        Ok(text) => Ok(Made::just(alloc, Answer::Shown(text))),
        Err(ended) => Err(ended),
    }
}

/// The text of class files that are not too long in all.
fn text_shown(alloc: Global, inputs: &ShowInputs) -> Result<Bytes, Ended>
    requires { AllByRecursion IsEncodable inputs.now.classes.files }
    ensures { UnlessMemory (Equals (text_shown inputs.now)) result }
{
    within_total(&inputs.classes)?;
    match show(alloc, &inputs.listing, inputs.classes.files.as_slice()) {
        Ok(text) => Ok(text),
        Err(fault) => Err(show_end(fault)),
    }
}

/// Why class files are not shown.
fn show_end(fault: ShowFault) -> Ended
    ensures { result ≡ show_end fault }
{
    match fault {
        ShowFault::Code {
            class,
            method,
            fault,
        } => Ended::Refused(Refusal::Link(LinkFault::Code {
            class,
            method,
            fault,
        })),
        ShowFault::Memory => Ended::Memory,
    }
}
