//! What holds of each book.

ghost use Rattle.guest_runner.specs.Runs.{RunsAreTraces};

use guest_model::steps_are_enabled;

/// The lines of a book are one run of its program: each step is enabled in its place, and what was seen of them is their trace.
pub fn runs_are_traces()
    ensures { RunsAreTraces }
{
    steps_are_enabled();
}
