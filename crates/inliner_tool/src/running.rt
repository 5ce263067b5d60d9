//! How programs run that were accepted or are replayed.

ghost use Rattle.inliner_tool.specs.Running.{LinkedRunTyped};

use conspec_parse::kinds_are_told;
use guest_model::{sees_numbers_in_range, steps_are_enabled};
use typed_runs::{events_are_well_formed, policies_tell_types, typed_programs_run};

/// Whatever the steps of a linked program with types are, the machine is as the types say, a step is made exactly where it is
/// enabled, the events are well formed for each policy that was read over the listing, and numbers in locals are of 32 bits.
pub fn linked_programs_run_typed()
    ensures { LinkedRunTyped }
{
    typed_programs_run();
    steps_are_enabled();
    events_are_well_formed();
    policies_tell_types();
    kinds_are_told();
    sees_numbers_in_range();
}
