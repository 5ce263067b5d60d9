//! What a typing promises of runs.

ghost use Rattle.typed_runs.specs.Answers.{AnswersFitByType};
ghost use Rattle.typed_runs.specs.Formed.{PoliciesTellTypes, SeesWellFormed};
ghost use Rattle.typed_runs.specs.IllFormed.{NullIsNoArgument, NullIsNoResult, WideIsNoResult};
ghost use Rattle.typed_runs.specs.Runs.{RunsFit, NeverStuck};

use bytecode_model::uses_are_shaped;
use guest_model::{enabled_steps_are_made, sees_numbers_in_range};

/// After every list of steps the machine is as the typing says, so that no operand is missing and none is of a wrong kind;
/// and each step that is enabled by the rules is made.
pub fn typed_programs_run()
    ensures fit { RunsFit }
    ensures moves { NeverStuck }
{
    uses_are_shaped();
    enabled_steps_are_made();
}

/// Whatever the steps of a typed program are, a thread that waits in a call of the library takes nothing, 0, null or the empty text,
/// by the type of the method's result; and the receiver, where it is of the method's own class and the listing has interfaces
/// alone after `implements`.
pub fn answers_fit_by_type()
    ensures fit { AnswersFitByType }
{
    typed_programs_run();
}

/// Where a policy tells the types of its methods, the events of a typed program are well formed for it, whatever the steps
/// are: a number of 32 bits is passed where the method takes one, and what is returned is in the range of its type.
pub fn events_are_well_formed()
    ensures formed { SeesWellFormed }
{
    uses_are_shaped();
    sees_numbers_in_range();
}

/// What is promised of events is not empty. Where a policy tells the types of its methods, an event with a clause is not well
/// formed for it that returns null, or a number of 33 bits, from a method that gives an int; nor is one that passes null
/// where the method takes an int.
pub fn ill_formed_events()
    ensures null { NullIsNoResult }
    ensures wide { WideIsNoResult }
    ensures passed { NullIsNoArgument }
{}

/// The automaton of a policy that was read, with a listing that was read, tells the types of its methods.
pub fn policies_tell_types()
    ensures tell { PoliciesTellTypes }
{}
