//! What holds of every step.

ghost use Rattle.guest_model.specs.Asking.{EnabledAreSteps, FittingAreSteps};
ghost use Rattle.guest_model.specs.Enabled.{StepsAreEnabled};
ghost use Rattle.guest_model.specs.Ending.{EndsWhereNoneIsEnabled};
ghost use Rattle.guest_model.specs.Moving.{
  ReadyOperates,
  LeavesAsMany,
  ReadySteps,
  FreeIsEntered,
  EnteringSteps,
  LeavingSteps,
  ThrowingSteps,
  ReturningSteps,
  AnswersStep,
  CallingSteps,
  EnabledIsMade,
};
ghost use Rattle.guest_model.specs.Permitted.{AnswersArePermitted};
ghost use Rattle.guest_model.specs.Turns.{TurnsFindTheEnabled, WhoAsksNothingGoes};

/// Each step that the machine makes is enabled by the rules alone: nothing that the thread waits for is left, and an
/// answer of the library fits the call.
pub fn steps_are_enabled()
    ensures enabled { StepsAreEnabled }
{}

/// An instruction that works on the heap or on static fields, or divides, comes to something where its operands are
/// there and of their kinds; it takes and pushes as many as it should; and the thread makes the step where what is left
/// fits on the stack.
pub fn what_is_ready_moves()
    ensures comes { ReadyOperates }
    ensures leaves { LeavesAsMany }
    ensures steps { ReadySteps }
{}

/// A monitor that no other thread holds is entered, by an instruction too; leaving one is always a step.
pub fn free_monitors_are_entered()
    ensures entered { FreeIsEntered }
    ensures enters { EnteringSteps }
    ensures leaves { LeavingSteps }
{}

/// What is thrown, be it null, leads on; and so does a return to a caller with room for the result.
pub fn frames_are_left()
    ensures throws { ThrowingSteps }
    ensures returns { ReturningSteps }
{}

/// The machine takes an answer of the library exactly where a row of the table allows it.
pub fn answers_are_permitted()
    ensures rows { AnswersArePermitted }
{}

/// Each answer of the library that fits its call is taken, where the caller has room for what it gives; a call on null
/// throws.
pub fn fitting_answers_are_taken()
    ensures taken { AnswersStep }
{}

/// A thread of a linked program calls a method of the library, a built-in one or a given one, whatever the class of the
/// receiver, where it waits for no lock and for no thread.
pub fn ready_calls_are_made()
    ensures made { CallingSteps }
{}

/// A step that is enabled by the rules is made, in a linked program, where what the thread needs for it is there: its
/// operands, of their kinds, and room for what is left.
pub fn enabled_steps_are_made()
    ensures made { EnabledIsMade }
{}

/// A machine has ended exactly where the rules enable no step of any thread, whatever the library answers.
pub fn ends_where_none_is_enabled()
    ensures ends { EndsWhereNoneIsEnabled }
{}

/// A thread can make a step exactly where the rules enable one with some choice; and an answer fits exactly where they enable
/// the step that takes it.
pub fn asks_what_the_rules_say()
    ensures threads { EnabledAreSteps }
    ensures answers { FittingAreSteps }
{}

/// Where threads take turns, the one that is found can make a step, and none is found exactly where the machine has ended; and who
/// can make a step and asks the library nothing makes a plain one.
pub fn turns_find_the_enabled()
    ensures found { TurnsFindTheEnabled }
    ensures plain { WhoAsksNothingGoes }
{}
