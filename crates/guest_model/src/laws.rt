//! What holds of every run.

ghost use Rattle.bytecode_model.specs.declared.program.Program.{Program};
ghost use Rattle.std.specs.Prelude.{Bool, List};
ghost use Rattle.api_listing.specs.declared.events.Event.{Event};
ghost use Rattle.bytecode_model.specs.Sound.{IsSound};
ghost use Rattle.bytecode_model.specs.LinkedClasses.{AreLiterals};
ghost use Rattle.bytecode_model.specs.Targets.{AreNamed};
ghost use Rattle.guest_model.specs.declared.machine.Machine.{Machine};
ghost use Rattle.guest_model.specs.ClosedPlaces.{Places, HasInsns, IsClosed, SeesOnlyCalled};
ghost use Rattle.guest_model.specs.Always.{IsKeptBySteps, HoldsAlways};
ghost use Rattle.guest_model.specs.Counting.{FewAreAdded, SeesFewObjects, StepsAddOne};
ghost use Rattle.guest_model.specs.First.{SeesFirstCall, GoesOnAfterFirstCall};
ghost use Rattle.guest_model.specs.Numbers.{KeepsWords, SeesInRange, AnswersAreWords, OneMakesWords, TwoMakeWords};
ghost use Rattle.guest_model.specs.Seeing.{EventsAreOfTheirThread, SeesGiven, SeesListed};
ghost use Rattle.guest_model.specs.Staying.{OtherThreadsStay};
ghost use Rattle.guest_model.specs.Throwing.{CoveringIsFound, HandlersCover};

/// What instructions make of numbers of 32 bits is of 32 bits, and so is a number that the library may give.
pub fn numbers_are_of_32_bits()
    ensures two { TwoMakeWords }
    ensures one { OneMakesWords }
    ensures given { AnswersAreWords }
{}

/// A handler that is found covers the instruction at which the frame stands.
pub fn handlers_cover()
    ensures cover { HandlersCover }
{}

/// Where a handler covers the instruction at which the frame stands, and takes what is thrown, one is found.
pub fn covering_handlers_are_found()
    ensures found { CoveringIsFound }
{}

/// What holds at the start, of the machine and of what the library saw, and is kept by each change that a step makes, holds
/// after every list of steps.
pub fn what_each_step_keeps_holds_always()
    ensures holds { (program : Program) (holds : Machine → List Event → Bool) → IsKeptBySteps program holds → HoldsAlways program holds }
{}

/// A step leaves each thread that was there as it was, but its own.
pub fn other_threads_stay()
    ensures stay { OtherThreadsStay }
{}

/// What the library sees of a step, a call, a return or an exception, is of the thread that makes the step.
pub fn events_are_of_their_thread()
    ensures own { EventsAreOfTheirThread }
{}

/// Whatever the steps are, a method of the library that gives something returns a value, and any other returns none; a number
/// that is returned is one of the method's type; and of a linked program each event is of a method of the listing.
pub fn sees_what_is_given()
    ensures sees { (program : Program) → SeesGiven program }
    ensures listed { (program : Program) → IsSound program → AreNamed program → SeesListed program }
{}

/// A step adds at most one object to the heap and at most one thread; so there are never more than the fields of the listing,
/// main's array and the steps, and the numbers of objects that the library sees are below that.
pub fn steps_add_one()
    ensures one { StepsAddOne }
    ensures few { FewAreAdded }
    ensures shown { SeesFewObjects }
{}

/// Where control begins in a set of places and does not leave it, the library sees only calls of methods that are called at
/// a place of the set, and the returns from these, whatever the steps are.
pub fn sees_only_what_is_called()
    ensures sees { (program : Program) (reached : Places) → HasInsns program → IsClosed program reached → SeesOnlyCalled program reached }
{}

/// Whatever the steps of a linked program are, a call passes as many arguments as its method takes, each number of 32 bits; and
/// a method without a result returns nothing, one whose result is a number one in the range of its type.
pub fn sees_numbers_in_range()
    ensures sees { (program : Program) → IsSound program → AreNamed program → AreLiterals program → SeesInRange program }
    // So is each number in a local of a frame that runs.
    ensures locals { (program : Program) → IsSound program → AreNamed program → AreLiterals program → KeepsWords program }
{}

/// The machine moves: where no class has an initialiser and the first instruction of `main` calls a static method of the
/// library that takes and gives nothing, the library sees the call in the first step, and its return in the next; `main`
/// then goes on after its call.
pub fn sees_the_first_call()
    ensures sees { SeesFirstCall }
    ensures goes { GoesOnAfterFirstCall }
{}
