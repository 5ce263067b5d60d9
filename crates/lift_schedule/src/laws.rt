//! What lifting gives.

ghost use Rattle.lift_schedule.specs.Laws.{LiftsAreTold};

/// Where `lift` gives lines, the steps are a run of the client that the policy accepts, and the lines are those of the lifted one; else it
/// tells the first step that the client does not make, whose event the policy refuses, or at which in mode hold a call with clauses
/// overlaps another. And each such run is lifted, where the woven program makes the lifted steps.
pub fn lifts_are_told()
    ensures { LiftsAreTold }
{}
