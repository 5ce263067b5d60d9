//! What holds of the points at which a policy is tried.

ghost use Rattle.race_free_check.specs.Laws.{BrokenPointsRace, BrokenPointsShow, PointsAreEnough};

/// A policy whose conditions no point breaks is race-free.
pub fn points_are_enough()
    ensures { PointsAreEnough }
{}

/// A point that breaks a condition is of a state in range and events that can be, which break it.
pub fn broken_points_show()
    ensures { BrokenPointsShow }
{}

/// A point that breaks a condition is of a state and events that can be, so the policy is not race-free.
pub fn broken_points_race()
    ensures { BrokenPointsRace }
{}
