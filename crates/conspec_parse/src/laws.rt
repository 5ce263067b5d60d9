//! What holds of the policies that texts are read as, and of the faults that texts have.

ghost use Rattle.conspec_parse.specs.Deciding.{BeginningsAreRight, FaultsAreDecided};
ghost use Rattle.conspec_parse.specs.Telling.{KindsAreTold, ResultsAreTold};

/// Texts that agree up to the token that decides have the same fault.
pub fn faults_are_decided()
    ensures { FaultsAreDecided }
{}

/// Where no policy goes on with a token, the tokens before it begin a policy of the grammar.
pub fn beginnings_are_right()
    ensures { BeginningsAreRight }
{}

/// A policy that is read tells the kinds of the arguments and of the results of its methods.
pub fn kinds_are_told()
    ensures arguments { KindsAreTold }
    ensures results { ResultsAreTold }
{}
