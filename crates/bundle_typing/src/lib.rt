//! That what generated bundles link to can be typed: the types are given by hand, two instructions a site. (docs/GENERATED.md)
//!
//! Nothing here is run: the clause is a law, by which `load` refuses none of its own files.
#![tactic(auto)]

ghost use Rattle.bundle_typing.specs.Laws.{BundlesCanBeTyped};

/// Each method of the program of a bundle has frames that meet the rules at all of its instructions. (Nothing to run: the
/// clause is a law.)
pub fn bundles_can_be_typed()
    ensures { BundlesCanBeTyped }
{}
