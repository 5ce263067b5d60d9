//! What generated bundles are read as and link to. (docs/GENERATED.md)
//!
//! Nothing here is run: the clauses are laws, by which `load` refuses none of its own files.
#![tactic(auto)]

ghost use Rattle.bundle_linking.specs.Laws.{BundlesAreShort, BundlesLink};
ghost use Rattle.bundle_linking.specs.Texts.{ListingIsRead, PolicyIsRead};

/// The class files link to the program that `generated_program` says. (Nothing to run: the clause is a law.)
pub fn bundles_link()
    ensures { BundlesLink }
{}

/// They have at most 16 MiB in all. (Nothing to run: the clause is a law.)
pub fn bundles_are_short()
    ensures { BundlesAreShort }
{}

/// The text of the listing is read as the listing of `api/Net`. (Nothing to run: the clause is a law.)
pub fn bundle_listing_is_read()
    ensures { ListingIsRead }
{}

/// The text of the policy is read, over that listing, as what it says. (Nothing to run: the clause is a law.)
pub fn bundle_policy_is_read()
    ensures { PolicyIsRead }
{}
