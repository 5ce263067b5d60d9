//! What holds of certificates that are made, and of canonical typings.

ghost use Rattle.cert_maker.specs.Accepting.{WovenIsAccepted};
ghost use Rattle.cert_maker.specs.CanonicalIsTyped.{CanonicalIsTyped};

/// A woven program is accepted with the certificate that is made of its types.
pub fn woven_is_accepted()
    ensures accepted { WovenIsAccepted }
{}

/// The canonical typing of a typed program is a typing of it.
pub fn canonical_is_typed()
    ensures { CanonicalIsTyped }
{}
