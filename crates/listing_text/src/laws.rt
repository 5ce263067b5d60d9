//! What holds of all texts of listings.

ghost use Rattle.listing_text.specs.FirstFault.{FaultIsFinal, FaultStays, MissingStays};

/// Texts that agree up to the line of the fault have the same fault. Only a class that a method or field names may stand
/// after it.
pub fn faults_stay()
    // 161, 162, and 163 at a class
    ensures told { FaultStays }
    ensures refused { FaultIsFinal }
    // 163 at any line
    ensures missing { MissingStays }
{}
