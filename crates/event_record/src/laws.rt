//! What holds of all texts of records.

ghost use Rattle.event_record.specs.FirstFault.{EndIsMissed, FaultStays};

/// Texts that agree up to the line of the fault have the same fault. Where the fault is that no end line is there, it is at
/// the line after the last one.
pub fn faults_stay()
    ensures stays { FaultStays }
    ensures missed { EndIsMissed }
{}
