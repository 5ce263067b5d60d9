//! Why a file is not read as what it is named for.

ghost use Rattle.std.specs.Prelude.{◌≡◌};
ghost use Rattle.command_inputs.specs.Fault.{certificate_told, class_told, listing_told, policy_told, record_told};

use cert_format::CertForm;
use class_codec::ClassFault;
use conspec_parse::PolicyFault;
use event_record::RecordFault;
use listing_text::ListFault;

/// Why a file is not read as what it is named for.
#[derive(Clone, Copy)]
pub enum InputFault {
    /// It is longer than a file of its kind may be, in bytes.
    TooLong { len: u64 },
    Listing(ListFault),
    Policy(PolicyFault),
    Certificate(CertForm),
    Class(ClassFault),
    Record(RecordFault),
    /// Memory ran out.
    Memory,
}

/// The fault of a listing. Want of memory is one of its own.
pub fn listing_told(fault: ListFault) -> InputFault
    ensures { result ≡ listing_told fault }
{
    match fault {
        ListFault::Memory => InputFault::Memory,
        fault => InputFault::Listing(fault),
    }
}

/// The fault of a policy.
pub fn policy_told(fault: PolicyFault) -> InputFault
    ensures { result ≡ policy_told fault }
{
    match fault {
        PolicyFault::Memory => InputFault::Memory,
        fault => InputFault::Policy(fault),
    }
}

/// The fault of a certificate.
pub fn certificate_told(fault: CertForm) -> InputFault
    ensures { result ≡ certificate_told fault }
{
    match fault {
        CertForm::Memory => InputFault::Memory,
        fault => InputFault::Certificate(fault),
    }
}

/// The fault of a record.
pub fn record_told(fault: RecordFault) -> InputFault
    ensures { result ≡ record_told fault }
{
    match fault {
        RecordFault::Memory => InputFault::Memory,
        fault => InputFault::Record(fault),
    }
}

/// The fault of a class file.
pub fn class_told(fault: ClassFault) -> InputFault
    ensures { result ≡ class_told fault }
{
    match fault {
        ClassFault::Memory => InputFault::Memory,
        fault => InputFault::Class(fault),
    }
}
