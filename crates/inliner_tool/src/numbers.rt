//! The numbers under which faults are printed, and the fields after them: a row for each fault.

ghost use Rattle.std.specs.Prelude.{◌≡◌, ◌∷◌, [], IfOk};
ghost use Rattle.command_outputs.specs.declared.field.Field.TheVariants.{Count, Name};
ghost use Rattle.command_outputs.specs.Fields.{report};
ghost use Rattle.inliner_tool.specs.Numbers.{
  cells_report,
  certificate_report,
  check_report,
  class_report,
  code_report,
  condition_name,
  disobeying_report,
  event_report,
  input_report,
  length_report,
  link_report,
  listing_report,
  overlapping_report,
  policy_report,
  race_report,
  record_report,
  size_name,
  size_report,
  step_report,
  total_report,
  untyped_report,
};

use cert_checker::CheckFault;
use cert_format::CertForm;
use class_codec::ClassFault;
use class_linking::LinkFault;
use command_inputs::InputFault;
use command_outputs::{Field, Report};
use conspec_parse::PolicyFault;
use event_record::RecordFault;
use insn_codec::CodeFault;
use listing_text::ListFault;
use mon_base::{Bytes, NoMemory, push_count};
use offset_patch::Size;
use std::alloc::Global;

// ---- files

/// What is wrong with a class file.
pub fn class_report(alloc: Global, fault: ClassFault) -> Result<Report, NoMemory>
    ensures { IfOk result (λ r. r ≡ class_report fault) }
{
    match fault {
        ClassFault::Magic => Report::new(alloc, 101, []),
        ClassFault::Version { major } => Report::new(alloc, 102, [Field::Count(u64::from(major))]),
        ClassFault::Short { at } => Report::new(alloc, 103, [Field::Count(at)]),
        ClassFault::Tail { at } => Report::new(alloc, 104, [Field::Count(at)]),
        ClassFault::Tag { at, tag } => {
            Report::new(alloc, 105, [Field::Count(at), Field::Count(u64::from(tag))])
        }
        ClassFault::Index { at } => Report::new(alloc, 106, [Field::Count(at)]),
        ClassFault::TooLong { len } => Report::new(alloc, 107, [Field::Count(len)]),
        ClassFault::Memory => Report::new(alloc, 0, []),
    }
}

/// What is wrong with a listing.
pub fn listing_report(alloc: Global, fault: ListFault) -> Result<Report, NoMemory>
    ensures { IfOk result (λ r. r ≡ listing_report fault) }
{
    match fault {
        ListFault::Line { line } => Report::new(alloc, 161, [Field::Count(line)]),
        ListFault::Twice { line } => Report::new(alloc, 162, [Field::Count(line)]),
        ListFault::NoSuper { line } => Report::new(alloc, 163, [Field::Count(line)]),
        ListFault::TooMany { count } => Report::new(alloc, 164, [Field::Count(count)]),
        ListFault::Memory => Report::new(alloc, 0, []),
    }
}

/// What is wrong with a policy.
pub fn policy_report(alloc: Global, fault: PolicyFault) -> Result<Report, NoMemory>
    ensures { IfOk result (λ r. r ≡ policy_report fault) }
{
    match fault {
        PolicyFault::Syntax { at } => Report::new(alloc, 181, [Field::Count(at)]),
        PolicyFault::Name { at } => Report::new(alloc, 182, [Field::Count(at)]),
        PolicyFault::Kind { at } => Report::new(alloc, 183, [Field::Count(at)]),
        PolicyFault::Range { at } => Report::new(alloc, 184, [Field::Count(at)]),
        PolicyFault::NoMethod { at } => Report::new(alloc, 185, [Field::Count(at)]),
        PolicyFault::Twice { at } => Report::new(alloc, 186, [Field::Count(at)]),
        PolicyFault::Limit { at } => Report::new(alloc, 187, [Field::Count(at)]),
        PolicyFault::Builtin { at } => Report::new(alloc, 188, [Field::Count(at)]),
        PolicyFault::Memory => Report::new(alloc, 0, []),
    }
}

/// What is wrong with a certificate.
pub fn certificate_report(alloc: Global, fault: CertForm) -> Result<Report, NoMemory>
    ensures { IfOk result (λ r. r ≡ certificate_report fault) }
{
    match fault {
        CertForm::Form { at } => Report::new(alloc, 241, [Field::Count(at)]),
        CertForm::Memory => Report::new(alloc, 0, []),
    }
}

/// What is wrong with a record.
pub fn record_report(alloc: Global, fault: RecordFault) -> Result<Report, NoMemory>
    ensures { IfOk result (λ r. r ≡ record_report fault) }
{
    match fault {
        RecordFault::Line { line } => Report::new(alloc, 261, [Field::Count(line)]),
        RecordFault::Memory => Report::new(alloc, 0, []),
    }
}

/// Why a file is not read as what it is named for.
pub fn input_report(alloc: Global, fault: InputFault) -> Result<Report, NoMemory>
    ensures { IfOk result (λ r. r ≡ input_report fault) }
{
    match fault {
        InputFault::TooLong { len } => Report::new(alloc, 107, [Field::Count(len)]),
        InputFault::Class(fault) => class_report(alloc, fault),
        InputFault::Listing(fault) => listing_report(alloc, fault),
        InputFault::Policy(fault) => policy_report(alloc, fault),
        InputFault::Certificate(fault) => certificate_report(alloc, fault),
        InputFault::Record(fault) => record_report(alloc, fault),
        InputFault::Memory => Report::new(alloc, 0, []),
    }
}

// ---- programs

/// What is wrong with the code of a method.
pub fn code_report(alloc: Global, fault: CodeFault) -> Result<Report, NoMemory>
    ensures { IfOk result (λ r. r ≡ code_report fault) }
{
    match fault {
        CodeFault::Opcode { at, op } => {
            Report::new(alloc, 121, [Field::Count(at), Field::Count(u64::from(op))])
        }
        CodeFault::Cut { at } => Report::new(alloc, 122, [Field::Count(at)]),
        CodeFault::Target { at } => Report::new(alloc, 123, [Field::Count(at)]),
        CodeFault::LeftOut { at, op } => {
            Report::new(alloc, 124, [Field::Count(at), Field::Count(u64::from(op))])
        }
        CodeFault::Form { at } => Report::new(alloc, 125, [Field::Count(at)]),
        CodeFault::End { at } => Report::new(alloc, 126, [Field::Count(at)]),
        CodeFault::Memory => Report::new(alloc, 0, []),
    }
}

/// The first condition of linking that fails.
pub fn link_report(alloc: Global, fault: LinkFault) -> Result<Report, NoMemory>
    ensures { IfOk result (λ r. r ≡ link_report fault) }
{
    match fault {
        LinkFault::NoMain => Report::new(alloc, 141, []),
        LinkFault::Twice { class } => Report::new(alloc, 142, [Field::Name(class)]),
        LinkFault::Unresolved { class, name } => member_report(alloc, 143, class, name),
        LinkFault::SuperLeftOut { class } => Report::new(alloc, 144, [Field::Name(class)]),
        LinkFault::NameTaken { class } => Report::new(alloc, 145, [Field::Name(class)]),
        LinkFault::Method { class, name } => member_report(alloc, 146, class, name),
        LinkFault::TooMany { count } => Report::new(alloc, 147, [Field::Count(count)]),
        LinkFault::Code {
            class,
            method,
            fault,
        } => {
            let code = code_report(alloc, fault)?;
            let place = [Field::Name(class), Field::Count(u64::from(method))];
            code.within(alloc, 148, place)
        }
        LinkFault::Overrides { class, name } => member_report(alloc, 149, class, name),
        LinkFault::Name { class } => Report::new(alloc, 150, [Field::Name(class)]),
        LinkFault::Operand { class, method, at } => place_report(alloc, 151, class, method, at),
        LinkFault::Memory => Report::new(alloc, 0, []),
    }
}

fn member_report(alloc: Global, number: u32, class: Bytes, name: Bytes) -> Result<Report, NoMemory>
    ensures { IfOk result (λ r. r ≡ report number (Name class ∷ Name name ∷ [])) }
{
    Report::new(alloc, number, [Field::Name(class), Field::Name(name)])
}

fn place_report(
    alloc: Global,
    number: u32,
    class: Bytes,
    method: u32,
    at: u32,
) -> Result<Report, NoMemory>
    ensures { IfOk result (λ r. r ≡ report number (Name class ∷ Count method ∷ Count at ∷ [])) }
{
    let method = Field::Count(u64::from(method));
    let at = Field::Count(u64::from(at));
    Report::new(alloc, number, [Field::Name(class), method, at])
}

/// The bytes that the class files have in all, which are too many.
pub fn total_report(alloc: Global, len: u64) -> Result<Report, NoMemory>
    ensures { IfOk result (λ r. r ≡ total_report len) }
{
    Report::new(alloc, 152, [Field::Count(len)])
}

/// An instruction at which no types fit.
pub fn untyped_report(alloc: Global, class: Bytes, method: u32, at: u32) -> Result<Report, NoMemory>
    ensures { IfOk result (λ r. r ≡ untyped_report class method at) }
{
    place_report(alloc, 201, class, method, at)
}

// ---- answers that are no

/// The first test of a certificate that fails, in the class of this name where it is of one.
pub fn check_report(alloc: Global, fault: CheckFault, name: Bytes) -> Result<Report, NoMemory>
    ensures { IfOk result (λ r. r ≡ check_report fault name) }
{
    match fault {
        CheckFault::Typing {
            method,
            at,
            rule,
            ..
        } => rule_report(alloc, 202, name, (method, at, rule)),
        CheckFault::Shape { method, .. } => {
            Report::new(
                alloc,
                242,
                [Field::Name(name), Field::Count(u64::from(method))],
            )
        }
        CheckFault::StateClass { field } => {
            Report::new(alloc, 244, [Field::Count(u64::from(field))])
        }
        CheckFault::Local {
            method,
            at,
            rule,
            ..
        } => rule_report(alloc, 243, name, (method, at, rule)),
    }
}

/// A rule that fails at an instruction of a method.
fn rule_report(
    alloc: Global,
    number: u32,
    class: Bytes,
    place: (u32, u32, u8),
) -> Result<Report, NoMemory>
    ensures { IfOk result (λ r. r
        ≡ report number (Name class ∷ Count place.0 ∷ Count place.1 ∷ Count place.2 ∷ [])) }
{
    let (method, at, rule) = place;
    let method = Field::Count(u64::from(method));
    let at = Field::Count(u64::from(at));
    let rule = Field::Count(u64::from(rule));
    Report::new(alloc, number, [Field::Name(class), method, at, rule])
}

/// The first event of a run that is refused.
pub fn event_report(alloc: Global, index: u64) -> Result<Report, NoMemory>
    ensures { IfOk result (λ r. r ≡ event_report index) }
{
    Report::new(alloc, 191, [Field::Count(index)])
}

/// A condition of race-freeness that is broken, with a state and events that break it.
pub fn race_report(alloc: Global, condition: u8, example: Bytes) -> Result<Report, NoMemory>
    ensures { IfOk result (λ r. r ≡ race_report condition example) }
{
    let condition = Field::Name(condition_name(alloc, condition)?);
    Report::new(alloc, 245, [condition, Field::Name(example)])
}

/// The name of the condition of this number.
fn condition_name(alloc: Global, condition: u8) -> Result<Bytes, NoMemory>
    ensures { IfOk result (λ name. name ≡ condition_name condition) }
{
    let mut name = Bytes::from_slice(alloc, b"M")?;
    push_count(&mut name, u64::from(condition))?;
    Ok(name)
}

/// The points that would have to be tried for two clauses, which are too many.
pub fn cells_report(alloc: Global, first: u32, second: u32, count: u64) -> Result<Report, NoMemory>
    ensures { IfOk result (λ r. r ≡ cells_report first second count) }
{
    let first = Field::Count(u64::from(first));
    let second = Field::Count(u64::from(second));
    Report::new(alloc, 222, [first, second, Field::Count(count)])
}

/// The first step of a run that is not enabled.
pub fn step_report(alloc: Global, index: u64) -> Result<Report, NoMemory>
    ensures { IfOk result (λ r. r ≡ step_report index) }
{
    Report::new(alloc, 301, [Field::Count(index)])
}

/// The first step of a run whose event is refused, so that it is not lifted.
pub fn disobeying_report(alloc: Global, index: u64) -> Result<Report, NoMemory>
    ensures { IfOk result (λ r. r ≡ disobeying_report index) }
{
    Report::new(alloc, 281, [Field::Count(index)])
}

/// The first step of a run at which calls overlap, so that it is not lifted.
pub fn overlapping_report(alloc: Global, index: u64) -> Result<Report, NoMemory>
    ensures { IfOk result (λ r. r ≡ overlapping_report index) }
{
    Report::new(alloc, 282, [Field::Count(index)])
}

// ---- sizes

/// A size of a method that does not fit, by its class and its index there.
pub fn size_report(
    alloc: Global,
    class: Bytes,
    method: u32,
    what: Size,
    value: i64,
) -> Result<Report, NoMemory>
    ensures { IfOk result (λ r. r ≡ size_report class method what value) }
{
    let method = Field::Count(u64::from(method));
    let what = Field::Name(Bytes::from_slice(alloc, size_name(what))?);
    let value = Field::Number(value);
    Report::new(alloc, 223, [Field::Name(class), method, what, value])
}

fn size_name(what: Size) -> &'static [u8]
    ensures { result.now ≡ size_name what }
{
    match what {
        Size::Stack => b"stack",
        Size::Locals => b"locals",
        Size::Entries => b"entries",
        Size::Pool => b"pool",
        Size::Length => b"length",
        Size::Branch => b"branch",
    }
}

/// The bytes of a certificate, which are too many.
pub fn length_report(alloc: Global, value: u64) -> Result<Report, NoMemory>
    ensures { IfOk result (λ r. r ≡ length_report value) }
{
    let class = Field::Name(Bytes::from_slice(alloc, b"-")?);
    let what = Field::Name(Bytes::from_slice(alloc, b"certificate")?);
    Report::new(
        alloc,
        223,
        [class, Field::Count(0), what, Field::Count(value)],
    )
}
