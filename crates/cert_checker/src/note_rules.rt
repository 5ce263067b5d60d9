//! The rules of the notes at one instruction.

ghost use Rattle.std.specs.Prelude.{◌≡◌, ◌&&◌, ◌||◌, false, not, drop, if◌then◌else◌, is_some, option_copied, option_map, Some};
ghost use Rattle.insn_codec.specs.Shapes.{shape_of};
ghost use Rattle.cert_checker.specs.declared.passing.Test.TheVariants.{StopsWell};
ghost use Rattle.block_logic.specs.Borrowed.{asked_borrowed, row_borrowed};
ghost use Rattle.block_logic.specs.Notes.{all_pass, calls_well, catches_all, catches_well, first_broken};
ghost use Rattle.block_logic.specs.Notes.{is_duty_of, is_free, is_granted, is_held, is_owed_for_throw};
ghost use Rattle.block_logic.specs.Notes.{is_stop, leaves_alone, names_method, note_fault, row_fault, rules_at, thrown_by};
ghost use Rattle.block_logic.specs.Operands.{calls, enters, has_clause, leaves, writes_static};
ghost use Rattle.cert_checker.specs.Testing.{goes_well, passes};

use crate::passing::{Test, all_pass, first_handler, is_stop, meets, next_pass};
use block_logic::{
    AskedRef, Here, RowRef, Rules, calls, due_asked, enters, has_clause, is_duty, is_exceptional,
    is_open, is_ready, is_way_out, leaves, pushes_state, row, thrown, variable_named,
    writes_static,
};
use bytecode_model::{Handler, Method, Target};
use cert_format::{Note, Site};
use insn_codec::{Shape, shape_of};

/// The first rule that is broken at an instruction of a method that is reached, by the notes of its instructions.
pub fn note_fault(rules: &Rules<'_>, told: &[Note], method: &Method, at: u32) -> Option<u8>
    ensures { result ≡ note_fault rules.now told.now method.now at }
{
    let insn = method.insns.as_slice().get(at as usize)?;
    let target = method.refs.as_slice().get(at as usize)?;
    let here = Here {
        at,
        insn,
        shape: shape_of(insn),
        target,
    };
    match told.get(at as usize) {
        Some(note) => row_fault(rules, told, method, &here, note),
        None => Some(8),
    }
}

/// The same by the note of the instruction.
fn row_fault(
    rules: &Rules<'_>,
    told: &[Note],
    method: &Method,
    here: &Here<'_>,
    note: &Note,
) -> Option<u8>
    ensures { result ≡ row_fault rules.now told.now method.now here.now note.now }
{
    if !leaves_alone(rules, told, note, here) {
        return Some(1);
    }
    if !calls_well(rules, note, here) {
        return Some(2);
    }
    if !catches_well(rules, told, method, note, here) {
        return Some(3);
    }
    let row = row(rules, note, here.shape, here.target);
    table_fault(rules, told, method, here, note, row.as_ref())
}

/// The first of the rules from the fourth on, with the row of the instruction.
fn table_fault(
    rules: &Rules<'_>,
    told: &[Note],
    method: &Method,
    here: &Here<'_>,
    note: &Note,
    row: Option<&RowRef<'_>>,
) -> Option<u8>
    ensures { result
        ≡ first_broken (drop 3 (rules_at rules.now told.now method.now note.now here.now
        (option_map row_borrowed (option_copied row.entry)))) }
{
    // Where what comes next is as the table has it, no rule from the fourth on is broken.
    if goes_as_asked(rules, told, method, note, here, row) {
        return None;
    }
    Some(rule_broken(rules, told, method, here, note, row))
}

/// The first of them, where what comes next is not as the table has it.
fn rule_broken(
    rules: &Rules<'_>,
    told: &[Note],
    method: &Method,
    here: &Here<'_>,
    note: &Note,
    row: Option<&RowRef<'_>>,
) -> u8
    requires { goes_well rules.now told.now method.now note.now here.now (option_map row_borrowed (option_copied row)) ≡ false }
    ensures { Some result
        ≡ first_broken (drop 3 (rules_at rules.now told.now method.now note.now here.now
        (option_map row_borrowed (option_copied row.entry)))) }
{
    let shape = here.shape;
    let has_row = row.is_some();
    if !enters_well(note, shape, has_row) {
        return 4;
    }
    if !checks_well(note, shape, has_row) {
        return 5;
    }
    if !writes_well(note, shape, has_row) {
        return 6;
    }
    if !stops_as_asked(rules, told, method, note, here, row) {
        return 7;
    }
    8
}

// ---- what a note is

fn is_free(note: &Note) -> bool
    ensures { result ≡ is_free note.now }
{
    matches!(note, Note::Free)
}

fn is_held(note: &Note) -> bool
    ensures { result ≡ is_held note.now }
{
    matches!(note, Note::Held { .. })
}

/// Whether an update is due, or made, because the call threw.
fn is_owed_for_throw(note: &Note) -> bool
    ensures { result ≡ is_owed_for_throw note.now }
{
    match note {
        Note::Owed { site, .. } => is_exceptional(site.phase),
        _ => false,
    }
}

// ---- 1: the client

/// Whether the client leaves the policy's variables alone, and the lock's class is pushed where the lock is taken.
fn leaves_alone(rules: &Rules<'_>, told: &[Note], note: &Note, here: &Here<'_>) -> bool
    ensures { result ≡ leaves_alone rules.now told.now note.now here.now }
{
    if !is_free(note) {
        return true;
    }
    if variable_named(rules.state, here.target).is_some() {
        return false;
    }
    !pushes_state(here.shape, here.target) || next_pass(rules, Test::Takes, told, None, here)
}

// ---- 2: calls

/// Whether the operand names the method of the site.
fn names_method(site: Site, target: &Target) -> bool
    ensures { result ≡ names_method site target.now }
{
    match target {
        Target::ApiMethod(method) => *method == u32::from(site.method),
        _ => false,
    }
}

/// Whether a call of the method is granted, with all arguments loaded and with the lock held exactly where it is held round the call.
fn is_granted(rules: &Rules<'_>, target: &Target, note: &Note) -> bool
    ensures { result ≡ is_granted rules.now target.now note.now }
{
    match note {
        Note::Granted {
            site,
            locked,
            loaded,
            ..
        } => names_method(*site, target) && is_ready(rules, *site, *locked, *loaded),
        _ => false,
    }
}

/// Whether a call of a method with a clause is granted; any other is the client's, or the way out.
fn calls_well(rules: &Rules<'_>, note: &Note, here: &Here<'_>) -> bool
    ensures { result ≡ calls_well rules.now note.now here.now }
{
    if !calls(here.shape) {
        return true;
    }
    if has_clause(rules.policy, here.target) {
        is_granted(rules, here.target, note)
    } else {
        is_free(note) || is_stop(note) && is_way_out(here.target)
    }
}

// ---- 3: what a call throws

/// What is asked where a granted call throws.
fn thrown_by<'a>(rules: &Rules<'_>, note: &Note) -> AskedRef<'a>
    ensures { asked_borrowed result ≡ thrown_by rules.now note.now }
{
    match note {
        Note::Granted { site, .. } => due_asked(thrown(rules, *site)),
        _ => AskedRef::Nothing,
    }
}

/// Whether the handler takes any class, and after it an update is due for the exception.
fn catches_all(rules: &Rules<'_>, told: &[Note], note: &Note, handler: &Handler) -> bool
    ensures { result ≡ catches_all rules.now told.now note.now handler.now }
{
    if handler.class.is_some() {
        return false;
    }
    match told.get(handler.at as usize) {
        Some(there) => is_owed_for_throw(there) || meets(rules, &thrown_by(rules, note), there),
        None => false,
    }
}

fn is_duty_of(rules: &Rules<'_>, target: &Target) -> bool
    ensures { result ≡ is_duty_of rules.now target.now }
{
    match target {
        Target::ApiMethod(method) => is_duty(rules, *method),
        _ => false,
    }
}

/// Whether the first handler takes all that a call with a clause throws, where that is a duty.
fn catches_well(
    rules: &Rules<'_>,
    told: &[Note],
    method: &Method,
    note: &Note,
    here: &Here<'_>,
) -> bool
    ensures { result ≡ catches_well rules.now told.now method.now note.now here.now }
{
    if !throws_duty(rules, here) {
        return true;
    }
    match first_handler(here.at, &method.handlers) {
        Some(handler) => catches_all(rules, told, note, handler),
        None => false,
    }
}

/// Whether a call is made that has a clause, and what it throws is a duty.
fn throws_duty(rules: &Rules<'_>, here: &Here<'_>) -> bool
    ensures { result ≡ (calls (shape_of here.now.insn) && (has_clause rules.now.policy here.now.ref && is_duty_of rules.now here.now.ref)) }
{
    if !calls(here.shape) {
        return false;
    }
    has_clause(rules.policy, here.target) && is_duty_of(rules, here.target)
}

// ---- 4, 5 and 6: what is in the table

/// Whether monitors are the client's, or in the table.
fn enters_well(note: &Note, shape: Shape, has_row: bool) -> bool
    ensures { result ≡ (not (enters shape || leaves shape) || (is_free note.now || has_row)) }
{
    !(enters(shape) || leaves(shape)) || is_free(note) || has_row
}

/// Whether a check does what the table has, but for what it writes.
fn checks_well(note: &Note, shape: Shape, has_row: bool) -> bool
    ensures { result ≡ (not (is_held note.now) || (writes_static shape || has_row)) }
{
    !is_held(note) || writes_static(shape) || has_row
}

/// Whether what is written is the client's, or in the table.
fn writes_well(note: &Note, shape: Shape, has_row: bool) -> bool
    ensures { result ≡ (not (writes_static shape) || (is_free note.now || has_row)) }
{
    !writes_static(shape) || is_free(note) || has_row
}

// ---- 7 and 8: what comes next

/// Whether the way out is as the table has it, and begins where it is asked for.
fn stops_as_asked(
    rules: &Rules<'_>,
    told: &[Note],
    method: &Method,
    note: &Note,
    here: &Here<'_>,
    row: Option<&RowRef<'_>>,
) -> bool
    ensures { result ≡ (if is_stop note.now then is_some row.entry
        else all_pass (passes rules.now StopsWell) told.now (option_map row_borrowed (option_copied row.entry)) method.now here.now) }
{
    if is_stop(note) {
        row.is_some()
    } else {
        all_pass(rules, Test::StopsWell, told, row, method, here)
    }
}

/// Whether what comes next is as the table has it; a method begins in no block.
fn goes_as_asked(
    rules: &Rules<'_>,
    told: &[Note],
    method: &Method,
    note: &Note,
    here: &Here<'_>,
    row: Option<&RowRef<'_>>,
) -> bool
    ensures { result ≡ goes_well rules.now told.now method.now note.now here.now (option_map row_borrowed (option_copied row.entry)) }
{
    row.is_some()
        && all_pass(rules, Test::Meets, told, row, method, here)
        && (here.at != 0 || is_open(rules, note))
}
