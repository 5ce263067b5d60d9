//! What comes next after an instruction, and whether the notes there are as they are asked to be.

ghost use Rattle.std.specs.Prelude.{◌≡◌, option_copied, option_map, Some};
ghost use Rattle.std.specs.List.{list_all};
ghost use Rattle.insn_codec.specs.Control.{jump_targets};
ghost use Rattle.block_logic.specs.declared.borrowed.RowRef.TheVariants.{Tests};
ghost use Rattle.block_logic.specs.Borrowed.{asked_borrowed, row_borrowed};
ghost use Rattle.block_logic.specs.Notes.{all_pass, first_handler, handlers_of, handlers_pass, is_stop};
ghost use Rattle.block_logic.specs.Notes.{is_taking, meets, next_pass, note_passes, thrown_of};
ghost use Rattle.cert_checker.specs.Testing.{go_on_pass, passes};

use block_logic::{
    AskedRef, CheckRef, Here, RowRef, Rules, due_asked, failing, holding_on, is_open, may_stand,
    takes_for_call,
};
use bytecode_model::{Handler, Handlers, Method};
use cert_format::Note;
use insn_codec::{Insn, goes_on};

/// How what is asked of a note is tested.
#[derive(Clone, Copy)]
pub enum Test {
    /// It is so.
    Meets,
    /// It is so where a way out begins.
    StopsWell,
    /// The lock is about to be taken, whatever is asked.
    Takes,
}

/// Whether a note is as it is asked to be.
pub fn meets(rules: &Rules<'_>, asked: &AskedRef<'_>, note: &Note) -> bool
    ensures { result ≡ meets rules.now (asked_borrowed asked.now) note.now }
{
    match asked {
        AskedRef::Open => is_open(rules, note),
        AskedRef::Taking => takes_for_call(rules.policy, note),
        AskedRef::Given(given) => may_stand(rules.policy, given, note),
        AskedRef::Nothing => false,
    }
}

/// Whether a note passes a test of what is asked of it.
fn passes(rules: &Rules<'_>, test: Test, asked: &AskedRef<'_>, note: &Note) -> bool
    ensures { result ≡ passes rules.now test (asked_borrowed asked.now) note.now }
{
    match test {
        Test::Meets => meets(rules, asked, note),
        Test::StopsWell => !is_stop(note) || meets(rules, asked, note),
        Test::Takes => is_taking(note),
    }
}

/// Whether the note is on the way out.
pub fn is_stop(note: &Note) -> bool
    ensures { result ≡ is_stop note.now }
{
    matches!(note, Note::Stop { .. })
}

fn is_taking(note: &Note) -> bool
    ensures { result ≡ is_taking note.now }
{
    matches!(note, Note::Taking(_))
}

/// Whether the note of the instruction of this index is there, and passes.
fn note_passes(
    rules: &Rules<'_>,
    test: Test,
    told: &[Note],
    asked: &AskedRef<'_>,
    at: usize,
) -> bool
    ensures { result ≡ note_passes (passes rules.now test) told.now (asked_borrowed asked.now) at }
{
    match told.get(at) {
        Some(note) => passes(rules, test, asked, note),
        None => false,
    }
}

// ---- the next instruction, and those that are jumped to

/// Whether the notes of the instructions that may come next pass.
pub fn next_pass(
    rules: &Rules<'_>,
    test: Test,
    told: &[Note],
    row: Option<&RowRef<'_>>,
    here: &Here<'_>,
) -> bool
    ensures { result ≡ next_pass (passes rules.now test) told.now (option_map row_borrowed (option_copied row.entry)) here.now }
{
    match row {
        Some(RowRef::Leads(asked)) => go_on_pass(rules, test, told, asked, asked, here),
        Some(RowRef::Tests { check, jumps }) => tests_pass(rules, test, told, *check, *jumps, here),
        Some(RowRef::Calls { past, .. }) => {
            let past = due_asked(*past);
            go_on_pass(rules, test, told, &past, &AskedRef::Nothing, here)
        }
        None => go_on_pass(
            rules,
            test,
            told,
            &AskedRef::Nothing,
            &AskedRef::Nothing,
            here,
        ),
    }
}

/// Whether they pass after a test of the next atom, which holds where it jumps, or else where it does not.
fn tests_pass(
    rules: &Rules<'_>,
    test: Test,
    told: &[Note],
    check: CheckRef<'_>,
    jumps: bool,
    here: &Here<'_>,
) -> bool
    ensures { result ≡ next_pass (passes rules.now test) told.now (Some (row_borrowed (Tests check.entry jumps))) here.now }
{
    let holds = AskedRef::Given(holding_on(check));
    let fails = AskedRef::Given(failing(check));
    if jumps {
        go_on_pass(rules, test, told, &fails, &holds, here)
    } else {
        go_on_pass(rules, test, told, &holds, &fails, here)
    }
}

/// Whether the note of the next instruction passes what is asked of it, and those that are jumped to what is asked of them.
fn go_on_pass<'a>(
    rules: &Rules<'_>,
    test: Test,
    told: &[Note],
    past: &AskedRef<'a>,
    jump: &AskedRef<'a>,
    here: &Here<'_>,
) -> bool
    ensures { result ≡ go_on_pass (passes rules.now test) told.now (asked_borrowed past.now) (asked_borrowed jump.now) here.now }
{
    let next = here.at as usize + 1;
    (!goes_on(here.insn.opcode()) || note_passes(rules, test, told, past, next))
        && jumps_pass(rules, test, told, jump, here.insn)
}

/// Whether the notes of the instructions that are jumped to pass.
fn jumps_pass(
    rules: &Rules<'_>,
    test: Test,
    told: &[Note],
    asked: &AskedRef<'_>,
    insn: &Insn,
) -> bool
    ensures { result ≡ list_all (note_passes (passes rules.now test) told.now (asked_borrowed asked.now)) (jump_targets insn.now) }
{
    match insn {
        Insn::Branch { to, .. } => note_passes(rules, test, told, asked, *to as usize),
        Insn::GotoW { to } => note_passes(rules, test, told, asked, *to as usize),
        Insn::Table { other, targets, .. } => {
            note_passes(rules, test, told, asked, *other as usize)
                && notes_pass(rules, test, told, asked, targets.as_slice())
        }
        Insn::Lookup { other, targets, .. } => {
            note_passes(rules, test, told, asked, *other as usize)
                && notes_pass(rules, test, told, asked, targets.as_slice())
        }
        _ => true,
    }
}

fn notes_pass(
    rules: &Rules<'_>,
    test: Test,
    told: &[Note],
    asked: &AskedRef<'_>,
    places: &[u32],
) -> bool
    ensures { result ≡ list_all (note_passes (passes rules.now test) told.now (asked_borrowed asked.now)) places.now }
{
    places
        .iter()
        .all(|at| note_passes(rules, test, told, asked, *at as usize))
}

// ---- handlers

/// What is asked of the handlers that may take what is thrown.
fn asked_of_handlers<'a>(row: Option<&RowRef<'a>>) -> AskedRef<'a>
    ensures { asked_borrowed result ≡ thrown_of (option_map row_borrowed (option_copied row.entry)) }
{
    match row {
        Some(RowRef::Leads(_)) => AskedRef::Open,
        Some(RowRef::Tests { .. }) => AskedRef::Open,
        Some(RowRef::Calls { thrown, .. }) => due_asked(*thrown),
        None => AskedRef::Nothing,
    }
}

/// Whether the notes of the handlers that may take what is thrown pass.
fn handlers_pass(
    rules: &Rules<'_>,
    test: Test,
    told: &[Note],
    row: Option<&RowRef<'_>>,
    method: &Method,
    here: &Here<'_>,
) -> bool
    ensures { result
        ≡ handlers_pass (passes rules.now test) told.now (option_map row_borrowed (option_copied row.entry)) method.now here.now }
{
    let asked = asked_of_handlers(row);
    covering_pass(rules, test, told, &asked, here.at, &method.handlers)
}

/// Whether the notes of the handlers that cover the instruction pass, up to the first that takes any class.
fn covering_pass(
    rules: &Rules<'_>,
    test: Test,
    told: &[Note],
    asked: &AskedRef<'_>,
    at: u32,
    handlers: &Handlers,
) -> bool
    ensures { result ≡ list_all (note_passes (passes rules.now test) told.now (asked_borrowed asked.now)) (handlers_of at handlers.now) }
{
    let mut near = handlers.near(at);
    while let Some(handler) = near.next() {
        if handler.covers(at) {
            if !note_passes(rules, test, told, asked, handler.at as usize) {
                return false;
            }
            if handler.class.is_none() {
                return true;
            }
        }
    }
    true
}

/// The first handler that covers the instruction.
pub fn first_handler(at: u32, handlers: &Handlers) -> Option<&Handler>
    ensures { option_copied result ≡ first_handler at handlers.now }
{
    let mut near = handlers.near(at);
    while let Some(handler) = near.next() {
        if handler.covers(at) {
            return Some(handler);
        }
    }
    None
}

/// Whether the notes of all instructions that may come next pass, and of the handlers.
pub fn all_pass(
    rules: &Rules<'_>,
    test: Test,
    told: &[Note],
    row: Option<&RowRef<'_>>,
    method: &Method,
    here: &Here<'_>,
) -> bool
    ensures { result ≡ all_pass (passes rules.now test) told.now (option_map row_borrowed (option_copied row.entry)) method.now here.now }
{
    next_pass(rules, test, told, row, here) && handlers_pass(rules, test, told, row, method, here)
}
