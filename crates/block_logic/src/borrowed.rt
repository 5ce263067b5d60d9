//! Terms, notes and rows that stand nowhere as a whole. The table asks for notes with lists of terms that no certificate
//! has; what is told here takes no memory, and is compared with the note that stands there.

ghost use Rattle.std.specs.Prelude.{◌≡◌, option_map};
ghost use Rattle.block_logic.specs.Borrowed.{asked_borrowed, due_borrowed, note_borrowed, row_borrowed};
ghost use Rattle.block_logic.specs.Rows.{gives, leads};

use cert_format::{Site, Term};
use conspec_automaton::{Clause, Policy};
use conspec_tree::Update;

/// A term, whose numbers may be larger than those that a certificate tells.
#[derive(Clone, Copy)]
pub enum WideTerm {
    /// This number.
    Const(i32),
    /// The policy's variable of this number.
    Var(usize),
    /// That variable and this addend.
    VarAdd(usize, i32),
    /// The argument of this number of the method.
    Arg(usize),
    /// What the method returned.
    Result,
    /// The class whose monitor is the lock.
    Lock,
}

/// A list of terms.
#[derive(Clone, Copy)]
pub enum TermsRef<'a> {
    /// These.
    Told(&'a [Term]),
    /// These, and another one on top.
    Pushed {
        below: &'a [Term],
        top: WideTerm,
    },
    /// These, with another one in the place of this number.
    Written {
        map: &'a [Term],
        var: usize,
        term: WideTerm,
    },
    /// The policy's variables once the updates are made.
    After {
        policy: &'a Policy,
        updates: &'a [Update],
    },
}

/// The note of a check that was made so far.
#[derive(Clone, Copy)]
pub struct HeldRef<'a> {
    pub site: Site,
    pub failed: usize,
    pub holding: usize,
    pub terms: TermsRef<'a>,
    pub map: TermsRef<'a>,
}

/// A note that is given to the instructions that come next.
#[derive(Clone, Copy)]
pub enum NoteRef<'a> {
    Held(HeldRef<'a>),
    Granted {
        site: Site,
        locked: bool,
        loaded: usize,
        top: bool,
    },
    Owed {
        site: Site,
        stage: usize,
        kept: bool,
        top: bool,
    },
    Stop {
        site: Site,
        place: usize,
    },
}

/// What is asked of a note.
#[derive(Clone, Copy)]
pub enum AskedRef<'a> {
    /// That the thread is in no block.
    Open,
    /// That the lock is about to be taken, for a call with a clause.
    Taking,
    /// That it may stand for this one.
    Given(NoteRef<'a>),
    /// What no note is.
    Nothing,
}

/// What is asked of the next instruction, of those that are jumped to, and of the handlers that may take what is thrown.
#[derive(Clone, Copy)]
pub enum RowRef<'a> {
    /// The same of each instruction that may come next, and no block where an error is caught.
    Leads(AskedRef<'a>),
    /// That the check goes on, with its next atom holding where it jumps, or else where it does not; and no block where
    /// an error is caught.
    Tests { check: CheckRef<'a>, jumps: bool },
    /// What is due after a call, and where it throws. It jumps nowhere.
    Calls { past: DueRef, thrown: DueRef },
}

/// What is due after a call.
#[derive(Clone, Copy)]
pub enum DueRef {
    /// Nothing.
    Open,
    /// An update at this stage, for which nothing is done yet.
    Due { site: Site, stage: usize },
}

/// A check: its site and clause, how many branches fail, how many atoms of the next one hold, what is pushed, and the
/// variables.
#[derive(Clone, Copy)]
pub struct CheckRef<'a> {
    pub site: Site,
    pub clause: &'a Clause,
    pub failed: u8,
    pub holding: u8,
    pub terms: &'a [Term],
    pub map: &'a [Term],
}

/// The same is asked of each instruction that may come next, and no block where an error is caught.
pub fn leads(asked: AskedRef<'_>) -> Option<RowRef<'_>>
    ensures { option_map row_borrowed result ≡ leads (asked_borrowed asked.entry) }
{
    Some(RowRef::Leads(asked))
}

/// What is asked of a note, where that is due.
pub fn due_asked<'a>(due: DueRef) -> AskedRef<'a>
    ensures { asked_borrowed result ≡ due_borrowed due }
{
    match due {
        DueRef::Open => AskedRef::Open,
        DueRef::Due { site, stage } => AskedRef::Given(NoteRef::Owed {
            site,
            stage,
            kept: false,
            top: false,
        }),
    }
}

/// The note is given to each of them.
pub fn gives(note: NoteRef<'_>) -> Option<RowRef<'_>>
    ensures { option_map row_borrowed result ≡ gives (note_borrowed note.entry) }
{
    leads(AskedRef::Given(note))
}
