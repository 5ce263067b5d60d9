//! Marks of instructions, of which the first is found without going through all: where none of a group of 64 is marked,
//! the group is passed over at once.

ghost use Rattle.std.specs.Prelude.{◌≡◌, ◌≤◌, ◌<◌, ◌+◌, ◌*◌, ℕ, true, false, replicate, set, length, IfOk, IfSome, IfNone, IsFalse};
ghost use Rattle.type_infer.specs.Solving.{is_marked};

use mon_base::NoMemory;
use std::alloc::Global;
use std::marker::Model;

/// How many marks a group has.
const GROUP: usize = 64;

/// For each of some instructions whether it is marked. A contract sees the list of the marks.
#[derive(Drop)]
pub struct Marks {
    marks: Vec<bool>,
    // Whether one of the group may be marked.
    groups: Vec<bool>,
}

impl Model for Marks {
    ghost use Rattle.std.specs.Prelude.{◌≤◌, ◌*◌, Bool, List, length};
    ghost use Rattle.type_infer.specs.Grouping.{AreGrouped};

    ghost Value = { List Bool };

    ghost view = { λ m. m.marks.items };

    ghost invariant = { λ m. AreGrouped m.marks.items m.groups.items × (length m.marks.items ≤ 64 * length m.groups.items) };
}

/// No mark, n times.
fn no_marks(alloc: Global, n: usize) -> Result<Vec<bool>, NoMemory>
    ensures { IfOk result (λ marks. marks.items ≡ replicate n false) }
{
    let mut marks = Vec::with_capacity(alloc, n)?;
    for _ in 0..n {
        marks.push(false)?;
    }
    Ok(marks)
}

/// Whether this place is marked.
fn marked_at(marks: &[bool], at: usize) -> bool
    ensures { result ≡ is_marked marks.now at }
{
    match marks.get(at) {
        Some(marked) => *marked,
        None => false,
    }
}

/// Whether one of the group is marked.
fn has_mark(marks: &[bool], group: usize) -> bool
    requires { 64 * group < length marks.now }
    ensures { IsFalse result → (offset : ℕ) → offset < 64 → is_marked marks.now (64 * group + offset) ≡ false }
{
    let first = GROUP * group;
    for at in first..marks.len() {
        if at - first >= GROUP {
            return false;
        }
        if marked_at(marks, at) {
            return true;
        }
    }
    false
}

impl Marks {
    /// None of n is marked.
    pub fn new(alloc: Global, n: usize) -> Result<Marks, NoMemory>
        ensures { IfOk result (λ marks. marks ≡ replicate n false) }
    {
        let marks = no_marks(alloc, n)?;
        let groups = no_marks(alloc, n / GROUP + 1)?;
        Ok(Marks { marks, groups })
    }

    /// Marks this place.
    pub fn mark(&mut self, at: usize)
        requires { at < length self.old }
        ensures { self.new ≡ set self.old at true }
    {
        self.marks[at] = true;
        self.groups[at / GROUP] = true;
    }

    /// Marks it no more.
    pub fn unmark(&mut self, at: usize)
        ensures { self.new ≡ set self.old at false }
    {
        if at >= self.marks.len() {
            return;
        }
        self.marks[at] = false;
        let group = at / GROUP;
        if !has_mark(self.marks.as_slice(), group) {
            self.groups[group] = false;
        }
    }

    /// The first place from this one on, below the limit, that is marked.
    pub fn next(&self, from: u32, limit: u32) -> Option<u32>
        ensures within { IfSome result (λ at. (from ≤ at) × (at < limit)) }
        ensures marked { IfSome result (λ at. is_marked self.now at ≡ true) }
        ensures first { IfSome result (λ found. (at : ℕ) → from ≤ at → at < found → is_marked self.now at ≡ false) }
        ensures none { IfNone result ((at : ℕ) → from ≤ at → at < limit → is_marked self.now at ≡ false) }
    {
        let mut at = from as usize;
        while at < limit as usize {
            let group = at / GROUP;
            if !marked_at(self.groups.as_slice(), group) {
                at = GROUP * group + GROUP;
            } else if marked_at(self.marks.as_slice(), at) {
                return Some(at as u32);
            } else {
                at += 1;
            }
        }
        None
    }
}
