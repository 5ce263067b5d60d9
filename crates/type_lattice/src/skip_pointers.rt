//! Ways up, from places to the places above them, of which each is gone in few steps.

ghost use Rattle.std.specs.Prelude.{◌≡◌, ◌<◌, ◌-◌, ◌+◌, ◌≢◌, ℕ, Some, None, length, map, slice_get, IfOk, OnOk, IfSome, MatchOption};
ghost use Rattle.type_lattice.specs.SkipPointers.{
  AreBegun,
  AreParents,
  AreSkipPointers,
  IsKnown,
  IsOpen,
  IsSkipPointer,
  LeadsUp,
  LeadBothUp,
};
ghost use Rattle.type_lattice.specs.SkipPointers.{has_place, meeting, parent_of, parents_of, unknown, path_up};

use mon_base::NoMemory;
use std::alloc::Global;
use std::marker::Model;

/// What is kept of a place: the one above it, how many places its way has, and, so many steps up, a place on it.
#[derive(Clone, Copy)]
struct SkipPointer {
    parent: Option<usize>,
    height: usize,
    steps: usize,
    jump: usize,
}

/// Places, of which each may have one above it. A contract sees that of each place.
#[derive(Drop)]
pub struct SkipPointers {
    items: Vec<SkipPointer>,
}

impl Model for SkipPointers {
    ghost use Rattle.std.specs.Prelude.{ℕ, List, Option};
    ghost use Rattle.type_lattice.specs.SkipPointers.{AreSkipPointers, parents_of};

    ghost Value = { List (Option ℕ) };

    ghost view = { λ w. parents_of w.items.items };

    ghost invariant = { λ w. AreSkipPointers w.items.items };
}

impl SkipPointers {
    /// The ways by which each place leads to the one above it.
    pub fn new(alloc: Global, parents: &[Option<usize>]) -> Result<SkipPointers, NoMemory>
        requires { AreParents parents.now }
        ensures { IfOk result (λ skip_pointers. skip_pointers ≡ parents.now) }
    {
        let mut items = begun(alloc, parents)?;
        for start in 0..parents.len() {
            add_skip_pointer(alloc, &mut items, start)?;
        }
        Ok(SkipPointers { items })
    }

    /// What is kept of the place.
    fn kept(&self, at: usize) -> SkipPointer
        requires { at < length self.now }
        ensures parents { AreParents self.now }
        ensures parent { result.parent ≡ parent_of self.now at }
        ensures path_up { IsSkipPointer self.now at result }
    {
        self.items[at]
    }

    /// How many places the way from this one has.
    pub fn height(&self, at: usize) -> usize
        requires { at < length self.now }
        ensures { result ≡ length (path_up self.now at) }
    {
        self.kept(at).height
    }

    /// The place so many steps up, where the way goes as far.
    pub fn up(&self, at: usize, steps: usize) -> Option<usize>
        requires { at < length self.now }
        ensures { result ≡ slice_get (path_up self.now at) steps }
    {
        let mut at = at;
        let mut left = steps;
        while left > 0 {
            let Some((above, gone)) = self.step(at, left) else {
                return None;
            };
            left -= gone;
            at = above;
        }
        Some(at)
    }

    /// A place further up, but no further than told, and how far that is.
    fn step(&self, at: usize, most: usize) -> Option<(usize, usize)>
        requires at { at < length self.now }
        requires most { 0 < most }
        ensures parents { AreParents self.now }
        ensures leads { MatchOption result (length (path_up self.now at) ≡ 1) (λ r. LeadsUp self.now at most r.0 r.1) }
    {
        let kept = self.kept(at);
        let Some(parent) = kept.parent else {
            return None;
        };
        if kept.steps <= most {
            return Some((kept.jump, kept.steps));
        }
        Some((parent, 1))
    }

    /// Whether the other place is on the way.
    pub fn leads_to(&self, at: usize, above: usize) -> bool
        requires at { at < length self.now }
        requires above { above < length self.now }
        ensures { result ≡ has_place (path_up self.now at) above }
    {
        let low = self.kept(at).height;
        let high = self.kept(above).height;
        if low < high {
            return false;
        }
        self.up(at, low - high) == Some(above)
    }

    /// The first place on the one way that is on the other, too.
    pub fn meeting(&self, a: usize, b: usize) -> Option<usize>
        requires a { a < length self.now }
        requires b { b < length self.now }
        ensures { result ≡ meeting self.now a b }
    {
        let low = self.kept(a).height;
        let high = self.kept(b).height;
        let height = low.min(high);
        let mut one = self.up(a, low - height)?;
        let mut other = self.up(b, high - height)?;
        while one != other {
            let (above, beyond) = self.both_up(one, other)?;
            one = above;
            other = beyond;
        }
        Some(one)
    }

    /// Two places as far up on both ways, which do not meet before, if there are any.
    fn both_up(&self, a: usize, b: usize) -> Option<(usize, usize)>
        requires a { a < length self.now }
        requires b { b < length self.now }
        requires apart { a ≢ b }
        requires level { length (path_up self.now a) ≡ length (path_up self.now b) }
        ensures { MatchOption result (length (path_up self.now a) ≡ 1) (λ r. LeadBothUp self.now a b r.0 r.1) }
    {
        let low = self.kept(a);
        let high = self.kept(b);
        let Some(above) = low.parent else {
            return None;
        };
        let Some(beyond) = high.parent else {
            return None;
        };
        if low.steps == high.steps && low.jump != high.jump {
            return Some((low.jump, high.jump));
        }
        Some((above, beyond))
    }
}

/// What is kept of the places before any way is gone.
fn begun(alloc: Global, parents: &[Option<usize>]) -> Result<Vec<SkipPointer>, NoMemory>
    ensures { IfOk result (λ items. items.items ≡ map unknown parents.now) }
{
    let mut items = Vec::new(alloc);
    for parent in parents {
        items.push(SkipPointer {
            parent: *parent,
            height: 0,
            steps: 0,
            jump: 0,
        })?;
    }
    Ok(items)
}

/// Goes the way up from the place, as far as it is not known, and back down.
fn add_skip_pointer(
    alloc: Global,
    items: &mut Vec<SkipPointer>,
    start: usize,
) -> Result<(), NoMemory>
    requires begun { AreBegun items.old.items }
    requires start { start < length items.old.items }
    ensures begun { OnOk result (AreBegun items.new.items) }
    ensures of { OnOk result (parents_of items.new.items ≡ parents_of items.old.items) }
    ensures keeps { OnOk result ((at : ℕ) → IsKnown items.old.items at → IsKnown items.new.items at) }
    ensures adds { OnOk result (IsKnown items.new.items start) }
{
    let mut path = path_from(alloc, items.as_slice(), start)?;
    while let Some(at) = path.pop() {
        let kept = skip_over(items.as_slice(), at);
        items[at] = kept;
    }
    Ok(())
}

/// The places on the way whose ways are not known.
fn path_from(alloc: Global, items: &[SkipPointer], start: usize) -> Result<Vec<usize>, NoMemory>
    requires begun { AreBegun items.now }
    requires start { start < length items.now }
    ensures { IfOk result (λ path. IsOpen items.now start path.items) }
{
    let mut path = Vec::new(alloc);
    let mut at = start;
    while items[at].height == 0 {
        path.push(at)?;
        let Some(parent) = items[at].parent else {
            return Ok(path);
        };
        at = parent;
    }
    Ok(path)
}

/// What is known of the place.
fn known(items: &[SkipPointer], at: usize) -> SkipPointer
    requires begun { AreBegun items.now }
    requires known { IsKnown items.now at }
    ensures { IsSkipPointer (parents_of items.now) at result }
{
    items[at]
}

/// The way from the place, where that from the place above it is known.
fn skip_over(items: &[SkipPointer], at: usize) -> SkipPointer
    requires begun { AreBegun items.now }
    requires at { at < length items.now }
    requires above { (above : ℕ) → slice_get (path_up (parents_of items.now) at) 1 ≡ Some above → IsKnown items.now above }
    ensures path_up { IsSkipPointer (parents_of items.now) at result }
    ensures parent { result.parent ≡ parent_of (parents_of items.now) at }
{
    let Some(parent) = items[at].parent else {
        return SkipPointer {
            parent: None,
            height: 1,
            steps: 0,
            jump: at,
        };
    };
    let above = known(items, parent);
    let further = items[above.jump];
    if further.height > 0 && further.steps == above.steps {
        return SkipPointer {
            parent: Some(parent),
            height: above.height + 1,
            steps: above.steps + further.steps + 1,
            jump: further.jump,
        };
    }
    SkipPointer {
        parent: Some(parent),
        height: above.height + 1,
        steps: 1,
        jump: parent,
    }
}
