//! Given classes, with how far below a class that is not given each stands.

ghost use Rattle.std.specs.Prelude.{◌≡◌, ◌≤◌, ◌+◌, length, IfOk, IfSome, OnOk};
ghost use Rattle.api_listing.specs.Listing.{is_known};
ghost use Rattle.bytecode_model.specs.Conditions.{has_interface, runs_in_circle};
ghost use Rattle.class_linking.specs.Heights.{AreHeights, LeavesAfter};

use api_listing::ListedClass;
use bytecode_model::{ByName, note, noted};
use class_index::Classes;
use mon_base::{Bytes, List, NoMemory};
use std::alloc::Global;
use std::collections::BTreeMap;
use std::marker::Model;

/// Given classes. A contract sees the list.
#[derive(Drop)]
pub struct Heads {
    classes: Classes,
    heights: ByName<usize>,
}

impl Model for Heads {
    ghost use Rattle.std.specs.Prelude.{List};
    ghost use Rattle.api_listing.specs.declared.types.ListedClass.{ListedClass};
    ghost use Rattle.class_linking.specs.Heights.{AreHeights};

    ghost Value = { List ListedClass };

    ghost view = { λ h. h.classes };

    ghost invariant = { λ h. AreHeights h.heights h.classes };
}

impl Heads {
    /// These classes.
    pub fn new(alloc: Global, list: List<ListedClass>) -> Result<Heads, NoMemory>
        ensures { IfOk result (λ heads. heads ≡ list) }
    {
        let classes = Classes::new(alloc, list)?;
        let heights = heights_of(alloc, &classes)?;
        Ok(Heads { classes, heights })
    }

    /// Whether one has the name.
    pub fn has(&self, name: &Bytes) -> bool
        ensures { result ≡ is_known self.now name.now }
    {
        self.classes.has(name)
    }

    /// Whether one has the name, and is an interface.
    pub fn has_interface(&self, name: &Bytes) -> bool
        ensures { result ≡ has_interface self.now name.now }
    {
        match self.classes.named(name) {
            Some(class) => class.is_interface,
            None => false,
        }
    }

    /// The classes in their order.
    pub fn as_slice(&self) -> &[ListedClass]
        ensures { result.now ≡ self.now }
    {
        self.classes.as_slice()
    }

    /// Whether the way up from the class never leaves the given classes.
    pub fn runs_in_circle(&self, name: &Bytes) -> bool
        requires { length self.now ≤ 1001 }
        ensures { result ≡ runs_in_circle self.now name.now }
    {
        match noted(&self.heights, name.as_slice()) {
            Some(height) => height > self.classes.len(),
            None => runs_in_circle(&self.classes, name),
        }
    }
}

/// The same, by a walk up from the class.
fn runs_in_circle(classes: &Classes, name: &Bytes) -> bool
    requires { length classes.now ≤ 1001 }
    ensures { result ≡ runs_in_circle classes.now name.now }
{
    let mut at = name;
    for _ in 0..classes.len() + 1 {
        let Some(class) = classes.named(at) else {
            return false;
        };
        at = &class.parent;
    }
    true
}

/// How many classes up the way from each class leaves the given ones, where it does. A way is gone no further than to
/// a class whose height is known.
fn heights_of(alloc: Global, classes: &Classes) -> Result<ByName<usize>, NoMemory>
    ensures { IfOk result (λ heights. AreHeights heights classes.now) }
{
    let mut heights = BTreeMap::new(alloc);
    for class in classes.as_slice() {
        if let Some((steps, height)) = height_of(classes, &heights, &class.name) {
            add_heights(alloc, classes, &mut heights, &class.name, steps, height)?;
        }
    }
    Ok(heights)
}

/// How far the way is gone, and the height of the class.
fn height_of(classes: &Classes, heights: &ByName<usize>, name: &Bytes) -> Option<(usize, usize)>
    requires { AreHeights heights.now classes.now }
    ensures { IfSome result (λ found. LeavesAfter classes.now name.now found.1) }
{
    let mut at = name;
    for steps in 0..classes.len() {
        if let Some(height) = noted(heights, at.as_slice()) {
            return sum(steps, height);
        }
        let Some(class) = classes.named(at) else {
            return sum(steps, 0);
        };
        at = &class.parent;
    }
    None
}

/// The steps, and the height at which they begin, if a number of 64 bits holds it.
fn sum(steps: usize, height: usize) -> Option<(usize, usize)>
    ensures { IfSome result (λ found. (found.0 ≡ steps) × (found.1 ≡ steps + height)) }
{
    match steps.checked_add(height) {
        Some(sum) => Some((steps, sum)),
        None => None,
    }
}

/// Adds the heights of the class and of those above it, so many in all.
fn add_heights(
    alloc: Global,
    classes: &Classes,
    heights: &mut ByName<usize>,
    name: &Bytes,
    steps: usize,
    height: usize,
) -> Result<(), NoMemory>
    requires known { AreHeights heights.old classes.now }
    requires height { LeavesAfter classes.now name.now height }
    ensures { OnOk result (AreHeights heights.new classes.now) }
{
    let mut at = name;
    let mut height = height;
    for _ in 0..steps {
        note(alloc, heights, at, height)?;
        let Some(class) = classes.named(at) else {
            return Ok(());
        };
        let Some(less) = height.checked_sub(1) else {
            return Ok(());
        };
        height = less;
        at = &class.parent;
    }
    Ok(())
}
