//! What updates ask of the branches that they stand after.

ghost use Rattle.std.specs.Prelude.{◌≡◌, ◌≤◌};
ghost use Rattle.conspec_tree.specs.Updates.{target, is_updated, range_atoms, all_range_atoms};

use crate::types::Update;

/// The variable that an update is of.
pub fn target(update: Update) -> u32
    ensures { result ≡ target update }
{
    match update {
        Update::Set { var, .. } => var,
        Update::Add { var, .. } => var,
    }
}

/// Whether one of the updates is of the variable.
pub fn is_updated(updates: &[Update], var: u32) -> bool
    ensures { result ≡ is_updated updates.now var }
{
    let mut left = updates;
    while let [first, others @ ..] = left {
        if target(*first) == var {
            return true;
        }
        left = others;
    }
    false
}

fn range_atoms(update: &Update) -> usize
    ensures value { result ≡ range_atoms update.now }
    ensures low { result ≤ 1 }
{
    match update {
        Update::Set { .. } => 0,
        Update::Add { by, .. } => { if *by == 0 { 0 } else { 1 } }
    }
}

/// How many range atoms the updates ask for.
pub fn all_range_atoms(updates: &[Update]) -> usize
    ensures { result ≡ all_range_atoms updates.now }
{
    let mut count: usize = 0;
    let mut left = updates;
    while let [first, others @ ..] = left {
        count += range_atoms(first);
        left = others;
    }
    count
}
