//! Whose turn it is, and how a run ended, where the numbers of the threads that live are at hand: these alone are asked.
//! (docs/RUNS.md)

ghost use Rattle.std.specs.Prelude.{All, find, ℕ, ◌++◌, ◌<◌, ◌≡◌, ◌≤◌};
ghost use Rattle.std.specs.List.Sorted.{IsNonDecreasing};
ghost use Rattle.guest_model.specs.Asking.{is_enabled};
ghost use Rattle.guest_model.specs.Ending.{end_of};
ghost use Rattle.guest_model.specs.Turns.{next_enabled};
ghost use Rattle.guest_step.specs.Living.{living_of};

use crate::asking::enabled;
use guest_model::{End, turns_find_the_enabled};
use guest_tables::Guest;
use guest_threads::MachineView;

/// The first thread from this number on, cyclically, that can make a step, where these threads live. It takes no memory.
pub fn next_enabled(guest: &Guest, machine: &MachineView, living: &[u32], first: u32) -> Option<u32>
    requires { living.now ≡ living_of machine.now.threads }
    ensures { result ≡ next_enabled guest.now machine.now first }
{
    let (below, above) = parted(living, first);
    match first_enabled(guest, machine, above) {
        Some(number) => Some(number),
        None => first_enabled(guest, machine, below),
    }
}

/// The numbers below this one, and those from it on, of numbers that ascend.
fn parted(numbers: &[u32], first: u32) -> (&[u32], &[u32])
    requires { IsNonDecreasing numbers.now }
    ensures whole { numbers.now ≡ result.0.now ++ result.1.now }
    ensures below { All (λ (n : ℕ). n < first) result.0.now }
    ensures above { All (λ (n : ℕ). first ≤ n) result.1.now }
{
    numbers.split_at(numbers.partition_point(|number| *number < first))
}

/// The first of these threads that can make a step.
fn first_enabled(guest: &Guest, machine: &MachineView, numbers: &[u32]) -> Option<u32>
    ensures { result ≡ find (is_enabled guest.now machine.now) numbers.now }
{
    let mut left = numbers;
    while let [number, rest @ ..] = left {
        if enabled(guest, machine, *number) {
            return Some(*number);
        }
        left = rest;
    }
    None
}

/// How the run ended, where these threads live; nothing while one of them can make a step. It takes no memory.
pub fn end_among(guest: &Guest, machine: &MachineView, living: &[u32]) -> Option<End>
    requires { living.now ≡ living_of machine.now.threads }
    ensures { result ≡ end_of guest.now machine.now }
{
    turns_find_the_enabled();
    if let Some(value) = machine.stopped() {
        return Some(End::Stopped(value));
    }
    if living.is_empty() {
        return Some(End::Finished);
    }
    if next_enabled(guest, machine, living, 0).is_some() {
        return None;
    }
    Some(End::Deadlock)
}
