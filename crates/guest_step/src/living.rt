//! The threads that live, by their numbers in a list, so that those that have ended cost no time. (docs/RUNS.md)

ghost use Rattle.std.specs.Prelude.{OnOk, vec_capacity, vec_len, ◌++◌, ◌<◌, ◌^◌, ◌≡◌, ◌≤◌};
ghost use Rattle.guest_step.specs.Living.{TakesThread, living_at, without_ended};

use guest_heap::Thread;
use guest_threads::{MachineView, has_ended, is_ended};
use mon_base::NoMemory;

/// More threads than any memory has: their numbers have 32 bits.
const MOST_THREADS: usize = 4294967295;

/// Takes memory for the number of one thread more, where there are so many threads.
pub fn make_place_for_thread(living: &mut Vec<u32>, count: usize) -> Result<(), NoMemory>
    ensures same { living.new.items ≡ living.old.items }
    ensures one { OnOk result (TakesThread count living.new) }
{
    if count >= MOST_THREADS {
        return Err(NoMemory);
    }
    living.reserve(1)?;
    Ok(())
}

/// Brings the list up to date after a step of the thread with this number, before which there were so many threads. Only where the
/// thread has ended is the list gone through.
pub fn bring_up_to_date(living: &mut Vec<u32>, machine: &MachineView, number: u32, count: usize)
    requires { TakesThread count living.old }
    ensures { living.new.items ≡ without_ended machine.now number living.old.items ++ living_at machine.now.threads count }
{
    remove_ended(living, machine, number);
    add_living(living, machine.threads(), count);
}

/// Takes the thread with this number off the list if it has ended.
fn remove_ended(living: &mut Vec<u32>, machine: &MachineView, number: u32)
    ensures items { living.new.items ≡ without_ended machine.now number living.old.items }
    ensures len { vec_len living.new ≤ vec_len living.old }
    ensures capacity { vec_capacity living.new ≡ vec_capacity living.old }
{
    if has_ended(machine, number) {
        living.retain(|other| *other != number);
    }
}

/// Puts the thread with this number at the end of the list, if there is one and it lives.
pub fn add_living(living: &mut Vec<u32>, threads: &[Thread], number: usize)
    requires number { number < 2 ^ 32 }
    requires room { vec_len living.old < vec_capacity living.old }
    ensures { living.new.items ≡ living.old.items ++ living_at threads.now number }
{
    if let Some(thread) = threads.get(number) {
        if !is_ended(&thread.doing) {
            living.push(number as u32).unwrap();
        }
    }
}
