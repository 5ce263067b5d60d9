//! Maps by names, in which what was noted first stays.

ghost use Rattle.std.specs.Option.{option_or};
ghost use Rattle.std.specs.Prelude.{List, None, OnOk, Some, bytes_eq, if◌then◌else◌, ℕ, ◌≡◌};
ghost use Rattle.bytecode_model.specs.ByName.{noted};

use mon_base::{Bytes, NoMemory};
use std::alloc::Global;
use std::collections::BTreeMap;

/// What is noted by each name.
pub type ByName<T> = BTreeMap<Vec<u8>, T>;

/// What is noted by the name.
pub fn noted<T: Copy>(names: &ByName<T>, name: &[u8]) -> Option<T>
    ensures { result ≡ noted names.now name.now }
{
    match names.get(name) {
        Some(what) => Some(*what),
        None => None,
    }
}

/// Notes it by the name, if the name is new.
pub fn note<T: Copy>(
    alloc: Global,
    names: &mut ByName<T>,
    name: &Bytes,
    what: T,
) -> Result<(), NoMemory>
    ensures { OnOk result ((q : List ℕ) → noted names.new q
        ≡ option_or (noted names.old q) (if bytes_eq name.now q then Some what else None)) }
{
    if !names.contains_key(name.as_slice()) {
        let name = Vec::from_slice(alloc, name.as_slice())?;
        names.insert(name, what)?;
    }
    Ok(())
}
