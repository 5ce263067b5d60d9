//! Keys in an order from which any may be taken, and the place of each without a search through them.

ghost use Rattle.std.specs.List.{list_any, position_from};
ghost use Rattle.std.specs.BTreeMap.{get};
ghost use Rattle.std.specs.Ordering.{nat_cmp};
ghost use Rattle.std.specs.Prelude.{IfSome, None, OnErr, OnOk, Some, [], drop, false, if◌then◌else◌, length, take, ℕ, ◌+◌, ◌++◌, ◌<◌, ◌∷◌, ◌≡◌};
ghost use Rattle.guest_threads.specs.KeyPlaces.{is_key};

use mon_base::{List, NoMemory};
use std::alloc::Global;
use std::collections::BTreeMap;
use std::marker::Model;

/// Keys in an order, among which none stands twice; what stands there without a key cannot be found. A contract sees the list.
#[derive(Drop)]
pub struct KeyPlaces {
    keys: List<Option<u64>>,
    /// A number for each of them, in the same order. They rise, and stay the same where one before them is taken.
    numbers: List<u64>,
    /// The number of each key.
    noted: BTreeMap<u64, u64>,
    /// The number of what comes next.
    next: u64,
}

impl Model for KeyPlaces {
    ghost use Rattle.std.specs.Prelude.{List, Option, ℕ};
    ghost use Rattle.guest_threads.specs.KeyPlaces.{AreNumbered};

    ghost Value = { List (Option ℕ) };

    ghost view = { λ p. p.keys };

    ghost invariant = { λ p. AreNumbered p.keys p.numbers p.next p.noted };
}

impl KeyPlaces {
    /// No key.
    pub fn new(alloc: Global) -> KeyPlaces
        ensures { result ≡ [] }
    {
        KeyPlaces {
            keys: List::new(alloc),
            numbers: List::new(alloc),
            noted: BTreeMap::new(alloc),
            next: 0,
        }
    }

    /// The place of the key.
    pub fn place(&self, key: u64) -> Option<usize>
        ensures { result ≡ position_from (is_key key) 0 self.now }
    {
        let Some(number) = self.noted.get(&key) else {
            return None;
        };
        match self.numbers.as_slice().binary_search(number) {
            Ok(place) => Some(place),
            Err(_) => None,
        }
    }

    /// Puts the key, which is not among them, after the others; or something without a key.
    pub fn push(&mut self, key: Option<u64>) -> Result<(), NoMemory>
        requires { IfSome key (λ k. list_any (is_key k) self.old ≡ false) }
        ensures ok { OnOk result (self.new ≡ self.old ++ key ∷ []) }
        ensures err { OnErr result (self.new ≡ self.old) }
    {
        let number = self.next;
        let Some(next) = number.checked_add(1) else {
            return Err(NoMemory);
        };
        push_numbered(
            &mut self.keys,
            &mut self.numbers,
            &mut self.noted,
            key,
            number,
        )?;
        self.next = next;
        Ok(())
    }

    /// Takes what stands in this place.
    pub fn remove(&mut self, place: usize)
        requires { place < length self.old }
        ensures { self.new ≡ take place self.old ++ drop (place + 1) self.old }
    {
        self.numbers.remove(place);
        let key = self.keys.remove(place);
        forget(&mut self.noted, key);
    }
}

/// Appends the key and its number, and notes it; or nothing is done.
fn push_numbered(
    keys: &mut List<Option<u64>>,
    numbers: &mut List<u64>,
    noted: &mut BTreeMap<u64, u64>,
    key: Option<u64>,
    number: u64,
) -> Result<(), NoMemory>
    ensures keys { OnOk result (keys.new ≡ keys.old ++ key ∷ []) }
    ensures numbers { OnOk result (numbers.new ≡ numbers.old ++ number ∷ []) }
    ensures noted { OnOk result ((q : ℕ) → get nat_cmp noted.new q ≡ (if is_key q key then Some number else get nat_cmp noted.old q)) }
    ensures keys_stay { OnErr result (keys.new ≡ keys.old) }
    ensures numbers_stay { OnErr result (numbers.new ≡ numbers.old) }
    ensures noted_stays { OnErr result ((q : ℕ) → get nat_cmp noted.new q ≡ get nat_cmp noted.old q) }
{
    push_both(keys, numbers, key, number)?;
    let done = note(noted, key, number);
    if done.is_err() {
        keys.pop();
        numbers.pop();
    }
    done
}

/// Appends to both lists, or to none.
fn push_both(
    keys: &mut List<Option<u64>>,
    numbers: &mut List<u64>,
    key: Option<u64>,
    number: u64,
) -> Result<(), NoMemory>
    ensures keys { OnOk result (keys.new ≡ keys.old ++ key ∷ []) }
    ensures numbers { OnOk result (numbers.new ≡ numbers.old ++ number ∷ []) }
    ensures keys_stay { OnErr result (keys.new ≡ keys.old) }
    ensures numbers_stay { OnErr result (numbers.new ≡ numbers.old) }
{
    keys.push(key)?;
    let done = numbers.push(number);
    if done.is_err() {
        keys.pop();
    }
    done
}

/// Notes the number of the key, if there is one.
fn note(noted: &mut BTreeMap<u64, u64>, key: Option<u64>, number: u64) -> Result<(), NoMemory>
    ensures ok { OnOk result ((q : ℕ) → get nat_cmp noted.new q ≡ (if is_key q key then Some number else get nat_cmp noted.old q)) }
    ensures err { OnErr result ((q : ℕ) → get nat_cmp noted.new q ≡ get nat_cmp noted.old q) }
{
    if let Some(key) = key {
        noted.insert(key, number)?;
    }
    Ok(())
}

/// Forgets the number of the key, if there is one.
fn forget(noted: &mut BTreeMap<u64, u64>, key: Option<u64>)
    ensures { (q : ℕ) → get nat_cmp noted.new q ≡ (if is_key q key then None else get nat_cmp noted.old q) }
{
    if let Some(key) = key {
        noted.remove(&key);
    }
}
