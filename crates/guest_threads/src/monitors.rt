//! The monitors that are held, each found without a search through the others. (The Java Virtual Machine Specification, section
//! 2.11.10.)

ghost use Rattle.std.specs.List.{list_any, position_from};
ghost use Rattle.std.specs.Option.{option_to_list};
ghost use Rattle.std.specs.Prelude.{
  IfSome,
  None,
  OnErr,
  OnOk,
  Some,
  [],
  drop,
  false,
  is_some,
  length,
  option_and_then,
  option_copied,
  option_map,
  slice_get,
  take,
  ◌+◌,
  ◌++◌,
  ◌<◌,
  ◌∷◌,
  ◌≡◌,
};
ghost use Rattle.guest_frames.specs.Became.{Became};
ghost use Rattle.guest_frames.specs.Values.{are_one};
ghost use Rattle.guest_heap.specs.declared.object.Monitor.{Monitor};
ghost use Rattle.guest_model.specs.Changes.{lock_taken};
ghost use Rattle.guest_model.specs.Enabled.{is_held_by_other};
ghost use Rattle.guest_model.specs.Monitors.{all_given_up, entered, left};
ghost use Rattle.guest_threads.specs.Becomes.{Becomes};
ghost use Rattle.guest_threads.specs.KeyPlaces.{is_key};
ghost use Rattle.guest_threads.specs.Monitors.{entered_again, key_of, keys_of, left_at};

use crate::key_places::KeyPlaces;
use guest_frames::are_one;
use guest_heap::{Monitor, Value};
use guest_model::StepFault;
use mon_base::{List, NoMemory};
use std::alloc::Global;
use std::marker::Model;

/// The monitors that are held, in the order in which they were first entered. A contract sees the list.
#[derive(Drop)]
pub struct Monitors {
    list: List<Monitor>,
    /// The places of their values; where there are none, the list is gone through for each monitor that is sought.
    places: Option<KeyPlaces>,
}

impl Model for Monitors {
    ghost use Rattle.std.specs.Prelude.{IfSome, List, ◌≡◌};
    ghost use Rattle.guest_heap.specs.declared.object.Monitor.{Monitor};
    ghost use Rattle.guest_threads.specs.Monitors.{keys_of};

    ghost Value = { List Monitor };

    ghost view = { λ m. m.list };

    ghost invariant = { λ m. IfSome m.places (λ keys. keys ≡ keys_of m.list) };
}

/// The monitors that are held, to be asked. A contract sees the list.
#[derive(Drop)]
pub struct MonitorsView<'a> {
    list: &'a List<Monitor>,
    places: Option<&'a KeyPlaces>,
}

impl<'a> Model for MonitorsView<'a> {
    ghost use Rattle.std.specs.Prelude.{IfSome, List, ◌≡◌};
    ghost use Rattle.guest_heap.specs.declared.object.Monitor.{Monitor};
    ghost use Rattle.guest_threads.specs.Monitors.{keys_of};

    ghost Value = { List Monitor };

    ghost view = { λ m. m.list.now };

    ghost invariant = { λ m. IfSome m.places (λ places. places.now ≡ keys_of m.list.now) };
}

impl<'a> MonitorsView<'a> {
    /// Those of a list, which is gone through for each that is sought.
    pub fn of_list(list: &'a List<Monitor>) -> MonitorsView<'a>
        ensures { result ≡ list.now }
    {
        MonitorsView { list, places: None }
    }

    /// The place of the first monitor of the value.
    fn place_of(&self, on: Value) -> Option<usize>
        ensures is { result ≡ position_from (λ (m : Monitor). are_one m.on on) 0 self.now }
        ensures within { IfSome result (λ place. place < length self.now) }
    {
        place_of(self.list, self.places, on)
    }

    /// Whether another thread holds the monitor of the value.
    pub fn is_held_by_other(&self, thread: usize, on: Value) -> bool
        ensures { result ≡ is_held_by_other self.now thread on }
    {
        match self.place_of(on) {
            Some(place) => self.list.as_slice()[place].owner as usize != thread,
            None => false,
        }
    }

    /// Whether the thread holds the monitor of the value.
    fn is_held_by(&self, thread: u32, on: Value) -> bool
        ensures { result ≡ is_some (left self.now thread on) }
    {
        match self.place_of(on) {
            Some(place) => self.list.as_slice()[place].owner == thread,
            None => false,
        }
    }
}

impl Monitors {
    /// No monitor. As they are entered, their places are noted.
    pub fn new(alloc: Global) -> Monitors
        ensures { result ≡ [] }
    {
        Monitors {
            list: List::new(alloc),
            places: Some(KeyPlaces::new(alloc)),
        }
    }

    /// Those of a list, which is gone through for each that is sought.
    pub fn from_list(list: List<Monitor>) -> Monitors
        ensures { result ≡ list }
    {
        Monitors { list, places: None }
    }

    /// The list of them.
    pub fn into_list(self) -> List<Monitor>
        ensures { result ≡ self }
    {
        let Monitors { list, .. } = self;
        list
    }

    /// The monitors, to be asked.
    pub fn view(&self) -> MonitorsView<'_>
        ensures { result ≡ self.now }
    {
        MonitorsView {
            list: &self.list,
            places: self.places.as_ref(),
        }
    }

    /// Whether the thread holds the monitor of the value.
    pub fn is_held_by(&self, thread: u32, on: Value) -> bool
        ensures { result ≡ is_some (left self.now thread on) }
    {
        self.view().is_held_by(thread, on)
    }

    /// The thread enters the monitor of the value, which is not enabled while another thread holds it.
    pub fn enter(&mut self, thread: u32, on: Value) -> Result<(), StepFault>
        ensures { Becomes result self.old self.new (entered self.old thread on) }
    {
        match place_of(&self.list, self.places.as_ref(), on) {
            Some(place) => enter_in_place(&mut self.list, place, thread, on),
            None => enter_first(&mut self.list, &mut self.places, thread, on),
        }
    }

    /// The thread leaves the monitor of the value; and whether it held it.
    pub fn leave(&mut self, thread: u32, on: Value) -> bool
        ensures { Became result self.old self.new (left self.old thread on) }
    {
        let Some(place) = place_of(&self.list, self.places.as_ref(), on) else {
            return false;
        };
        leave_in_place(&mut self.list, &mut self.places, place, thread, on)
    }

    /// The thread gives the lock up, where there is one that it holds.
    pub fn give_up(&mut self, thread: u32, lock: Option<Value>)
        ensures { self.new ≡ all_given_up self.old thread (option_to_list lock) }
    {
        if let Some(on) = lock {
            self.leave(thread, on);
        }
    }

    /// The thread takes the lock, where there is one; that is not enabled while another thread holds it.
    pub fn take_lock(&mut self, thread: u32, lock: Option<Value>) -> Result<(), StepFault>
        ensures { Becomes result self.old self.new (lock_taken self.old thread lock) }
    {
        let Some(on) = lock else {
            return Ok(());
        };
        self.enter(thread, on)
    }
}

/// The place of the first monitor of the value, by what is noted where there is that.
fn place_of(list: &List<Monitor>, places: Option<&KeyPlaces>, on: Value) -> Option<usize>
    requires { IfSome (option_copied places) (λ keys. keys ≡ keys_of list.now) }
    ensures is { result ≡ position_from (λ (m : Monitor). are_one m.on on) 0 list.now }
    ensures within { IfSome result (λ place. place < length list.now) }
{
    match places {
        Some(places) => place_noted(places, key_of(on)),
        None => position_of(list.as_slice(), on),
    }
}

/// The place of the key, if there is one.
fn place_noted(places: &KeyPlaces, key: Option<u64>) -> Option<usize>
    ensures { result ≡ option_and_then (λ k. position_from (is_key k) 0 places.now) key }
{
    match key {
        Some(key) => places.place(key),
        None => None,
    }
}

fn position_of(monitors: &[Monitor], on: Value) -> Option<usize>
    ensures { result ≡ position_from (λ (m : Monitor). are_one m.on on) 0 monitors.now }
{
    monitors.iter().position(|m| are_one(m.on, on))
}

/// The key of a value: a number of its own for each reference.
fn key_of(value: Value) -> Option<u64>
    ensures { result ≡ key_of value }
{
    match value {
        Value::Int(_) => None,
        Value::Null => Some(0),
        Value::Ref(at) => Some(at as u64 * 4 + 1),
        Value::Class(index) => Some(index as u64 * 4 + 2),
        Value::Lit(index) => Some(index as u64 * 4 + 3),
    }
}

/// The monitor in this place, which is that of the value, is entered once more.
fn enter_in_place(
    list: &mut List<Monitor>,
    place: usize,
    thread: u32,
    on: Value,
) -> Result<(), StepFault>
    requires is { Some place ≡ position_from (λ (m : Monitor). are_one m.on on) 0 list.old }
    requires within { place < length list.old }
    ensures is { Becomes result list.old list.new (entered list.old thread on) }
    ensures keys { keys_of list.new ≡ keys_of list.old }
{
    enter_again(list.item_mut(place), thread)
}

/// The monitor, which is held, is entered once more by the thread that holds it.
fn enter_again(monitor: &mut Monitor, thread: u32) -> Result<(), StepFault>
    ensures is { Becomes result monitor.old monitor.new (entered_again thread monitor.old) }
    ensures on { monitor.new.on ≡ monitor.old.on }
{
    if monitor.owner != thread {
        return Err(StepFault::NotEnabled);
    }
    let Some(count) = monitor.count.checked_add(1) else {
        return Err(StepFault::Memory);
    };
    monitor.count = count;
    Ok(())
}

/// The monitor of the value, which is not held, is entered.
fn enter_first(
    list: &mut List<Monitor>,
    places: &mut Option<KeyPlaces>,
    thread: u32,
    on: Value,
) -> Result<(), StepFault>
    requires none { None ≡ position_from (λ (m : Monitor). are_one m.on on) 0 list.old }
    requires noted { IfSome places.old (λ keys. keys ≡ keys_of list.old) }
    ensures is { Becomes result list.old list.new (entered list.old thread on) }
    ensures noted { IfSome places.new (λ keys. keys ≡ keys_of list.new) }
{
    list.push(Monitor {
        on,
        owner: thread,
        count: 1,
    })?;
    let noted = note_last(places, key_of(on));
    if noted.is_err() {
        list.pop();
        return Err(StepFault::Memory);
    }
    Ok(())
}

/// Notes the key after the others, which have no such key.
fn note_last(places: &mut Option<KeyPlaces>, key: Option<u64>) -> Result<(), NoMemory>
    requires { IfSome places.old (λ keys. IfSome key (λ k. list_any (is_key k) keys ≡ false)) }
    ensures ok { OnOk result (places.new ≡ option_map (λ keys. keys ++ key ∷ []) places.old) }
    ensures err { OnErr result (places.new ≡ places.old) }
{
    match places {
        Some(places) => places.push(key),
        None => Ok(()),
    }
}

/// The monitor in this place, which is that of the value, is left once; and whether the thread held it.
fn leave_in_place(
    list: &mut List<Monitor>,
    places: &mut Option<KeyPlaces>,
    place: usize,
    thread: u32,
    on: Value,
) -> bool
    requires is { Some place ≡ position_from (λ (m : Monitor). are_one m.on on) 0 list.old }
    requires within { place < length list.old }
    requires noted { IfSome places.old (λ keys. keys ≡ keys_of list.old) }
    ensures is { Became result list.old list.new (left list.old thread on) }
    ensures noted { IfSome places.new (λ keys. keys ≡ keys_of list.new) }
{
    let monitor = list.as_slice()[place];
    if monitor.owner != thread {
        return false;
    }
    leave_at(list, places, place, monitor);
    true
}

/// The monitor in this place, which is this one, is left once.
fn leave_at(
    list: &mut List<Monitor>,
    places: &mut Option<KeyPlaces>,
    place: usize,
    monitor: Monitor,
)
    requires there { slice_get list.old place ≡ Some monitor }
    requires within { place < length list.old }
    requires noted { IfSome places.old (λ keys. keys ≡ keys_of list.old) }
    ensures is { list.new ≡ left_at list.old place monitor }
    ensures noted { IfSome places.new (λ keys. keys ≡ keys_of list.new) }
{
    if monitor.count == 1 {
        list.remove(place);
        forget_place(places, place);
    } else {
        *list.item_mut(place) = Monitor {
            on: monitor.on,
            owner: monitor.owner,
            count: monitor.count.saturating_sub(1),
        };
    }
}

/// Forgets the key in this place.
fn forget_place(places: &mut Option<KeyPlaces>, place: usize)
    requires { IfSome places.old (λ keys. place < length keys) }
    ensures { places.new ≡ option_map (λ keys. take place keys ++ drop (place + 1) keys) places.old }
{
    if let Some(places) = places {
        places.remove(place);
    }
}
