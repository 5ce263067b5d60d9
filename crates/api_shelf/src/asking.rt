//! Which device a call goes to, and what that makes of the devices.

ghost use Rattle.std.specs.Prelude.{◌≡◌, ◌≢◌, ◌≤◌, ◌<◌, ◌↔◌, ◌∷◌, ◌++◌, [], length, None, IfSome, IfOk, OnErr, IsErrOf, bytes_eq};
ghost use Rattle.std.specs.List.{position_from};
ghost use Rattle.mon_store.specs.Store.{Rose};
ghost use Rattle.api_shelf.specs.Asking.{pair_of, told_after, OnlyAt, FirstTells, CountRose};
ghost use Rattle.api_shelf.specs.Plain.{plain_answer};
ghost use Rattle.api_shelf.specs.Shelf.{views, first_of, AllTell, IsLater};
ghost use Rattle.api_shelf.specs.Telling.{Log};
ghost use Rattle.api_listing.specs.declared.events.ApiAnswer.{ApiAnswer};

use crate::device::{ApiDevice, DeviceFault};
use crate::plain::plain_answer;
use crate::shelf::SlotOf;
use api_listing::{ApiAnswer, ApiCall};
use mon_base::Bytes;
use std::alloc::Global;

/// What came of a call.
#[derive(Drop)]
pub enum Asked {
    /// There is no device of the class.
    Nobody,
    Answered(ApiAnswer),
    Refused(DeviceFault),
}

/// Asks the device of the first slot whose class is that of the call's method, once.
pub fn ask_first<D: ApiDevice>(slots: &mut [SlotOf<D>], call: &ApiCall) -> Asked
    ensures nobody { (result ≡ Asked.Nobody) ↔ (first_of call.now.method.class (views D.told D.faults slots.old) ≡ None) }
    ensures first { FirstTells call.now result (views D.told D.faults slots.old) (views D.told D.faults slots.new) }
    // The other slots are the same.
    ensures others { OnlyAt (first_of call.now.method.class (views D.told D.faults slots.old)) slots.old slots.new }
    ensures later { IsLater (views D.told D.faults slots.old) (views D.told D.faults slots.new) }
    ensures failed { result ≡ Asked.Refused DeviceFault.Failed →
        CountRose call.now.method.class (views D.told D.faults slots.old) (views D.told D.faults slots.new) }
    // Logs stay those of all that was answered.
    ensures tells { (pairs : Log) → AllTell pairs (views D.told D.faults slots.old)
        → AllTell (pairs ++ pair_of call.now result) (views D.told D.faults slots.new) }
    // What is answered to a call that no device is there for is in no log.
    ensures unasked { result ≡ Asked.Nobody → (pairs : Log) (given : ApiAnswer) → AllTell pairs (views D.told D.faults slots.old)
        → AllTell (pairs ++ (call.now, given) ∷ []) (views D.told D.faults slots.new) }
{
    let Some(place) = place_of(slots, &call.method.class) else {
        return Asked::Nobody;
    };
    ask(&mut slots[place], call)
}

/// The place of the first slot of this class.
fn place_of<D>(slots: &[SlotOf<D>], class: &Bytes) -> Option<usize>
    ensures first { result ≡ position_from (λ slot. bytes_eq slot.class class.now) 0 slots.now }
    ensures within { IfSome result (λ place. place < length slots.now) }
{
    slots.iter().position(|slot| slot.class == *class)
}

/// Asks the device of this slot, once.
fn ask<D: ApiDevice>(slot: &mut SlotOf<D>, call: &ApiCall) -> Asked
    ensures class { slot.new.class ≡ slot.old.class }
    ensures somebody { result ≢ Asked.Nobody }
    ensures told { D.told slot.new.device ≡ told_after (D.told slot.old.device) call.now result }
    ensures faults { D.faults slot.old.device ≤ D.faults slot.new.device }
    ensures failed { result ≡ Asked.Refused DeviceFault.Failed →
        Rose (D.faults slot.old.device) (D.faults slot.new.device) }
{
    match slot.device.answer(call) {
        Ok(answer) => Asked::Answered(answer),
        Err(fault) => Asked::Refused(fault),
    }
}

/// The answer to this call: that of the first device of its class, or the plain one where there is none.
pub fn answer_call<D: ApiDevice>(
    alloc: Global,
    slots: &mut [SlotOf<D>],
    call: &ApiCall,
) -> Result<ApiAnswer, DeviceFault>
    // Logs stay those of all that was answered.
    ensures ok { IfOk result (λ given. (pairs : Log) → AllTell pairs (views D.told D.faults slots.old)
        → AllTell (pairs ++ (call.now, given) ∷ []) (views D.told D.faults slots.new)) }
    ensures refused { OnErr result ((pairs : Log) → AllTell pairs (views D.told D.faults slots.old)
        → AllTell pairs (views D.told D.faults slots.new)) }
    ensures plain { first_of call.now.method.class (views D.told D.faults slots.old) ≡ None
        → result ≡ Ok (plain_answer call.now) }
    // The other slots are the same.
    ensures others { OnlyAt (first_of call.now.method.class (views D.told D.faults slots.old)) slots.old slots.new }
    ensures later { IsLater (views D.told D.faults slots.old) (views D.told D.faults slots.new) }
    ensures failed { IsErrOf result DeviceFault.Failed →
        CountRose call.now.method.class (views D.told D.faults slots.old) (views D.told D.faults slots.new) }
{
    match ask_first(slots, call) {
        Asked::Nobody => Ok(plain_answer(alloc, call)),
        Asked::Answered(answer) => Ok(answer),
        Asked::Refused(fault) => Err(fault),
    }
}
