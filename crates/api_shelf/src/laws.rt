//! What the definitions come to.

ghost use Rattle.std.specs.Prelude.{◌≡◌, ◌∷◌, [], Some, IfOk, ℕ, List};
ghost use Rattle.api_shelf.specs.Plain.{PlainIsByType};
ghost use Rattle.api_shelf.specs.Shelf.{View, AllTell, AllAreSilent, pairs_of};
ghost use Rattle.api_shelf.specs.Telling.{Log};

use crate::device::{ApiDevice, DeviceFault};
use api_listing::{ApiAnswer, ApiCall};

/// A device that tells, was not asked before and answers two calls tells two pairs, in their order.
pub fn ask_twice<D: ApiDevice>(
    device: &mut D,
    first: &ApiCall,
    second: &ApiCall,
) -> Result<(ApiAnswer, ApiAnswer), DeviceFault>
    requires silent { D.told device.old ≡ Some [] }
    ensures both { IfOk result (λ given.
        D.told device.new ≡ Some ((first.now, given.0) ∷ (second.now, given.1) ∷ [])) }
{
    let one = device.answer(first)?;
    let two = device.answer(second)?;
    Ok((one, two))
}

/// What devices tell together is decided by what was answered. Before the first answer they tell nothing; a device that is
/// alone in its class tells each pair of it; and the second of two tells nothing.
pub fn devices_tell()
    ensures begins { (slots : List View) → AllAreSilent slots → AllTell [] slots }
    ensures alone { (class : List ℕ) (log pairs : Log) (faults : ℕ)
        → AllTell pairs (record { class = class; told = Some log; faults = faults } ∷ []) → log ≡ pairs_of class pairs }
    ensures second { (class : List ℕ) (first log pairs : Log) (faults more : ℕ)
        → AllTell pairs (record { class = class; told = Some first; faults = faults }
        ∷ record { class = class; told = Some log; faults = more } ∷ [])
        → log ≡ [] }
{}

/// The plain answer is decided by the type that the method's descriptor encodes for its result.
pub fn plain_answers_are_by_type()
    ensures { PlainIsByType }
{}
