//! Words that are numbers.

ghost use Rattle.std.specs.Prelude.{◌≡◌, ℕ, IfNone, IfSome};
ghost use Rattle.command_inputs.specs.Counts.{IsCount, IsNumber};

use mon_base::read_number;

/// The count whose decimal text this is, from 1 to `most`.
pub fn count_of(word: &[u8], most: u32) -> Option<u32>
    ensures found { IfSome result (IsCount word.now most) }
    ensures none { IfNone result ((n : ℕ) → IsCount word.now most n → ⊥) }
{
    let number = read_number(word)?;
    if 1 <= number && number <= most as i64 {
        Some(number as u32)
    } else {
        None
    }
}

/// The number whose decimal text this is, from 0 to 9,223,372,036,854,775,807.
pub fn number_of(word: &[u8]) -> Option<u64>
    ensures found { IfSome result (IsNumber word.now) }
    ensures none { IfNone result ((n : ℕ) → IsNumber word.now n → ⊥) }
{
    let number = read_number(word)?;
    if 0 <= number {
        Some(number as u64)
    } else {
        None
    }
}
