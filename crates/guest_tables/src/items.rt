//! What stands in a place of a list.

ghost use Rattle.std.specs.Prelude.{option_copied, slice_get, ◌≡◌};

use mon_base::List;

/// What stands in the place, if there is something.
pub fn item_at<T>(items: &List<T>, place: u32) -> Option<&T>
    ensures { option_copied result ≡ slice_get items.now place }
{
    items.as_slice().get(place as usize)
}

/// A copy of what stands in the place, if there is something.
pub fn copy_at<T: Copy>(items: &List<T>, place: u32) -> Option<T>
    ensures { result ≡ slice_get items.now place }
{
    match items.as_slice().get(place as usize) {
        Some(item) => Some(*item),
        None => None,
    }
}
