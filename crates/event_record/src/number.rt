//! Numbers among the words of a record.

ghost use Rattle.std.specs.Prelude.{◌≡◌};
ghost use Rattle.event_record.specs.Number.{as_int, as_index, number_of, int_of, index_of};

use mon_base::read_number;

/// The number of 64 bits whose text this is.
pub fn number_of(text: &[u8]) -> Option<i64>
    ensures { result ≡ number_of text.now }
{
    match read_number(text) {
        Some(n) => Some(n),
        None => None,
    }
}

/// The number with a sign, of 32 bits, whose text this is.
pub fn int_of(text: &[u8]) -> Option<i32>
    ensures { result ≡ int_of text.now }
{
    match number_of(text) {
        Some(n) => as_int(n),
        None => None,
    }
}

/// The number without a sign, of 32 bits, whose text this is.
pub fn index_of(text: &[u8]) -> Option<u32>
    ensures { result ≡ index_of text.now }
{
    match number_of(text) {
        Some(n) => as_index(n),
        None => None,
    }
}

fn as_int(n: i64) -> Option<i32>
    ensures { result ≡ as_int n }
{
    if -2_147_483_648 <= n && n <= 2_147_483_647 {
        Some(n as i32)
    } else {
        None
    }
}

fn as_index(n: i64) -> Option<u32>
    ensures { result ≡ as_index n }
{
    if 0 <= n && n < 4_294_967_296 {
        Some(n as u32)
    } else {
        None
    }
}
