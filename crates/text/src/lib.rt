// Numbers, edits and measures as text.
#![tactic(auto)]

pub mod edits;
pub mod numbers;

ghost use Rattle.std.specs.Prelude.{◌≡◌, pos, ◌-ℤ◌, IfOk, string_bytes};
ghost use Rattle.text.specs.Written.{hex_value, in_millimetres};

pub use edits::{edit_in, plain_edit_in};
pub use numbers::{Numeral, cut, first, number, two};
use std::alloc::{AllocError, Global};

// The value of a hexadecimal digit: 0 to 9, a to f.
// Kept: `to_digit` takes the capital letters too.
pub fn hex_digit(digit: u8) -> Option<u8>
    ensures { result ≡ hex_value digit }
{
    match digit {
        b'0'..=b'9' => Some(digit - b'0'),
        b'a'..=b'f' => Some(digit - b'a' + 10),
        _ => None,
    }
}

// One measure less another, in tenths of a millimetre.
pub fn difference(first: u16, second: u16) -> i32
    ensures { result ≡ pos first -ℤ pos second }
{
    i32::from(first) - i32::from(second)
}

// Tenths of a millimetre as millimetres with one decimal.
pub fn millimetres(heap: Global, tenths: i32) -> Result<String, AllocError>
    ensures { IfOk result (λ t. string_bytes t ≡ in_millimetres tenths) }
{
    let size = tenths.unsigned_abs();
    let whole = size / 10;
    let tenth = size % 10;
    if tenths < 0 {
        format!(in heap; "-{whole}.{tenth}")
    } else {
        format!(in heap; "{whole}.{tenth}")
    }
}
