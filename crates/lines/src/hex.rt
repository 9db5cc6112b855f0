ghost use Rattle.std.specs.Prelude.{◌≡◌, ◌-◌, ◌/◌, ◌%◌, ◌^◌, ◌<◌, ◌≤◌};
ghost use Rattle.lines.specs.Hex.{digit_code, hex};

use std::array;

// By hand: by the rules the letters are capitals, nothing here allocates, and the crate `hex` writes capitals only on the heap.
const DIGITS: [u8; 16] = *b"0123456789ABCDEF";

/// The digit of a number at a place, counted from the right.
fn digit(number: u32, place: usize) -> u8
    requires { place < 8 }
    ensures { result ≡ digit_code (number / 16 ^ place % 16) }
{
    DIGITS[(number / 16_u32.pow(place as u32) % 16) as usize]
}

/// The last `N` digits of a number.
pub(crate) fn digits<const N: usize>(number: u32) -> [u8; N]
    requires { N ≤ 8 }
    ensures { result ≡ hex N number }
{
    array::from_fn(
        |i| -> u8
            requires within { i < N }
            requires short { N ≤ 8 }
            ensures { result ≡ digit_code (number / 16 ^ (N - 1 - i) % 16) }
        { digit(number, N - 1 - i) },
    )
}
