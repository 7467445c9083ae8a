//! Recognizes sixteen hexadecimal digits at once.
ghost use Rattle.std.specs.Prelude.{◌≡◌, ◌==◌};
ghost use Rattle.std.specs.List.{list_all};
ghost use Rattle.std.specs.Char.{is_ascii_hexdigit};

use demangle_symbol::cursor::WINDOW;

/// Returns 0 exactly if a byte is a hexadecimal digit of either case.
// Vector instructions have the subtraction that stops at 0, and the minimum, but no comparison of
// bytes without a sign.
#[tactic(auto, using(crate::proofs::HexadecimalDigits::distance_steps))]
#[inline(always)]
fn distance(byte: u8) -> u8
    ensures { is_ascii_hexdigit byte ≡ (result == 0) }
{
    // A digit differs from `0` in the lowest four bits, and a letter from its other case in one.
    let digit = (byte ^ b'0').saturating_sub(9);
    let letter = (byte | 0x20).wrapping_sub(b'a').saturating_sub(5);
    digit.min(letter)
}

/// Returns `true` if all bytes are hexadecimal digits of either case.
#[inline(always)]
pub(super) fn are_hexadecimal(bytes: &[u8; WINDOW]) -> bool
    ensures { result ≡ list_all is_ascii_hexdigit bytes.now }
{
    // The compiler vectorizes the loop.
    let mut any = 0;
    for k in 0..WINDOW {
        any |= distance(bytes[k]);
    }
    any == 0
}
