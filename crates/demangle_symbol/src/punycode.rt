//! Decodes Punycode (RFC 3492) in the form of v0 names: `_` replaces `-`, and digits are lower
//! case.
ghost use Rattle.std.specs.Prelude.{◌≡◌, ℕ, ◌+◌, ◌-◌, ◌<◌, ◌≤◌, ◌∷◌, length, slice_index, slice_range, IfSome, IfNone, option_map, Bool, false};
ghost use Rattle.demangle_symbol.specs.Idents.{IsIdentWithin, name_size};
ghost use Rattle.demangle_symbol.specs.Punycode.{digit_of, threshold, adapted_bias, next_delta, deltas, puny};

use crate::cursor::{Ident, Looks, Part, Symbol};
use arrayvec::ArrayVec;

mod printing;

/// The most characters that a decoded name may have.
pub const SMALL_PUNYCODE_LEN: usize = 128;

/// The largest delta that can give a character, whatever precedes it. A larger one raises the
/// character number by at least 0x110000, since there are at most 129 characters.
const MAX_DELTA: u64 = 0x11_0000 * 129 - 1;

/// Returns the value of a Punycode digit, or `None` for any other byte. An upper case letter is not
/// a digit.
fn digit_of(byte: u8) -> Option<u64>
    ensures { result ≡ digit_of byte }
{
    match byte {
        b'a'..=b'z' => Some(u64::from(byte - b'a')),
        b'0'..=b'9' => Some(u64::from(byte - b'0') + 26),
        _ => None,
    }
}

/// Returns the value of the digit at a place of the symbol, or `None` if another byte is there.
fn digit_at(symbol: &Symbol<'_>, place: usize, looks: &mut Looks) -> Option<u64>
    requires { place < length symbol.now }
    ensures digit { result ≡ digit_of (slice_index symbol.now place) }
    ensures look { looks.new ≡ looks.old + 1 }
{
    match symbol.byte(place, looks) {
        Some(byte) => digit_of(byte),
        None => None,
    }
}

/// Returns the threshold of a digit of a delta. `place` is 36 for the first digit, and 36 more for
/// each later one.
fn threshold(place: u64, bias: u64) -> u64
    ensures value { result ≡ threshold place bias }
    ensures low { 1 ≤ result }
    ensures high { result ≤ 26 }
{
    // RFC 3492 uses the least threshold, 1, for a place up to the bias. The difference is 0 there,
    // as it saturates.
    place.saturating_sub(bias).max(1).min(26)
}

/// Returns the bias after a delta. `count` is the number of characters with the new one.
fn adapt(delta: u64, count: u64, first: bool) -> u64
    requires small { delta ≤ MAX_DELTA }
    requires some { 0 < count }
    ensures { result ≡ adapted_bias delta count first }
{
    // The parameters of RFC 3492 (5) are: damping 700, skew 38, thresholds 1 to 26, base 36. So 35
    // is the base minus the least threshold, and 455 is half of 35 x 26.
    let damped = if first { delta / 700 } else { delta / 2 };
    let mut delta = damped + damped / count;
    let mut place = 0;
    while delta > 455 {
        delta /= 35;
        place += 36;
    }
    place + 36 * delta / (delta + 38)
}

/// Reads the first delta of a part and returns it with the place after it. Returns `None` if a byte
/// is not a digit, if the part ends too early, or if the delta is too large for any character.
fn delta_at(symbol: &Symbol<'_>, digits: Part, bias: u64, looks: &mut Looks) -> Option<(u64, usize)>
    requires some { digits.from < digits.to }
    requires inside { digits.to ≤ length symbol.now }
    ensures within { IfSome result (λ r. (r.0 ≤ MAX_DELTA) × (digits.from < r.1) × (r.1 ≤
        digits.to)) }
    ensures some { IfSome result (λ r. (count : ℕ) (first : Bool) →
        deltas (next_delta count first bias) (slice_range symbol.now digits.from digits.to)
        ≡ option_map (λ ds. r.0 ∷ ds) (deltas (next_delta (count + 1) false
        (adapted_bias r.0 (count + 1) first)) (slice_range symbol.now r.1 digits.to))) }
    ensures none { IfNone result ((count : ℕ) (first : Bool) →
        IfSome (deltas (next_delta count first bias)
        (slice_range symbol.now digits.from digits.to)) (λ ds. MAX_DELTA < slice_index ds 0)) }
    ensures grows { looks.old ≤ looks.new }
    ensures some_looks { IfSome result (λ r. looks.new ≤ looks.old + (r.1 - digits.from)) }
    ensures none_looks { IfNone result (looks.new ≤ looks.old + (digits.to - digits.from)) }
{
    let mut sum: u64 = 0;
    let mut weight: u64 = 1;
    let mut place: u64 = 36;
    for at in digits.from..digits.to {
        let Some(digit) = digit_at(symbol, at, looks) else {
            return None;
        };
        let last_below = threshold(place, bias);
        sum += digit * weight;
        if sum > MAX_DELTA {
            return None;
        }
        if digit < last_below {
            return Some((sum, at + 1));
        }
        // This cannot overflow. A digit that does not end the delta is at least 1. So the sum is at
        // least the weight, and the sum is within the limit.
        weight *= 36 - last_below;
        place += 36;
    }
    None
}

/// Returns the characters of an ASCII part, or `None` if there are more than 128.
#[tactic(auto, using(crate::proofs::Digits::range_more, demangle_sink::proofs::Parts::part_none))]
fn ascii_characters(
    symbol: &Symbol<'_>,
    ascii: Part,
    looks: &mut Looks,
) -> Option<ArrayVec<char, SMALL_PUNYCODE_LEN>>
    requires order { ascii.from ≤ ascii.to }
    requires inside { ascii.to ≤ length symbol.now }
    ensures characters { IfSome result (λ v. v.items ≡ slice_range symbol.now ascii.from ascii.to) }
    ensures few { IfSome result (λ v. ascii.to - ascii.from ≤ 128) }
    ensures many { IfNone result (128 < ascii.to - ascii.from) }
    ensures grows { looks.old ≤ looks.new }
    ensures looks { looks.new ≤ looks.old + (ascii.to - ascii.from) }
{
    let mut characters = ArrayVec::new();
    if ascii.to - ascii.from > SMALL_PUNYCODE_LEN {
        return None;
    }
    for at in ascii.from..ascii.to {
        if let Some(byte) = symbol.byte(at, looks) {
            characters.push(char::from(byte));
        }
    }
    Some(characters)
}

/// Returns the characters of a name with a Punycode part. Returns `None` if a digit is invalid, a
/// delta is incomplete, a value is not a Unicode scalar value, or there are more than 128
/// characters.
#[inline(never)]
fn decode(
    symbol: &Symbol<'_>,
    name: Ident,
    looks: &mut Looks,
) -> Option<ArrayVec<char, SMALL_PUNYCODE_LEN>>
    requires { IsIdentWithin symbol.now name }
    ensures characters { option_map (λ v. v.items) result
        ≡ puny (slice_range symbol.now name.ascii.from name.ascii.to)
        (slice_range symbol.now name.punycode.from name.punycode.to) }
    ensures grows { looks.old ≤ looks.new }
    ensures looks { looks.new ≤ looks.old + name_size name }
{
    let Some(mut characters) = ascii_characters(symbol, name.ascii, looks) else {
        return None;
    };
    let end = name.punycode.to;
    // The initial values of RFC 3492. `n` is the last code point that was inserted, and `i` the
    // index after it.
    let mut bias: u64 = 72;
    let mut first = true;
    let mut n: u64 = 0x80;
    let mut i: u64 = 0;
    let mut at = name.punycode.from;
    while at < end {
        let digits = Part { from: at, to: end };
        let Some((delta, next)) = delta_at(symbol, digits, bias, looks) else {
            return None;
        };
        // The Rust crate decodes into 128 characters. It prints a longer name undecoded.
        if characters.is_full() {
            return None;
        }
        let count = characters.len() as u64 + 1;
        n += (i + delta) / count;
        i = (i + delta) % count;
        let Some(c) = char::from_u32(n as u32) else {
            return None;
        };
        characters.insert(i as usize, c);
        i += 1;
        bias = adapt(delta, count, first);
        first = false;
        at = next;
    }
    Some(characters)
}
