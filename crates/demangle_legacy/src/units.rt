//! Reads the units of a legacy element.
ghost use Rattle.std.specs.Prelude.{◌≡◌, ◌≢◌, ◌+◌, ◌-◌, ◌*◌, ◌<◌, ◌≤◌, [], ◌∷◌, IfSome, MatchOption, true, false, length, slice_index, slice_range, slice_get, option_map, position, Some, encode_utf8};
ghost use Rattle.demangle_legacy.specs.Unescaped.{escape_of, escape_of_code, is_lower_hex, is_special, lower_hex, leading_unit};
ghost use Rattle.demangle_legacy.specs.Units.{text_of_unit};

use demangle_symbol::cursor::{Looks, Part, Symbol};

/// The text that a unit prints.
#[derive(Clone, Copy)]
pub(super) enum Unit {
    /// `::`
    Separator,
    Char(char),
    /// The bytes of the unit, unchanged.
    Run,
}

/// Returns the place of the first `$` or `.` of a part.
#[tactic(auto, using(demangle_symbol::proofs::Ranges::place_steps))]
fn special_in(symbol: &Symbol<'_>, part: Part, looks: &mut Looks) -> Option<usize>
    requires { part.to ≤ length symbol.now }
    ensures first { option_map (λ at. at - part.from) result
        ≡ position is_special (slice_range symbol.now part.from part.to) }
    ensures within { IfSome result (λ at. (part.from ≤ at) × (at < part.to)) }
    ensures grows { looks.old ≤ looks.new }
    ensures most { looks.new ≤ looks.old + (part.to - part.from) }
    ensures some_looks { IfSome result (λ at. looks.new ≤ looks.old + (at + 1 - part.from)) }
{
    // The part is within the symbol. The compiler knows it by the minimum, and tests one bound.
    let end = part.to.min(symbol.len());
    for at in part.from..end {
        let Some(byte) = symbol.byte(at, looks) else {
            return None;
        };
        // Letters, digits and `_` are greater than these two.
        if byte <= b'.' && (byte == b'$' || byte == b'.') {
            return Some(at);
        }
    }
    None
}

/// Returns the value of a lower case hexadecimal digit, or `None` for any other byte.
fn lower_hex_of(byte: u8) -> Option<u8>
    ensures { MatchOption result (is_lower_hex byte ≡ false)
        (λ d. (is_lower_hex byte ≡ true) × (d ≡ lower_hex byte) × (d < 16)) }
{
    match byte {
        b'0'..=b'9' => Some(byte - b'0'),
        b'a'..=b'f' => Some(byte - b'a' + 10),
        _ => None,
    }
}

/// Returns the character of a code, or `None` if the code may not be escaped.
fn escaped_code(code: u32) -> Option<char>
    ensures { option_map encode_utf8 result ≡ escape_of_code code }
{
    match char::from_u32(code) {
        // The Rust crate prints the escape of a control character unchanged.
        Some(c) if !c.is_control() => Some(c),
        _ => None,
    }
}

/// Returns the character of an escape by digits, and the place of the `$` that ends it. Returns
/// `None` if there is no such escape. The part starts with the `u` before the digits.
fn digits_escape(symbol: &Symbol<'_>, part: Part, looks: &mut Looks) -> Option<(char, usize)>
    requires order { part.from < part.to }
    requires inside { part.to ≤ length symbol.now }
    requires letter { slice_get symbol.now part.from ≡ Some 117 }
    ensures unit { option_map (λ r. (encode_utf8 r.0, r.1 - part.from + 1)) result
        ≡ leading_unit 36 (slice_range symbol.now part.from part.to) }
    ensures within { IfSome result (λ r. (part.from ≤ r.1) × (r.1 < part.to)) }
    ensures grows { looks.old ≤ looks.new }
    ensures most { looks.new ≤ looks.old + (part.to - part.from) }
    ensures some_looks { IfSome result (λ r. looks.new ≤ looks.old + (r.1 - part.from)) }
{
    let mut code: u32 = 0;
    for at in part.from + 1..part.to {
        let byte = symbol.byte(at, looks)?;
        let Some(digit) = lower_hex_of(byte) else {
            if byte != b'$' {
                return None;
            }
            // With no digit the code is 0, a control character, which may not be escaped.
            let c = escaped_code(code)?;
            return Some((c, at));
        };
        code = code * 16 + u32::from(digit);
        // The test at each digit prevents an overflow for any number of digits.
        if code > 0x10_ffff {
            return None;
        }
    }
    None
}

/// Returns the character for two letters between `$`, or `None` if they are not an escape. The
/// first must not be `u`, which starts an escape by digits.
#[tactic(auto, unfolding(crate::specs::Unescaped::escape_of))]
fn letters(first: u8, second: u8) -> Option<char>
    requires { first ≢ 117 }
    ensures { option_map encode_utf8 result ≡ escape_of (first ∷ second ∷ []) }
{
    match (first, second) {
        (b'S', b'P') => Some('@'),
        (b'B', b'P') => Some('*'),
        (b'R', b'F') => Some('&'),
        (b'L', b'T') => Some('<'),
        (b'G', b'T') => Some('>'),
        (b'L', b'P') => Some('('),
        (b'R', b'P') => Some(')'),
        _ => None,
    }
}

/// Returns the character of the escape at the start of a part, and the place of the `$` that ends
/// it. Returns `None` if there is no escape. The part is after a `$`.
// An escape is read in one pass, up to the first byte that no escape has there.
#[inline(always)]
fn escape_at(symbol: &Symbol<'_>, part: Part, looks: &mut Looks) -> Option<(char, usize)>
    requires { part.to ≤ length symbol.now }
    ensures unit { option_map (λ r. (encode_utf8 r.0, r.1 - part.from + 1)) result
        ≡ leading_unit 36 (slice_range symbol.now part.from part.to) }
    ensures within { IfSome result (λ r. (part.from ≤ r.1) × (r.1 < part.to)) }
    ensures grows { looks.old ≤ looks.new }
    ensures most { looks.new ≤ looks.old + 2 * (part.to - part.from) }
    ensures some_looks { IfSome result (λ r. looks.new ≤ looks.old + 2 * (r.1 - part.from) + 1) }
{
    let from = part.from;
    if part.to <= from {
        return None;
    }
    let first = symbol.byte(from, looks)?;
    if first == b'u' {
        return digits_escape(symbol, part, looks);
    }
    if part.to - from < 2 {
        return None;
    }
    let second = symbol.byte(from + 1, looks)?;
    if second == b'$' {
        if first == b'C' {
            return Some((',', from + 1));
        }
        return None;
    }
    if part.to - from < 3 {
        return None;
    }
    if !symbol.is_at(b'$', from + 2, looks) {
        return None;
    }
    let c = letters(first, second)?;
    Some((c, from + 2))
}

/// Returns the unit at a place of an element that ends at `to`, and the place after the unit.
/// Returns `None` if no unit starts there.
// It is inlined since a call would write each unit to memory, and read it from there again.
#[inline(always)]
pub(super) fn unit_at(
    symbol: &Symbol<'_>,
    at: usize,
    to: usize,
    looks: &mut Looks,
) -> Option<(Unit, usize)>
    requires order { at < to }
    requires inside { to ≤ length symbol.now }
    ensures unit { option_map (λ r. (
      text_of_unit (slice_range symbol.now at r.1) r.0,
      r.1 - (at
          + 1),
    )) result ≡ leading_unit (slice_index symbol.now at) (slice_range symbol.now (at + 1) to) }
    ensures within { IfSome result (λ r. (at < r.1) × (r.1 ≤ to)) }
    ensures grows { looks.old ≤ looks.new }
    ensures most { looks.new ≤ looks.old + 3 * (to - at) }
    ensures some_looks { IfSome result (λ r. looks.new ≤ looks.old + 3 * (r.1 - at)) }
{
    let next = at + 1;
    let rest = Part { from: next, to };
    match symbol.byte(at, looks)? {
        b'.' => {
            if next < to && symbol.is_at(b'.', next, looks) {
                Some((Unit::Separator, next + 1))
            } else {
                Some((Unit::Char('.'), next))
            }
        }
        b'$' => {
            let (c, end) = escape_at(symbol, rest, looks)?;
            Some((Unit::Char(c), end + 1))
        }
        _ => Some((Unit::Run, special_in(symbol, rest, looks)?)),
    }
}
