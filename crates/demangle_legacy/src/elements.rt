//! Reads the elements of a legacy symbol.
ghost use Rattle.std.specs.Prelude.{◌≡◌, ℕ, ◌+◌, ◌-◌, ◌*◌, ◌^◌, ◌<◌, ◌≤◌, IfSome, IfNone, Some, length, drop, slice_get, slice_range, option_map};
ghost use Rattle.demangle_symbol.specs.Digits.{Decimal, is_digit_10, run_end};
ghost use Rattle.demangle_legacy.specs.Legacy.{element_of, suffix_of};

use demangle_symbol::cursor::{Looks, Part, Symbol};

/// Returns the value of the decimal digit at a place, or `None` if another byte or the end is
/// there.
#[tactic(auto, using(demangle_symbol::proofs::Digits::run_stops, demangle_symbol::proofs::Digits::run_none))]
#[inline(always)]
fn digit_at(symbol: &Symbol<'_>, place: usize, looks: &mut Looks) -> Option<u8>
    ensures digit { IfSome result (λ d. slice_get symbol.now place ≡ Some (d + 48)) }
    ensures small { IfSome result (λ d. d < 10) }
    ensures none { IfNone result (run_end is_digit_10 symbol.now place ≡ place) }
    ensures within { IfSome result (λ _. place < length symbol.now) }
    ensures look { looks.new ≡ looks.old + 1 }
    ensures fits { length symbol.now < 2 ^ 64 }
{
    match symbol.byte(place, looks) {
        Some(byte @ b'0'..=b'9') => Some(byte - b'0'),
        _ => None,
    }
}

/// Returns the length that is spelled at a place, and the place after its digits. Returns `None` if
/// there is no length, or if a `usize` cannot hold it.
// Almost all lengths have at most three digits. They are read without a loop, and cannot overflow.
#[tactic(auto, using(demangle_symbol::proofs::Digits::decimal_steps))]
#[inline(always)]
fn length_at(symbol: &Symbol<'_>, at: usize, looks: &mut Looks) -> Option<(usize, usize)>
    ensures some { IfSome result (λ r. Decimal symbol.now at r.1 r.0) }
    ensures none { IfNone result ((j v : ℕ) → v < 2 ^ 64 → Decimal symbol.now at j v → ⊥) }
    ensures within { IfSome result (λ r. (at < r.1) × (r.1 ≤ length symbol.now)) }
    ensures grows { looks.old ≤ looks.new }
    ensures some_looks { IfSome result (λ r. looks.new ≤ looks.old + (r.1 - at) + 5) }
    ensures none_looks { IfNone result (looks.new ≤ looks.old + (length symbol.now - at) + 5) }
{
    let Some(first) = digit_at(symbol, at, looks) else {
        return None;
    };
    let Some(second) = digit_at(symbol, at + 1, looks) else {
        return Some((usize::from(first), at + 1));
    };
    let Some(third) = digit_at(symbol, at + 2, looks) else {
        return Some((usize::from(first) * 10 + usize::from(second), at + 2));
    };
    let Some(_fourth) = digit_at(symbol, at + 3, looks) else {
        let two = usize::from(first) * 10 + usize::from(second);
        return Some((two * 10 + usize::from(third), at + 3));
    };
    symbol.decimal(at, looks).ok()
}

/// Returns the element whose length is spelled at a place. Returns `None` if there is no length, or
/// if the element would end after the symbol.
#[inline(always)]
pub(super) fn element_at(symbol: &Symbol<'_>, at: usize, looks: &mut Looks) -> Option<Part>
    requires { at ≤ length symbol.now }
    ensures element { option_map
        (λ e. (slice_range symbol.now e.from e.to, drop e.to symbol.now)) result
        ≡ element_of (drop at symbol.now) }
    ensures within { IfSome result
        (λ e. (at < e.from) × (e.from ≤ e.to) × (e.to ≤ length symbol.now)) }
    ensures grows { looks.old ≤ looks.new }
    ensures some_looks { IfSome result (λ e. looks.new ≤ looks.old + (e.from - at) + 5) }
    ensures none_looks { IfNone result (looks.new ≤ looks.old + (length symbol.now - at) + 5) }
{
    let end = symbol.len();
    let Some((len, from)) = length_at(symbol, at, looks) else {
        return None;
    };
    if len > end - from {
        return None;
    }
    Some(Part {
        from,
        to: from + len,
    })
}

/// Returns the place after the `E` that follows the elements, or `None` if there is no `E`.
pub(super) fn end_of(symbol: &Symbol<'_>, looks: &mut Looks) -> Option<usize>
    ensures end { option_map (λ end. drop end symbol.now) result ≡ suffix_of symbol.now }
    ensures within { IfSome result (λ end. end ≤ length symbol.now) }
    ensures grows { looks.old ≤ looks.new }
    ensures most { looks.new ≤ looks.old + 6 * (length symbol.now + 1) }
{
    let mut at = 0;
    while let Some(element) = element_at(symbol, at, looks) {
        at = element.to;
    }
    if symbol.is_at(b'E', at, looks) {
        Some(at + 1)
    } else {
        None
    }
}
