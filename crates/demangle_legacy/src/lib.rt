//! Parses and prints legacy symbols: `_ZN`, then elements after their lengths, then `E`.
#![tactic(auto)]

ghost use Rattle.std.specs.Prelude.{◌≡◌, ◌+◌, ◌-◌, ◌*◌, ◌≤◌, IfOk, IfSome, IfNone, OnErr, Some, None, Ok, IsTrue, IsAscii, false, length, option_map};
ghost use Rattle.demangle_legacy.specs.Legacy.{legacy_of, elements_of, inner_of};
ghost use Rattle.demangle_legacy.specs.Unescaped.{legacy_pieces};
ghost use Rattle.demangle_sink.specs.Limit.{Prints, Ready};

use demangle_sink::{SizeLimitedFmtAdapter, TextSink};
use demangle_symbol::cursor::{Looks, Symbol};
use demangle_symbol::form::Form;

mod elements;
mod hexadecimal;
mod printing;
mod units;
mod value;

pub use value::Demangle;

/// Returns the text after the prefix of a legacy symbol, or `None` if it has no such prefix.
#[tactic(auto, using(demangle_symbol::proofs::Prefixes::after_answer), unfolding(crate::specs::Legacy::inner_of))]
fn inner_of(s: &str) -> Option<&str>
    ensures inner { option_map (λ x. x.now) result ≡ inner_of s.now }
    ensures shorter { IfSome result
        (λ x. (length x.now ≤ length s.now) × (length s.now ≤ length x.now + 4)) }
{
    if let Some(inner) = s.strip_prefix("_ZN") {
        return Some(inner);
    }
    // On Windows, dbghelp strips the leading underscore.
    if let Some(inner) = s.strip_prefix("ZN") {
        return Some(inner);
    }
    // On macOS, symbols have an additional underscore.
    s.strip_prefix("__ZN")
}

/// Returns the text after the prefix of a legacy symbol, if that text is ASCII. `is_ascii` says
/// that the text is known to be ASCII. In that case it is not tested.
// It is inlined, since most texts that are asked about have no prefix.
#[inline(always)]
fn ascii_inner_of<'s>(s: &'s str, is_ascii: bool, looks: &mut Looks) -> Option<&'s str>
    requires { IsTrue is_ascii → IsAscii s.now }
    ensures some { IfSome result (λ x. Some x.now ≡ inner_of s.now) }
    ensures ascii { IfSome result (λ x. IsAscii x.now) }
    ensures shorter { IfSome result (λ x. length x.now ≤ length s.now) }
    ensures none { IfNone result (legacy_of s.now ≡ None) }
    ensures grows { looks.old ≤ looks.new }
    ensures most { looks.new ≤ looks.old + length s.now }
    ensures least { is_ascii ≡ false →
        IfSome result (λ _. looks.old + (length s.now - 4) ≤ looks.new) }
{
    let Some(inner) = inner_of(s) else {
        return None;
    };
    if is_ascii {
        return Some(inner);
    }
    if !Symbol::new(inner).is_ascii(looks) {
        return None;
    }
    Some(inner)
}

/// Parses a legacy symbol. Returns the symbol and the suffix after its `E`. `is_ascii` says that
/// the text is known to be ASCII.
///
/// # Errors
///
/// Returns `Err` if the text is not a legacy symbol.
pub fn demangle<'s>(
    s: &'s str,
    is_ascii: bool,
    looks: &mut Looks,
) -> Result<(Demangle<'s>, &'s str), ()>
    requires { IsTrue is_ascii → IsAscii s.now }
    ensures ok { IfOk result (λ r. legacy_of s.now ≡ Some (elements_of r.0, r.1.now)) }
    ensures err { OnErr result (legacy_of s.now ≡ None) }
    ensures inner { IfOk result (λ r. length r.0 ≤ length s.now) }
    ensures grows { looks.old ≤ looks.new }
    ensures most { looks.new ≤ looks.old + 8 * (length s.now + 1) }
    ensures least { is_ascii ≡ false →
        IfOk result (λ r. looks.old + (length s.now - 4) ≤ looks.new) }
{
    // A length counts bytes. In other text, an element could end within a character.
    let Some(inner) = ascii_inner_of(s, is_ascii, looks) else {
        return Err(());
    };
    let symbol = Symbol::new(inner);
    let Some(end) = elements::end_of(&symbol, looks) else {
        return Err(());
    };
    Ok((Demangle::new(symbol), &inner[end..]))
}

/// Parses a legacy symbol and prints its elements, in one pass, and counts its looks. Returns the
/// symbol and the suffix after its `E`. The hash is omitted unless `form` includes it. The text
/// must be ASCII.
///
/// Returns `None` if the text is not a legacy symbol, or if the sink or the limit rejects a piece.
/// Then an unknown part of it may be printed, and `demangle` says whether the text is a symbol.
pub fn demangle_printed<'s, S: TextSink>(
    s: &'s str,
    out: &mut SizeLimitedFmtAdapter<'_, S>,
    form: Form,
    looks: &mut Looks,
) -> Option<(Demangle<'s>, &'s str)>
    requires ascii { IsAscii s.now }
    requires ready { Ready S.TextSink out.old }
    ensures some { IfSome result (λ r. legacy_of s.now ≡ Some (elements_of r.0, r.1.now)) }
    ensures prints { IfSome result (λ r. Prints S.TextSink out.old
        (legacy_pieces form (elements_of r.0)) (Ok tt) out.new) }
    ensures suffix { IfSome result (λ r. length r.1.now ≤ length s.now) }
    ensures grows { looks.old ≤ looks.new }
    ensures most { looks.new ≤ looks.old + 17 * (length s.now + 1) }
{
    let inner = ascii_inner_of(s, true, looks)?;
    let symbol = Symbol::new(inner);
    let Ok(Some(end)) = value::print_elements(&symbol, out, form, looks) else {
        return None;
    };
    Some((Demangle::new(symbol), &inner[end..]))
}
