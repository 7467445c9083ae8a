//! Prints an element of a legacy symbol.
ghost use Rattle.std.specs.Prelude.{◌≡◌, ◌+◌, ◌-◌, ◌*◌, ◌^◌, ◌<◌, ◌≤◌, ◌&&◌, not, [], ◌∷◌, IsAscii, IsTrue, length, slice_range};
ghost use Rattle.std.specs.List.{list_all};
ghost use Rattle.std.specs.Char.{is_ascii_hexdigit};
ghost use Rattle.demangle_symbol.specs.Digits.{is_byte};
ghost use Rattle.demangle_sink.specs.Limit.{Prints, Ready};
ghost use Rattle.demangle_legacy.specs.Unescaped.{is_hash, pieces_from, unescaped};
ghost use Rattle.demangle_legacy.specs.Units.{text_of_unit};

use crate::hexadecimal::are_hexadecimal;
use crate::units::{Unit, unit_at};
use demangle_sink::{SinkRefused, SizeLimitedFmtAdapter, TextSink};
use demangle_symbol::cursor::{Looks, Part, Symbol, WINDOW};
use demangle_symbol::form::Form;

/// Returns `true` if all bytes of a part are hexadecimal digits.
///
/// Digits of either case and any number of them are accepted, as in the Rust crate.
#[tactic(auto, using(crate::proofs::LegacyUnits::hash_steps))]
fn has_only_digits(symbol: &Symbol<'_>, part: Part, looks: &mut Looks) -> bool
    requires order { part.from ≤ part.to }
    requires inside { part.to ≤ length symbol.now }
    ensures digits { result ≡ list_all is_ascii_hexdigit (slice_range symbol.now part.from part.to) }
    ensures grows { looks.old ≤ looks.new }
    ensures most { looks.new ≤ looks.old + (part.to - part.from) }
{
    // rustc writes as many digits as a window has bytes.
    if part.to - part.from == WINDOW {
        let Some(bytes) = symbol.window(part.from, looks) else {
            return false;
        };
        return are_hexadecimal(bytes);
    }
    for at in part.from..part.to {
        let Some(byte) = symbol.byte(at, looks) else {
            return false;
        };
        if !byte.is_ascii_hexdigit() {
            return false;
        }
    }
    true
}

/// Returns `true` if an element is `h` followed only by hexadecimal digits.
#[tactic(auto, using(crate::proofs::LegacyUnits::hash_steps))]
fn is_hash(symbol: &Symbol<'_>, element: Part, looks: &mut Looks) -> bool
    requires { element.to ≤ length symbol.now }
    ensures hash { result ≡ is_hash (slice_range symbol.now element.from element.to) }
    ensures grows { looks.old ≤ looks.new }
    ensures most { looks.new ≤ looks.old + (element.to - element.from) }
{
    if element.to <= element.from {
        return false;
    }
    if !symbol.is_at(b'h', element.from, looks) {
        return false;
    }
    let digits = Part {
        from: element.from + 1,
        to: element.to,
    };
    has_only_digits(symbol, digits, looks)
}

/// Returns `true` if an element is omitted: the form has no hash, and the element is the last one
/// and is a hash.
pub(super) fn is_omitted(symbol: &Symbol<'_>, element: Part, form: Form, looks: &mut Looks) -> bool
    requires { element.to ≤ length symbol.now }
    ensures hash { result ≡ (not form.include_hash && (is_byte symbol.now element.to 69 && is_hash
        (slice_range symbol.now element.from element.to))) }
    ensures inside { IsTrue result →
        (element.to < length symbol.now) × (length symbol.now < 2 ^ 64) }
    ensures grows { looks.old ≤ looks.new }
    ensures most { looks.new ≤ looks.old + (element.to - element.from + 1) }
{
    !form.include_hash && symbol.is_at(b'E', element.to, looks) && is_hash(symbol, element, looks)
}

/// Puts the text of the unit that these bytes spell.
fn put_unit<S: TextSink>(
    symbol: &Symbol<'_>,
    unit: Unit,
    bytes: Part,
    out: &mut SizeLimitedFmtAdapter<'_, S>,
) -> Result<(), SinkRefused>
    requires ascii { IsAscii symbol.now }
    requires order { bytes.from ≤ bytes.to }
    requires inside { bytes.to ≤ length symbol.now }
    requires ready { Ready S.TextSink out.old }
    ensures { Prints S.TextSink out.old
        (text_of_unit (slice_range symbol.now bytes.from bytes.to) unit ∷ []) result out.new }
{
    match unit {
        Unit::Separator => out.put("::"),
        // The size of such a text is a constant, so one store copies it.
        Unit::Char(c) if c.is_ascii() => out.put(c.encode_utf8(&mut [0; 1])),
        Unit::Char(c) => out.put(c.encode_utf8(&mut [0; 4])),
        Unit::Run => symbol.span(bytes).write_to(out),
    }
}

/// Returns the place of the first unit of an element. A `_` before a `$` is omitted.
fn first_unit(symbol: &Symbol<'_>, element: Part, looks: &mut Looks) -> usize
    requires order { element.from ≤ element.to }
    requires inside { element.to ≤ length symbol.now }
    ensures units { unescaped (slice_range symbol.now element.from element.to)
        ≡ pieces_from 0 (slice_range symbol.now result element.to) }
    ensures within { (element.from ≤ result) × (result ≤ element.to) }
    ensures grows { looks.old ≤ looks.new }
    ensures most { looks.new ≤ looks.old + 2 }
{
    // An identifier cannot start with an escape. rustc puts a `_` before an element that would.
    if element.to - element.from >= 2
        && symbol.is_at(b'_', element.from, looks)
        && symbol.is_at(b'$', element.from + 1, looks)
    {
        element.from + 1
    } else {
        element.from
    }
}

/// Puts an element, with one piece for each unit.
pub(super) fn put_element<S: TextSink>(
    symbol: &Symbol<'_>,
    element: Part,
    out: &mut SizeLimitedFmtAdapter<'_, S>,
    looks: &mut Looks,
) -> Result<(), SinkRefused>
    requires ascii { IsAscii symbol.now }
    requires order { element.from ≤ element.to }
    requires inside { element.to ≤ length symbol.now }
    requires ready { Ready S.TextSink out.old }
    ensures prints { Prints S.TextSink out.old
        (unescaped (slice_range symbol.now element.from element.to)) result out.new }
    ensures grows { looks.old ≤ looks.new }
    ensures most { looks.new ≤ looks.old + 2 + 3 * (element.to - element.from) }
{
    let mut at = first_unit(symbol, element, looks);
    while at < element.to {
        // After an invalid escape, the rest of the element is printed unchanged, with its later
        // escapes.
        let Some((unit, next)) = unit_at(symbol, at, element.to, looks) else {
            break;
        };
        put_unit(symbol, unit, Part { from: at, to: next }, out)?;
        at = next;
    }
    let rest = Part {
        from: at,
        to: element.to,
    };
    symbol.span(rest).write_to(out)
}
