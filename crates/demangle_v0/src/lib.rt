//! v0 symbols (RFC 2603): a prefix, one path or two, then a suffix.
#![tactic(auto)]

ghost use Rattle.std.specs.Prelude.{◌≡◌, ℕ, ◌+◌, ◌-◌, ◌*◌, ◌≤◌, IfOk, IfSome, IfNone, OnErr, OnSome, Ok, Some, None, IsTrue, IsAscii, false, length, option_map};
ghost use Rattle.demangle_v0_grammar.specs.V0.{v0_inner, v0_of};
ghost use Rattle.demangle_sink.specs.Limit.{Ready};
ghost use Rattle.demangle_v0.specs.Printed.{HasLengthsWithin, IsKnown};

use crate::stacks::SHORT_STACK;
use crate::validation::{begins_path, print_to_suffix, suffix_at};
use demangle_sink::{SinkRefused, SizeLimitedFmtAdapter, TextSink};
use demangle_symbol::cursor::{Looks, ParseError, Symbol};
use demangle_symbol::form::Form;
use demangle_v0_parser::frames::UNUSED_FRAME;
use demangle_v0_parser::fuel::Fuel;
use demangle_v0_parser::parse::Parser;
use demangle_v0_tokens::source::Source;

mod held_texts;
mod printer;
mod reading;
mod skip;
mod stacks;
mod validation;
mod value;

pub use value::Demangle;

/// Returns the text after the prefix of a v0 symbol, or `None` without such a prefix.
#[tactic(auto, using(demangle_symbol::proofs::Prefixes::after_answer))]
fn inner_of(s: &str) -> Option<&str>
    ensures inner { option_map (λ x. x.now) result ≡ v0_inner s.now }
    ensures shorter { IfSome result (λ x. (length x.now ≤ length s.now) × (length s.now ≤ length
        x.now + 3)) }
{
    if let Some(inner) = s.strip_prefix("_R") {
        return Some(inner);
    }
    // On Windows, dbghelp strips the leading underscore.
    if let Some(inner) = s.strip_prefix("R") {
        return Some(inner);
    }
    // On macOS, symbols have one underscore more.
    s.strip_prefix("__R")
}

/// Returns the text as a symbol, if it is ASCII and has a prefix of the v0 scheme. Otherwise it
/// returns `None`. No path is read: the first one prints up to its first syntax error.
pub fn ascii_symbol<'s>(s: &'s str, looks: &mut Looks) -> Option<Demangle<'s>>
    ensures some { IfSome result (λ symbol. v0_inner s.now ≡ Some symbol) }
    ensures ascii { OnSome result (IsAscii s.now) }
    ensures none { IfNone result (IsAscii s.now → v0_inner s.now ≡ None) }
    ensures grows { looks.old ≤ looks.new }
    ensures most { looks.new ≤ looks.old + length s.now }
{
    let text = Symbol::new(s);
    if !text.is_ascii(looks) {
        return None;
    }
    match inner_of(s) {
        Some(inner) => Some(Demangle::new(Symbol::new(inner))),
        None => None,
    }
}

/// Returns the text after the prefix of a v0 symbol, if it is ASCII, and otherwise `None`. This is
/// not tested if `is_ascii` says that the text is known to be ASCII.
fn ascii_inner_of<'s>(s: &'s str, is_ascii: bool, looks: &mut Looks) -> Option<&'s str>
    requires { IsTrue is_ascii → IsAscii s.now }
    ensures some { IfSome result (λ x. Some x.now ≡ v0_inner s.now) }
    ensures ascii { IfSome result (λ x. IsAscii x.now) }
    ensures shorter { IfSome result (λ x. length x.now ≤ length s.now) }
    ensures none { IfNone result (v0_of s.now ≡ None) }
    ensures grows { looks.old ≤ looks.new }
    ensures most { looks.new ≤ looks.old + length s.now }
    ensures least { is_ascii ≡ false →
        IfSome result (λ _. looks.old + (length s.now - 4) ≤ looks.new) }
{
    let Some(inner) = inner_of(s) else {
        return None;
    };
    if is_ascii {
        return Some(inner);
    }
    if !Symbol::new(inner).is_ascii(looks) {
        return None;
    }
    Some(inner)
}

/// Reads a v0 symbol. Returns the symbol and the suffix after its paths. `is_ascii` says that the
/// text is known to be ASCII.
///
/// Fails if the prefix is missing, the text is not ASCII, or a path is missing or has an error.
pub fn demangle<'s>(
    s: &'s str,
    is_ascii: bool,
    looks: &mut Looks,
) -> Result<(Demangle<'s>, &'s str), ParseError>
    requires { IsTrue is_ascii → IsAscii s.now }
    ensures ok { IfOk result (λ r. v0_of s.now ≡ Some (r.0, r.1.now)) }
    ensures err { OnErr result (v0_of s.now ≡ None) }
    ensures inner { IfOk result (λ r. length r.0 ≤ length s.now) }
    ensures grows { looks.old ≤ looks.new }
    ensures most { looks.new ≤ looks.old + 40 * (length s.now + 1) }
    ensures least { is_ascii ≡ false →
        IfOk result (λ r. looks.old + (length s.now - 4) ≤ looks.new) }
{
    let Some(inner) = ascii_inner_of(s, is_ascii, looks) else {
        return Err(ParseError::Invalid);
    };
    let symbol = Symbol::new(inner);
    if !begins_path(&symbol, 0, looks) {
        return Err(ParseError::Invalid);
    }
    let Some(end) = suffix_at(&symbol, looks) else {
        return Err(ParseError::Invalid);
    };
    Ok((Demangle::new(symbol), &inner[end..]))
}

/// What is known of a text whose first path was printed before it was known to be a symbol.
#[derive(Drop)]
pub enum Printed<'s> {
    /// The text is this symbol with this suffix, and its first path was printed.
    Symbol(Demangle<'s>, &'s str),
    /// The text is not a symbol. A path may be printed.
    NoSymbol,
    /// The first path was not printed to its end, so nothing is known of the text.
    Unknown,
}

/// A print of a path before the text was known to be a symbol.
#[derive(Drop)]
pub struct FirstPrint<'s> {
    pub printed: Printed<'s>,
    /// How much fuel the references of the path used up.
    pub fuel: usize,
}

/// Prints the first path of a v0 symbol before the text is known to be one, and counts its looks: in a
/// form with hashes or without them, and with its generic arguments or with `_` for them. Returns what
/// is known of the text then, which must be ASCII.
///
/// If the path has few references, the text is read once. Otherwise the print gives up when its fuel
/// is used up, or at the first reference for which more bytes may be read again than the adapter
/// allows. So if their number is limited, the looks are bounded by the length of the text.
pub fn print_first<'s, S: TextSink>(
    s: &'s str,
    out: &mut SizeLimitedFmtAdapter<'_, S>,
    form: Form,
    looks: &mut Looks,
) -> FirstPrint<'s>
    requires ascii { IsAscii s.now }
    requires ready { Ready S.TextSink out.old }
    ensures known { IsKnown S.TextSink s.now out.old form result.printed out.new }
    ensures inner { HasLengthsWithin (length s.now) result.printed }
    ensures grows { looks.old ≤ looks.new }
    ensures most { IfSome out.old.reread.most (λ most.
        looks.new ≤ looks.old + 17 * (length s.now + 1 + most) + 33 * (length s.now + 1) + 3) }
    ensures early { IfSome out.old.reread.most (λ most. result.printed ≡ Printed.Unknown →
        looks.new ≤ looks.old + 17 * (length s.now + 1 + most) + length s.now + 3) }
{
    let Some(inner) = ascii_inner_of(s, true, looks) else {
        return FirstPrint {
            printed: Printed::NoSymbol,
            fuel: 0,
        };
    };
    let symbol = Symbol::new(inner);
    if !begins_path(&symbol, 0, looks) {
        return FirstPrint {
            printed: Printed::NoSymbol,
            fuel: 0,
        };
    }
    let source = Source {
        symbol: &symbol,
        form,
    };
    let mut memory = [UNUSED_FRAME; SHORT_STACK];
    let mut parser = Parser::at_path(source, 0, &mut memory, looks);
    parser.fuel = Fuel::for_first_print();
    let end = print_to_suffix(&mut parser, out);
    *looks = parser.looks;
    let fuel = parser.fuel.used;
    match end {
        Ok(Some(end)) => {
            let printed = Printed::Symbol(Demangle::new(symbol), &inner[end..]);
            FirstPrint { printed, fuel }
        }
        Ok(None) => {
            let printed = Printed::NoSymbol;
            FirstPrint { printed, fuel }
        }
        Err(SinkRefused) => {
            let printed = Printed::Unknown;
            FirstPrint { printed, fuel }
        }
    }
}
