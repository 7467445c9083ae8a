//! Decodes the characters of string constants from their nibbles.
ghost use Rattle.std.specs.Prelude.{◌≡◌, ℕ, ◌+◌, ◌-◌, ◌*◌, ◌<◌, ◌≤◌, List, ◌∷◌, ◌++◌, length, slice_index, IfSome, IfNone, IsSome, IsTrue, ◌↔◌, option_map, is_some, encode_utf8};
ghost use Rattle.std.specs.Str.{IsUtf8};
ghost use Rattle.std.specs.Char.{IsScalar};
ghost use Rattle.demangle_sink.specs.Limit.{Prints, Ready};
ghost use Rattle.demangle_symbol.specs.Literals.{literal, string_of};
ghost use Rattle.demangle_symbol.specs.Nibbles.{HexPart, nibbles_in, characters_of, character_pieces};
ghost use Rattle.demangle_symbol.specs.Primitives.{is_nibble, nibble};

use crate::cursor::{Looks, Part, Symbol, nibble_of};
use crate::literal::put_escaped;
use demangle_sink::{SinkRefused, SizeLimitedFmtAdapter, TextSink, put_char};
use std::str;

/// An iterator over the characters that the nibbles of a string constant spell.
#[derive(Clone, Copy)]
pub struct StrChars {
    /// The nibbles not yet read.
    rest: Part,
}

/// Returns the value of the nibble at a place.
fn nibble_at(symbol: &Symbol<'_>, place: usize, looks: &mut Looks) -> u8
    requires inside { place < length symbol.now }
    requires hex { IsTrue (is_nibble (slice_index symbol.now place)) }
    ensures value { result ≡ nibble (slice_index symbol.now place) }
    ensures small { result < 16 }
    ensures look { looks.new ≡ looks.old + 1 }
{
    match symbol.byte(place, looks) {
        Some(byte) => match nibble_of(byte) {
            Some(value) => value,
            None => 0,
        },
        None => 0,
    }
}

/// Returns the byte that the two nibbles from a place spell.
#[tactic(auto, using(crate::proofs::Nibbles::nibble_steps))]
fn nibble_byte(symbol: &Symbol<'_>, rest: Part, place: usize, looks: &mut Looks) -> u8
    requires hex { HexPart symbol.now rest }
    requires begun { rest.from ≤ place }
    requires two { place + 2 ≤ rest.to }
    ensures value { result ≡ nibble (slice_index symbol.now place) * 16
        + nibble (slice_index symbol.now (place + 1)) }
    ensures looks { looks.new ≡ looks.old + 2 }
{
    let high = nibble_at(symbol, place, looks);
    let low = nibble_at(symbol, place + 1, looks);
    high * 16 + low
}

/// Returns the first character of these bytes, or `None` if they are not UTF-8.
fn first_char(bytes: &[u8]) -> Option<char>
    requires { 0 < length bytes.now }
    ensures scalar { IfSome result (λ c. IsScalar c) }
    ensures some { IfSome result (λ c. (rest : List ℕ) × (bytes.now ≡ encode_utf8 c ++ rest)) }
    ensures text { IfSome result (λ _. IsUtf8 bytes.now) }
    ensures none { IfNone result (IsUtf8 bytes.now → ⊥) }
{
    let Ok(text) = str::from_utf8(bytes) else {
        return None;
    };
    text.chars().next()
}

/// Returns the first character of a part and the place after it. Returns `None` if the nibbles do
/// not start with a character.
fn char_at(symbol: &Symbol<'_>, rest: Part, looks: &mut Looks) -> Option<(char, usize)>
    requires hex { HexPart symbol.now rest }
    requires some { rest.from < rest.to }
    ensures some { IfSome result (λ r. string_of (nibbles_in symbol.now rest)
        ≡ option_map (λ cs. r.0 ∷ cs)
        (string_of (nibbles_in symbol.now (record rest { from = r.1 })))) }
    ensures none { IfNone result (string_of (nibbles_in symbol.now rest) ≡ None) }
    ensures within { IfSome result (λ r. (rest.from < r.1) × (r.1 ≤ rest.to)) }
    ensures grows { looks.old ≤ looks.new }
    ensures some_looks { IfSome result (λ r. looks.new ≤ looks.old + (r.1 - rest.from)) }
    ensures none_looks { IfNone result (looks.new ≤ looks.old + (rest.to - rest.from)) }
{
    let mut bytes = [0_u8; 4];
    for len in 0..4_usize {
        let at = rest.from + 2 * len;
        if rest.to - at < 2 {
            return None;
        }
        bytes[len] = nibble_byte(symbol, rest, at, looks);
        if let Some(c) = first_char(&bytes[..len + 1]) {
            return Some((c, at + 2));
        }
    }
    None
}

impl StrChars {
    /// Returns an iterator over the characters of these nibbles.
    pub fn new(nibbles: Part) -> StrChars
        ensures { result.rest ≡ nibbles }
    {
        StrChars { rest: nibbles }
    }

    /// Returns `true` if all nibbles have been read.
    pub fn is_done(&self) -> bool
        ensures { IsTrue result ↔ (self.now.rest.to ≤ self.now.rest.from) }
    {
        self.rest.to <= self.rest.from
    }

    /// Returns the next character and removes its nibbles. Returns `None` if the nibbles do not
    /// start with a character, and then changes nothing.
    #[tactic(auto, using(crate::proofs::Nibbles::hex_later))]
    pub fn next(&mut self, symbol: &Symbol<'_>, looks: &mut Looks) -> Option<char>
        requires hex { HexPart symbol.now self.old.rest }
        requires some { self.old.rest.from < self.old.rest.to }
        ensures some { IfSome result (λ c. string_of (nibbles_in symbol.now self.old.rest)
            ≡ option_map (λ cs. c ∷ cs) (string_of (nibbles_in symbol.now self.new.rest))) }
        ensures none { IfNone result (string_of (nibbles_in symbol.now self.old.rest) ≡ None) }
        ensures hex { IfSome result (λ _. HexPart symbol.now self.new.rest) }
        ensures on { IfSome result (λ _. self.old.rest.from < self.new.rest.from) }
        ensures within { IfSome result (λ _. self.new.rest.from ≤ self.new.rest.to) }
        ensures same_end { self.new.rest.to ≡ self.old.rest.to }
        ensures stays { IfNone result (self.new ≡ self.old) }
        ensures grows { looks.old ≤ looks.new }
        ensures some_looks { IfSome result
            (λ _. looks.new + self.old.rest.from ≤ looks.old + self.new.rest.from) }
        ensures none_looks { IfNone result
            (looks.new ≤ looks.old + (self.old.rest.to - self.old.rest.from)) }
    {
        let Some((c, next)) = char_at(symbol, self.rest, looks) else {
            return None;
        };
        self.rest.from = next;
        Some(c)
    }
}

/// Returns `true` if the nibbles of a hexadecimal string spell a text: their number is even and
/// their bytes are UTF-8.
#[tactic(auto, using(crate::proofs::StringPieces::text_steps))]
#[inline(never)]
pub fn is_string(symbol: &Symbol<'_>, nibbles: Part, looks: &mut Looks) -> bool
    requires { HexPart symbol.now nibbles }
    ensures text { result ≡ is_some (string_of (nibbles_in symbol.now nibbles)) }
    ensures grows { looks.old ≤ looks.new }
    ensures looks { looks.new ≤ looks.old + (nibbles.to - nibbles.from) }
{
    let mut chars = StrChars::new(nibbles);
    while !chars.is_done() {
        let Some(_) = chars.next(symbol, looks) else {
            return false;
        };
    }
    true
}

/// Puts the characters of a string literal in their escaped form.
#[tactic(auto, using(demangle_sink::proofs::PrintsLemmas::prints_ready, demangle_sink::proofs::PrintsLemmas::prints_nothing))]
fn put_characters<S: TextSink>(
    symbol: &Symbol<'_>,
    nibbles: Part,
    out: &mut SizeLimitedFmtAdapter<'_, S>,
    looks: &mut Looks,
) -> Result<(), SinkRefused>
    requires hex { HexPart symbol.now nibbles }
    requires text { IsSome (string_of (nibbles_in symbol.now nibbles)) }
    requires ready { Ready S.TextSink out.old }
    ensures prints { Prints S.TextSink out.old
        (character_pieces (characters_of (nibbles_in symbol.now nibbles))) result out.new }
    ensures grows { looks.old ≤ looks.new }
    ensures looks { looks.new ≤ looks.old + (nibbles.to - nibbles.from) }
{
    let mut chars = StrChars::new(nibbles);
    while !chars.is_done() {
        let Some(c) = chars.next(symbol, looks) else {
            return Ok(());
        };
        put_escaped('"', c, out)?;
    }
    Ok(())
}

/// Puts the literal of a string constant: a quote, its characters and a quote.
///
/// # Errors
///
/// Returns `SinkRefused` if the sink or the size limit rejects a piece. No later piece is sent.
#[tactic(auto, using(demangle_sink::proofs::PrintsLemmas::prints_ready))]
#[inline(never)]
pub fn put_string_literal<S: TextSink>(
    symbol: &Symbol<'_>,
    nibbles: Part,
    out: &mut SizeLimitedFmtAdapter<'_, S>,
    looks: &mut Looks,
) -> Result<(), SinkRefused>
    requires hex { HexPart symbol.now nibbles }
    requires text { IsSome (string_of (nibbles_in symbol.now nibbles)) }
    requires ready { Ready S.TextSink out.old }
    ensures prints { Prints S.TextSink out.old
        (literal 34 (characters_of (nibbles_in symbol.now nibbles))) result out.new }
    ensures grows { looks.old ≤ looks.new }
    ensures looks { looks.new ≤ looks.old + (nibbles.to - nibbles.from) }
{
    put_char('"', out)?;
    put_characters(symbol, nibbles, out, looks)?;
    put_char('"', out)
}
