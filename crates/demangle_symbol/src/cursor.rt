//! Access to the bytes of a symbol. Each look at a byte is counted.
ghost use Rattle.std.specs.Prelude.{◌≡◌, ℕ, [], ◌∷◌, ◌+◌, ◌-◌, ◌*◌, ◌<◌, ◌≤◌, length, slice_get, slice_range, ◌^◌, IfOk, OnErr, IfErr, IfSome, IfNone, SomeIff, IsTrue, ◌↔◌};
ghost use Rattle.std.specs.Str.{IsAscii};
ghost use Rattle.demangle_symbol.specs.Digits.{is_byte, run_end, Decimal, is_digit_10};
ghost use Rattle.demangle_symbol.specs.Idents.{DigitsUpTo};
ghost use Rattle.demangle_sink.specs.Limit.{Prints, Ready};

use demangle_sink::{SinkRefused, SizeLimitedFmtAdapter, TextSink};
use std::marker::Model;
use std::str;

mod hex;
mod ident;
mod looks;
mod primitives;
mod window;

pub use hex::MAX_NIBBLES;
pub(crate) use hex::nibble_of;
pub use ident::Ident;
pub use looks::{Looks, RunLooks};
pub use primitives::MAX_DEPTH;
pub use window::WINDOW;

/// The reason for which a symbol could not be parsed. The variants have the names of the Rust
/// crate.
#[derive(Clone, Copy, Debug, PartialEq, Eq)]
pub enum ParseError {
    Invalid,
    RecursedTooDeep,
}

/// A part of a symbol: the bytes from place `from` up to, but without, place `to`.
#[derive(Clone, Copy, Debug, PartialEq, Eq)]
pub struct Part {
    pub from: usize,
    pub to: usize,
}

/// The bytes of a symbol after the prefix of its mangling scheme.
#[derive(Drop)]
pub struct Symbol<'s> {
    inner: &'s str,
}

impl<'s> Model for Symbol<'s> {
    ghost use Rattle.std.specs.Prelude.{ℕ, List};

    ghost Value = { List ℕ };

    ghost view = { λ s. s.inner.now };
}

/// The text of a part of a symbol. It can only be put into a sink.
#[derive(Drop)]
pub struct Span<'s> {
    text: &'s str,
}

impl<'s> Model for Span<'s> {
    ghost use Rattle.std.specs.Prelude.{ℕ, List};

    ghost Value = { List ℕ };

    ghost view = { λ s. s.text.now };
}

impl<'s> Span<'s> {
    /// Puts the text into a sink as one piece. It makes no look.
    ///
    /// # Errors
    ///
    /// Returns `SinkRefused` if the sink or the size limit rejects the piece.
    #[inline(always)]
    pub fn write_to<S: TextSink>(
        &self,
        out: &mut SizeLimitedFmtAdapter<'_, S>,
    ) -> Result<(), SinkRefused>
        requires { Ready S.TextSink out.old }
        ensures { Prints S.TextSink out.old (self.now ∷ []) result out.new }
    {
        out.put(self.text)
    }
}

impl<'s> Symbol<'s> {
    /// Returns the symbol that has these bytes after its prefix.
    pub fn new(inner: &'s str) -> Symbol<'s>
        ensures { result ≡ inner.now }
    {
        Symbol { inner }
    }

    /// Returns the number of bytes. It makes no look.
    pub fn len(&self) -> usize
        ensures { result ≡ length self.now }
    {
        self.inner.len()
    }

    /// Returns the byte at a place, or `None` after the end. It makes one look.
    pub fn byte(&self, place: usize, looks: &mut Looks) -> Option<u8>
        ensures byte { result ≡ slice_get self.now place }
        ensures look { looks.new ≡ looks.old + 1 }
        ensures within { IfSome result (λ _. place < length self.now) }
        ensures fits { length self.now < 2 ^ 64 }
    {
        looks.tick();
        let _count = self.inner.len();
        self.inner.as_bytes().get(place).copied()
    }

    /// Returns `true` if all bytes are ASCII. It makes at most one look for each byte.
    pub fn is_ascii(&self, looks: &mut Looks) -> bool
        ensures ascii { IsTrue result ↔ IsAscii self.now }
        ensures grows { looks.old ≤ looks.new }
        ensures most { looks.new ≤ looks.old + length self.now }
        ensures all { IsTrue result → looks.new ≡ looks.old + length self.now }
    {
        let mut all = true;
        for at in 0..self.len() {
            let Some(byte) = self.byte(at, looks) else {
                return false;
            };
            all &= byte < 128;
        }
        all
    }

    /// Returns the text of a part, to be put into a sink. It makes no look.
    #[inline(always)]
    pub fn span(&self, part: Part) -> Span<'s>
        requires ascii { IsAscii self.now }
        requires order { part.from ≤ part.to }
        requires inside { part.to ≤ length self.now }
        ensures { result ≡ slice_range self.now part.from part.to }
    {
        let bytes = &self.inner.as_bytes()[part.from..part.to];
        // SAFETY: the symbol is ASCII, and so is each part of it.
        let text = unsafe { str::from_utf8_unchecked(bytes) };
        Span { text }
    }

    /// Returns `true` if the byte at a place is `byte`. It makes one look.
    #[tactic(auto, unfolding(crate::specs::Digits::is_byte))]
    pub fn is_at(&self, byte: u8, place: usize, looks: &mut Looks) -> bool
        ensures there { result ≡ is_byte self.now place byte }
        ensures look { looks.new ≡ looks.old + 1 }
        ensures within { IsTrue result → place < length self.now }
        ensures fits { length self.now < 2 ^ 64 }
    {
        match self.byte(place, looks) {
            Some(b) => b == byte,
            None => false,
        }
    }

    /// Reads a decimal number and returns it with the place after its digits.
    ///
    /// # Errors
    ///
    /// Returns `Invalid` if there is no digit at the place, or if a `usize` cannot hold the number.
    #[tactic(auto, using(crate::proofs::Digits::decimal_steps))]
    #[inline(always)]
    pub fn decimal(&self, place: usize, looks: &mut Looks) -> Result<(usize, usize), ParseError>
        ensures ok { IfOk result (λ r. Decimal self.now place r.1 r.0) }
        ensures err { OnErr result ((j v : ℕ) → v < 2 ^ 64 → Decimal self.now place j v → ⊥) }
        ensures fault { IfErr result (λ e. e ≡ ParseError.Invalid) }
        ensures grows { looks.old ≤ looks.new }
        ensures ok_looks { IfOk result (λ r. looks.new ≤ looks.old + (r.1 - place + 1)) }
        ensures err_looks { OnErr result (looks.new ≤ looks.old + (length self.now - place + 1)) }
        ensures within { IfOk result (λ r. (place < r.1) × (r.1 ≤ length self.now)) }
    {
        let Some(first) = self.digit(place, looks) else {
            return Err(ParseError::Invalid);
        };
        // Most lengths are below 100, so two digits are read without a loop.
        let one = usize::from(first);
        let Some(second) = self.digit(place + 1, looks) else {
            return Ok((one, place + 1));
        };
        let two = one * 10 + usize::from(second);
        let Some(third) = self.digit(place + 2, looks) else {
            return Ok((two, place + 2));
        };
        self.decimal_from(two * 10 + usize::from(third), place, place + 3, looks)
    }

    /// Reads the remaining digits of a decimal number and returns it with the place after them. The
    /// number starts at `start`, and its digits before `from` have the value `number`.
    #[tactic(auto, using(crate::proofs::Digits::decimal_steps))]
    #[inline(always)]
    fn decimal_from(
        &self,
        number: usize,
        start: usize,
        from: usize,
        looks: &mut Looks,
    ) -> Result<(usize, usize), ParseError>
        requires digits { DigitsUpTo self.now start from number }
        ensures ok { IfOk result (λ r. Decimal self.now start r.1 r.0) }
        ensures err { OnErr result ((j v : ℕ) → v < 2 ^ 64 → Decimal self.now start j v → ⊥) }
        ensures fault { IfErr result (λ e. e ≡ ParseError.Invalid) }
        ensures grows { looks.old ≤ looks.new }
        ensures ok_looks { IfOk result (λ r. looks.new ≤ looks.old + (r.1 - from + 1)) }
        ensures err_looks { OnErr result (looks.new ≤ looks.old + (length self.now - from + 1)) }
        ensures within { IfOk result
            (λ r. (start < r.1) × (from ≤ r.1) × (r.1 ≤ length self.now)) }
    {
        let mut number = number;
        for at in from..self.len() {
            let Some(digit) = self.digit(at, looks) else {
                if at == start {
                    return Err(ParseError::Invalid);
                }
                return Ok((number, at));
            };
            // If a `usize` cannot hold the number, that is an error, as in the Rust crate. The
            // number never wraps to a small one.
            let Some(sum) = append_decimal(number, digit) else {
                return Err(ParseError::Invalid);
            };
            number = sum;
        }
        let end = self.len();
        if end <= start {
            return Err(ParseError::Invalid);
        }
        Ok((number, end))
    }

    /// Returns the value of the decimal digit at a place, or `None` if another byte or the end is
    /// there.
    #[tactic(auto, using(crate::proofs::Digits::run_stops, crate::proofs::Digits::run_none))]
    #[inline(always)]
    fn digit(&self, place: usize, looks: &mut Looks) -> Option<u8>
        ensures digit { IfSome result (λ d. slice_get self.now place ≡ Some (d + 48)) }
        ensures small { IfSome result (λ d. d < 10) }
        ensures none { IfNone result (run_end is_digit_10 self.now place ≡ place) }
        ensures within { IfSome result (λ _. place < length self.now) }
        ensures look { looks.new ≡ looks.old + 1 }
        ensures fits { length self.now < 2 ^ 64 }
    {
        match self.byte(place, looks) {
            Some(byte @ b'0'..=b'9') => Some(byte - b'0'),
            _ => None,
        }
    }
}

/// Returns the number with this digit appended in a base, or `None` if it does not fit 64 bits.
pub(crate) fn append_digit(number: u64, base: u64, digit: u8) -> Option<u64>
    ensures { SomeIff result (number * base + digit < 2 ^ 64) (number * base + digit) }
{
    number.checked_mul(base)?.checked_add(u64::from(digit))
}

/// Returns the number with this decimal digit appended, or `None` if a `usize` cannot hold it.
#[inline(always)]
fn append_decimal(number: usize, digit: u8) -> Option<usize>
    ensures { SomeIff result (number * 10 + digit < 2 ^ 64) (number * 10 + digit) }
{
    number.checked_mul(10)?.checked_add(usize::from(digit))
}
