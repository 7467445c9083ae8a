//! Reads the hexadecimal strings of a v0 symbol, and their numbers.
ghost use Rattle.std.specs.Prelude.{◌≡◌, ℕ, ◌+◌, ◌-◌, ◌<◌, ◌≤◌, length, true, false, slice_range, IfOk, OnErr, IfErr, MatchOption, option_map};
ghost use Rattle.std.specs.Result.{result_ok};
ghost use Rattle.demangle_symbol.specs.Digits.{number};
ghost use Rattle.demangle_symbol.specs.Nibbles.{hex_at};
ghost use Rattle.demangle_symbol.specs.Primitives.{nibbles_at, number_of, Hex, is_nibble, nibble, zeros};

use crate::cursor::{Looks, ParseError, Part, Symbol};

/// The most nibbles that a number may have after its leading zeros.
pub const MAX_NIBBLES: usize = 32;

impl<'s> Symbol<'s> {
    /// Reads a hexadecimal string. Returns the part of its nibbles and the place after its `_`.
    ///
    /// # Errors
    ///
    /// Returns `Invalid` if another byte, or the end, comes before the `_`.
    #[tactic(auto, using(crate::proofs::Hex::hex_steps, crate::proofs::Hex::hex_reads))]
    #[inline(never)]
    pub fn hex_nibbles(&self, place: usize, looks: &mut Looks) -> Result<(Part, usize), ParseError>
        ensures ok { IfOk result (λ r. Hex self.now place r.1 r.0.to × (r.0.from ≡ place)) }
        ensures err { OnErr result ((j end : ℕ) → Hex self.now place j end → ⊥) }
        ensures read { option_map (λ r. (slice_range self.now r.0.from r.0.to, r.1))
            (result_ok result) ≡ nibbles_at self.now place }
        ensures value { result_ok result ≡ hex_at self.now place }
        ensures fault { IfErr result (λ e. e ≡ ParseError.Invalid) }
        ensures grows { looks.old ≤ looks.new }
        ensures ok_looks { IfOk result (λ r. looks.new ≤ looks.old + (r.1 - place)) }
        ensures err_looks { OnErr result (looks.new ≤ looks.old + (length self.now - place)) }
        ensures within { IfOk result (λ r. (place < r.1) × (r.1 ≤ length self.now)) }
    {
        for at in place..self.len() {
            let Some(byte) = self.byte(at, looks) else {
                return Err(ParseError::Invalid);
            };
            if byte == b'_' {
                let nibbles = Part {
                    from: place,
                    to: at,
                };
                return Ok((nibbles, at + 1));
            }
            let Some(_) = nibble_of(byte) else {
                return Err(ParseError::Invalid);
            };
        }
        Err(ParseError::Invalid)
    }

    /// Returns the place after the leading zeros of a part.
    #[tactic(auto, using(crate::proofs::Hex::zeros_steps))]
    fn after_zeros(&self, part: Part, looks: &mut Looks) -> usize
        requires order { part.from ≤ part.to }
        requires inside { part.to ≤ length self.now }
        ensures place { result ≡ part.from + zeros (slice_range self.now part.from part.to) }
        ensures within { (part.from ≤ result) × (result ≤ part.to) }
        ensures nothing { number 16 nibble (slice_range self.now part.from result) ≡ 0 }
        ensures grows { looks.old ≤ looks.new }
        ensures looks { looks.new ≤ looks.old + (result - part.from + 1) }
    {
        for at in part.from..part.to {
            if !self.is_at(b'0', at, looks) {
                return at;
            }
        }
        part.to
    }

    /// Returns the number that the nibbles of a hexadecimal string spell. Returns `None` if more
    /// than 32 nibbles follow the leading zeros.
    #[tactic(auto, using(crate::proofs::Hex::number_steps), unfolding(crate::specs::Primitives::number_of))]
    #[inline(never)]
    pub fn hex_number(&self, nibbles: Part, looks: &mut Looks) -> Option<u128>
        requires { (j : ℕ) × Hex self.now nibbles.from j nibbles.to }
        ensures number { result ≡ number_of (slice_range self.now nibbles.from nibbles.to) }
        ensures grows { looks.old ≤ looks.new }
        ensures looks { looks.new ≤ looks.old + (nibbles.to - nibbles.from + 1) }
    {
        // Leading zeros have no value, so a number may have any number of them.
        let start = self.after_zeros(nibbles, looks);
        if nibbles.to - start > MAX_NIBBLES {
            return None;
        }
        let mut number: u128 = 0;
        for at in start..nibbles.to {
            let Some(byte) = self.byte(at, looks) else {
                return None;
            };
            let Some(digit) = nibble_of(byte) else {
                return None;
            };
            number = number * 16 + u128::from(digit);
        }
        Some(number)
    }
}

/// Returns the value of a lower case hexadecimal digit, or `None` for any other byte.
pub(crate) fn nibble_of(byte: u8) -> Option<u8>
    ensures { MatchOption result
        (is_nibble byte ≡ false) (λ d. (is_nibble byte ≡ true) × (d ≡ nibble byte) × (d < 16)) }
{
    match byte {
        b'0'..=b'9' => Some(byte - b'0'),
        b'a'..=b'f' => Some(byte - b'a' + 10),
        _ => None,
    }
}
