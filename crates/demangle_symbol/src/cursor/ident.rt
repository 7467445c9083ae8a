//! Reads the identifiers of a v0 symbol.
ghost use Rattle.std.specs.Prelude.{◌≡◌, ℕ, ◌+◌, ◌-◌, ◌*◌, ◌<◌, ◌≤◌, ◌^◌, length, true, IfOk, OnErr, IfErr, option_map};
ghost use Rattle.std.specs.Result.{result_ok};
ghost use Rattle.demangle_symbol.specs.Digits.{is_byte};
ghost use Rattle.demangle_symbol.specs.Primitives.{Name, Length, Identifier, identifier_at, tail_len};
ghost use Rattle.demangle_symbol.specs.Idents.{IsIdent, IsIdentWithin, ident_at, name_in, name_size};

use crate::cursor::{Looks, ParseError, Part, Symbol};

/// The two parts of a name. A name without Punycode has an empty Punycode part.
#[derive(Clone, Copy, Debug, PartialEq, Eq)]
pub struct Ident {
    pub ascii: Part,
    pub punycode: Part,
}

impl<'s> Symbol<'s> {
    /// Reads the length of an identifier and returns it with the place after its digits.
    #[tactic(auto, using(crate::proofs::Idents::length_steps))]
    #[inline(always)]
    fn length(&self, place: usize, looks: &mut Looks) -> Result<(usize, usize), ParseError>
        ensures ok { IfOk result (λ r. Length self.now place r.1 r.0) }
        ensures err { OnErr result ((j v : ℕ) → v < 2 ^ 64 → Length self.now place j v → ⊥) }
        ensures fault { IfErr result (λ e. e ≡ ParseError.Invalid) }
        ensures grows { looks.old ≤ looks.new }
        ensures ok_looks { IfOk result (λ r. looks.new ≤ looks.old + (r.1 - place + 2)) }
        ensures err_looks { OnErr result (looks.new ≤ looks.old + (length self.now - place + 2)) }
        ensures within { IfOk result (λ r. (place < r.1) × (r.1 ≤ length self.now)) }
    {
        // The grammar has no leading zeros. So a first `0` is the whole length, and digits after it
        // belong to the name.
        if self.is_at(b'0', place, looks) {
            return Ok((0, place + 1));
        }
        self.decimal(place, looks)
    }

    /// Returns the place after the last `_` of a part, or the start of the part if it has no `_`.
    #[tactic(auto, using(crate::proofs::Idents::tail_steps))]
    fn tail(&self, from: usize, to: usize, looks: &mut Looks) -> usize
        requires order { from ≤ to }
        requires inside { to ≤ length self.now }
        ensures tail { result + tail_len self.now from to ≡ to }
        ensures within { from ≤ result }
        ensures grows { looks.old ≤ looks.new }
        ensures looks { looks.new ≤ looks.old + (to - from) }
    {
        for at in (from..to).rev() {
            if self.is_at(b'_', at, looks) {
                return at + 1;
            }
        }
        from
    }

    /// Reads an identifier and returns it with the place after it.
    ///
    /// # Errors
    ///
    /// Returns `Invalid` if there is no length, if the length exceeds the symbol, or if a `u` is
    /// present and its Punycode part is empty.
    #[tactic(auto, using(crate::proofs::Idents::ident_steps, crate::proofs::Idents::ident_reads))]
    #[inline(always)]
    pub fn ident(&self, place: usize, looks: &mut Looks) -> Result<(Ident, usize), ParseError>
        ensures ok { IfOk result (λ r. IsIdent self.now place r.1 r.0) }
        ensures err { OnErr result ((j : ℕ) (ident : Ident) → IsIdent self.now place j ident → ⊥) }
        ensures parts { IfOk result (λ r. IsIdentWithin self.now r.0) }
        ensures spelled { IfOk result (λ r. Identifier self.now place r.1 (name_in self.now r.0)) }
        ensures not_spelled { OnErr result
            ((j : ℕ) (name : Name) → Identifier self.now place j name → ⊥) }
        ensures read { option_map (λ r. (name_in self.now r.0, r.1)) (result_ok result)
            ≡ identifier_at self.now place }
        ensures value { result_ok result ≡ ident_at self.now place }
        ensures fault { IfErr result (λ e. e ≡ ParseError.Invalid) }
        ensures grows { looks.old ≤ looks.new }
        // Printing the name looks at its bytes once more. The bound includes those looks.
        ensures ok_looks { IfOk result
            (λ r. looks.new + name_size r.0 ≤ looks.old + 4 * (r.1 - place + 1)) }
        ensures err_looks { OnErr result
            (looks.new ≤ looks.old + 4 * (length self.now - place + 1)) }
        ensures once { IfOk result (λ r. looks.new ≤ looks.old + (r.1 - place) + 4) }
        ensures within { IfOk result (λ r. (place < r.1) × (r.1 ≤ length self.now)) }
    {
        if self.is_at(b'u', place, looks) {
            return self.punycode_copy(place, looks);
        }
        let Ok((len, digits_end)) = self.length(place, looks) else {
            return Err(ParseError::Invalid);
        };
        let from = self.skip(b'_', digits_end, looks);
        if self.len() - from < len {
            return Err(ParseError::Invalid);
        }
        let to = from + len;
        let name = Ident {
            ascii: Part { from, to },
            punycode: Part { from: to, to },
        };
        Ok((name, to))
    }

    /// Reads an identifier that starts with `u` and returns a copy of it, with the place after it.
    /// The `u` was looked at before. Returns `Invalid` if no identifier is spelled there.
    // The copy frees other names from the memory to which that call writes its result. The function
    // is separate since that memory is cleared at its start.
    #[inline(always)]
    fn punycode_copy(&self, place: usize, looks: &mut Looks) -> Result<(Ident, usize), ParseError>
        requires u { is_byte self.now place 117 ≡ true }
        requires inside { place < length self.now }
        requires fits { length self.now < 2 ^ 64 }
        ensures ok { IfOk result (λ r. IsIdent self.now place r.1 r.0) }
        ensures err { OnErr result ((j : ℕ) (ident : Ident) → IsIdent self.now place j ident → ⊥) }
        ensures parts { IfOk result (λ r. IsIdentWithin self.now r.0) }
        ensures fault { IfErr result (λ e. e ≡ ParseError.Invalid) }
        ensures grows { looks.old ≤ looks.new }
        ensures ok_looks { IfOk result
            (λ r. looks.new + 1 + name_size r.0 ≤ looks.old + 4 * (r.1 - place + 1)) }
        ensures err_looks { OnErr result
            (looks.new + 1 ≤ looks.old + 4 * (length self.now - place + 1)) }
        ensures once { IfOk result (λ r. looks.new + 1 ≤ looks.old + (r.1 - place) + 4) }
        ensures within { IfOk result (λ r. (place < r.1) × (r.1 ≤ length self.now)) }
    {
        let Ok((name, to)) = self.punycode_ident(place, looks) else {
            return Err(ParseError::Invalid);
        };
        let copy = Ident {
            ascii: name.ascii,
            punycode: name.punycode,
        };
        Ok((copy, to))
    }

    /// Reads an identifier that starts with `u` and returns it with the place after it. The `u` was
    /// looked at before. Returns `Invalid` if no identifier is spelled there.
    // Few identifiers have a `u`. A separate function keeps the code for the others short.
    #[tactic(auto, using(crate::proofs::Idents::ident_steps))]
    #[inline(never)]
    fn punycode_ident(&self, place: usize, looks: &mut Looks) -> Result<(Ident, usize), ParseError>
        requires u { is_byte self.now place 117 ≡ true }
        requires inside { place < length self.now }
        requires fits { length self.now < 2 ^ 64 }
        ensures ok { IfOk result (λ r. IsIdent self.now place r.1 r.0) }
        ensures err { OnErr result ((j : ℕ) (ident : Ident) → IsIdent self.now place j ident → ⊥) }
        ensures parts { IfOk result (λ r. IsIdentWithin self.now r.0) }
        ensures fault { IfErr result (λ e. e ≡ ParseError.Invalid) }
        ensures grows { looks.old ≤ looks.new }
        ensures ok_looks { IfOk result
            (λ r. looks.new + 1 + name_size r.0 ≤ looks.old + 4 * (r.1 - place + 1)) }
        ensures err_looks { OnErr result
            (looks.new + 1 ≤ looks.old + 4 * (length self.now - place + 1)) }
        ensures once { IfOk result (λ r. looks.new + 1 ≤ looks.old + (r.1 - place) + 4) }
        ensures within { IfOk result (λ r. (place < r.1) × (r.1 ≤ length self.now)) }
    {
        let Ok((len, digits_end)) = self.length(place + 1, looks) else {
            return Err(ParseError::Invalid);
        };
        let from = self.skip(b'_', digits_end, looks);
        if self.len() - from < len {
            return Err(ParseError::Invalid);
        }
        let to = from + len;
        let tail = self.tail(from, to, looks);
        // A name must not have an empty Punycode part. Such a name is spelled without the `u`.
        if tail == to {
            return Err(ParseError::Invalid);
        }
        // The `_` between the two parts replaces the `-` of RFC 3492. It belongs to neither part.
        let ascii_end = if tail == from { from } else { tail - 1 };
        let name = Ident {
            ascii: Part {
                from,
                to: ascii_end,
            },
            punycode: Part { from: tail, to },
        };
        Ok((name, to))
    }
}
