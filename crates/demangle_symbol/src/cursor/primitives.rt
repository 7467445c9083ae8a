//! Reads the primitives of a v0 symbol that are numbers, letters and back references.
ghost use Rattle.std.specs.Prelude.{◌≡◌, ℕ, ◌+◌, ◌-◌, ◌*◌, ◌<◌, ◌≤◌, ◌^◌, length, drop, true, false, Some, None, slice_get, IfOk, OnErr, IfErr, IfSome, IfNone, MatchOption, option_map};
ghost use Rattle.std.specs.Result.{result_ok};
ghost use Rattle.demangle_symbol.specs.Primitives.{byte_at, integer_at, optional_at, namespace_at, backref_at, Integer, OptInteger, Namespace, Backref, after_byte, is_digit_62, digit_62};
ghost use Rattle.demangle_symbol.specs.Digits.{run_end};
ghost use Rattle.demangle_symbol.specs.Idents.{backref_result};
ghost use Rattle.demangle_symbol.specs.Integers.{Digit62, OneMore, one_more_at};

use crate::cursor::{Looks, ParseError, Symbol, append_digit};

/// The greatest depth to which productions of a symbol may be nested.
pub const MAX_DEPTH: u32 = 500;

/// The number of digits that are read without an overflow check. 62^10 is below 2^60.
const UNCHECKED_DIGITS: usize = 10;

/// An integer of eleven digits fits if its first digit is below this. 21 * 62^10 is below 2^64 - 2.
const FITTING_FIRST: u64 = 21;

impl<'s> Symbol<'s> {
    /// Reads an integer in base 62 and returns it with the place after it.
    ///
    /// # Errors
    ///
    /// Returns `Invalid` if no integer is spelled there, or if the integer is 2^64 or more.
    #[tactic(auto, using(crate::proofs::Integers::integer_steps))]
    #[inline(never)]
    pub fn integer_62(&self, place: usize, looks: &mut Looks) -> Result<(u64, usize), ParseError>
        ensures ok { IfOk result (λ r. Integer self.now place r.1 r.0) }
        ensures err { OnErr result ((j v : ℕ) → Integer self.now place j v → ⊥) }
        ensures read { result_ok result ≡ integer_at self.now place }
        ensures fault { IfErr result (λ e. e ≡ ParseError.Invalid) }
        ensures grows { looks.old ≤ looks.new }
        ensures ok_looks { IfOk result (λ r. looks.new ≤ looks.old + 4 * (r.1 - place + 1)) }
        ensures err_looks { OnErr result
            (looks.new ≤ looks.old + 4 * (length self.now - place + 1)) }
        ensures within { IfOk result (λ r. (place < r.1) × (r.1 ≤ length self.now)) }
    {
        // `_` alone is 0, so the digits spell one less than the integer.
        let Some(first) = self.integer_digit(place, looks)? else {
            return Ok((0, place + 1));
        };
        let mut number = first;
        // The number of iterations does not depend on the place, so the compiler can unroll them.
        // Each digit read finds the end of the symbol itself.
        for step in 1..UNCHECKED_DIGITS {
            let at = place + step;
            let Some(digit) = self.integer_digit(at, looks)? else {
                return Ok((number + 1, at + 1));
            };
            number = number * 62 + digit;
        }
        for at in place + UNCHECKED_DIGITS..self.len() {
            let Some(digit) = self.integer_digit(at, looks)? else {
                let Some(value) = number.checked_add(1) else {
                    return Err(ParseError::Invalid);
                };
                return Ok((value, at + 1));
            };
            let Some(sum) = append_digit(number, 62, digit as u8) else {
                return Err(ParseError::Invalid);
            };
            number = sum;
        }
        Err(ParseError::Invalid)
    }

    /// Reads a digit of an integer. Returns `None` if the byte is the `_` that ends the integer,
    /// and `Invalid` if it is any other byte.
    #[tactic(auto, using(crate::proofs::Integers::digit_reads))]
    #[inline(always)]
    fn integer_digit(&self, place: usize, looks: &mut Looks) -> Result<Option<u64>, ParseError>
        ensures digit { IfOk result (λ o. IfSome o (λ d. Digit62 self.now place d)) }
        ensures small { IfOk result (λ o. IfSome o (λ d. d < 62)) }
        ensures end { IfOk result (λ o. IfNone o (slice_get self.now place ≡ Some 95)) }
        ensures other { OnErr result (run_end is_digit_62 self.now place ≡ place
            × (slice_get self.now place ≡ Some 95 → ⊥)) }
        ensures fault { IfErr result (λ e. e ≡ ParseError.Invalid) }
        ensures look { looks.new ≡ looks.old + 1 }
        ensures within { IfOk result (λ _. place < length self.now) }
        ensures fits { length self.now < 2 ^ 63 }
    {
        // This call shows the proof that a symbol is shorter than 2^63 bytes.
        let _count = self.inner.as_bytes().len();
        let Some(byte) = self.byte(place, looks) else {
            return Err(ParseError::Invalid);
        };
        // Digits are tested first, since an integer has up to eleven of them and one end. The end
        // is recognized by its byte: a test by the table would be moved before the test of the
        // digits.
        let digit = digit_62_of(byte);
        if digit < 62 {
            return Ok(Some(u64::from(digit)));
        }
        if byte == b'_' {
            return Ok(None);
        }
        Err(ParseError::Invalid)
    }

    /// Reads an optional integer and returns it with the place after it. The value is the integer
    /// after the tag plus one, or 0 without the tag.
    ///
    /// # Errors
    ///
    /// Returns `Invalid` if the tag has no integer after it, or if the sum is 2^64 or more.
    #[tactic(auto, using(crate::proofs::Integers::optional_reads))]
    #[inline(always)]
    pub fn opt_integer_62(
        &self,
        tag: u8,
        place: usize,
        looks: &mut Looks,
    ) -> Result<(u64, usize), ParseError>
        ensures ok { IfOk result (λ r. OptInteger tag self.now place r.1 r.0) }
        ensures err { OnErr result ((j v : ℕ) → OptInteger tag self.now place j v → ⊥) }
        ensures read { result_ok result ≡ optional_at tag self.now place }
        ensures fault { IfErr result (λ e. e ≡ ParseError.Invalid) }
        ensures grows { looks.old ≤ looks.new }
        ensures ok_looks { IfOk result (λ r. looks.new ≤ looks.old + 4 * (r.1 - place + 1)) }
        ensures err_looks { OnErr result
            (looks.new ≤ looks.old + 4 * (length self.now - place + 1)) }
        ensures within { IfOk result
            (λ r. (place ≤ r.1) × (place ≤ length self.now → r.1 ≤ length self.now)) }
    {
        if !self.is_at(tag, place, looks) {
            return Ok((0, place));
        }
        self.integer_after_tag(place + 1, looks)
    }

    /// Reads the integer after a tag. Returns the integer plus one, and the place after it. Returns
    /// `Invalid` if no integer is spelled there, or if the sum is 2^64 or more.
    // The function is separate since memory for the call's result is cleared at its start, and most
    // names have no tag.
    #[tactic(auto, using(crate::proofs::Integers::one_more_reads))]
    #[inline(always)]
    fn integer_after_tag(&self, place: usize, looks: &mut Looks) -> Result<(u64, usize), ParseError>
        ensures ok { IfOk result (λ r. OneMore self.now place r.1 r.0) }
        ensures err { OnErr result ((j v : ℕ) → OneMore self.now place j v → ⊥) }
        ensures read { result_ok result ≡ one_more_at self.now place }
        ensures fault { IfErr result (λ e. e ≡ ParseError.Invalid) }
        ensures grows { looks.old ≤ looks.new }
        ensures ok_looks { IfOk result (λ r. looks.new ≤ looks.old + 4 * (r.1 - place + 1)) }
        ensures err_looks { OnErr result
            (looks.new ≤ looks.old + 4 * (length self.now - place + 1)) }
        ensures within { IfOk result (λ r. (place < r.1) × (r.1 ≤ length self.now)) }
    {
        let Ok((number, next)) = self.integer_62(place, looks) else {
            return Err(ParseError::Invalid);
        };
        // A missing tag means 0, so an integer after the tag counts from 1.
        let Some(value) = number.checked_add(1) else {
            return Err(ParseError::Invalid);
        };
        Ok((value, next))
    }

    /// Returns the place after a disambiguator, which gets no value.
    ///
    /// # Errors
    ///
    /// Returns `Invalid` if the tag `s` has no integer after it, or if the disambiguator is 2^64 or
    /// more.
    #[inline(always)]
    pub fn after_disambiguator(&self, place: usize, looks: &mut Looks) -> Result<usize, ParseError>
        ensures ok { IfOk result (λ j. (v : ℕ) × OptInteger 115 self.now place j v) }
        ensures err { OnErr result ((j v : ℕ) → OptInteger 115 self.now place j v → ⊥) }
        ensures read { result_ok result ≡ option_map (λ r. r.1) (optional_at 115 self.now place) }
        ensures fault { IfErr result (λ e. e ≡ ParseError.Invalid) }
        ensures grows { looks.old ≤ looks.new }
        ensures ok_looks { IfOk result (λ j. looks.new ≤ looks.old + 4 * (j - place + 1)) }
        ensures err_looks { OnErr result
            (looks.new ≤ looks.old + 4 * (length self.now - place + 1)) }
        ensures within { IfOk result
            (λ j. (place ≤ j) × (place ≤ length self.now → j ≤ length self.now)) }
    {
        if !self.is_at(b's', place, looks) {
            return Ok(place);
        }
        self.after_tag(place + 1, looks)
    }

    /// Reads a disambiguator and returns it with the place after it. It is 0 if the tag `s` is
    /// missing. If it is not needed, it gets no value, and 0 is returned in its place.
    ///
    /// # Errors
    ///
    /// Returns `Invalid` if the tag has no integer after it, or if the disambiguator is 2^64 or
    /// more.
    #[tactic(auto, using(crate::proofs::Integers::optional_reads))]
    #[inline(always)]
    pub fn disambiguator_if(
        &self,
        is_needed: bool,
        place: usize,
        looks: &mut Looks,
    ) -> Result<(u64, usize), ParseError>
        ensures read { IfOk result (λ r. (v : ℕ) × (is_needed ≡ true → v ≡ r.0) × (Some (v, r.1) ≡
            optional_at 115 self.now place)) }
        ensures unread { OnErr result (None ≡ optional_at 115 self.now place) }
        ensures fault { IfErr result (λ e. e ≡ ParseError.Invalid) }
        ensures grows { looks.old ≤ looks.new }
        ensures ok_looks { IfOk result (λ r. looks.new ≤ looks.old + 4 * (r.1 - place) + 1) }
        ensures err_looks { OnErr result
            (looks.new ≤ looks.old + 4 * (length self.now - place + 1)) }
        ensures reach { IfOk result (λ r. r.1 - place ≤ length self.now - place) }
        ensures within { IfOk result
            (λ r. (place ≤ r.1) × (place ≤ length self.now → r.1 ≤ length self.now)) }
    {
        if !self.is_at(b's', place, looks) {
            return Ok((0, place));
        }
        if is_needed {
            return self.integer_after_tag(place + 1, looks);
        }
        let Ok(next) = self.after_tag(place + 1, looks) else {
            return Err(ParseError::Invalid);
        };
        Ok((0, next))
    }

    /// Returns the place after the integer after a tag. Returns `Invalid` as `integer_after_tag`
    /// does.
    // It is separate for the same reason as `integer_after_tag`.
    #[inline(always)]
    fn after_tag(&self, place: usize, looks: &mut Looks) -> Result<usize, ParseError>
        ensures ok { IfOk result (λ j. (v : ℕ) × OneMore self.now place j v) }
        ensures err { OnErr result ((j v : ℕ) → OneMore self.now place j v → ⊥) }
        ensures read { result_ok result ≡ option_map (λ r. r.1) (one_more_at self.now place) }
        ensures fault { IfErr result (λ e. e ≡ ParseError.Invalid) }
        ensures grows { looks.old ≤ looks.new }
        ensures ok_looks { IfOk result (λ j. looks.new ≤ looks.old + 4 * (j - place + 1)) }
        ensures err_looks { OnErr result
            (looks.new ≤ looks.old + 4 * (length self.now - place + 1)) }
        ensures within { IfOk result (λ j. (place < j) × (j ≤ length self.now)) }
    {
        let Some(next) = self.after_integer(place, looks) else {
            return Err(ParseError::Invalid);
        };
        Ok(next)
    }

    /// Returns the place after the integer after a tag. Returns `None` if no integer is spelled
    /// there, or if the integer plus one is 2^64 or more.
    #[tactic(auto, using(crate::proofs::IntegerEnds::integer_ends))]
    #[inline(never)]
    fn after_integer(&self, place: usize, looks: &mut Looks) -> Option<usize>
        ensures some { IfSome result (λ j. (v : ℕ) × OneMore self.now place j v) }
        ensures none { IfNone result ((j v : ℕ) → OneMore self.now place j v → ⊥) }
        ensures grows { looks.old ≤ looks.new }
        ensures some_looks { IfSome result (λ j. looks.new ≤ looks.old + 4 * (j - place)) }
        ensures none_looks { IfNone result
            (looks.new ≤ looks.old + 4 * (length self.now - place + 1)) }
        ensures within { IfSome result (λ j. (place < j) × (j ≤ length self.now)) }
    {
        match self.integer_digit(place, looks) {
            Ok(Some(first)) => self.after_first_digit(first, place, looks),
            Ok(None) => Some(place + 1),
            Err(_) => None,
        }
    }

    /// Does the same as `after_integer` for an integer whose first digit was read.
    // Hashes of crates have ten or eleven digits. The symbol is cut at the first digit, so its
    // length is tested once. The loop has a constant number of iterations. So the compiler unrolls
    // it and drops the test of each place.
    #[inline(always)]
    fn after_first_digit(&self, first: u64, place: usize, looks: &mut Looks) -> Option<usize>
        requires first { Digit62 self.now place first }
        requires small { first < 62 }
        ensures some { IfSome result (λ j. (v : ℕ) × OneMore self.now place j v) }
        ensures none { IfNone result ((j v : ℕ) → OneMore self.now place j v → ⊥) }
        ensures grows { looks.old ≤ looks.new }
        ensures some_looks { IfSome result (λ j. looks.new + 4 ≤ looks.old + 4 * (j - place)) }
        ensures none_looks { IfNone result
            (looks.new ≤ looks.old + 4 * (length self.now - place)) }
        ensures within { IfSome result (λ j. (place < j) × (j ≤ length self.now)) }
    {
        let rest = self.cut_at_digit(place);
        if rest.len() < UNCHECKED_DIGITS + 2 {
            return self.after_checked_integer(place, looks);
        }
        for step in 0..UNCHECKED_DIGITS - 1 {
            match rest.integer_digit(step + 1, looks) {
                Ok(Some(_)) => (),
                Ok(None) => return Some(place + step + 2),
                Err(_) => return None,
            }
        }
        match rest.integer_digit(UNCHECKED_DIGITS, looks) {
            Ok(Some(_)) => (),
            Ok(None) => return Some(place + UNCHECKED_DIGITS + 1),
            Err(_) => return None,
        }
        if first < FITTING_FIRST && rest.is_at(b'_', UNCHECKED_DIGITS + 1, looks) {
            return Some(place + UNCHECKED_DIGITS + 2);
        }
        self.after_checked_integer(place, looks)
    }

    /// Returns the symbol's bytes from a digit on. It makes no look.
    #[tactic(auto, using(crate::proofs::IntegerEnds::digit_boundary))]
    #[inline(always)]
    fn cut_at_digit(&self, place: usize) -> Symbol<'s>
        requires digit { (d : ℕ) × Digit62 self.now place d }
        ensures bytes { result ≡ drop place self.now }
        ensures fewer { length result + place ≡ length self.now }
        ensures fits { length self.now < 2 ^ 63 }
    {
        Symbol {
            inner: &self.inner[place..],
        }
    }

    /// Does the same as `after_integer`, and computes the integer to check that it fits.
    #[inline(never)]
    fn after_checked_integer(&self, place: usize, looks: &mut Looks) -> Option<usize>
        requires inside { place < length self.now }
        ensures some { IfSome result (λ j. (v : ℕ) × OneMore self.now place j v) }
        ensures none { IfNone result ((j v : ℕ) → OneMore self.now place j v → ⊥) }
        ensures grows { looks.old ≤ looks.new }
        ensures some_looks { IfSome result (λ j. looks.new + place ≤ looks.old + j) }
        ensures none_looks { IfNone result (looks.new ≤ looks.old + (length self.now - place)) }
        ensures within { IfSome result (λ j. (place < j) × (j ≤ length self.now)) }
    {
        let mut number: u64 = 0;
        for at in place..self.len() {
            let digit = match self.integer_digit(at, looks) {
                Ok(Some(digit)) => digit,
                Ok(None) => {
                    // The integer is one more than its digits spell, and has one added.
                    if number > u64::MAX - 2 {
                        return None;
                    }
                    return Some(at + 1);
                }
                Err(_) => return None,
            };
            let Some(longer) = append_digit(number, 62, digit as u8) else {
                return None;
            };
            number = longer;
        }
        None
    }

    /// Reads a byte and returns it with the place after it.
    ///
    /// # Errors
    ///
    /// Returns `Invalid` at the end of the symbol.
    #[tactic(auto, unfolding(crate::specs::Primitives::byte_at))]
    pub fn tag(&self, place: usize, looks: &mut Looks) -> Result<(u8, usize), ParseError>
        ensures read { result_ok result ≡ byte_at self.now place }
        ensures fault { IfErr result (λ e. e ≡ ParseError.Invalid) }
        ensures look { looks.new ≡ looks.old + 1 }
        ensures within { IfOk result (λ r. (place < r.1) × (r.1 ≤ length self.now)) }
    {
        let Some(byte) = self.byte(place, looks) else {
            return Err(ParseError::Invalid);
        };
        Ok((byte, place + 1))
    }

    /// Reads the letter of a namespace and returns it with the place after it.
    ///
    /// # Errors
    ///
    /// Returns `Invalid` if the byte is not an ASCII letter.
    #[tactic(auto, unfolding(crate::specs::Primitives::namespace_at))]
    pub fn namespace(&self, place: usize, looks: &mut Looks) -> Result<(u8, usize), ParseError>
        ensures ok { IfOk result (λ r. Namespace self.now place r.0 × (r.1 ≡ place + 1)) }
        ensures err { OnErr result ((b : ℕ) → Namespace self.now place b → ⊥) }
        ensures read { result_ok result ≡ namespace_at self.now place }
        ensures fault { IfErr result (λ e. e ≡ ParseError.Invalid) }
        ensures look { looks.new ≡ looks.old + 1 }
        ensures within { IfOk result (λ r. (place < r.1) × (r.1 ≤ length self.now)) }
    {
        match self.byte(place, looks) {
            Some(b) if b.is_ascii_alphabetic() => Ok((b, place + 1)),
            _ => Err(ParseError::Invalid),
        }
    }

    /// Reads a back reference whose `B` is directly before `place`. Returns its target and the
    /// place after it. `depth` is the depth of the reference.
    ///
    /// # Errors
    ///
    /// Returns `Invalid` if no integer is spelled there, or if the target is not before the `B`.
    /// Otherwise returns `RecursedTooDeep` if `depth` is the greatest depth.
    #[tactic(auto, unfolding(crate::specs::Primitives::backref_at))]
    #[inline(always)]
    pub fn backref(
        &self,
        place: usize,
        depth: u32,
        looks: &mut Looks,
    ) -> Result<(usize, usize), ParseError>
        requires depth { depth ≤ MAX_DEPTH }
        requires tag { 0 < place }
        ensures ok { IfOk result (λ r. Backref self.now place r.1 r.0 × (depth < MAX_DEPTH)) }
        ensures invalid { result ≡ Err ParseError.Invalid →
            ((j target : ℕ) → Backref self.now place j target → ⊥) }
        ensures too_deep { result ≡ Err ParseError.RecursedTooDeep →
            (depth ≡ MAX_DEPTH) × ((j target : ℕ) × Backref self.now place j target) }
        ensures read { result ≡ backref_result depth (backref_at self.now place) }
        ensures grows { looks.old ≤ looks.new }
        ensures ok_looks { IfOk result (λ r. looks.new ≤ looks.old + 4 * (r.1 - place + 1)) }
        ensures err_looks { OnErr result
            (looks.new ≤ looks.old + 4 * (length self.now - place + 1)) }
        ensures primitive_looks { IfSome
            (backref_at self.now place) (λ r. looks.new ≤ looks.old + 4 * (r.1 - place + 1)) }
        ensures within { IfOk result
            (λ r. (place < r.1) × (r.1 ≤ length self.now) × (r.0 + 1 < place)) }
    {
        let (target, next) = self.integer_62(place, looks)?;
        // A back reference may only name a place before its `B`, so references cannot form a cycle.
        // The target is checked before the depth. So an invalid target is `Invalid` at any depth.
        if target >= place as u64 - 1 {
            return Err(ParseError::Invalid);
        }
        if depth == MAX_DEPTH {
            return Err(ParseError::RecursedTooDeep);
        }
        Ok((target as usize, next))
    }

    /// Returns the place after an optional byte. It makes one look.
    pub fn skip(&self, byte: u8, place: usize, looks: &mut Looks) -> usize
        ensures place { result ≡ after_byte byte self.now place }
        ensures within { place ≤ length self.now → result ≤ length self.now }
        ensures look { looks.new ≡ looks.old + 1 }
        ensures fits { length self.now < 2 ^ 64 }
    {
        if self.is_at(byte, place, looks) {
            place + 1
        } else {
            place
        }
    }
}

/// The value of each digit in base 62, and 255 for every other byte.
#[rattlefmt::skip]
static DIGITS_62: [u8; 256] = [
    255, 255, 255, 255, 255, 255, 255, 255, 255, 255, 255, 255, 255, 255, 255, 255,
    255, 255, 255, 255, 255, 255, 255, 255, 255, 255, 255, 255, 255, 255, 255, 255,
    255, 255, 255, 255, 255, 255, 255, 255, 255, 255, 255, 255, 255, 255, 255, 255,
    0, 1, 2, 3, 4, 5, 6, 7, 8, 9, 255, 255, 255, 255, 255, 255,
    255, 36, 37, 38, 39, 40, 41, 42, 43, 44, 45, 46, 47, 48, 49, 50,
    51, 52, 53, 54, 55, 56, 57, 58, 59, 60, 61, 255, 255, 255, 255, 255,
    255, 10, 11, 12, 13, 14, 15, 16, 17, 18, 19, 20, 21, 22, 23, 24,
    25, 26, 27, 28, 29, 30, 31, 32, 33, 34, 35, 255, 255, 255, 255, 255,
    255, 255, 255, 255, 255, 255, 255, 255, 255, 255, 255, 255, 255, 255, 255, 255,
    255, 255, 255, 255, 255, 255, 255, 255, 255, 255, 255, 255, 255, 255, 255, 255,
    255, 255, 255, 255, 255, 255, 255, 255, 255, 255, 255, 255, 255, 255, 255, 255,
    255, 255, 255, 255, 255, 255, 255, 255, 255, 255, 255, 255, 255, 255, 255, 255,
    255, 255, 255, 255, 255, 255, 255, 255, 255, 255, 255, 255, 255, 255, 255, 255,
    255, 255, 255, 255, 255, 255, 255, 255, 255, 255, 255, 255, 255, 255, 255, 255,
    255, 255, 255, 255, 255, 255, 255, 255, 255, 255, 255, 255, 255, 255, 255, 255,
    255, 255, 255, 255, 255, 255, 255, 255, 255, 255, 255, 255, 255, 255, 255, 255,
];

/// Returns the value of a digit in base 62, and 62 or more for any other byte.
#[inline(always)]
fn digit_62_of(byte: u8) -> u8
    ensures digit { result < 62 → (is_digit_62 byte ≡ true) × (result ≡ digit_62 byte) }
    ensures other { 62 ≤ result → is_digit_62 byte ≡ false }
{
    DIGITS_62[usize::from(byte)]
}
