//! Reads the values of constants.
ghost use Rattle.std.specs.Prelude.{◌≡◌, ◌+◌, ◌-◌, ◌*◌, ◌≤◌, IfSome};
ghost use Rattle.demangle_v0_grammar.specs.LookTotals.{total};
ghost use Rattle.demangle_v0_tokens.specs.Tokens.{IsTokenWithin};
ghost use Rattle.demangle_symbol.specs.Nibbles.{hex_at};
ghost use Rattle.demangle_v0_tokens.specs.Tokens.{token_of, print_looks, number_group, bool_group, character_group, literal_group};

use crate::fixed_texts::FixedText;
use crate::read::{TokenOutcome, TokenReader, invalid_token, token_read};
use crate::token::Token;
use demangle_symbol::cursor::Looks;
use demangle_symbol::literal::{bool_of, character_of, is_string};

impl TokenReader<'_> {
    /// Reads a number, by its nibbles.
    #[inline(always)]
    pub(super) fn read_number(&self, place: usize, looks: &mut Looks) -> TokenOutcome
        ensures value { result ≡ (number_group self.now.symbol.now self.now.tag place).reads }
        ensures grows { looks.old ≤ looks.new }
        ensures looks { looks.new + print_looks (token_of result) ≤ looks.old + total (number_group
            self.now.symbol.now self.now.tag place).costs }
        ensures twice { IfSome (hex_at self.now.symbol.now place) (λ r. looks.new ≤ looks.old + 2 * (r.1 -
            place)) }
        ensures in_bounds { IsTokenWithin self.now.symbol.now (token_of result) }
    {
        let Ok((part, next)) = self.symbol.hex_nibbles(place, looks) else {
            return invalid_token();
        };
        let number = self.symbol.hex_number(part, looks);
        token_read(Token::Number(number, part, self.tag), next)
    }

    /// Reads `false` or `true`, by its nibbles.
    #[inline(always)]
    pub(super) fn read_bool(&self, place: usize, looks: &mut Looks) -> TokenOutcome
        ensures value { result ≡ (bool_group self.now.symbol.now place).reads }
        ensures grows { looks.old ≤ looks.new }
        ensures looks { looks.new + print_looks (token_of result) ≤ looks.old + total (bool_group
            self.now.symbol.now place).costs }
        ensures twice { IfSome (hex_at self.now.symbol.now place) (λ r. looks.new ≤ looks.old + 2 * (r.1 -
            place)) }
        ensures in_bounds { IsTokenWithin self.now.symbol.now (token_of result) }
    {
        let Ok((part, next)) = self.symbol.hex_nibbles(place, looks) else {
            return invalid_token();
        };
        match bool_of(self.symbol.hex_number(part, looks)) {
            Some(false) => token_read(Token::Fixed(FixedText::False), next),
            Some(true) => token_read(Token::Fixed(FixedText::True), next),
            None => invalid_token(),
        }
    }

    /// Reads a character, by the nibbles of its code.
    #[inline(always)]
    pub(super) fn read_character(&self, place: usize, looks: &mut Looks) -> TokenOutcome
        ensures value { result ≡ (character_group self.now.symbol.now place).reads }
        ensures grows { looks.old ≤ looks.new }
        ensures looks { looks.new + print_looks (token_of result) ≤ looks.old + total
            (character_group self.now.symbol.now place).costs }
        ensures twice { IfSome (hex_at self.now.symbol.now place) (λ r. looks.new ≤ looks.old + 2 * (r.1 -
            place)) }
        ensures in_bounds { IsTokenWithin self.now.symbol.now (token_of result) }
    {
        let Ok((part, next)) = self.symbol.hex_nibbles(place, looks) else {
            return invalid_token();
        };
        match character_of(self.symbol.hex_number(part, looks)) {
            Some(c) => token_read(Token::Character(c), next),
            None => invalid_token(),
        }
    }

    /// Reads a string, by the nibbles of its UTF-8 bytes.
    #[inline(always)]
    pub(super) fn read_literal(&self, place: usize, looks: &mut Looks) -> TokenOutcome
        ensures value { result ≡ (literal_group self.now.symbol.now place).reads }
        ensures grows { looks.old ≤ looks.new }
        ensures looks { looks.new + print_looks (token_of result) ≤ looks.old + total (literal_group
            self.now.symbol.now place).costs }
        ensures twice { IfSome (hex_at self.now.symbol.now place) (λ r. looks.new ≤ looks.old + 2 * (r.1 -
            place)) }
        ensures in_bounds { IsTokenWithin self.now.symbol.now (token_of result) }
    {
        let Ok((part, next)) = self.symbol.hex_nibbles(place, looks) else {
            return invalid_token();
        };
        if !is_string(self.symbol, part, looks) {
            return invalid_token();
        }
        token_read(Token::StrLiteral(part), next)
    }
}
