//! Reads names and their disambiguators.
ghost use Rattle.std.specs.Prelude.{◌≡◌, ℕ, ◌+◌, ◌≤◌, Some, IfSome, IfNone, MatchOption};
ghost use Rattle.demangle_v0_grammar.specs.LookTotals.{total};
ghost use Rattle.demangle_v0_tokens.specs.Tokens.{IsTokenWithin};
ghost use Rattle.demangle_v0_tokens.specs.Tokens.{token_of, print_looks, named_group, field_group, binding_group};
ghost use Rattle.demangle_symbol.specs.Idents.{IsIdentWithin, name_size};
ghost use Rattle.demangle_v0_tokens.specs.declared.read.TokenOutcome.TheVariants.{Parsed, NotParsed};
ghost use Rattle.demangle_v0_tokens.specs.declared.token.Token.{Token};
ghost use Rattle.demangle_v0_tokens.specs.declared.fixed_texts.FixedText.{FixedText};
ghost use Rattle.demangle_symbol.specs.declared.cursor.ident.Ident.{Ident};

use crate::read::{TokenOutcome, TokenReader, invalid_token, token_read};
use crate::token::Token;
use demangle_symbol::cursor::{Ident, Looks, Symbol};

/// Reads a disambiguator, which gets no value, and the name after it. Returns the name and the place
/// after it, or `None` if they are not spelled there.
#[inline(always)]
pub fn name_after_disambiguator(
    symbol: &Symbol<'_>,
    place: usize,
    looks: &mut Looks,
) -> Option<(Ident, usize)>
    ensures some { (f : Ident → ℕ → Token) → IfSome result (λ r. (d : ℕ) × (Parsed (f r.0 d) (Some r.1) ≡
        (named_group symbol.now place f).reads)) }
    ensures none { (f : Ident → ℕ → Token) → IfNone result (NotParsed FixedText.Invalid ≡ (named_group
        symbol.now place f).reads) }
    ensures grows { looks.old ≤ looks.new }
    ensures looks { (f : Ident → ℕ → Token) → MatchOption result (looks.new ≤ looks.old + total
        (named_group symbol.now place f).costs) (λ r. looks.new + name_size r.0 ≤ looks.old + total
        (named_group symbol.now place f).costs) }
    ensures in_bounds { IfSome result (λ r. IsIdentWithin symbol.now r.0) }
{
    let Ok(at) = symbol.after_disambiguator(place, looks) else {
        return None;
    };
    let Ok((ident, next)) = symbol.ident(at, looks) else {
        return None;
    };
    Some((ident, next))
}

impl TokenReader<'_> {
    /// Reads the name of a field, whose disambiguator is not printed.
    #[inline(always)]
    pub(super) fn read_field(&self, place: usize, looks: &mut Looks) -> TokenOutcome
        ensures value { result ≡ (field_group self.now.symbol.now place).reads }
        ensures grows { looks.old ≤ looks.new }
        ensures looks { looks.new + print_looks (token_of result) ≤ looks.old + total (field_group
            self.now.symbol.now place).costs }
        ensures in_bounds { IsTokenWithin self.now.symbol.now (token_of result) }
    {
        match name_after_disambiguator(self.symbol, place, looks) {
            Some((ident, next)) => token_read(Token::FieldName(ident), next),
            None => invalid_token(),
        }
    }

    /// Reads the name of an associated type that a trait's arguments bind.
    #[inline(always)]
    pub(super) fn read_binding(&self, place: usize, looks: &mut Looks) -> TokenOutcome
        ensures value { result ≡ (binding_group self.now.symbol.now place).reads }
        ensures grows { looks.old ≤ looks.new }
        ensures looks { looks.new + print_looks (token_of result) ≤ looks.old + total (binding_group
            self.now.symbol.now place).costs }
        ensures in_bounds { IsTokenWithin self.now.symbol.now (token_of result) }
    {
        match self.symbol.ident(place, looks) {
            Ok((ident, next)) => token_read(Token::BindingName(ident), next),
            Err(_) => invalid_token(),
        }
    }
}
