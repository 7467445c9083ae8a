//! The names of crates and of nested paths, which are read and printed.
#![tactic(auto, using(crate::proofs::Pace::place_left))]

ghost use Rattle.std.specs.Prelude.{◌≡◌, ℕ, ◌+◌, ◌-◌, ◌*◌, ◌≤◌, length, true, None, Some, IfNone, IfOk, IfSome, IsAscii, IsOk, MatchOption, OnOk};
ghost use Rattle.demangle_v0_parser.specs.Parsers.{Performed, PerformedRest, Placed, CanPrint, ReadsOn, LooksAt, looked};
ghost use Rattle.demangle_v0_parser.specs.Productions.{crate_path};
ghost use Rattle.demangle_v0_grammar.specs.LookTotals.{total};
ghost use Rattle.demangle_v0_tokens.specs.Tokens.{named_group, texts_of};
ghost use Rattle.demangle_symbol.specs.Idents.{IsIdentWithin, name_size};
ghost use Rattle.demangle_symbol.specs.Primitives.{is_upper};
ghost use Rattle.demangle_v0_tokens.specs.declared.read.TokenOutcome.TheVariants.{Parsed, NotParsed};
ghost use Rattle.demangle_v0_tokens.specs.declared.token.Token.{Token};
ghost use Rattle.demangle_v0_tokens.specs.declared.token.Token.TheVariants as Token;
ghost use Rattle.demangle_v0_tokens.specs.declared.fixed_texts.FixedText.{FixedText};
ghost use Rattle.demangle_symbol.specs.declared.cursor.ident.Ident.{Ident};

use crate::parse::Parser;
use crate::{Continuation, StepError};
use demangle_sink::SinkRefused;
use demangle_symbol::cursor::{Ident, Looks, Symbol};
use demangle_v0_tokens::fixed_texts::FixedText;
use demangle_v0_tokens::output::Output;
use demangle_v0_tokens::token::Token;

/// Returns `true` if the names of a namespace are printed with their disambiguators.
#[inline(always)]
fn is_special(namespace: u8) -> bool
    ensures { result ≡ is_upper namespace }
{
    namespace.is_ascii_uppercase()
}

/// Returns whether a name is in Punycode, whose decoding is slow.
#[inline(always)]
fn is_encoded(name: &Ident) -> bool {
    name.punycode.from != name.punycode.to
}

/// Returns whether a token is the name of a field or of an associated type, and in Punycode.
#[inline(always)]
pub(super) fn has_encoded_name(token: &Token) -> bool {
    match token {
        Token::FieldName(name) | Token::BindingName(name) => is_encoded(name),
        _ => false,
    }
}

/// Reads a name after its disambiguator. Returns the name, the disambiguator and the place after
/// both, or `None` if they are not spelled there. The disambiguator is 0 if it is not needed.
#[inline(always)]
fn name_at(
    symbol: &Symbol<'_>,
    needs_number: bool,
    place: usize,
    looks: &mut Looks,
) -> Option<(Ident, u64, usize)>
    ensures some { (f : Ident → ℕ → Token) → IfSome result (λ r. (d : ℕ) × (needs_number ≡ true → d ≡ r.1)
        × (Parsed (f r.0 d) (Some r.2) ≡ (named_group symbol.now place f).reads)) }
    ensures none { (f : Ident → ℕ → Token) → IfNone result (NotParsed FixedText.Invalid ≡ (named_group
        symbol.now place f).reads) }
    ensures grows { looks.old ≤ looks.new }
    ensures looks { (f : Ident → ℕ → Token) → MatchOption result (looks.new ≤ looks.old + total
        (named_group symbol.now place f).costs) (λ r. looks.new + name_size r.0 ≤ looks.old + total
        (named_group symbol.now place f).costs) }
    ensures in_bounds { IfSome result (λ r. IsIdentWithin symbol.now r.0) }
    ensures paced { IfSome result (λ r. looks.new + name_size r.0 + 4 * (length symbol.now - r.2) ≤ looks.old + 4 *
        (length symbol.now - place) + 5) }
    ensures most { IfNone result (looks.new ≤ looks.old + 4 * (length symbol.now - place) + 5) }
{
    let Ok((number, at)) = symbol.disambiguator_if(needs_number, place, looks) else {
        return None;
    };
    let Ok((name, next)) = symbol.ident(at, looks) else {
        return None;
    };
    Some((name, number, next))
}

impl Parser<'_, '_> {
    /// Reads and prints the name of a crate, which ends its path.
    #[inline(always)]
    pub(super) fn crate_name<V: Output>(
        &mut self,
        output: &mut V,
    ) -> Result<Continuation, StepError>
        requires can_step { CanPrint V.Output self.old output.old }
        ensures performs { PerformedRest V.Output (crate_path self.old.state.in_value) 6 1 0 self.old
            output.old result self.new output.new }
        ensures ends { IfOk result (λ next. next ≡ Continuation.End) }
        ensures placed { Placed self.old self.new }
        ensures reads { IsOk result → ReadsOn 5 self.old self.new }
        ensures most { LooksAt 5 self.old self.new }
    {
        let at = self.state.place_or_abort()?;
        // A crate's disambiguator is its hash.
        let has_hash = self.source.form.include_hash;
        let named = name_at(self.source.symbol, has_hash, at, &mut self.looks);
        let (name, number, next) = named.ok_or(StepError::Abort(FixedText::Invalid))?;
        self.state.place = Some(next);
        self.state.is_bracket_open = false;
        self.fuel.pay_text(is_encoded(&name));
        self.emit(&Token::CrateName(name, number), output)?;
        Ok(Continuation::End)
    }

    /// Passes the text of a name after an error to the output.
    #[inline(never)]
    fn emit_name_after_error<V: Output>(&mut self, output: &mut V) -> Result<(), SinkRefused>
        requires can_step { CanPrint V.Output self.old output.old }
        ensures prints { V.prints output.old (texts_of self.old.source.symbol.now self.old.source.form
            Token.NameAfterError) result output.new }
        ensures ready { OnOk result (V.ready output.new) }
        ensures parser { self.new ≡ looked self.old self.new.looks }
        ensures grows { self.old.looks ≤ self.new.looks }
        ensures most { self.new.looks ≤ self.old.looks }
    {
        output.emit_error(&self.source, &Token::NameAfterError, &mut self.looks)
    }

    /// Prints `::` and that the name was not read, since its path has failed.
    #[inline(always)]
    fn name_after_error<V: Output>(&mut self, output: &mut V) -> Result<Continuation, StepError>
        requires can_step { CanPrint V.Output self.old output.old }
        requires failed { self.old.state.place ≡ None }
        ensures performs { Performed V.Output Continuation.NestedName self.old output.old result self.new output.new }
        ensures ends { IfOk result (λ next. next ≡ Continuation.End) }
        ensures placed { Placed self.old self.new }
        ensures reads { IsOk result → ReadsOn 5 self.old self.new }
        ensures most { LooksAt 5 self.old self.new }
    {
        self.state.is_bracket_open = false;
        self.emit_name_after_error(output)?;
        Ok(Continuation::End)
    }

    /// Reads and prints the name after the path that it is in, which ends its own path.
    #[inline(always)]
    pub(super) fn nested_name<V: Output>(
        &mut self,
        output: &mut V,
    ) -> Result<Continuation, StepError>
        requires can_step { CanPrint V.Output self.old output.old }
        ensures performs { Performed V.Output Continuation.NestedName self.old output.old result self.new output.new }
        ensures ends { IfOk result (λ next. next ≡ Continuation.End) }
        ensures placed { Placed self.old self.new }
        ensures reads { IsOk result → ReadsOn 5 self.old self.new }
        ensures most { LooksAt 5 self.old self.new }
    {
        let Some(at) = self.state.place else {
            return self.name_after_error(output);
        };
        let is_special = is_special(self.state.letter);
        let named = name_at(self.source.symbol, is_special, at, &mut self.looks);
        let (ident, number, next) = named.ok_or(StepError::Abort(FixedText::Invalid))?;
        self.state.place = Some(next);
        self.state.is_bracket_open = false;
        self.fuel.pay_text(is_encoded(&ident));
        let name = Token::NestedName(self.state.letter, number, ident);
        self.emit(&name, output)?;
        Ok(Continuation::End)
    }
}
