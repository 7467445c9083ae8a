//! Reads tokens and prints them.
ghost use Rattle.std.specs.Prelude.{◌≡◌, ◌+◌, ◌≤◌, true, false, IsOk, OnOk};
ghost use Rattle.demangle_v0_grammar.specs.Items.{done};
ghost use Rattle.demangle_v0_grammar.specs.LookTotals.{total};
ghost use Rattle.demangle_v0_parser.specs.Parsers.{PerformedRest, CanPrint, looked, token_group};
ghost use Rattle.demangle_v0_parser.specs.Steps.{looks_bound};
ghost use Rattle.demangle_v0_tokens.specs.Tokens.{IsTokenWithin};
ghost use Rattle.demangle_v0_tokens.specs.Texts.{token_items};
ghost use Rattle.demangle_v0_tokens.specs.Tokens.{print_looks, token_of, texts_of};

use crate::parse::Parser;
use crate::{Continuation, StepError};
use demangle_sink::SinkRefused;
use demangle_v0_tokens::output::Output;
use demangle_v0_tokens::read::{TokenOutcome, TokenReader};
use demangle_v0_tokens::token::{Token, TokenKind};

impl Parser<'_, '_> {
    /// Passes a token to the output.
    ///
    /// It fails if the output does.
    #[inline(always)]
    pub(super) fn emit<V: Output>(
        &mut self,
        token: &Token,
        output: &mut V,
    ) -> Result<(), SinkRefused>
        requires can_step { CanPrint V.Output self.old output.old }
        requires in_bounds { IsTokenWithin self.old.source.symbol.now token.now }
        ensures prints { V.prints output.old (texts_of self.old.source.symbol.now self.old.source.form
            token.now) result output.new }
        ensures ready { OnOk result (V.ready output.new) }
        ensures no_output { V.is_printed ≡ false → IsOk result }
        ensures parser { self.new ≡ looked self.old self.new.looks }
        ensures grows { self.old.looks ≤ self.new.looks }
        ensures most { self.new.looks ≤ self.old.looks + print_looks token.now }
    {
        output.emit(&self.source, token, &mut self.looks)
    }

    /// Reads the token at the current offset, and prints nothing.
    ///
    /// Lifetimes are only checked if `output` prints.
    #[inline(always)]
    pub(super) fn token_at<V: Output>(&mut self, token_kind: TokenKind, output: &V) -> TokenOutcome
        ensures value { result ≡ (token_group V.is_printed self.old token_kind).reads }
        ensures parser { self.new ≡ looked self.old self.new.looks }
        ensures grows { self.old.looks ≤ self.new.looks }
        ensures looks { self.new.looks + print_looks (token_of result) ≤ self.old.looks + total
            (token_group V.is_printed self.old token_kind).costs }
        ensures in_bounds { IsTokenWithin self.old.source.symbol.now (token_of result) }
    {
        let reader = TokenReader {
            symbol: self.source.symbol,
            tag: self.state.letter,
            is_printing: output.is_printing(),
            lifetimes: self.state.lifetimes,
        };
        reader.read_token(token_kind, self.state.place, &mut self.looks)
    }

    /// Reads and prints the last token of a production.
    #[inline(always)]
    pub(super) fn end_with_token<V: Output>(
        &mut self,
        token_kind: TokenKind,
        output: &mut V,
    ) -> Result<Continuation, StepError>
        requires can_step { CanPrint V.Output self.old output.old }
        ensures performs { PerformedRest V.Output (token_items token_kind self.old.state.letter done) 4 1 0 self.old
            output.old result self.new output.new }
        ensures own_looks { self.new.looks ≤ self.old.looks + looks_bound 8 self.old.source.symbol.now
            self.old.state.place }
    {
        match self.token_at(token_kind, output) {
            TokenOutcome::Parsed(token, next) => {
                self.state.place = next;
                self.state.is_bracket_open = false;
                self.emit(&token, output)?;
                Ok(Continuation::End)
            }
            TokenOutcome::NotParsed(pending_text) => Err(StepError::Abort(pending_text)),
        }
    }
}
