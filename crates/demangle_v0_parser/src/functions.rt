//! Continuations of function types.
ghost use Rattle.std.specs.Prelude.{◌≡◌, ℕ, ◌+◌, ◌≤◌, List, Ok, true, if◌then◌else◌, [], IsOk};
ghost use Rattle.demangle_v0_grammar.specs.Reading.{Form};
ghost use Rattle.demangle_v0_tokens.specs.Tags.{constructed_of};
ghost use Rattle.demangle_v0_tokens.specs.Tokens.{texts_of};
ghost use Rattle.demangle_v0_tokens.specs.declared.tags.ConstructedType.TheVariants as ConstructedType;
ghost use Rattle.demangle_v0_parser.specs.Parsers.{Performed, PerformedRest, CanPerform, CanAdvance, Advanced};
ghost use Rattle.demangle_v0_parser.specs.Steps.{looks_bound};

use crate::lists::separator;
use crate::parse::Parser;
use crate::{Continuation, StepError};
use demangle_v0_tokens::fixed_texts::FixedText;
use demangle_v0_tokens::output::Output;
use demangle_v0_tokens::read::TokenOutcome;
use demangle_v0_tokens::token::{Abi, Token, TokenKind};

/// Returns whether a function has no qualifiers, so that nothing is printed before its `fn`.
#[inline(always)]
fn has_no_qualifiers(head: &Token) -> bool
    ensures { result ≡ true → (b : List ℕ) (form : Form) → texts_of b form head.now
        ≡ [] }
{
    matches!(head, Token::FunctionQualifiers(false, Abi::Rust))
}

impl Parser<'_, '_> {
    /// Reads the binder of a function type, after its `F`, and prints its lifetimes.
    ///
    /// The qualifiers follow. If there is no binder, the same step reads them.
    #[inline(never)]
    pub(super) fn function_binder<V: Output>(
        &mut self,
        output: &mut V,
    ) -> Result<Continuation, StepError>
        requires can_step { CanPerform V.Output Continuation.DynBinder self.old output.old }
        ensures performs { PerformedRest V.Output (constructed_of ConstructedType.Function) 5 1 2 self.old
            output.old result self.new output.new }
        ensures own_looks { self.new.looks ≤ self.old.looks + looks_bound 16 self.old.source.symbol.now
            self.old.state.place }
    {
        let at = self.state.place_or_abort()?;
        self.fuel.pay_part();
        let (number, next) = self
            .source
            .symbol
            .opt_integer_62(b'G', at, &mut self.looks)?;
        self.state.place = Some(next);
        if number == 0 {
            return self.function_qualifiers(output);
        }
        self.bind_lifetimes(number, output)?;
        Ok(Continuation::FunctionQualifiers)
    }

    /// Reads whether a function is unsafe, and its ABI, and prints both. The parameters follow.
    #[inline(never)]
    pub(super) fn function_qualifiers<V: Output>(
        &mut self,
        output: &mut V,
    ) -> Result<Continuation, StepError>
        requires can_step { CanPerform V.Output Continuation.FunctionQualifiers self.old output.old }
        ensures performs { Performed V.Output Continuation.FunctionQualifiers self.old output.old result self.new
            output.new }
        ensures own_looks { self.new.looks ≤ self.old.looks + looks_bound 8 self.old.source.symbol.now
            self.old.state.place }
    {
        match self.token_at(TokenKind::FunctionQualifiers, output) {
            TokenOutcome::Parsed(head, next) => {
                self.state.place = next;
                if has_no_qualifiers(&head) {
                    return Ok(self.queue_text(Continuation::OpenParameters));
                }
                self.emit(&head, output)?;
                Ok(Continuation::OpenParameters)
            }
            TokenOutcome::NotParsed(pending_text) => Err(StepError::Abort(pending_text)),
        }
    }

    /// Starts the next parameter of a function type, or ends the parameters.
    ///
    /// Queues the text before either: `, ` unless the parameter is the first, or `)`.
    #[inline(always)]
    pub(super) fn parameter(&mut self, is_first: bool) -> Continuation
        requires can_step { CanAdvance Continuation.NextParameter self.old }
        ensures { Advanced
            (if is_first then Continuation.FirstParameter else Continuation.NextParameter)
            self.old (Ok result) self.new }
    {
        if self.ends_list() {
            self.put(FixedText::CloseParen);
            return Continuation::Returns;
        }
        self.push(Continuation::NextParameter);
        self.state.pending_text = separator(is_first, FixedText::Comma);
        Continuation::Type
    }

    /// Starts the type that a function returns, and queues the ` -> ` before it.
    ///
    /// A `()` is read here, and nothing is printed for it.
    #[inline(always)]
    pub(super) fn returns(&mut self) -> Continuation
        requires can_step { CanAdvance Continuation.Returns self.old }
        ensures { Advanced Continuation.Returns self.old (Ok result) self.new }
    {
        let Some(at) = self.state.place else {
            self.put(FixedText::Arrow);
            return Continuation::Type;
        };
        if self.source.symbol.is_at(b'u', at, &mut self.looks) {
            self.state.place = Some(at + 1);
            self.state.is_bracket_open = false;
            return Continuation::End;
        }
        self.put(FixedText::Arrow);
        Continuation::Type
    }
}
