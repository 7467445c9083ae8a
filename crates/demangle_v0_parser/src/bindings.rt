//! Continuations of the bindings of a dyn trait path.
ghost use Rattle.std.specs.Prelude.{◌≡◌, Some, None, Ok, if◌then◌else◌, IsOk};
ghost use Rattle.demangle_v0_parser.specs.Parsers.{Performed, CanPerform, CanAdvance, Advanced, AdvancedRest};
ghost use Rattle.demangle_v0_parser.specs.Continuations.{bindings_left};

use crate::names::has_encoded_name;
use crate::parse::Parser;
use crate::{Continuation, StepError};
use demangle_v0_tokens::fixed_texts::FixedText;
use demangle_v0_tokens::output::Output;
use demangle_v0_tokens::read::TokenOutcome;
use demangle_v0_tokens::token::TokenKind;

/// Returns the text after the last binding: a `>` if the bracket is open.
#[inline(always)]
fn closing_text(is_bracket_open: bool) -> Option<FixedText>
    ensures { result ≡ (if is_bracket_open then Some FixedText.Greater else None) }
{
    if is_bracket_open {
        Some(FixedText::Greater)
    } else {
        None
    }
}

/// Returns the text before a binding: a `<` if the bracket is not yet open.
#[inline(always)]
fn opening_text(is_bracket_open: bool) -> FixedText
    ensures { result ≡ (if is_bracket_open then FixedText.Comma else FixedText.Less) }
{
    if is_bracket_open {
        FixedText::Comma
    } else {
        FixedText::Less
    }
}

impl Parser<'_, '_> {
    /// Starts the next binding of a dyn trait, or ends its bindings.
    ///
    /// Queues the text before either, which depends on whether the bracket is open.
    #[inline(always)]
    fn binding(&mut self, is_bracket_open: bool) -> Continuation
        requires can_step { CanAdvance Continuation.Bindings self.old }
        ensures { AdvancedRest (bindings_left is_bracket_open) 8 2 4 self.old (Ok result) self.new }
    {
        let Some(at) = self.state.place else {
            self.state.pending_text = closing_text(is_bracket_open);
            self.state.is_bracket_open = false;
            return Continuation::End;
        };
        if !self.source.symbol.is_at(b'p', at, &mut self.looks) {
            self.state.pending_text = closing_text(is_bracket_open);
            return Continuation::NextDynTrait;
        }
        self.state.place = Some(at + 1);
        self.state.pending_text = Some(opening_text(is_bracket_open));
        Continuation::BindingName
    }

    /// Starts the first binding after the path of a dyn trait, or ends its bindings.
    #[inline(always)]
    pub(super) fn bindings(&mut self) -> Continuation
        requires can_step { CanAdvance Continuation.Bindings self.old }
        ensures { Advanced Continuation.Bindings self.old (Ok result) self.new }
    {
        self.binding(self.state.is_bracket_open)
    }

    /// Starts a further binding of a dyn trait, or ends its bindings.
    #[inline(always)]
    pub(super) fn further_bindings(&mut self) -> Continuation
        requires can_step { CanAdvance Continuation.FurtherBindings self.old }
        ensures { Advanced Continuation.FurtherBindings self.old (Ok result) self.new }
    {
        self.binding(true)
    }

    /// Reads the name of a binding, and prints it with its ` = `. The value follows.
    #[inline(never)]
    pub(super) fn binding_name<V: Output>(
        &mut self,
        output: &mut V,
    ) -> Result<Continuation, StepError>
        requires can_step { CanPerform V.Output Continuation.BindingName self.old output.old }
        ensures { Performed V.Output Continuation.BindingName self.old output.old result self.new output.new }
    {
        match self.token_at(TokenKind::BindingName, output) {
            TokenOutcome::Parsed(name, next) => {
                self.state.place = next;
                self.fuel.pay_text(has_encoded_name(&name));
                self.emit(&name, output)?;
                Ok(Continuation::BindingValue)
            }
            TokenOutcome::NotParsed(pending_text) => Err(StepError::Abort(pending_text)),
        }
    }

    /// Starts the value of a binding: a constant or a type. Further bindings follow it.
    #[inline(always)]
    pub(super) fn bound_value(&mut self) -> Continuation
        requires can_step { CanAdvance Continuation.BindingValue self.old }
        ensures { Advanced Continuation.BindingValue self.old (Ok result) self.new }
    {
        self.push(Continuation::FurtherBindings);
        self.state.in_value = false;
        let Some(at) = self.state.place else {
            return Continuation::Type;
        };
        if self.source.symbol.is_at(b'K', at, &mut self.looks) {
            self.state.place = Some(at + 1);
            return Continuation::Constant;
        }
        Continuation::Type
    }
}
