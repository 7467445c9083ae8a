//! Continuations of variants and of their fields.
ghost use Rattle.std.specs.Prelude.{◌≡◌, None, Ok, Some, IsOk};
ghost use Rattle.demangle_v0_parser.specs.Parsers.{Performed, CanPerform, CanAdvance, Advanced, AdvancedRest, braced};
ghost use Rattle.demangle_v0_tokens.specs.Tags.{variant_of};

use crate::names::has_encoded_name;
use crate::parse::Parser;
use crate::{Continuation, StepError};
use demangle_v0_tokens::fixed_texts::FixedText;
use demangle_v0_tokens::output::Output;
use demangle_v0_tokens::read::TokenOutcome;
use demangle_v0_tokens::tags::{VariantKind, variant_kind};
use demangle_v0_tokens::token::TokenKind;

impl Parser<'_, '_> {
    /// Ends a variant without fields, and queues its closing brace outside value position.
    #[inline(always)]
    fn unit_variant(&mut self) -> Continuation
        requires no_pending_text { self.old.state.pending_text ≡ None }
        ensures { AdvancedRest (variant_of self.old.state.in_value VariantKind.Unit) 3 5 3 self.old
            (Ok result) self.new }
    {
        self.state.is_bracket_open = false;
        if self.state.in_value {
            return Continuation::End;
        }
        self.put(FixedText::CloseBrace);
        Continuation::End
    }

    /// Queues the text that opens a variant's fields, and returns `fields`.
    ///
    /// Outside value position it also pushes a frame for the variant's closing brace.
    #[inline(always)]
    fn open_fields(&mut self, pending_text: FixedText, fields: Continuation) -> Continuation
        requires can_step { CanAdvance Continuation.Variant self.old }
        ensures continuation { result ≡ fields }
        ensures parser { self.new ≡ braced self.old (Some pending_text) }
    {
        if !self.state.in_value {
            self.push(Continuation::CloseBrace);
        }
        self.put(pending_text);
        fields
    }

    /// Reads the tag that follows the path of a variant, and opens the variant's fields.
    #[inline(never)]
    pub(super) fn variant(&mut self) -> Result<Continuation, StepError>
        requires can_step { CanAdvance Continuation.Variant self.old }
        ensures { Advanced Continuation.Variant self.old result self.new }
    {
        let at = self.state.place_or_abort()?;
        let (tag, next) = self.source.symbol.tag(at, &mut self.looks)?;
        let kind = variant_kind(tag).ok_or(StepError::Abort(FixedText::Invalid))?;
        self.state.place = Some(next);
        match kind {
            VariantKind::Unit => Ok(self.unit_variant()),
            VariantKind::Tuple => {
                Ok(self.open_fields(FixedText::OpenParen, Continuation::FirstVariantConstant))
            }
            VariantKind::Fields => Ok(self.open_fields(
                FixedText::OpenStruct,
                Continuation::FirstField,
            )),
        }
    }

    /// Reads and prints the name of a field.
    #[inline(never)]
    pub(super) fn field<V: Output>(&mut self, output: &mut V) -> Result<Continuation, StepError>
        requires can_step { CanPerform V.Output Continuation.Field self.old output.old }
        ensures { Performed V.Output Continuation.Field self.old output.old result self.new output.new }
    {
        match self.token_at(TokenKind::FieldName, output) {
            TokenOutcome::Parsed(token, next) => {
                self.state.place = next;
                self.fuel.pay_text(has_encoded_name(&token));
                self.emit(&token, output)?;
                Ok(Continuation::FieldColon)
            }
            TokenOutcome::NotParsed(pending_text) => Err(StepError::Abort(pending_text)),
        }
    }
}
