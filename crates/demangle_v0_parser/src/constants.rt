//! Continuations of constants.
ghost use Rattle.std.specs.Prelude.{◌≡◌, ◌==◌, ◌+◌, ◌≤◌, None, Ok, Some, if◌then◌else◌, IsOk};
ghost use Rattle.demangle_v0_grammar.specs.Table.{constant};
ghost use Rattle.demangle_v0_parser.specs.Parsers.{Performed, PerformedRest, CanPerform, CanAdvance, CanPrint, AdvancedRest, braced};
ghost use Rattle.demangle_v0_parser.specs.Productions.{shared_constant, variant_constant};
ghost use Rattle.demangle_v0_parser.specs.Steps.{looks_bound};
ghost use Rattle.demangle_v0_tokens.specs.Tags.{constant_of};

use crate::parse::Parser;
use crate::{Continuation, StepError};
use demangle_v0_tokens::fixed_texts::FixedText;
use demangle_v0_tokens::output::Output;
use demangle_v0_tokens::tags::{ConstantKind, constant_kind};
use demangle_v0_tokens::token::TokenKind;

impl Parser<'_, '_> {
    /// Reads and prints a string, with which the constant ends.
    #[inline(never)]
    pub(super) fn literal<V: Output>(&mut self, output: &mut V) -> Result<Continuation, StepError>
        requires can_step { CanPrint V.Output self.old output.old }
        ensures performs { Performed V.Output Continuation.StrLiteral self.old output.old result self.new output.new }
        ensures own_looks { self.new.looks ≤ self.old.looks + looks_bound 8 self.old.source.symbol.now
            self.old.state.place }
    {
        self.end_with_token(TokenKind::StrLiteral, output)
    }

    /// Reads and prints a number, with which the constant ends.
    ///
    /// The state's letter is the tag of the number's type.
    #[inline(never)]
    pub(super) fn number<V: Output>(&mut self, output: &mut V) -> Result<Continuation, StepError>
        requires can_step { CanPrint V.Output self.old output.old }
        ensures performs { Performed V.Output Continuation.Number self.old output.old result self.new output.new }
        ensures own_looks { self.new.looks ≤ self.old.looks + looks_bound 8 self.old.source.symbol.now
            self.old.state.place }
    {
        self.end_with_token(TokenKind::Number, output)
    }

    /// Returns `constant`, and puts it in braces if the constant is outside value position.
    ///
    /// It queues the opening brace and pushes a frame for the closing one.
    #[inline(always)]
    fn with_braces(&mut self, constant: Continuation) -> Continuation
        requires can_step { CanAdvance Continuation.Constant self.old }
        ensures continuation { result ≡ constant }
        ensures parser { self.new ≡ braced self.old (if self.old.state.in_value then None else Some
            FixedText.OpenBrace) }
    {
        // An expression that is not a literal needs braces in Rust as an argument of a path.
        if !self.state.in_value {
            self.push(Continuation::CloseBrace);
            self.put(FixedText::OpenBrace);
        }
        constant
    }

    /// Reads a number that may be negative, after its tag.
    ///
    /// It queues the `-` of a negative number, whose digits the next step reads.
    #[inline(always)]
    fn signed_number<V: Output>(
        &mut self,
        tag: u8,
        output: &mut V,
    ) -> Result<Continuation, StepError>
        requires can_step { CanPerform V.Output Continuation.Constant self.old output.old }
        ensures { PerformedRest V.Output (constant_of self.old.state.in_value tag ConstantKind.Signed) 6
            6 9 self.old output.old result self.new output.new }
    {
        let at = self.state.place_or_abort()?;
        self.state.letter = tag;
        if self.source.symbol.is_at(b'n', at, &mut self.looks) {
            self.state.place = Some(at + 1);
            self.put(FixedText::Minus);
            return Ok(Continuation::Number);
        }
        self.number(output)
    }

    /// Starts a string or a shared reference, after its `R`.
    #[inline(always)]
    fn shared_reference(&mut self) -> Continuation
        requires can_step { CanAdvance Continuation.Constant self.old }
        ensures { AdvancedRest (shared_constant self.old.state.in_value) 6 6 9 self.old (Ok result)
            self.new }
    {
        let Some(at) = self.state.place else {
            return self.with_braces(Continuation::ReferenceConstant);
        };
        // `Re` is printed as `".."`, which has the type `&str`, and not as `&*".."`.
        if self.source.symbol.is_at(b'e', at, &mut self.looks) {
            self.state.place = Some(at + 1);
            // The characters of a string are slow to print.
            self.fuel.pay_text(true);
            return Continuation::StrLiteral;
        }
        self.with_braces(Continuation::ReferenceConstant)
    }

    /// Starts the path of a variant, after its `V`.
    #[inline(always)]
    fn variant_path(&mut self) -> Continuation
        requires can_step { CanAdvance Continuation.Constant self.old }
        ensures { AdvancedRest (variant_constant self.old.state.in_value) 6 6 9 self.old (Ok result)
            self.new }
    {
        self.push(Continuation::Variant);
        if self.state.in_value {
            return Continuation::Path;
        }
        self.put(FixedText::OpenBrace);
        self.state.in_value = true;
        Continuation::Path
    }

    /// Reads a constant, after its tag.
    #[inline(always)]
    fn tagged_constant<V: Output>(
        &mut self,
        tag: u8,
        output: &mut V,
    ) -> Result<Continuation, StepError>
        requires can_step { CanPerform V.Output Continuation.Constant self.old output.old }
        ensures { PerformedRest V.Output (constant self.old.state.in_value tag) 6 6 9 self.old
            output.old result self.new output.new }
    {
        let kind = constant_kind(tag).ok_or(StepError::Abort(FixedText::Invalid))?;
        match kind {
            ConstantKind::Placeholder => Ok(self.end_with(FixedText::Placeholder)),
            ConstantKind::Unsigned => {
                self.state.letter = tag;
                self.number(output)
            }
            ConstantKind::Signed => self.signed_number(tag, output),
            ConstantKind::Bool => self.end_with_token(TokenKind::Bool, output),
            ConstantKind::Char => self.end_with_token(TokenKind::Character, output),
            ConstantKind::Text => {
                // The characters of a string are slow to print.
                self.fuel.pay_text(true);
                Ok(self.with_braces(Continuation::StrConstant))
            }
            ConstantKind::Shared => Ok(self.shared_reference()),
            ConstantKind::Mut => Ok(self.with_braces(Continuation::MutReferenceConstant)),
            ConstantKind::Array => Ok(self.with_braces(Continuation::ArrayConstant)),
            ConstantKind::Tuple => Ok(self.with_braces(Continuation::TupleConstant)),
            ConstantKind::Variant => Ok(self.variant_path()),
            ConstantKind::Backref => self.follow_backref(Continuation::Constant, output),
        }
    }

    /// Reads the tag of a constant and what follows it, up to the first constant or path in it.
    #[inline(never)]
    pub(super) fn constant<V: Output>(&mut self, output: &mut V) -> Result<Continuation, StepError>
        requires can_step { CanPerform V.Output Continuation.Constant self.old output.old }
        ensures { Performed V.Output Continuation.Constant self.old output.old result self.new output.new }
    {
        let at = self.state.place_or_abort()?;
        let (tag, next) = self.source.symbol.tag(at, &mut self.looks)?;
        // Every constant raises the depth, even a number or a placeholder. A basic type does not.
        self.enter()?;
        self.fuel.pay_part();
        self.state.place = Some(next);
        self.tagged_constant(tag, output)
    }
}
