//! Continuations that few symbols have. Each is a call, so that the loops stay small: with the
//! continuations themselves in place of `OutOfLine`, a v0 line takes 0.1 % more instructions.
ghost use Rattle.std.specs.Prelude.{IsOk};
ghost use Rattle.demangle_v0_parser.specs.Parsers.{Performed, CanPerform};
ghost use Rattle.demangle_v0_parser.specs.Productions.{out_of_line_continuation};

use crate::parse::Parser;
use crate::{Continuation, StepError};
use demangle_v0_tokens::output::Output;
use demangle_v0_tokens::token::TokenKind;

/// A continuation that few symbols have.
#[derive(Clone, Copy)]
pub enum OutOfLine {
    Lifetime,
    FunctionQualifiers,
    DynBinder,
    BindingName,
    DynLifetime,
    Constant,
    Number,
    StrLiteral,
    Variant,
    Field,
}

impl Parser<'_, '_> {
    /// Performs a continuation that few symbols have, by a call.
    #[inline(always)]
    fn call_out_of_line<V: Output>(
        &mut self,
        continuation: OutOfLine,
        output: &mut V,
    ) -> Result<Continuation, StepError>
        requires can_step { CanPerform V.Output (out_of_line_continuation continuation) self.old output.old }
        ensures { Performed V.Output (out_of_line_continuation continuation) self.old output.old result
            self.new output.new }
    {
        match continuation {
            OutOfLine::Lifetime => self.end_with_token(TokenKind::LifetimeIndex, output),
            OutOfLine::FunctionQualifiers => self.function_qualifiers(output),
            OutOfLine::DynBinder => self.dyn_binder(output),
            OutOfLine::BindingName => self.binding_name(output),
            OutOfLine::DynLifetime => self.dyn_lifetime(output),
            OutOfLine::Constant => self.constant(output),
            OutOfLine::Number => self.number(output),
            OutOfLine::StrLiteral => self.literal(output),
            OutOfLine::Variant => self.variant(),
            OutOfLine::Field => self.field(output),
        }
    }

    /// Performs a continuation that few symbols have.
    #[inline(always)]
    pub(super) fn out_of_line<V: Output>(
        &mut self,
        continuation: OutOfLine,
        output: &mut V,
    ) -> Result<Continuation, StepError>
        requires can_step { CanPerform V.Output (out_of_line_continuation continuation) self.old output.old }
        ensures { Performed V.Output (out_of_line_continuation continuation) self.old output.old result
            self.new output.new }
    {
        // A copy: the results of other continuations need not be where this call writes its own.
        let next = self.call_out_of_line(continuation, output)?;
        Ok(next)
    }
}
