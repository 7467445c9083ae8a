//! Continuations of tuple types.
ghost use Rattle.std.specs.Prelude.{Ok};
ghost use Rattle.demangle_v0_parser.specs.Parsers.{CanAdvance, Advanced, AdvancedRest};
ghost use Rattle.demangle_v0_tokens.specs.Tags.{constructed_of};
ghost use Rattle.demangle_v0_tokens.specs.declared.tags.ConstructedType.TheVariants as ConstructedType;

use crate::Continuation;
use crate::parse::Parser;
use demangle_v0_tokens::fixed_texts::FixedText;

impl Parser<'_, '_> {
    /// Queues the `(` of a tuple, after its `T`.
    #[inline(always)]
    pub(super) fn tuple_type(&mut self) -> Continuation
        requires can_step { CanAdvance Continuation.DynBinder self.old }
        ensures { AdvancedRest (constructed_of ConstructedType.Tuple) 5 50 9 self.old (Ok result)
            self.new }
    {
        self.put(FixedText::OpenParen);
        Continuation::FirstTupleType
    }

    /// Starts the first type of a tuple, or ends the tuple.
    #[inline(always)]
    pub(super) fn first_tuple_type(&mut self) -> Continuation
        requires can_step { CanAdvance Continuation.FirstTupleType self.old }
        ensures { Advanced Continuation.FirstTupleType self.old (Ok result) self.new }
    {
        if self.ends_list() {
            return self.end_with(FixedText::CloseParen);
        }
        self.push(Continuation::SecondTupleType);
        Continuation::Type
    }

    /// Starts the second type of a tuple, or queues the comma after the only one.
    #[inline(always)]
    pub(super) fn second_tuple_type(&mut self) -> Continuation
        requires can_step { CanAdvance Continuation.SecondTupleType self.old }
        ensures { Advanced Continuation.SecondTupleType self.old (Ok result) self.new }
    {
        if self.ends_list() {
            // `(T,)` is a tuple. `(T)` would be the type `T` in parentheses.
            self.put(FixedText::TrailingComma);
            return Continuation::CloseParen;
        }
        self.push(Continuation::NextTupleType);
        self.put(FixedText::Comma);
        Continuation::Type
    }

    /// Starts a further type of a tuple, or ends the tuple.
    #[inline(always)]
    pub(super) fn next_tuple_type(&mut self) -> Continuation
        requires can_step { CanAdvance Continuation.NextTupleType self.old }
        ensures { Advanced Continuation.NextTupleType self.old (Ok result) self.new }
    {
        if self.ends_list() {
            return self.end_with(FixedText::CloseParen);
        }
        self.push(Continuation::NextTupleType);
        self.put(FixedText::Comma);
        Continuation::Type
    }
}
