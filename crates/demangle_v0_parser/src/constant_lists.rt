//! Continuations of lists of constants: arrays, tuples and the fields of variants.
ghost use Rattle.std.specs.Prelude.{◌≡◌, Ok};
ghost use Rattle.demangle_v0_parser.specs.Productions.{at_first, after_first, after_next, element_continuation, close_of};
ghost use Rattle.demangle_v0_parser.specs.Parsers.{CanAdvance, Advanced};

use crate::Continuation;
use crate::parse::Parser;
use demangle_v0_tokens::fixed_texts::FixedText;

/// A kind of list whose elements are constants.
#[derive(Clone, Copy)]
pub enum ConstantList {
    Array,
    Tuple,
    TupleVariant,
    Fields,
}

impl ConstantList {
    /// Returns the text that closes the list.
    #[inline(always)]
    fn close(self) -> FixedText
        ensures { result ≡ close_of self }
    {
        match self {
            ConstantList::Array => FixedText::CloseBracket,
            ConstantList::Tuple | ConstantList::TupleVariant => FixedText::CloseParen,
            ConstantList::Fields => FixedText::CloseStruct,
        }
    }

    /// Returns the continuation that reads an element.
    #[inline(always)]
    fn element(self) -> Continuation
        ensures { result ≡ element_continuation self }
    {
        match self {
            ConstantList::Fields => Continuation::Field,
            _ => Continuation::Constant,
        }
    }

    /// Returns the continuation after the first element.
    #[inline(always)]
    fn after_first(self) -> Continuation
        ensures { result ≡ after_first self }
    {
        match self {
            ConstantList::Array => Continuation::NextArrayConstant,
            ConstantList::Tuple => Continuation::SecondTupleConstant,
            ConstantList::TupleVariant => Continuation::NextVariantConstant,
            ConstantList::Fields => Continuation::NextField,
        }
    }

    /// Returns the continuation after a further element.
    #[inline(always)]
    fn after_next(self) -> Continuation
        ensures { result ≡ after_next self }
    {
        match self {
            ConstantList::Array => Continuation::NextArrayConstant,
            ConstantList::Tuple => Continuation::NextTupleConstant,
            ConstantList::TupleVariant => Continuation::NextVariantConstant,
            ConstantList::Fields => Continuation::NextField,
        }
    }
}

impl Parser<'_, '_> {
    /// Starts the first element of a list, or closes the list if it has ended.
    #[inline(always)]
    pub(super) fn first_list_constant(&mut self, list: ConstantList) -> Continuation
        requires can_step { CanAdvance Continuation.Constant self.old }
        ensures { Advanced (at_first list) self.old (Ok result) self.new }
    {
        if self.ends_list() {
            return self.end_with(list.close());
        }
        self.push(list.after_first());
        self.state.in_value = true;
        list.element()
    }

    /// Starts a further element after a comma, or closes the list if it has ended.
    #[inline(always)]
    pub(super) fn next_list_constant(&mut self, list: ConstantList) -> Continuation
        requires can_step { CanAdvance Continuation.Constant self.old }
        ensures { Advanced (after_next list) self.old (Ok result) self.new }
    {
        if self.ends_list() {
            return self.end_with(list.close());
        }
        self.push(list.after_next());
        self.put(FixedText::Comma);
        self.state.in_value = true;
        list.element()
    }

    /// Starts the second element of a tuple, or queues the comma that follows a single element.
    #[inline(always)]
    pub(super) fn second_tuple_constant(&mut self) -> Continuation
        requires can_step { CanAdvance Continuation.SecondTupleConstant self.old }
        ensures { Advanced Continuation.SecondTupleConstant self.old (Ok result) self.new }
    {
        if self.ends_list() {
            self.put(FixedText::TrailingComma);
            return Continuation::CloseParen;
        }
        self.push(Continuation::NextTupleConstant);
        self.put(FixedText::Comma);
        self.state.in_value = true;
        Continuation::Constant
    }
}
