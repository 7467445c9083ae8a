//! Continuations that do nothing but queue a fixed text.
ghost use Rattle.std.specs.Prelude.{◌≡◌, Ok, IsSome};
ghost use Rattle.demangle_v0_parser.specs.Productions.{text_step_at};
ghost use Rattle.demangle_v0_parser.specs.Parsers.{Advanced};
ghost use Rattle.demangle_v0_parser.specs.Measure.{Fits};

use crate::Continuation;
use crate::parse::Parser;
use demangle_v0_tokens::fixed_texts::FixedText;

/// A fixed text to queue, and what follows it.
#[derive(Clone, Copy)]
pub struct TextStep {
    /// The text that it queues.
    pending_text: FixedText,
    /// The continuation to run next.
    next: Continuation,
    /// Whether that is in value position.
    in_value: bool,
}

/// Returns the text that `continuation` queues and what follows it, or `None` if the continuation
/// does more than queue a text.
#[inline(always)]
fn text_step_at(continuation: Continuation) -> Option<TextStep>
    ensures { result ≡ text_step_at continuation }
{
    let (pending_text, next, in_value) = match continuation {
        Continuation::CloseParen => (FixedText::CloseParen, Continuation::End, false),
        Continuation::CloseAngle => (FixedText::Greater, Continuation::End, false),
        Continuation::Mut => (FixedText::Mut, Continuation::Type, false),
        Continuation::StrConstant => (FixedText::Star, Continuation::StrLiteral, false),
        Continuation::ReferenceConstant => (FixedText::Ampersand, Continuation::Constant, true),
        Continuation::OpenArguments => (FixedText::Less, Continuation::FirstArgument, false),
        Continuation::FoldedArguments => (FixedText::Placeholder, Continuation::CloseAngle, false),
        Continuation::Const => (FixedText::Const, Continuation::Type, false),
        Continuation::PatternIs => (FixedText::Is, Continuation::Pattern, false),
        Continuation::OpenParameters => (FixedText::Function, Continuation::FirstParameter, false),
        Continuation::OpenTraitArguments => (
            FixedText::Less,
            Continuation::FirstTraitArgument,
            false,
        ),
        Continuation::CloseBracket => (FixedText::CloseBracket, Continuation::End, false),
        Continuation::RangeEnd => (FixedText::Range, Continuation::Constant, false),
        Continuation::MutReferenceConstant => (
            FixedText::Ampersand,
            Continuation::MutableConstant,
            false,
        ),
        Continuation::MutableConstant => (FixedText::Mut, Continuation::Constant, true),
        Continuation::ArrayConstant => (
            FixedText::OpenBracket,
            Continuation::FirstArrayConstant,
            false,
        ),
        Continuation::TupleConstant => (
            FixedText::OpenParen,
            Continuation::FirstTupleConstant,
            false,
        ),
        Continuation::FieldColon => (FixedText::Colon, Continuation::Constant, true),
        Continuation::CloseBrace => (FixedText::CloseBrace, Continuation::End, false),
        _ => return None,
    };
    Some(TextStep {
        pending_text,
        next,
        in_value,
    })
}

impl Parser<'_, '_> {
    /// Queues the fixed text of a continuation that does nothing else.
    #[inline(always)]
    pub(super) fn queue_text(&mut self, continuation: Continuation) -> Continuation
        requires listed { IsSome (text_step_at continuation) }
        requires fits { Fits continuation self.old.state.depth_left self.old.state.lifetimes }
        ensures performs { Advanced continuation self.old (Ok result) self.new }
        ensures looks { self.new.looks ≡ self.old.looks }
    {
        let Some(left) = text_step_at(continuation) else {
            return Continuation::End;
        };
        self.state.pending_text = Some(left.pending_text);
        self.state.in_value = left.in_value;
        self.state.is_bracket_open = false;
        left.next
    }
}
