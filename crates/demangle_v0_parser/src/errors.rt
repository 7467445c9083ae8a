//! The errors that end a step, and how `?` makes them.
ghost use Rattle.std.specs.Prelude.{◌≡◌, ◌-◌, ◌<◌, Some, None, IfOk, IfErr};
ghost use Rattle.demangle_v0_parser.specs.Productions.{error_text_of};
ghost use Rattle.demangle_v0_parser.specs.declared.StepError.TheVariants.{Sink, Abort};

use crate::{State, StepError};
use demangle_sink::SinkRefused;
use demangle_symbol::cursor::ParseError;
use demangle_v0_tokens::fixed_texts::FixedText;

impl From<SinkRefused> for StepError {
    ghost from_gives = { λ _ stop. stop ≡ Sink };

    #[inline(always)]
    fn from(_refused: SinkRefused) -> StepError {
        StepError::Sink
    }
}

impl From<ParseError> for StepError {
    ghost from_gives = { λ error stop. stop ≡ Abort (error_text_of error) };

    #[inline(always)]
    fn from(error: ParseError) -> StepError {
        match error {
            ParseError::Invalid => StepError::Abort(FixedText::Invalid),
            ParseError::RecursedTooDeep => StepError::Abort(FixedText::Recursion),
        }
    }
}

impl State {
    /// Returns the offset of the next byte. It fails after an error.
    #[inline(always)]
    pub(super) fn place_or_abort(&self) -> Result<usize, StepError>
        ensures ok { IfOk result (λ at. self.now.place ≡ Some at) }
        ensures failed { IfErr result
            (λ stop. (self.now.place ≡ None) × (stop ≡ Abort FixedText.AfterError)) }
    {
        self.place.ok_or(StepError::Abort(FixedText::AfterError))
    }

    /// Returns how many levels of nesting are allowed one level deeper. It fails if none is left.
    #[inline(always)]
    pub(super) fn nested_depth(&self) -> Result<u16, StepError>
        ensures ok { IfOk result
            (λ left. (0 < self.now.depth_left) × (left ≡ self.now.depth_left - 1)) }
        ensures deep { IfErr result
            (λ stop. (self.now.depth_left ≡ 0) × (stop ≡ Abort FixedText.Recursion)) }
    {
        self.depth_left
            .checked_sub(1)
            .ok_or(StepError::Abort(FixedText::Recursion))
    }
}
