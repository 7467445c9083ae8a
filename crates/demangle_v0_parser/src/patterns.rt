//! Continuations of patterns.
ghost use Rattle.std.specs.Prelude.{◌==◌, ◌+◌, IsOk};
ghost use Rattle.demangle_v0_parser.specs.Parsers.{CanAdvance, Advanced};

use crate::parse::Parser;
use crate::{Continuation, StepError};
use demangle_v0_tokens::fixed_texts::FixedText;
use demangle_v0_tokens::tags::{PatternKind, pattern_kind};

impl Parser<'_, '_> {
    /// Reads the tag of a pattern, and starts the first constant or pattern in it.
    ///
    /// `NotNull` has neither, so the pattern ends with its text.
    #[inline(always)]
    pub(super) fn pattern(&mut self) -> Result<Continuation, StepError>
        requires can_step { CanAdvance Continuation.Pattern self.old }
        ensures { Advanced Continuation.Pattern self.old result self.new }
    {
        let at = self.state.place_or_abort()?;
        let (tag, next) = self.source.symbol.tag(at, &mut self.looks)?;
        let kind = pattern_kind(tag).ok_or(StepError::Abort(FixedText::Invalid))?;
        self.state.place = Some(next);
        match kind {
            PatternKind::Range => {
                self.push(Continuation::RangeEnd);
                self.state.in_value = false;
                Ok(Continuation::Constant)
            }
            PatternKind::Or => {
                // Only `O` has patterns in it, so the Rust crate raises the depth only here.
                self.enter()?;
                self.push(Continuation::NextPattern);
                Ok(Continuation::Pattern)
            }
            PatternKind::NotNull => Ok(self.end_with(FixedText::NotNull)),
        }
    }

    /// Starts a further pattern after `|`, or ends at an `E`.
    ///
    /// After an error it fails with a new error.
    #[inline(always)]
    pub(super) fn next_pattern(&mut self) -> Result<Continuation, StepError>
        requires can_step { CanAdvance Continuation.NextPattern self.old }
        ensures { Advanced Continuation.NextPattern self.old result self.new }
    {
        let at = self
            .state
            .place
            .ok_or(StepError::Abort(FixedText::Invalid))?;
        if self.source.symbol.is_at(b'E', at, &mut self.looks) {
            self.state.place = Some(at + 1);
            self.state.is_bracket_open = false;
            return Ok(Continuation::End);
        }
        self.push(Continuation::NextPattern);
        self.put(FixedText::Or);
        Ok(Continuation::Pattern)
    }
}
