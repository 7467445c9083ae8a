//! Steps: each runs a continuation, prints the fixed text that it queued, and returns what is next.
ghost use Rattle.std.specs.Prelude.{◌≡◌, ◌+◌, ◌≤◌, true, false, IfSome, IfNone, IsOk, OnOk, length, IsAscii};
ghost use Rattle.demangle_v0_parser.specs.Parsers.{CanPerform, Same, env_of, restated, machine_of};
ghost use Rattle.demangle_v0_parser.specs.Steps.{looks_bound, resumed_of};
ghost use Rattle.demangle_v0_parser.specs.Loops.{FlushesText, ResumesAt, first_looks, without_pending_text};
ghost use Rattle.demangle_v0_parser.specs.Skips.{is_skipped};
ghost use Rattle.demangle_v0_parser.specs.StepRuns.{StepsDone};

use crate::frames::Frame;
use crate::parse::Parser;
use crate::{Continuation, State, StepError};
use demangle_sink::SinkRefused;
use demangle_v0_tokens::output::Output;
use demangle_v0_tokens::token::Token;

impl State {
    /// Restores the state that a frame saved.
    #[inline(always)]
    fn resume(&mut self, frame: Frame)
        ensures { self.new ≡ resumed_of self.old frame }
    {
        self.in_value = frame.in_value;
        self.letter = frame.letter;
        self.depth_left = frame.depth_left;
        self.lifetimes = frame.number;
    }
}

impl Parser<'_, '_> {
    /// Prints the fixed text that a continuation queued, if there is one.
    #[inline(always)]
    fn flush_pending_text<V: Output>(&mut self, output: &mut V) -> Result<(), SinkRefused>
        requires ascii { V.is_printed ≡ true → IsAscii self.old.source.symbol.now }
        requires ready { V.ready output.old }
        ensures put { FlushesText V.Output self.old.state.pending_text output.old result output.new }
        ensures parser { self.new ≡ restated self.old (without_pending_text self.old.state) self.new.looks }
        ensures ready { OnOk result (V.ready output.new) }
        ensures grows { self.old.looks ≤ self.new.looks }
        ensures most { self.new.looks ≤ self.old.looks }
    {
        let pending_text = self.state.pending_text;
        // Most iterations leave none. A parse without output clears it untested, which costs less.
        if pending_text.is_some() || !output.is_printing() {
            self.state.pending_text = None;
        }
        match pending_text {
            None => Ok(()),
            Some(pending_text) => output.emit(
                &self.source,
                &Token::Fixed(pending_text),
                &mut self.looks,
            ),
        }
    }

    /// Runs a continuation, which may read and print a token, and prints the fixed text that it
    /// queued. Returns the next continuation. A path is run together with those that are nested in
    /// one another, and with their names, one step after another.
    ///
    /// Fails if the output does. A parse that prints never runs an impl path or folded arguments
    /// here, because those are not printed.
    #[inline(always)]
    pub fn steps<V: Output>(
        &mut self,
        continuation: Continuation,
        output: &mut V,
    ) -> Result<Continuation, SinkRefused>
        requires can_step { CanPerform V.Output continuation self.old output.old }
        requires unskipped { V.is_printed ≡ true → is_skipped
            self.old.source.form continuation ≡ false }
        ensures stepped { StepsDone (env_of V.Output self.old) continuation (machine_of self.old output.old)
            result (machine_of self.new output.new) }
        ensures same { Same self.old self.new }
        ensures ready { IsOk result → V.ready output.new }
        ensures grows { self.old.looks ≤ self.new.looks }
        ensures own_looks { self.new.looks ≤ self.old.looks + looks_bound 20 self.old.source.symbol.now
            self.old.state.place }
        ensures least { self.old.looks + first_looks continuation self.old.state ≤ self.new.looks }
    {
        match self.dispatch(continuation, output) {
            Ok(next) => {
                self.flush_pending_text(output)?;
                Ok(next)
            }
            Err(StepError::Abort(fault)) => {
                self.state.place = None;
                self.state.is_bracket_open = false;
                // A symbol is not accepted by printing after an error.
                self.fuel.use_up();
                output.emit_error(&self.source, &Token::Fixed(fault), &mut self.looks)?;
                Ok(Continuation::End)
            }
            Err(StepError::Sink) => Err(SinkRefused),
        }
    }

    /// Returns the next continuation. After the end of a production it is that of the frame on top,
    /// which is removed, or `None` if only `base` frames are left.
    #[inline(always)]
    pub fn resume(&mut self, base: usize, continuation: Continuation) -> Option<Continuation>
        ensures some { IfSome result (λ next. ResumesAt base continuation self.old.state
            self.old.stack.frames next self.new.state self.new.stack.frames) }
        ensures none { IfNone result ((continuation ≡ Continuation.End)
            × (length self.old.stack.frames ≤ base) × (self.new ≡ self.old)) }
        ensures same { Same self.old self.new }
        ensures looks { self.new.looks ≡ self.old.looks }
    {
        match continuation {
            Continuation::End => {
                if self.stack.len() <= base {
                    return None;
                }
                let Some(frame) = self.stack.pop() else {
                    return None;
                };
                self.state.resume(frame);
                Some(frame.continuation)
            }
            other => Some(other),
        }
    }
}
