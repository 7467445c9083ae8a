//! Back references, whose target is a path, type or constant before them.
ghost use Rattle.std.specs.Prelude.{◌≡◌, ◌+◌, ◌≤◌, ◌<◌, length, Some, Ok, false, IfOk, IsOk};
ghost use Rattle.demangle_sink.specs.Limit.{and_one};
ghost use Rattle.demangle_v0_grammar.specs.References.{bytes_after};
ghost use Rattle.demangle_v0_parser.specs.Parsers.{Followed, CanAdvance, LooksAt, Performed, Placed, ReadsOn};

use crate::frames::Frame;
use crate::parse::Parser;
use crate::targets::target_of;
use crate::{Continuation, StepError};
use demangle_v0_tokens::backref::{BackrefOutcome, read_backref};
use demangle_v0_tokens::output::Output;

impl Parser<'_, '_> {
    /// Returns the number of bytes from a place to the end of the symbol, or `None` after an error.
    #[inline(always)]
    fn bytes_after(&self, place: Option<usize>) -> Option<usize>
        ensures { and_one result ≡ bytes_after (length self.now.source.symbol.now) place }
    {
        match place {
            Some(place) => Some(self.source.symbol.len().saturating_sub(place)),
            None => None,
        }
    }

    /// Reads a back reference after its `B`, and continues at its target if `output` prints. Fails
    /// if `output` allows fewer bytes to be read again than those after the target, and one more.
    ///
    /// `unit` is the continuation at which the target begins. If its text is looked up, the target is
    /// next. The frame on top of the stack then has the place after the reference.
    #[inline(always)]
    pub(super) fn follow_backref<V: Output>(
        &mut self,
        unit: Continuation,
        output: &mut V,
    ) -> Result<Continuation, StepError>
        requires can_step { CanAdvance Continuation.Path self.old }
        requires ready { V.ready output.old }
        ensures performs { Followed V.Output unit self.old output.old result self.new output.new }
        ensures grows { self.old.looks ≤ self.new.looks }
        ensures ends { V.is_printed ≡ false → IfOk result (λ next. next ≡ Continuation.End) }
        ensures placed { V.is_printed ≡ false → Placed self.old self.new }
        ensures reads { V.is_printed ≡ false → IsOk result → ReadsOn 5 self.old self.new }
        ensures most { V.is_printed ≡ false → LooksAt 5 self.old self.new }
    {
        let backref = read_backref(
            self.source.symbol,
            self.state.depth_left,
            self.state.place,
            &mut self.looks,
        );
        match backref {
            BackrefOutcome::NotFollowed(pending_text) => Err(StepError::Abort(pending_text)),
            BackrefOutcome::Target(target, next) => {
                self.state.is_bracket_open = false;
                // Validation does not follow references, and neither does the Rust crate. If it
                // did, its time could double with each reference.
                if !output.is_printing() {
                    self.state.place = Some(next);
                    return Ok(Continuation::End);
                }
                output.follow(self.source.symbol.len().saturating_sub(target))?;
                let frame = self.state.frame(Continuation::AfterBackref);
                self.stack.push(Frame {
                    number: next as u128,
                    ..frame
                });
                self.state.depth_left -= 1;
                self.state.place = Some(target);
                self.fuel.enter(target, next);
                if output.looks_up() {
                    return Ok(target_of(unit));
                }
                Ok(unit)
            }
        }
    }

    /// Continues after a back reference, whose target was printed. Gives back to `output` the bytes
    /// after the target's end.
    #[inline(always)]
    pub(super) fn after_backref<V: Output>(&mut self, output: &mut V) -> Continuation
        requires can_step { CanAdvance Continuation.AfterBackref self.old }
        ensures { Performed V.Output Continuation.AfterBackref self.old output.old (Ok result) self.new
            output.new }
    {
        let after = self.state.lifetimes as usize;
        let end = self.place();
        output.give_back(self.bytes_after(end));
        self.fuel.leave(end, after);
        self.state.place = Some(after);
        Continuation::End
    }
}
