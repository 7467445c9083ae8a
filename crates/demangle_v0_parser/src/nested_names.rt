//! Paths that are nested in one another. Their names are read and printed in a loop of their own,
//! without frames and without a step for each.
ghost use Rattle.std.specs.Prelude.{◌≡◌, ◌+◌, ◌*◌, ◌<◌, ◌≤◌, ◌^◌, ◌++◌, length, None, true, IfOk, IsAscii, IsErr, IsOk};
ghost use Rattle.demangle_v0_parser.specs.Parsers.{CanPrint, NamesEnd, NamesFollow, ReadsOn, LooksAt, Same, restacked};
ghost use Rattle.demangle_v0_parser.specs.StepRuns.{name_frames};

use crate::frames::Frame;
use crate::parse::Parser;
use crate::{Continuation, StepError};
use demangle_v0_tokens::output::Output;

/// The letter of each nested path whose name is not special. Their own letters differ, but all of
/// them print their names alike.
const PLAIN_LETTER: u8 = b'v';

impl Parser<'_, '_> {
    /// Pushes the frames of `count` nested paths, one in another. `outer` levels of nesting are
    /// allowed before the first. No name of them is special.
    // Most other paths than that of a crate are in none, and need no call.
    #[inline(always)]
    pub(super) fn push_names(&mut self, count: u16, outer: u16)
        requires room { length self.old.stack.frames + count ≤ self.old.stack.room }
        requires levels { count ≤ outer }
        requires small { self.old.state.lifetimes < 2 ^ 80 }
        ensures { self.new ≡ restacked self.old (self.old.stack.frames ++ name_frames
            self.old.state.in_value self.old.state.lifetimes outer count) }
    {
        if count > 0 {
            self.push_each_name(count, outer);
        }
    }

    /// Does the same as `push_names`.
    // It is called in several places, and is not inlined, so that the loop of printing stays small.
    #[inline(never)]
    fn push_each_name(&mut self, count: u16, outer: u16)
        requires room { length self.old.stack.frames + count ≤ self.old.stack.room }
        requires levels { count ≤ outer }
        requires small { self.old.state.lifetimes < 2 ^ 80 }
        ensures { self.new ≡ restacked self.old (self.old.stack.frames ++ name_frames
            self.old.state.in_value self.old.state.lifetimes outer count) }
    {
        for done in 0..count {
            let frame = self.state.frame(Continuation::NestedName);
            self.stack.push(Frame {
                letter: PLAIN_LETTER,
                depth_left: outer - done - 1,
                ..frame
            });
        }
    }

    /// Reads and prints the names of `count` nested paths, one in another, after the path that they
    /// are in.
    #[inline(always)]
    fn plain_names<V: Output>(
        &mut self,
        count: u16,
        outer: u16,
        output: &mut V,
    ) -> Result<Continuation, StepError>
        requires can_step { CanPrint V.Output self.old output.old }
        requires room { length self.old.stack.frames + count ≤ self.old.stack.room }
        requires levels { count ≤ outer }
        requires small { self.old.state.lifetimes < 2 ^ 80 }
        ensures end { NamesEnd V.Output count outer self.old output.old result self.new output.new }
        ensures same { Same self.old self.new }
        ensures grows { self.old.looks ≤ self.new.looks }
        ensures reads { IsOk result → ReadsOn (5 * count) self.old self.new }
        ensures most { LooksAt (5 * count) self.old self.new }
    {
        let mut left = count;
        'names: while left > 0 {
            left -= 1;
            self.state.letter = PLAIN_LETTER;
            self.state.depth_left = outer - left - 1;
            if let Err(stop) = self.nested_name(output) {
                self.push_names(left, outer);
                return Err(stop);
            }
        }
        Ok(Continuation::End)
    }

    /// Reads and prints the names of `count` nested paths after the path that they are in, which
    /// was performed with this result.
    #[inline(always)]
    pub(super) fn names_after<V: Output>(
        &mut self,
        performed: Result<Continuation, StepError>,
        count: u16,
        outer: u16,
        output: &mut V,
    ) -> Result<Continuation, StepError>
        requires ends { IfOk performed (λ next. next ≡ Continuation.End) }
        requires ascii { V.is_printed ≡ true → IsAscii self.old.source.symbol.now }
        requires ready { IsOk performed → V.ready output.old }
        requires no_pending_text { self.old.state.pending_text ≡ None }
        requires room { length self.old.stack.frames + count ≤ self.old.stack.room }
        requires levels { count ≤ outer }
        requires small { self.old.state.lifetimes < 2 ^ 80 }
        ensures follow { NamesFollow V.Output performed count outer self.old output.old result
            self.new output.new }
        ensures same { Same self.old self.new }
        ensures grows { self.old.looks ≤ self.new.looks }
        ensures reads { IsOk result → ReadsOn (5 * count) self.old self.new }
        ensures most { IsOk performed → LooksAt (5 * count) self.old self.new }
        ensures stopped { IsErr performed → self.new.looks ≤ self.old.looks }
        ensures inner { IsOk result → IsOk performed }
    {
        match performed {
            Ok(_) => self.plain_names(count, outer, output),
            Err(stop) => {
                self.push_names(count, outer);
                Err(stop)
            }
        }
    }
}
