//! The parser, and the methods that the productions share.
ghost use Rattle.std.specs.Prelude.{◌≡◌, ◌+◌, ◌-◌, ◌<◌, ◌≤◌, ◌^◌, length, IfOk, IfErr};
ghost use Rattle.demangle_v0_parser.specs.Parsers.{checked_at, deeper, roomier, looked, with_text, path_parser, pushed, closed};
ghost use Rattle.demangle_v0_parser.specs.Loops.{first_state};
ghost use Rattle.demangle_v0_parser.specs.Traces.{frame_at, frame_of};
ghost use Rattle.demangle_v0_parser.specs.declared.StepError.TheVariants.{Abort};

use crate::frames::{Frame, FrameStack, PackedFrame};
use crate::fuel::Fuel;
use crate::{Continuation, State, StepError};
use demangle_symbol::cursor::{Looks, MAX_DEPTH};
use demangle_v0_tokens::fixed_texts::FixedText;
use demangle_v0_tokens::source::Source;
use std::mem;

impl State {
    /// Returns the checkpoint before the path at a place.
    #[inline(always)]
    pub(crate) fn at_path(place: usize) -> Self
        ensures { result ≡ first_state place }
    {
        State {
            in_value: true,
            letter: 0,
            depth_left: MAX_DEPTH as u16,
            lifetimes: 0,
            place: Some(place),
            is_bracket_open: false,
            pending_text: None,
        }
    }
}

/// A parse of a symbol: what is next, and the frames with which it continues after that. The output
/// is a parameter of the methods that print.
#[derive(Drop)]
pub struct Parser<'m, 'f> {
    pub source: Source<'m>,
    pub state: State,
    pub stack: FrameStack<'f>,
    /// The fuel of a print that may be in vain. No other parse stops.
    pub fuel: Fuel,
    pub looks: Looks,
    pub continuation: Continuation,
}

impl<'m, 'f> Parser<'m, 'f> {
    /// Returns a parser of the path at a place, whose frames go into this memory. Moves the count
    /// out of `looks`.
    #[inline(always)]
    pub fn at_path(
        source: Source<'m>,
        place: usize,
        memory: &'f mut [PackedFrame],
        looks: &mut Looks,
    ) -> Self
        ensures { result ≡ path_parser source.entry place (length memory.old) looks.old }
    {
        Parser {
            source,
            continuation: Continuation::Path,
            state: State::at_path(place),
            stack: FrameStack::new(memory),
            fuel: Fuel::none(),
            looks: mem::replace(looks, Looks::new()),
        }
    }

    /// Returns a parser in the same state as this one, with its frames copied into larger memory.
    /// Moves the count of looks into it.
    #[inline(always)]
    pub fn in_larger_stack<'g>(&mut self, memory: &'g mut [PackedFrame]) -> Parser<'m, 'g>
        requires room { self.old.stack.room ≤ length memory.old }
        ensures moved { result ≡ roomier self.old (length memory.old) }
        ensures counted { self.new ≡ looked self.old 0 }
    {
        Parser {
            source: self.source,
            continuation: self.continuation,
            state: self.state,
            stack: FrameStack::with_frames_of(&self.stack, memory),
            fuel: self.fuel,
            looks: mem::replace(&mut self.looks, Looks::new()),
        }
    }
}

impl Parser<'_, '_> {
    /// Continues with the path at a place.
    #[inline(always)]
    pub fn start_path(&mut self, place: usize)
        ensures { self.new ≡ checked_at self.old Continuation.Path (first_state place) }
    {
        self.continuation = Continuation::Path;
        self.state = State::at_path(place);
    }

    /// Returns the place of the next byte, or `None` after an error.
    #[inline(always)]
    pub fn place(&self) -> Option<usize>
        ensures { result ≡ self.now.state.place }
    {
        self.state.place
    }

    /// Pushes a frame with which the parser continues after what is read next.
    #[inline(always)]
    pub(super) fn push(&mut self, continuation: Continuation)
        requires room { length self.old.stack.frames < self.old.stack.room }
        requires small { self.old.state.lifetimes < 2 ^ 80 }
        ensures { self.new ≡ pushed self.old (frame_at continuation self.old.state) }
    {
        self.stack.push(self.state.frame(continuation));
    }

    /// Pushes such a frame with another letter.
    #[inline(always)]
    pub(super) fn push_lettered(&mut self, continuation: Continuation, letter: u8)
        requires room { length self.old.stack.frames < self.old.stack.room }
        requires small { self.old.state.lifetimes < 2 ^ 80 }
        ensures { self.new ≡ pushed self.old (frame_of continuation self.old.state.in_value letter
            self.old.state.depth_left self.old.state.lifetimes) }
    {
        let frame = self.state.frame(continuation);
        self.stack.push(Frame { letter, ..frame });
    }

    /// Queues a fixed text, which is printed at the end of the step.
    #[inline(always)]
    pub(super) fn put(&mut self, pending_text: FixedText)
        ensures { self.new ≡ with_text self.old pending_text }
    {
        self.state.pending_text = Some(pending_text);
    }

    /// Queues the fixed text with which the production ends.
    #[inline(always)]
    pub(super) fn end_with(&mut self, pending_text: FixedText) -> Continuation
        ensures end { result ≡ Continuation.End }
        ensures with_text { self.new ≡ closed (with_text self.old pending_text) }
    {
        self.state.pending_text = Some(pending_text);
        self.state.is_bracket_open = false;
        Continuation::End
    }

    /// Raises the depth. Fails if it has reached the limit.
    #[inline(always)]
    pub(super) fn enter(&mut self) -> Result<(), StepError>
        ensures ok { IfOk result (λ _. (0 < self.old.state.depth_left) × (self.new ≡ deeper self.old)) }
        ensures deep { IfErr result (λ stop. (self.old.state.depth_left ≡ 0) × (stop ≡ Abort
            FixedText.Recursion) × (self.new ≡ self.old)) }
    {
        self.state.depth_left = self.state.nested_depth()?;
        Ok(())
    }
}
