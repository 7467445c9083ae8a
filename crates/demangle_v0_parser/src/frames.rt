//! The frames, which store what follows a nested production, and their stack.
ghost use Rattle.std.specs.Prelude.{◌≡◌, ◌^◌, ◌+◌, ◌<◌, ◌≤◌, ◌↔◌, [], ◌++◌, length, take, IfSome, IfNone, IsTrue};
ghost use Rattle.demangle_v0_parser.specs.Frames.{packed_frame, on_top};

use crate::Continuation;
use std::marker::Model;
use std::mem;

const TWO_64: u128 = 1 << 64;

/// A saved continuation, with the state that it needs.
#[derive(Clone, Copy)]
pub struct Frame {
    /// The continuation.
    pub continuation: Continuation,
    /// Whether the path or constant is in value position.
    pub in_value: bool,
    /// A namespace, or the type tag of a number.
    pub letter: u8,
    /// How many more levels of nesting are allowed.
    pub depth_left: u16,
    /// The number of lifetimes in scope. For `AfterBackref` it is the offset after the reference.
    pub number: u128,
}

/// A frame as the stack stores it, in 16 bytes.
#[derive(Clone, Copy)]
pub struct PackedFrame {
    low: u64,
    high: u16,
    depth_left: u16,
    continuation: Continuation,
    in_value: bool,
    /// One byte, stored in two. So no byte is unused, and the compiler clears and copies a frame as
    /// two machine words.
    letter: u16,
}

const _: () = prove!(mem::size_of::<PackedFrame>() == 16);

/// What the memory of a stack holds above its top.
pub const UNUSED_FRAME: PackedFrame = PackedFrame {
    low: 0,
    high: 0,
    depth_left: 0,
    continuation: Continuation::InherentImplPath,
    in_value: false,
    letter: 0,
};

/// Returns a frame as the stack stores it.
#[inline(always)]
fn pack(frame: Frame) -> PackedFrame
    ensures { frame.number < 2 ^ 80 → packed_frame result ≡ frame }
{
    PackedFrame {
        low: (frame.number % TWO_64) as u64,
        // 80 bits hold the number of all lifetimes in scope: fewer than 2^64 for each of 500
        // levels.
        high: (frame.number / TWO_64 % 0x10000) as u16,
        depth_left: frame.depth_left,
        continuation: frame.continuation,
        in_value: frame.in_value,
        letter: u16::from(frame.letter),
    }
}

/// Returns the frame that the stack stores so.
#[inline(always)]
fn unpack(packed: PackedFrame) -> Frame
    ensures { result ≡ packed_frame packed }
{
    Frame {
        continuation: packed.continuation,
        in_value: packed.in_value,
        letter: (packed.letter % 256) as u8,
        depth_left: packed.depth_left,
        number: u128::from(packed.high) * TWO_64 + u128::from(packed.low),
    }
}

/// A stack of frames in the caller's memory. The last one is the top.
#[derive(Drop)]
pub struct FrameStack<'f> {
    memory: &'f mut [PackedFrame],
    len: usize,
}

impl<'f> Model for FrameStack<'f> {
    ghost use Rattle.std.specs.Prelude.{◌≤◌, length, map, take};
    ghost use Rattle.demangle_v0_parser.specs.Frames.{Stack, packed_frame};

    ghost Value = { Stack };

    ghost view = { λ s. record {
      frames = map packed_frame (take s.len s.memory.now);
      room = length s.memory.now;
    } };

    ghost invariant = { λ s. s.len ≤ length s.memory.now };
}

impl<'f> FrameStack<'f> {
    /// Returns an empty stack, which has room for as many frames as this memory.
    #[inline(always)]
    pub fn new(memory: &'f mut [PackedFrame]) -> Self
        ensures { result ≡ record { frames = []; room = length memory.old } }
    {
        FrameStack { memory, len: 0 }
    }

    /// Returns a stack in this memory with the frames of another.
    pub fn with_frames_of(other: &FrameStack<'_>, memory: &'f mut [PackedFrame]) -> Self
        requires room { other.now.room ≤ length memory.old }
        ensures { result ≡ record { frames = other.now.frames; room = length memory.old } }
    {
        memory[..other.len].copy_from_slice(&other.memory[..other.len]);
        FrameStack {
            memory,
            len: other.len,
        }
    }

    /// Returns the number of frames.
    #[inline(always)]
    pub fn len(&self) -> usize
        ensures { result ≡ length self.now.frames }
    {
        self.len
    }

    /// Returns whether there is room for another frame.
    #[inline(always)]
    pub fn has_room(&self) -> bool
        ensures { IsTrue result ↔ length self.now.frames < self.now.room }
    {
        self.len < self.memory.len()
    }

    /// Returns for how many further frames there is room.
    #[inline(always)]
    pub fn room_left(&self) -> usize
        ensures { result + length self.now.frames ≡ self.now.room }
    {
        self.memory.len() - self.len
    }

    /// Pushes a frame.
    #[inline(always)]
    pub fn push(&mut self, frame: Frame)
        requires room { length self.old.frames < self.old.room }
        ensures pushed { frame.number < 2 ^ 80 → self.new ≡ on_top self.old frame }
        ensures length { length self.new.frames ≡ length self.old.frames + 1 }
        ensures room { self.new.room ≡ self.old.room }
    {
        self.memory[self.len] = pack(frame);
        self.len += 1;
    }

    /// Keeps only the lowest `count` frames.
    pub fn truncate(&mut self, count: usize)
        ensures { self.new ≡ record self.old { frames = take count self.old.frames } }
    {
        self.len = self.len.min(count);
    }

    /// Removes the top frame and returns it, or returns `None` if the stack is empty.
    #[inline(always)]
    pub fn pop(&mut self) -> Option<Frame>
        ensures some { IfSome result (λ frame. self.old ≡ on_top self.new frame) }
        ensures none { IfNone result (self.old.frames ≡ []) }
        ensures same { IfNone result (self.new ≡ self.old) }
    {
        if self.len == 0 {
            return None;
        }
        self.len -= 1;
        Some(unpack(self.memory[self.len]))
    }
}
