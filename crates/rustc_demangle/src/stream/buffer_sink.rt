//! A sink that appends to a `GrowingBuffer`.
ghost use Rattle.std.specs.Prelude.{◌≡◌, [], ◌++◌, Some, true, false, refl};
ghost use Rattle.std.proofs.Common.{sym, ap, ◌∙◌};
ghost use Rattle.std.proofs.lemmas.List.{append-nil, append_assoc};

use demangle_sink::{SinkRefused, TextSink};
use piece_buffer::GrowingBuffer;

/// A sink that appends each piece to a buffer. It fails if the buffer can't hold a piece. No room is
/// certain, since memory may fail.
#[derive(Drop)]
pub(super) struct BufferSink<'h> {
    held: &'h mut GrowingBuffer,
    failed: bool,
}

impl<'h> BufferSink<'h> {
    /// Returns a sink that appends to this buffer. It has not failed.
    pub(super) fn new(held: &'h mut GrowingBuffer) -> Self
        ensures same_bytes { result.held.ghost_name ≡ held.entry.ghost_name }
        ensures bytes { result.held.now ≡ held.old }
        ensures not_failed { result.failed ≡ false }
    {
        BufferSink {
            held,
            failed: false,
        }
    }
}

impl<'h> TextSink for BufferSink<'h> {
    ghost took = { λ s bytes t. (t.held.ghost_name ≡ s.held.ghost_name)
        × (t.held.now ≡ s.held.now ++ bytes) };

    ghost failed = { λ s. s.failed };

    ghost room = { λ s. Some 0 };

    ghost keeps = { true };

    ghost held = { λ s. Some s.held.now };

    #[inline(always)]
    fn put(&mut self, s: &str) -> Result<(), SinkRefused> {
        if self.held.push(s.as_bytes()) {
            return Ok(());
        }
        self.failed = true;
        Err(SinkRefused)
    }

    fn is_failed(&self) -> bool {
        self.failed
    }

    #[inline(always)]
    fn can_copy(&self) -> bool {
        true
    }

    #[inline(always)]
    fn held_len(&self) -> Option<usize> {
        Some(self.held.len())
    }

    #[inline(always)]
    fn put_again(&mut self, start: usize, len: usize) -> bool {
        self.held.push_again(start, len)
    }

    ghost took_nothing = { λ s. (refl, sym (append-nil s.held.now)) };

    ghost took_joined = { λ s t u xs ys h k. (
      k.0 ∙ h.0,
      k.1 ∙ (ap (λ z. z ++ ys) h.1 ∙ append_assoc s.held.now xs ys),
    ) };
}
