//! A sink that writes to a slice of the caller.
ghost use Rattle.std.specs.Prelude.{◌≡◌, ◌≤◌, ◌+◌, ◌-◌, [], drop, length, Some, true, false, refl, IsOk, OnOk, OnErr};
ghost use Rattle.std.proofs.Common.{◌∙◌};
ghost use Rattle.std.below.core.specs.declared.int.usize.TheConstants.{MAX};
ghost use Rattle.demangle_sink.specs.Sink.{IsWithin, room_after};
ghost use Rattle.demangle_sink.specs.Slice.{overlay, overlay_from, held_text, WrittenPart, WrittenPart-nothing, WrittenPart-joined};

use crate::{SinkRefused, TextSink};

/// Writes a part of a text to the caller's bytes, as far as they reach, and counts all bytes of the
/// text.
///
/// The part starts at a byte of the text, by default the first. It is written from the start of the
/// slice, with nothing after it. Bytes of the slice after the part stay unchanged. A character may
/// be cut at the start of the part and at the end of the slice. A piece is rejected only if the
/// count would exceed `usize::MAX`. It then changes nothing.
#[derive(Drop)]
pub struct SliceSink<'b> {
    out: &'b mut [u8],
    /// The index of the text's first byte that is written.
    start: usize,
    len: usize,
    failed: bool,
}

impl<'b> SliceSink<'b> {
    /// Returns a sink that writes the first bytes of a text to this slice. It has taken nothing and
    /// has not failed.
    pub fn new(out: &'b mut [u8]) -> Self
        ensures same_memory { result.out.ghost_name ≡ out.entry.ghost_name }
        ensures bytes { result.out.now ≡ out.old }
        ensures not_failed { result.failed ≡ false }
        ensures begins { result.start ≡ 0 }
        ensures empty { result.len ≡ 0 }
    {
        SliceSink::starting_at(out, 0)
    }

    /// Returns a sink that writes the text from byte `start`, counted from 0, to this slice. It has
    /// taken nothing and has not failed. A text of at most `start` bytes leaves the slice
    /// unchanged.
    pub fn starting_at(out: &'b mut [u8], start: usize) -> Self
        ensures same_memory { result.out.ghost_name ≡ out.entry.ghost_name }
        ensures bytes { result.out.now ≡ out.old }
        ensures not_failed { result.failed ≡ false }
        ensures begins { result.start ≡ start }
        ensures empty { result.len ≡ 0 }
    {
        SliceSink {
            out,
            start,
            len: 0,
            failed: false,
        }
    }

    /// Returns the number of bytes of the text. It includes bytes before the part and bytes that
    /// did not fit.
    pub fn len(&self) -> usize
        ensures { result ≡ self.now.len }
    {
        self.len
    }

    /// Takes bytes as `put` takes a piece. They need not be UTF-8.
    ///
    /// # Errors
    ///
    /// Returns `SinkRefused` if the count would exceed `usize::MAX`. The sink has failed from then
    /// on, and the slice is unchanged.
    #[inline(always)]
    pub fn put_bytes(&mut self, bytes: &[u8]) -> Result<(), SinkRefused>
        requires { ⟦<SliceSink<'b> as TextSink>⟧.failed self.old ≡ false }
        ensures taken { OnOk result
            (⟦<SliceSink<'b> as TextSink>⟧.took self.old bytes.now self.new) }
        ensures not_failed { OnOk result (⟦<SliceSink<'b> as TextSink>⟧.failed self.new ≡ false) }
        ensures refused { OnErr result (⟦<SliceSink<'b> as TextSink>⟧.failed self.new ≡ true) }
        ensures kept { OnErr result (⟦<SliceSink<'b> as TextSink>⟧.took self.old [] self.new
            × (⟦<SliceSink<'b> as TextSink>⟧.room self.new
            ≡ ⟦<SliceSink<'b> as TextSink>⟧.room self.old)) }
        ensures fits { IsWithin (length bytes.now) (⟦<SliceSink<'b> as TextSink>⟧.room self.old) →
            IsOk result × (⟦<SliceSink<'b> as TextSink>⟧.room self.new
            ≡ room_after (length bytes.now) (⟦<SliceSink<'b> as TextSink>⟧.room self.old)) }
    {
        let Some(end) = self.len.checked_add(bytes.len()) else {
            self.failed = true;
            return Err(SinkRefused);
        };
        // Most sinks begin with the text and have room for all of it, so only that is inlined.
        if self.start > 0 {
            write_part(self.out, self.start, self.len, bytes);
        } else if end <= self.out.len() {
            write_whole(self.out, self.len, bytes);
        } else if self.len < self.out.len() {
            write_at(self.out, self.len, bytes);
        }
        self.len = end;
        Ok(())
    }
}

/// Writes bytes to the slice from a place, after which it has room for all of them.
#[inline(always)]
fn write_whole(out: &mut [u8], place: usize, bytes: &[u8])
    requires { place + length bytes.now ≤ length out.old }
    ensures { out.new ≡ overlay_from place out.old bytes.now }
{
    copy_piece(bytes, &mut out[place..place + bytes.len()]);
}

/// Writes the bytes of a text after its first `len` ones, as far as the slice reaches. The slice
/// begins with byte `start` of the text.
#[inline(never)]
fn write_part(out: &mut [u8], start: usize, len: usize, bytes: &[u8])
    ensures { out.new ≡ overlay_from (len - start) out.old (drop (start - len) bytes.now) }
{
    if start <= len {
        write_at(out, len - start, bytes);
    } else {
        write_from(out, start - len, bytes);
    }
}

/// Writes the bytes after the first `before` ones to the start of the slice, as far as it reaches.
fn write_from(out: &mut [u8], before: usize, bytes: &[u8])
    ensures { out.new ≡ overlay out.old (drop before bytes.now) }
{
    write_at(out, 0, &bytes[before.min(bytes.len())..]);
}

/// Writes bytes to the slice from a place, as far as it reaches.
#[inline(never)]
fn write_at(out: &mut [u8], place: usize, bytes: &[u8])
    ensures { out.new ≡ overlay_from place out.old bytes.now }
{
    if place < out.len() {
        let kept = bytes.len().min(out.len() - place);
        copy_piece(&bytes[..kept], &mut out[place..place + kept]);
    }
}

/// Copies a piece to memory of its size.
// Many pieces, such as `::`, have one or two bytes. They need no call of the C library.
#[inline(always)]
fn copy_piece(piece: &[u8], room: &mut [u8])
    requires { length room.old ≡ length piece.now }
    ensures { room.new ≡ piece.now }
{
    match piece {
        [byte] => room[0] = *byte,
        [first, second] => {
            room[0] = *first;
            room[1] = *second;
        }
        _ => room.copy_from_slice(piece),
    }
}

impl<'b> TextSink for SliceSink<'b> {
    ghost took = { λ s bytes t. (t.out.ghost_name ≡ s.out.ghost_name) × (t.start ≡ s.start)
        × WrittenPart s.start s.out.now s.len bytes t.out.now t.len };

    ghost failed = { λ s. s.failed };

    ghost room = { λ s. Some (MAX - s.len) };

    ghost keeps = { true };

    ghost held = { λ s. held_text s.start s.len s.out.now };

    #[inline(always)]
    fn put(&mut self, s: &str) -> Result<(), SinkRefused> {
        self.put_bytes(s.as_bytes())
    }

    #[inline(always)]
    fn can_copy(&self) -> bool {
        true
    }

    #[inline(always)]
    fn held_len(&self) -> Option<usize> {
        if self.start > 0 || self.len > self.out.len() {
            return None;
        }
        Some(self.len)
    }

    fn put_again(&mut self, start: usize, len: usize) -> bool {
        let Some(place) = self.held_len() else {
            return false;
        };
        if len > self.out.len() - place {
            return false;
        }
        self.out.copy_within(start..start + len, place);
        self.len = place + len;
        true
    }

    fn is_failed(&self) -> bool {
        self.failed
    }

    ghost took_nothing = { λ s. (refl, refl, WrittenPart-nothing s.start s.out.now s.len) };

    ghost took_joined = { λ s t u xs ys h k.
        (k.0 ∙ h.0, k.1 ∙ h.1, WrittenPart-joined _ _ _ _ _ _ _ _ xs ys h.1 h.2 k.2) };
}
