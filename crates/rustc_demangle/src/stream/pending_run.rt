//! Filters bytes that arrive in chunks. Plain text and finished candidates are written, and an
//! unfinished candidate is buffered.
ghost use Rattle.std.specs.Prelude.{◌≡◌, ◌∷◌, ◌++◌, ◌+◌, ◌-◌, ◌*◌, ◌<◌, ◌≤◌, ℕ, List, [], true, false, drop, length, IsTrue, IfOk, OnOk, IfErr};
ghost use Rattle.std.specs.List.{list_all};
ghost use Rattle.std.specs.Io.KnownBytes.{Appends};
ghost use Rattle.demangle_value.specs.Filtered.{is_run_byte, starts_run};
ghost use Rattle.rustc_demangle.specs.LinearLooks.{LooksGrow, LooksLinear, LooksPaid, NoLooksUnread};
ghost use Rattle.rustc_demangle.specs.Rewritten.{before_after, starts_candidate, replacement_of, rewritten_after};
ghost use Rattle.rustc_demangle.specs.ByteStream.{unwritten, SplitsNoCandidate, IsPartialRun, IsPartialCandidate, FilteredChunkPrefix, IsWriting, ChunkFailed};

use crate::byte_before::ByteBefore;
use crate::runs::{may_be_replaced, run_len, run_start, run_text};
use crate::stream::fault::StreamFault;
use crate::stream::memo::SymbolMemo;
use demangle_symbol::cursor::RunLooks;
use std::alloc::Allocator;
use std::io::Write;
use text_memo::Comparisons;

/// The bytes that a filter read and has not written.
#[derive(Drop)]
pub(super) struct Pending<A: Allocator> {
    /// What is before them.
    pub(super) before: ByteBefore,
    pub(super) bytes: Vec<u8, A>,
}

/// Writes bytes with one call of the writer, or with none if there are no bytes. Fails if the
/// writer fails.
fn write_unchanged<W: Write>(bytes: &[u8], output: &mut W) -> Result<(), StreamFault>
    ensures ok { OnOk result (Appends (W.contents output.old) (W.contents output.new) bytes.now) }
    ensures named { IfErr result IsWriting }
{
    if bytes.is_empty() {
        return Ok(());
    }
    match output.write_all(bytes) {
        Ok(()) => Ok(()),
        Err(error) => Err(StreamFault::Write(error)),
    }
}

impl SymbolMemo {
    /// Writes the replacement of a candidate, and counts its looks. Fails if the writer fails.
    #[inline(always)]
    fn write_candidate<W: Write>(
        &mut self,
        candidate: &[u8],
        output: &mut W,
        looks: &mut RunLooks,
    ) -> Result<(), StreamFault>
        requires all { list_all is_run_byte candidate.now ≡ true }
        requires some { 0 < length candidate.now }
        ensures ok { OnOk result (Appends (W.contents output.old) (W.contents output.new)
            (replacement_of self.old candidate.now)) }
        ensures named { IfErr result IsWriting }
        ensures same { self.new ≡ self.old }
        ensures grows { LooksGrow looks.old looks.new }
        ensures linear { LooksLinear self.old (length candidate.now) looks.old looks.new }
    {
        if !may_be_replaced(candidate) {
            return write_unchanged(candidate, output);
        }
        match self.write_run(run_text(candidate), output, &mut Comparisons::new(), looks) {
            Ok(()) => Ok(()),
            Err(error) => Err(StreamFault::Write(error)),
        }
    }
}

/// Appends bytes to the pending text. Fails if memory can't be allocated, and then leaves it
/// unchanged.
fn buffer_bytes<A: Allocator>(pending: &mut Vec<u8, A>, bytes: &[u8]) -> Result<(), StreamFault>
    ensures ok { OnOk result (pending.new.items ≡ pending.old.items ++ bytes.now) }
    ensures err { IfErr result (λ fault. (fault ≡ StreamFault.Memory)
        × (pending.new.items ≡ pending.old.items)) }
{
    if pending.extend_from_slice(bytes).is_err() {
        return Err(StreamFault::Memory);
    }
    Ok(())
}

/// Returns how many bytes at the end of a text may start a run that the next chunk continues. The
/// text must contain no start of a run.
fn partial_prefix_len(text: &[u8]) -> usize
    ensures bound { result ≤ length text.now }
    ensures pending { IsPartialRun (drop (length text.now - result) text.now) }
    ensures uncut { ((k : ℕ) → k < length text.now → starts_run (drop k text.now) ≡ false)
        → (more : List ℕ) → (k : ℕ) → k < length text.now - result
        → starts_run (drop k text.now ++ more) ≡ false }
{
    if text.ends_with(b"_") {
        1
    } else if text.ends_with(b"_Z") {
        2
    } else {
        0
    }
}

/// Returns whether pending bytes that are no candidate may still start one when this byte follows.
fn extends_prefix(before: ByteBefore, pending: &[u8], byte: u8) -> bool
    requires partial { IsPartialCandidate (unwritten before pending.now) }
    requires some { 0 < length pending.now }
    requires none { starts_candidate before pending.now ≡ false }
    ensures on { IsTrue result → IsPartialCandidate (unwritten before (pending.now ++ byte ∷ [])) }
    ensures off { result ≡ false → (more : List ℕ) →
        SplitsNoCandidate before pending.now (byte ∷ more) }
{
    let last = pending[pending.len() - 1];
    if last == b'Z' {
        byte == b'N'
    } else {
        let may_take = (byte == b'_') & (pending.len() == 1) & before.is_outside();
        (byte == b'R') | (byte == b'Z') | may_take
    }
}

impl<A: Allocator> Pending<A> {
    /// Writes the filtered form of the pending text, which is complete. Clears the text, even if
    /// the writer fails.
    pub(super) fn finish<W: Write>(
        &mut self,
        output: &mut W,
        memo: &mut SymbolMemo,
        looks: &mut RunLooks,
    ) -> Result<(), StreamFault>
        requires { IsPartialCandidate (unwritten self.old.before self.old.bytes.items) }
        ensures ok { OnOk result (Appends (W.contents output.old) (W.contents output.new)
            (rewritten_after memo.old self.old.before self.old.bytes.items)) }
        ensures named { IfErr result IsWriting }
        ensures none { self.new.bytes.items ≡ [] }
        ensures last { self.new.before ≡ before_after self.old.before self.old.bytes.items }
        ensures same { memo.new ≡ memo.old }
        ensures grows { LooksGrow looks.old looks.new }
        ensures linear { LooksLinear memo.old (length self.old.bytes.items) looks.old looks.new }
    {
        let before = self.before;
        let text = self.bytes.as_slice();
        let written = if before.starts_candidate(text) {
            memo.write_candidate(text, output, looks)
        } else {
            write_unchanged(text, output)
        };
        self.before = before.after(text);
        self.bytes.clear();
        written
    }

    /// Appends one byte to pending bytes that are no candidate and returns 1, if they may still
    /// start one. Otherwise writes the pending bytes as plain text and returns 0. Fails if the
    /// writer fails or memory can't be allocated.
    fn extend_prefix<W: Write>(
        &mut self,
        available: &[u8],
        output: &mut W,
        memo: &mut SymbolMemo,
        looks: &mut RunLooks,
    ) -> Result<usize, StreamFault>
        requires some { 0 < length available.now }
        requires partial { IsPartialCandidate (unwritten self.old.before self.old.bytes.items) }
        requires begun { 0 < length self.old.bytes.items }
        requires none { starts_candidate self.old.before self.old.bytes.items ≡ false }
        ensures bound { IfOk result (λ n. n ≤ length available.now) }
        ensures pending { IsPartialCandidate (unwritten self.new.before self.new.bytes.items) }
        ensures less { IfOk result (λ n.
            length self.new.bytes.items < length self.old.bytes.items + 2 * n) }
        ensures ok { IfOk result (λ n. FilteredChunkPrefix (rewritten_after memo.old)
            (unwritten self.old.before self.old.bytes.items) available.now
            (unwritten self.new.before self.new.bytes.items) n
            (W.contents output.old) (W.contents output.new)) }
        ensures err { IfErr result (λ fault. ChunkFailed fault
            (unwritten self.old.before self.old.bytes.items)
            (unwritten self.new.before self.new.bytes.items)
            (W.contents output.old) (W.contents output.new)) }
        ensures same { memo.new ≡ memo.old }
        ensures grows { LooksGrow looks.old looks.new }
        ensures paid { IfOk result (λ n. LooksPaid memo.old (length self.old.bytes.items + n)
            (length self.new.bytes.items) looks.old looks.new) }
        ensures lost { LooksLinear memo.old (length self.old.bytes.items + length available.now) looks.old
            looks.new }
        ensures unread { IfErr result (λ fault. NoLooksUnread fault looks.old looks.new) }
    {
        if extends_prefix(self.before, self.bytes.as_slice(), available[0]) {
            buffer_bytes(&mut self.bytes, &available[..1])?;
            return Ok(1);
        }
        self.finish(output, memo, looks)?;
        Ok(0)
    }

    /// Appends the bytes that continue the pending candidate, and returns their number. Writes the
    /// candidate's replacement if it ends before the chunk does. Fails if the writer fails or
    /// memory can't be allocated.
    fn extend_candidate<W: Write>(
        &mut self,
        available: &[u8],
        output: &mut W,
        memo: &mut SymbolMemo,
        looks: &mut RunLooks,
    ) -> Result<usize, StreamFault>
        requires some { 0 < length available.now }
        requires begun { starts_candidate self.old.before self.old.bytes.items ≡ true }
        requires all { list_all is_run_byte self.old.bytes.items ≡ true }
        ensures bound { IfOk result (λ n. n ≤ length available.now) }
        ensures pending { IsPartialCandidate (unwritten self.new.before self.new.bytes.items) }
        ensures less { IfOk result (λ n.
            length self.new.bytes.items < length self.old.bytes.items + 2 * n) }
        ensures ok { IfOk result (λ n. FilteredChunkPrefix (rewritten_after memo.old)
            (unwritten self.old.before self.old.bytes.items) available.now
            (unwritten self.new.before self.new.bytes.items) n
            (W.contents output.old) (W.contents output.new)) }
        ensures err { IfErr result (λ fault. ChunkFailed fault
            (unwritten self.old.before self.old.bytes.items)
            (unwritten self.new.before self.new.bytes.items)
            (W.contents output.old) (W.contents output.new)) }
        ensures same { memo.new ≡ memo.old }
        ensures grows { LooksGrow looks.old looks.new }
        ensures paid { IfOk result (λ n. LooksPaid memo.old (length self.old.bytes.items + n)
            (length self.new.bytes.items) looks.old looks.new) }
        ensures lost { LooksLinear memo.old (length self.old.bytes.items + length available.now) looks.old
            looks.new }
        ensures unread { IfErr result (λ fault. NoLooksUnread fault looks.old looks.new) }
    {
        let len = run_len(available);
        buffer_bytes(&mut self.bytes, &available[..len])?;
        if len < available.len() {
            self.finish(output, memo, looks)?;
        }
        Ok(len)
    }

    /// Filters a chunk when nothing is pending, and returns how many bytes it used.
    ///
    /// Writes everything up to the end of the first candidate. If the chunk ends inside a
    /// candidate, or may end with the start of one, that part becomes pending. The text before it
    /// is written. Fails if the writer fails or memory can't be allocated.
    fn filter_text<W: Write>(
        &mut self,
        available: &[u8],
        output: &mut W,
        memo: &mut SymbolMemo,
        looks: &mut RunLooks,
    ) -> Result<usize, StreamFault>
        requires some { 0 < length available.now }
        requires none { self.old.bytes.items ≡ [] }
        ensures bound { IfOk result (λ n. n ≤ length available.now) }
        ensures pending { IsPartialCandidate (unwritten self.new.before self.new.bytes.items) }
        ensures less { IfOk result (λ n.
            length self.new.bytes.items < length self.old.bytes.items + 2 * n) }
        ensures ok { IfOk result (λ n. FilteredChunkPrefix (rewritten_after memo.old)
            (unwritten self.old.before self.old.bytes.items) available.now
            (unwritten self.new.before self.new.bytes.items) n
            (W.contents output.old) (W.contents output.new)) }
        ensures err { IfErr result (λ fault. ChunkFailed fault
            (unwritten self.old.before self.old.bytes.items)
            (unwritten self.new.before self.new.bytes.items)
            (W.contents output.old) (W.contents output.new)) }
        ensures same { memo.new ≡ memo.old }
        ensures grows { LooksGrow looks.old looks.new }
        ensures paid { IfOk result (λ n. LooksPaid memo.old (length self.old.bytes.items + n)
            (length self.new.bytes.items) looks.old looks.new) }
        ensures lost { LooksLinear memo.old (length self.old.bytes.items + length available.now) looks.old
            looks.new }
        ensures unread { IfErr result (λ fault. NoLooksUnread fault looks.old looks.new) }
    {
        let before = self.before;
        let Some(start) = run_start(available) else {
            let place = available.len() - partial_prefix_len(available);
            let (kept, beginning) = available.split_at(before.plain_len(&available[..place]));
            // Buffered before anything is written. If memory can't be allocated, the caller can
            // repeat the step.
            buffer_bytes(&mut self.bytes, beginning)?;
            self.before = before.after(kept);
            write_unchanged(kept, output)?;
            return Ok(available.len());
        };
        let (kept, found) = available.split_at(before.plain_len(&available[..start]));
        let len = run_len(found);
        if len == found.len() {
            buffer_bytes(&mut self.bytes, found)?;
            self.before = before.after(kept);
            write_unchanged(kept, output)?;
            return Ok(available.len());
        }
        write_unchanged(kept, output)?;
        let candidate = &found[..len];
        memo.write_candidate(candidate, output, looks)?;
        self.before = ByteBefore::Inside;
        Ok(kept.len() + len)
    }

    /// Filters a prefix of the available bytes, and returns its length. Writes all that is certain;
    /// an unfinished candidate stays pending. Fails if the writer fails or memory can't be
    /// allocated.
    pub(super) fn filter_chunk<W: Write>(
        &mut self,
        available: &[u8],
        output: &mut W,
        memo: &mut SymbolMemo,
        looks: &mut RunLooks,
    ) -> Result<usize, StreamFault>
        requires some { 0 < length available.now }
        requires pending { IsPartialCandidate (unwritten self.old.before self.old.bytes.items) }
        ensures bound { IfOk result (λ n. n ≤ length available.now) }
        ensures pending { IsPartialCandidate (unwritten self.new.before self.new.bytes.items) }
        ensures less { IfOk result (λ n.
            length self.new.bytes.items < length self.old.bytes.items + 2 * n) }
        ensures ok { IfOk result (λ n. FilteredChunkPrefix (rewritten_after memo.old)
            (unwritten self.old.before self.old.bytes.items) available.now
            (unwritten self.new.before self.new.bytes.items) n
            (W.contents output.old) (W.contents output.new)) }
        ensures err { IfErr result (λ fault. ChunkFailed fault
            (unwritten self.old.before self.old.bytes.items)
            (unwritten self.new.before self.new.bytes.items)
            (W.contents output.old) (W.contents output.new)) }
        ensures same { memo.new ≡ memo.old }
        ensures grows { LooksGrow looks.old looks.new }
        ensures paid { IfOk result (λ n. LooksPaid memo.old (length self.old.bytes.items + n)
            (length self.new.bytes.items) looks.old looks.new) }
        ensures lost { LooksLinear memo.old (length self.old.bytes.items + length available.now) looks.old
            looks.new }
        ensures unread { IfErr result (λ fault. NoLooksUnread fault looks.old looks.new) }
    {
        if self.bytes.is_empty() {
            return self.filter_text(available, output, memo, looks);
        }
        if self.before.starts_candidate(self.bytes.as_slice()) {
            return self.extend_candidate(available, output, memo, looks);
        }
        self.extend_prefix(available, output, memo, looks)
    }
}
