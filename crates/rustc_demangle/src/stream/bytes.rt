//! Demangles any bytes that come from a reader.
ghost use Rattle.std.specs.Prelude.{◌≡◌, ◌+◌, length, [], true, false, Ok, Some, IfSome, OnOk, IfErr};
ghost use Rattle.std.specs.Io.KnownBytes.{Appends};
ghost use Rattle.rustc_demangle.specs.Rewritten.{rewritten, rewritten_after, rewritten_in, rewritten_within};
ghost use Rattle.demangle_value.specs.Symbols.{bounded_within, linear};
ghost use Rattle.rustc_demangle.specs.ByteStream.{Unwritten, unwritten, from_start, IsPartialCandidate, StepFiltered, StepFinished, StepFailed, BytesStopped};
ghost use Rattle.rustc_demangle.specs.LinearLooks.{LooksGrow, LooksLinear, NoLooksUnread, StepPaid};

use crate::byte_before::ByteBefore;
use crate::stream::fault::{StreamFault, read_fault};
use crate::stream::memo::SymbolMemo;
use crate::stream::pending_run::Pending;
use demangle_symbol::cursor::RunLooks;
use demangle_value::format::{Format, SizeLimit, unfolded_form};
use std::alloc::{Allocator, Global};
use std::io;
use std::io::{BufRead, Write};
use std::marker::Model;

/// A filter of any bytes. It buffers the unfinished candidate at the end of the bytes so far.
#[derive(Drop)]
pub struct BytesFilter<A: Allocator> {
    pending: Pending<A>,
}

impl<A: Allocator> Model for BytesFilter<A> {
    ghost use Rattle.rustc_demangle.specs.ByteStream.{Unwritten, unwritten, IsPartialCandidate};

    ghost Value = { Unwritten };

    ghost view = { λ filter. unwritten filter.pending.before filter.pending.bytes.items };

    ghost invariant = { λ filter.
        IsPartialCandidate (unwritten filter.pending.before filter.pending.bytes.items) };
}

impl<A: Allocator> BytesFilter<A> {
    /// Returns a filter that has read no bytes.
    pub fn new(alloc: A) -> Self
        ensures { result ≡ from_start [] }
    {
        BytesFilter {
            pending: Pending {
                before: ByteBefore::Outside,
                bytes: Vec::new(alloc),
            },
        }
    }

    /// Filters some of the reader's available bytes, and writes what is certain. Returns `false` at
    /// the end of the input, after the pending bytes are written. The filter is then as a new one,
    /// and may read another input. The memo determines how symbols are printed, and remembers their
    /// texts.
    ///
    /// The looks are counted. With a linear limit of the bytes that are read again, the looks of
    /// all steps that succeed are at most 23,586 for each byte that was read.
    ///
    /// # Errors
    ///
    /// Fails if the reader or the writer fails, or if memory can't be allocated. If the reader or
    /// an allocation fails, nothing is consumed, nothing is written and no look is made. The caller
    /// can then repeat the step, for example after an interrupted read.
    pub fn step_counted<R: BufRead, W: Write>(
        &mut self,
        input: &mut R,
        output: &mut W,
        memo: &mut SymbolMemo,
        looks: &mut RunLooks,
    ) -> Result<bool, StreamFault>
        ensures took { result ≡ Ok true → StepFiltered (rewritten_after memo.old)
            self.old self.new (R.remaining input.old) (R.remaining input.new)
            (W.contents output.old) (W.contents output.new) }
        ensures ended { result ≡ Ok false → StepFinished (rewritten_after memo.old)
            self.old self.new (R.remaining input.old) (R.remaining input.new)
            (W.contents output.old) (W.contents output.new) }
        ensures refused { IfErr result (λ fault. StepFailed fault self.old self.new
            (R.remaining input.old) (R.remaining input.new)
            (W.contents output.old) (W.contents output.new)) }
        ensures same { memo.new ≡ memo.old }
        ensures grows { LooksGrow looks.old looks.new }
        ensures unread { IfErr result (λ fault. NoLooksUnread fault looks.old looks.new) }
        ensures linear { IfSome (R.remaining input.old) (λ left.
            LooksLinear memo.old (length self.old.bytes + length left) looks.old looks.new) }
        ensures paid { OnOk result (StepPaid memo.old self.old self.new (R.remaining input.old)
            (R.remaining input.new) looks.old looks.new) }
    {
        let available = match input.fill_buf() {
            Ok(available) => available,
            Err(error) => return Err(read_fault(error)),
        };
        if available.is_empty() {
            self.pending.finish(output, memo, looks)?;
            self.pending.before = ByteBefore::Outside;
            return Ok(false);
        }
        let taken = self.pending.filter_chunk(available, output, memo, looks)?;
        input.consume(taken);
        Ok(true)
    }

    /// Filters some of the reader's available bytes, as `step_counted` does.
    ///
    /// # Errors
    ///
    /// Fails as `step_counted` does.
    pub fn step<R: BufRead, W: Write>(
        &mut self,
        input: &mut R,
        output: &mut W,
        memo: &mut SymbolMemo,
    ) -> Result<bool, StreamFault>
        ensures took { result ≡ Ok true → StepFiltered (rewritten_after memo.old)
            self.old self.new (R.remaining input.old) (R.remaining input.new)
            (W.contents output.old) (W.contents output.new) }
        ensures ended { result ≡ Ok false → StepFinished (rewritten_after memo.old)
            self.old self.new (R.remaining input.old) (R.remaining input.new)
            (W.contents output.old) (W.contents output.new) }
        ensures refused { IfErr result (λ fault. StepFailed fault self.old self.new
            (R.remaining input.old) (R.remaining input.new)
            (W.contents output.old) (W.contents output.new)) }
        ensures same { memo.new ≡ memo.old }
    {
        self.step_counted(input, output, memo, &mut RunLooks::new())
    }
}

/// Writes the input, which may be any bytes, with each symbol of it demangled. Each symbol is cut
/// at `limit` bytes before its suffix. It is also cut where its references would make a print read
/// more than 384 bytes again for each of its own, or more than 384,000,000.
///
/// A candidate symbol, or run, starts with `_ZN` or `_R`. It continues up to the next byte that is
/// not an ASCII letter, a digit, `$`, `.` or `_`. A run that is not a symbol is written unchanged,
/// and so is one that begins with `_RC`. A path also replaces a single `_` before its run, if that
/// `_` is the first byte or follows a byte that no run may have.
///
/// The input is read in the reader's chunks and not by lines. The bytes of a chunk between two runs
/// are one write. Memory holds the unfinished run at the end of the bytes so far, and a
/// `SymbolMemo`. So each symbol is one write. If it prints more than 2,048 bytes, it is written in
/// parts if `limit` is over 1,000,000, or if memory for it can't be allocated.
///
/// # Errors
///
/// Fails if the reader or the writer fails, or if memory for the run can't be allocated. It never
/// fails because the bytes are not UTF-8. It never fails because memory for the memo can't be
/// allocated.
pub fn demangle_bytes_limited<R: BufRead, W: Write>(
    alloc: Global,
    input: &mut R,
    output: &mut W,
    include_hash: bool,
    limit: usize,
) -> Result<(), StreamFault>
    ensures ok { OnOk result (IfSome (R.remaining input.old) (λ text.
        (R.remaining input.new ≡ Some []) × Appends (W.contents output.old) (W.contents output.new)
        (rewritten_within include_hash limit text))) }
    ensures err { IfErr result (λ fault. IfSome (R.remaining input.old) (λ text.
        BytesStopped (rewritten_after (bounded_within include_hash limit)) fault (from_start text)
        (W.contents output.old) (W.contents output.new))) }
{
    let limit = SizeLimit::Bytes(limit);
    let format = Format::bounded(unfolded_form(include_hash), limit);
    demangle_bytes_formatted(alloc, input, output, format)
}

/// Writes the input, which may be any bytes, with each symbol of it demangled, as
/// `demangle_bytes_limited` does. The memo determines how symbols are printed, and remembers their
/// texts.
///
/// The looks are counted. With a linear limit of the bytes that are read again, the looks are at
/// most 23,586 for each byte of the input, whatever the chunks of the reader are.
pub fn demangle_bytes_counted<R: BufRead, W: Write>(
    input: &mut R,
    output: &mut W,
    memo: &mut SymbolMemo,
    looks: &mut RunLooks,
) -> Result<(), StreamFault>
    ensures ok { OnOk result (IfSome (R.remaining input.old) (λ text.
        (R.remaining input.new ≡ Some []) × Appends (W.contents output.old) (W.contents output.new)
        (rewritten_in memo.old text))) }
    ensures err { IfErr result (λ fault. IfSome (R.remaining input.old) (λ text.
        BytesStopped (rewritten_after memo.old) fault (from_start text)
        (W.contents output.old) (W.contents output.new))) }
    ensures same { memo.new ≡ memo.old }
    ensures grows { LooksGrow looks.old looks.new }
    ensures linear { IfSome (R.remaining input.old) (λ text.
        LooksLinear memo.old (length text) looks.old looks.new) }
{
    let mut filter = BytesFilter::new(memo.allocator());
    for _ in 0..=u64::MAX {
        if !filter.step_counted(input, output, memo, looks)? {
            return Ok(());
        }
    }
    Err(StreamFault::Read(io::Error::other("too many steps")))
}

/// Writes the input with each symbol of it demangled in a format, as `demangle_bytes_counted` does.
pub fn demangle_bytes_formatted<R: BufRead, W: Write>(
    alloc: Global,
    input: &mut R,
    output: &mut W,
    format: Format,
) -> Result<(), StreamFault>
    ensures ok { OnOk result (IfSome (R.remaining input.old) (λ text.
        (R.remaining input.new ≡ Some []) × Appends (W.contents output.old) (W.contents output.new)
        (rewritten_in format text))) }
    ensures err { IfErr result (λ fault. IfSome (R.remaining input.old) (λ text.
        BytesStopped (rewritten_after format) fault (from_start text)
        (W.contents output.old) (W.contents output.new))) }
{
    let mut memo = SymbolMemo::with_format(alloc, format);
    demangle_bytes_counted(input, output, &mut memo, &mut RunLooks::new())
}

/// Writes the input, which may be any bytes, with each symbol of it demangled, as
/// `demangle_bytes_limited` does. A symbol of n bytes is cut at 999 n - 20 bytes, and at 1,000,000
/// at most. So the output has at most 1,000 bytes for each byte of the input.
pub fn demangle_bytes<R: BufRead, W: Write>(
    alloc: Global,
    input: &mut R,
    output: &mut W,
    include_hash: bool,
) -> Result<(), StreamFault>
    ensures ok { OnOk result (IfSome (R.remaining input.old) (λ text.
        (R.remaining input.new ≡ Some []) × Appends (W.contents output.old) (W.contents output.new)
        (rewritten include_hash text))) }
    ensures err { IfErr result (λ fault. IfSome (R.remaining input.old) (λ text.
        BytesStopped (rewritten_after (linear include_hash)) fault (from_start text)
        (W.contents output.old) (W.contents output.new))) }
{
    let format = Format::bounded(unfolded_form(include_hash), SizeLimit::Linear);
    demangle_bytes_formatted(alloc, input, output, format)
}
