//! Demangles the symbols of any bytes in memory.
ghost use Rattle.std.specs.Prelude.{◌≡◌, ◌<◌, length, true, false, IfSome, IfNone, IsOk, OnOk};
ghost use Rattle.std.specs.List.{list_all};
ghost use Rattle.demangle_sink.specs.Sink.{IsWithin};
ghost use Rattle.demangle_sink.specs.Slice.{overlay};
ghost use Rattle.demangle_value.specs.Filtered.{is_run_byte};
ghost use Rattle.rustc_demangle.specs.LinearLooks.{LooksGrow, LooksLinear};
ghost use Rattle.rustc_demangle.specs.Rewritten.{replacement_of, rewritten_in, rewritten_within};
ghost use Rattle.rustc_demangle.specs.PutsText.{PutsText};

use crate::byte_before::plain_len;
use crate::runs::{may_be_replaced, run_len, run_start, run_text};
use crate::text::put_run;
use demangle_sink::{SinkRefused, SliceSink, TextSink};
use demangle_symbol::cursor::RunLooks;
use demangle_value::format::{Format, SizeLimit, unfolded_form};

/// Writes the replacement of a candidate, and counts its looks. Fails if the sink fails.
fn put_candidate<'b>(
    candidate: &[u8],
    out: &mut SliceSink<'b>,
    format: Format,
    looks: &mut RunLooks,
) -> Result<(), SinkRefused>
    requires run { list_all is_run_byte candidate.now ≡ true }
    requires not_failed { ⟦<SliceSink<'b> as TextSink>⟧.failed out.old ≡ false }
    ensures text { PutsText ⟦<SliceSink<'b> as TextSink>⟧ out.old
        (replacement_of format candidate.now) result out.new }
    ensures grows { LooksGrow looks.old looks.new }
    ensures linear { 0 < length candidate.now →
        LooksLinear format (length candidate.now) looks.old looks.new }
{
    if !may_be_replaced(candidate) {
        return out.put_bytes(candidate);
    }
    put_run(run_text(candidate), out, format, looks)
}

/// Writes bytes, which need not be UTF-8, with each symbol of them demangled, and counts its looks.
/// Fails if the sink fails.
fn put_slice<'b>(
    text: &[u8],
    out: &mut SliceSink<'b>,
    format: Format,
    looks: &mut RunLooks,
) -> Result<(), SinkRefused>
    requires { ⟦<SliceSink<'b> as TextSink>⟧.failed out.old ≡ false }
    ensures text { OnOk result (⟦<SliceSink<'b> as TextSink>⟧.took out.old
        (rewritten_in format text.now) out.new) }
    ensures fits { IsWithin (length (rewritten_in format text.now))
        (⟦<SliceSink<'b> as TextSink>⟧.room out.old) → IsOk result }
    ensures grows { LooksGrow looks.old looks.new }
    ensures linear { LooksLinear format (length text.now) looks.old looks.new }
{
    let mut rest = text;
    while let Some(start) = run_start(rest) {
        let (kept, found) = rest.split_at(plain_len(&rest[..start]));
        let (candidate, following) = found.split_at(run_len(found));
        out.put_bytes(kept)?;
        put_candidate(candidate, out, format, looks)?;
        rest = following;
    }
    out.put_bytes(rest)
}

/// Writes any bytes into memory, with each symbol demangled, and counts its looks. Returns their
/// size, or `None` if it exceeds `usize::MAX`.
fn write_slice(text: &[u8], out: &mut [u8], format: Format, looks: &mut RunLooks) -> Option<usize>
    ensures size { IfSome result (λ n. n ≡ length (rewritten_in format text.now)) }
    ensures bytes { IfSome result
        (λ _. out.new ≡ overlay out.old (rewritten_in format text.now)) }
    ensures none { IfNone result (usize.MAX < length (rewritten_in format text.now)) }
    ensures grows { LooksGrow looks.old looks.new }
    ensures linear { LooksLinear format (length text.now) looks.old looks.new }
{
    let mut sink = SliceSink::new(out);
    match put_slice(text, &mut sink, format, looks) {
        Ok(()) => Some(sink.len()),
        Err(_) => None,
    }
}

/// Writes any bytes into memory with each symbol of them demangled, as far as there is room.
/// Returns the size of the complete output, including the bytes for which there was no room.
///
/// Symbols are found and cut as by `demangle_bytes_limited`. All other bytes are written unchanged.
/// The size does not depend on the size of the memory. The memory after the written bytes stays
/// unchanged. It does not allocate.
///
/// Returns `None` if the size exceeds `usize::MAX`.
pub fn demangle_slice(
    text: &[u8],
    out: &mut [u8],
    include_hash: bool,
    limit: usize,
) -> Option<usize>
    ensures size { IfSome result (λ n. n ≡ length (rewritten_within include_hash limit text.now)) }
    ensures bytes { IfSome result
        (λ _. out.new ≡ overlay out.old (rewritten_within include_hash limit text.now)) }
    ensures none { IfNone result
        (usize.MAX < length (rewritten_within include_hash limit text.now)) }
{
    let limit = SizeLimit::Bytes(limit);
    let format = Format::bounded(unfolded_form(include_hash), limit);
    demangle_slice_formatted(text, out, format)
}

/// Writes any bytes into memory with each symbol of them demangled in a format, as
/// `demangle_slice_counted` does.
pub fn demangle_slice_formatted(text: &[u8], out: &mut [u8], format: Format) -> Option<usize>
    ensures size { IfSome result (λ n. n ≡ length (rewritten_in format text.now)) }
    ensures bytes { IfSome result (λ _. out.new ≡ overlay out.old (rewritten_in format text.now)) }
    ensures none { IfNone result (usize.MAX < length (rewritten_in format text.now)) }
{
    demangle_slice_counted(text, out, format, &mut RunLooks::new())
}

/// Writes any bytes into memory with each symbol of them demangled in a format, as `demangle_slice`
/// does. Returns the size of the complete output, or `None` if it exceeds `usize::MAX`.
///
/// The looks are counted. With a linear limit of the bytes that are read again, the looks are at
/// most 23,586 for each byte of the text.
pub fn demangle_slice_counted(
    text: &[u8],
    out: &mut [u8],
    format: Format,
    looks: &mut RunLooks,
) -> Option<usize>
    ensures size { IfSome result (λ n. n ≡ length (rewritten_in format text.now)) }
    ensures bytes { IfSome result (λ _. out.new ≡ overlay out.old (rewritten_in format text.now)) }
    ensures none { IfNone result (usize.MAX < length (rewritten_in format text.now)) }
    ensures grows { LooksGrow looks.old looks.new }
    ensures linear { LooksLinear format (length text.now) looks.old looks.new }
{
    write_slice(text, out, format, looks)
}
