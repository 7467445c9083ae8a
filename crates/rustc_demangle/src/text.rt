//! Demangles the symbols of a text in memory.
ghost use Rattle.std.specs.Prelude.{◌≡◌, ◌<◌, length, true, false, OnOk};
ghost use Rattle.std.specs.List.{list_all};
ghost use Rattle.demangle_sink.specs.PutsPieces.{PutsPieces};
ghost use Rattle.demangle_sink.specs.Writes.{Writes};
ghost use Rattle.demangle_value.specs.Filtered.{filtered, is_run_byte};
ghost use Rattle.rustc_demangle.specs.LinearLooks.{LooksGrow, LooksLinear};
ghost use Rattle.rustc_demangle.specs.TextPieces.{run_pieces, filtered_pieces, filtered_pieces_in};
ghost use Rattle.demangle_value.specs.Limits.{most_bytes};

use crate::runs::{run_len, run_start};
use demangle_sink::{SinkRefused, TextSink, put_piece};
use demangle_symbol::cursor::RunLooks;
use demangle_value::format::{Format, MAX_SIZE};
use demangle_value::value::printing::write_pieces;
use demangle_value::value::{has_style, read_run};

/// Writes the replacement of a run: the pieces of its symbol, or the run itself if it is not a
/// symbol. Counts its looks. Fails if the sink fails.
pub(crate) fn put_run<S: TextSink>(
    run: &str,
    out: &mut S,
    format: Format,
    looks: &mut RunLooks,
) -> Result<(), SinkRefused>
    requires run { list_all is_run_byte run.now ≡ true }
    requires not_failed { S.failed out.old ≡ false }
    ensures pieces { PutsPieces S.TextSink out.old (run_pieces format run.now) result out.new }
    ensures grows { LooksGrow looks.old looks.new }
    ensures linear { 0 < length run.now →
        LooksLinear format (length run.now) looks.old looks.new }
{
    let symbol = read_run(run, &mut looks.accepting_looks);
    if has_style(&symbol) {
        write_pieces(&symbol, out, format, &mut looks.printing_looks)
    } else {
        put_piece(run, out)
    }
}

/// Writes a text with each symbol of it demangled, in one pass over it. Fails if the sink fails.
fn put_text<S: TextSink>(text: &str, out: &mut S, format: Format) -> Result<(), SinkRefused>
    requires { S.failed out.old ≡ false }
    ensures { PutsPieces S.TextSink out.old (filtered_pieces_in format text.now) result out.new }
{
    let mut rest = text;
    while let Some(start) = run_start(rest.as_bytes()) {
        let (kept, found) = rest.split_at(start);
        let (run, following) = found.split_at(run_len(found.as_bytes()));
        put_piece(kept, out)?;
        put_run(run, out, format, &mut RunLooks::new())?;
        rest = following;
    }
    put_piece(rest, out)
}

/// Writes a text into a sink with each symbol of it demangled. Each symbol is cut at `limit` bytes
/// before its suffix, as by `Demangle::write_limited`.
///
/// A candidate symbol, or run, starts with `_ZN` or `_R`. It continues up to the next character
/// that is not an ASCII letter, a digit, `$`, `.` or `_`. A symbol that begins with `_RC` is replaced
/// too, unlike by `demangle_slice`. The text between two runs is one piece, and a run that is not a
/// symbol is another. Each piece is passed to the sink by one `put`. If the sink has room for all
/// pieces, the call succeeds. It does not allocate.
///
/// # Errors
///
/// Fails exactly if the sink failed during this call. The sink then gets no further piece. A sink
/// that keeps what it took holds the pieces before the rejected one.
pub fn demangle_text_limited<S: TextSink>(
    text: &str,
    out: &mut S,
    include_hash: bool,
    limit: usize,
) -> Result<(), SinkRefused>
    requires { S.failed out.old ≡ false }
    ensures { Writes S.TextSink out.old
        (filtered_pieces include_hash limit text.now) result out.new }
{
    let format = Format::unfolded(include_hash, limit);
    demangle_text_formatted(text, out, format)
}

/// Writes a text into a sink with each symbol of it demangled in a format, as
/// `demangle_text_limited` does.
pub fn demangle_text_formatted<S: TextSink>(
    text: &str,
    out: &mut S,
    format: Format,
) -> Result<(), SinkRefused>
    requires { S.failed out.old ≡ false }
    ensures { Writes S.TextSink out.old (filtered_pieces_in format text.now) result out.new }
{
    put_text(text, out, format)
}

/// Writes a text into a sink with each symbol of it demangled, as `demangle_text_limited` does.
/// Each symbol is cut at 1,000,000 bytes before its suffix.
pub fn demangle_text<S: TextSink>(
    text: &str,
    out: &mut S,
    include_hash: bool,
) -> Result<(), SinkRefused>
    requires { S.failed out.old ≡ false }
    ensures writes { Writes S.TextSink out.old
        (filtered_pieces include_hash most_bytes text.now) result out.new }
    ensures text { OnOk result (S.took out.old (filtered include_hash text.now) out.new) }
{
    demangle_text_limited(text, out, include_hash, MAX_SIZE)
}
