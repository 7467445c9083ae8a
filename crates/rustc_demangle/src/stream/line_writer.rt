//! Writes lines and runs with their symbols demangled.
ghost use Rattle.std.specs.Prelude.{◌≡◌, ◌+◌, ◌*◌, ◌≤◌, length, true, OnOk};
ghost use Rattle.std.specs.Io.KnownBytes.{Appends};
ghost use Rattle.std.specs.List.{concat, list_all};
ghost use Rattle.demangle_value.specs.Filtered.{filtered, is_run_byte, replacement_in};
ghost use Rattle.rustc_demangle.specs.LinearLooks.{LooksGrow};
ghost use Rattle.demangle_value.specs.LinearPrinting.{PrintsLinear};
ghost use Rattle.demangle_value.specs.Symbols.{PrintingLooksIn, handed_in};

use crate::text::demangle_text;
use demangle_sink::WriteSink;
use demangle_symbol::cursor::{Looks, RunLooks};
use demangle_value::coalescing::write_at_once;
use demangle_value::format::Format;
use demangle_value::value::{Demangle, has_style, read_run};
use std::io;
use std::io::Write;

/// Writes a symbol, by one call of the writer if its text has up to 2,048 bytes, and counts its
/// looks. A longer text is written in parts. Fails if the writer fails.
fn write_symbol<W: Write>(
    symbol: &Demangle<'_>,
    output: &mut W,
    format: Format,
    looks: &mut Looks,
) -> io::Result<()>
    ensures text { OnOk result (Appends (W.contents output.old) (W.contents output.new)
        (concat (handed_in symbol.now format))) }
    ensures looks { PrintingLooksIn symbol.now format looks.old looks.new }
{
    let mut sink = WriteSink::new(output);
    let written = write_at_once(symbol, &mut sink, format, looks);
    match sink.into_fault() {
        Some(error) => Err(error),
        // If it fails, the sink holds the writer's error.
        None => written.map_err(|_| io::Error::other("the sink failed")),
    }
}

/// Writes the replacement of a run: the printed symbol, or the run itself if it is not a symbol.
/// Either is one call of the writer if it has up to 2,048 bytes. Counts its looks. Fails if the
/// writer fails.
pub(super) fn write_run<W: Write>(
    run: &str,
    output: &mut W,
    format: Format,
    looks: &mut RunLooks,
) -> io::Result<()>
    requires { list_all is_run_byte run.now ≡ true }
    ensures text { OnOk result (Appends (W.contents output.old) (W.contents output.new)
        (replacement_in format run.now)) }
    ensures grows { LooksGrow looks.old looks.new }
    ensures most { looks.new.accepting_looks ≤ looks.old.accepting_looks + 61 * (length run.now + 1) }
    ensures prints { PrintsLinear format 1 (length run.now) looks.old.printing_looks
        looks.new.printing_looks }
{
    let symbol = read_run(run, &mut looks.accepting_looks);
    if has_style(&symbol) {
        write_symbol(&symbol, output, format, &mut looks.printing_looks)
    } else {
        output.write_all(run.as_bytes())
    }
}

/// Writes a line with each symbol of it demangled. Each plain text and each piece is a separate
/// write. Fails if the writer fails.
pub(super) fn demangle_line<W: Write>(
    line: &str,
    output: &mut W,
    include_hash: bool,
) -> io::Result<()>
    ensures { OnOk result
        (Appends (W.contents output.old) (W.contents output.new) (filtered include_hash line.now)) }
{
    let mut sink = WriteSink::new(output);
    // If it fails, the sink holds the writer's error.
    let _ = demangle_text(line, &mut sink, include_hash);
    sink.into_result()
}
