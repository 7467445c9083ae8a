//! Writes filtered texts and arguments into any writer.
ghost use Rattle.std.specs.Prelude.{◌≡◌, ◌+◌, ◌*◌, ◌≤◌, ◌++◌, ◌∷◌, [], List, length, true, false, Ok, IfSome, OnOk, IfErr, map};
ghost use Rattle.std.specs.Io.KnownBytes.{Appends, Keeps};
ghost use Rattle.std.specs.Io.Buffered.{reader_remaining};
ghost use Rattle.std.specs.List.{concat};
ghost use Rattle.rustc_demangle.specs.Rewritten.{rewritten_after, rewritten_in};
ghost use Rattle.rustc_demangle.specs.ByteStream.{from_start, followed_by, IsWriting, StepFinished, StepFailed, BytesStopped};
ghost use Rattle.demangle_value.specs.Symbols.{PrintingLooksIn, handed_in};
ghost use Rattle.kodliwe_program.specs.Filtering.{FlushStepFiltered, IsClosedPipe};
ghost use Rattle.rustc_demangle.specs.LinearLooks.{LooksGrow, LooksLinear, StepPaid};
ghost use Rattle.demangle_value.specs.declared.format.SizeLimit.TheVariants.{Linear};
ghost use Rattle.kodliwe_program.specs.Parts.{PartText, all_printed, argument_in, part_of, part_in, part_bytes, WroteAll, WrotePrefix, RunStopped};
ghost use Rattle.kodliwe_program.specs.ProgramLooks.{LooksAt, LooksAtParts, OutputWithin, part_len, total_len};

use crate::error::{InputError, report};
use crate::noting::NotingReader;
use demangle_sink::WriteSink;
use rustc_demangle::{
    BytesFilter, Demangle, Format, Looks, RunLooks, StreamFault, SymbolMemo,
    demangle_bytes_counted, try_demangle_counted,
};
use std::alloc::{Allocator, Global};
use std::io::{BufRead, BufReader, ErrorKind, Read, Write};
use std::{io, mem};

/// The size in bytes of the buffers.
pub const BUFFER: usize = 65_536;

/// The memory and the options of a run.
#[derive(Clone, Copy)]
pub struct Settings {
    pub alloc: Global,
    /// How symbols are printed.
    pub format: Format,
}

/// A reader, and its name in a message.
#[derive(Drop)]
pub struct Input<'a, R: Drop> {
    pub name: &'a str,
    pub reader: R,
}

/// A part of the output.
#[derive(Drop)]
pub enum Part<'a, R: Drop> {
    /// A text that is filtered.
    Text(Input<'a, R>),
    /// A SYMBOL argument.
    Argument(&'a str),
}

/// The memo of the symbols of all parts, and the looks that were made at them.
#[derive(Drop)]
struct Symbols {
    memo: SymbolMemo,
    looks: RunLooks,
}

/// How filtering ended.
#[derive(Clone, Copy, Debug, PartialEq, Eq)]
pub enum FilterOutcome {
    /// The complete output was written.
    Complete,
    /// The reader of the output has closed it.
    Closed,
    /// An input can't be read, or memory can't be allocated.
    ReadFailed,
    /// The output can't be written.
    WriteFailed,
}

impl FilterOutcome {
    /// Returns the exit status.
    pub fn status(self) -> u8
        ensures complete { self ≡ FilterOutcome.Complete → result ≡ 0 }
        ensures closed { self ≡ FilterOutcome.Closed → result ≡ 0 }
        ensures read_failed { self ≡ FilterOutcome.ReadFailed → result ≡ 1 }
        ensures unwritten { self ≡ FilterOutcome.WriteFailed → result ≡ 1 }
    {
        match self {
            FilterOutcome::Complete | FilterOutcome::Closed => 0,
            FilterOutcome::ReadFailed | FilterOutcome::WriteFailed => 1,
        }
    }
}

/// Flushes the output, and repeats that if a signal interrupts it. Fails if the writer fails.
fn flush<W: Write>(output: &mut W) -> Result<(), StreamFault>
    ensures bytes { Keeps (W.contents output.old) (W.contents output.new) }
    ensures named { IfErr result IsWriting }
{
    for _ in 0..=u64::MAX {
        match output.flush() {
            Ok(()) => return Ok(()),
            Err(error) if error.kind() == ErrorKind::Interrupted => {}
            Err(error) => return Err(StreamFault::Write(error)),
        }
    }
    Err(StreamFault::Write(io::Error::other("too many signals")))
}

/// Flushes the output if the next step reads, so that nothing is held while the program waits.
/// Fails if the writer fails.
fn flush_pending<R: Read, W: Write, B: Allocator>(
    input: &BufReader<R, B>,
    output: &mut W,
) -> Result<(), StreamFault>
    ensures bytes { Keeps (W.contents output.old) (W.contents output.new) }
    ensures named { IfErr result IsWriting }
{
    if input.buffer().is_empty() {
        flush(output)
    } else {
        Ok(())
    }
}

/// Makes a step of the filter, and returns `false` at the end of the input. A step uses nothing if
/// a signal interrupts the reader. Fails as the step does.
#[tactic(auto, using(crate::proofs::FilteringLemmas::step_turn))]
fn step<R: BufRead, W: Write, A: Allocator>(
    filter: &mut BytesFilter<A>,
    input: &mut R,
    output: &mut W,
    symbols: &mut Symbols,
) -> Result<bool, StreamFault>
    ensures took { result ≡ Ok true → FlushStepFiltered (rewritten_after symbols.old.memo)
        filter.old filter.new (R.remaining input.old) (R.remaining input.new)
        (W.contents output.old) (W.contents output.new) }
    ensures ended { result ≡ Ok false → StepFinished (rewritten_after symbols.old.memo)
        filter.old filter.new (R.remaining input.old) (R.remaining input.new)
        (W.contents output.old) (W.contents output.new) }
    ensures refused { IfErr result (λ fault. StepFailed fault filter.old filter.new
        (R.remaining input.old) (R.remaining input.new)
        (W.contents output.old) (W.contents output.new)) }
    ensures same { symbols.new.memo ≡ symbols.old.memo }
    ensures grows { LooksGrow symbols.old.looks symbols.new.looks }
    ensures paid { OnOk result (StepPaid symbols.old.memo filter.old filter.new
        (R.remaining input.old) (R.remaining input.new) symbols.old.looks symbols.new.looks) }
    ensures linear { IfSome (R.remaining input.old) (λ left. LooksLinear symbols.old.memo
        (length filter.old.bytes + length left) symbols.old.looks symbols.new.looks) }
{
    match filter.step_counted(input, output, &mut symbols.memo, &mut symbols.looks) {
        Err(StreamFault::Read(error)) if error.kind() == ErrorKind::Interrupted => Ok(true),
        stepped => stepped,
    }
}

/// Flushes the output if the next step reads, and then makes that step. Returns `false` at the end
/// of the input. Fails if one of the two fails.
fn flush_then_step<R: Read, W: Write, A: Allocator, B: Allocator>(
    filter: &mut BytesFilter<A>,
    input: &mut BufReader<R, B>,
    output: &mut W,
    symbols: &mut Symbols,
) -> Result<bool, StreamFault>
    ensures took { result ≡ Ok true → FlushStepFiltered (rewritten_after symbols.old.memo)
        filter.old filter.new
        (reader_remaining R.remaining input.old) (reader_remaining R.remaining input.new)
        (W.contents output.old) (W.contents output.new) }
    ensures ended { result ≡ Ok false → StepFinished (rewritten_after symbols.old.memo)
        filter.old filter.new
        (reader_remaining R.remaining input.old) (reader_remaining R.remaining input.new)
        (W.contents output.old) (W.contents output.new) }
    ensures refused { IfErr result (λ fault. IfSome (reader_remaining R.remaining input.old)
        (λ text. BytesStopped (rewritten_after symbols.old.memo) fault (followed_by filter.old text)
        (W.contents output.old) (W.contents output.new))) }
    ensures same { symbols.new.memo ≡ symbols.old.memo }
    ensures grows { LooksGrow symbols.old.looks symbols.new.looks }
    ensures paid { OnOk result (StepPaid symbols.old.memo filter.old filter.new
        (reader_remaining R.remaining input.old) (reader_remaining R.remaining input.new) symbols.old.looks symbols.new.looks) }
    ensures linear { IfSome (reader_remaining R.remaining input.old) (λ left. LooksLinear symbols.old.memo
        (length filter.old.bytes + length left) symbols.old.looks symbols.new.looks) }
{
    flush_pending(input, output)?;
    step(filter, input, output, symbols)
}

/// Filters the remaining input of a reader. The output is flushed before each read. Fails if the
/// reader or the writer fails, or if memory can't be allocated.
fn filter_steps<R: Read, W: Write, A: Allocator, B: Allocator>(
    filter: &mut BytesFilter<A>,
    input: &mut BufReader<R, B>,
    output: &mut W,
    symbols: &mut Symbols,
) -> Result<(), StreamFault>
    requires { filter.old ≡ from_start [] }
    ensures ok { OnOk result (IfSome (reader_remaining R.remaining input.old) (λ text.
        Appends (W.contents output.old) (W.contents output.new)
        (rewritten_in symbols.old.memo text))) }
    ensures err { IfErr result (λ fault. IfSome (reader_remaining R.remaining input.old) (λ text.
        BytesStopped (rewritten_after symbols.old.memo) fault (from_start text)
        (W.contents output.old) (W.contents output.new))) }
    ensures same { symbols.new.memo ≡ symbols.old.memo }
    ensures grows { LooksGrow symbols.old.looks symbols.new.looks }
    ensures linear { IfSome (reader_remaining R.remaining input.old) (λ text. LooksLinear symbols.old.memo
        (length text) symbols.old.looks symbols.new.looks) }
{
    for _ in 0..=u64::MAX {
        if !flush_then_step(filter, input, output, symbols)? {
            return Ok(());
        }
    }
    Err(StreamFault::Read(io::Error::other("too many steps")))
}

/// Filters the remaining input of one reader through a buffer. Fails as `filter_steps` does.
fn filter_reader<R: Read + Drop, W: Write>(
    alloc: Global,
    reader: R,
    output: &mut W,
    symbols: &mut Symbols,
) -> Result<(), StreamFault>
    ensures ok { OnOk result (IfSome (R.remaining reader) (λ text.
        Appends (W.contents output.old) (W.contents output.new)
        (rewritten_in symbols.old.memo text))) }
    ensures err { IfErr result (λ fault. IfSome (R.remaining reader) (λ text.
        BytesStopped (rewritten_after symbols.old.memo) fault (from_start text)
        (W.contents output.old) (W.contents output.new))) }
    ensures same { symbols.new.memo ≡ symbols.old.memo }
    ensures grows { LooksGrow symbols.old.looks symbols.new.looks }
    ensures linear { IfSome (R.remaining reader) (λ text. LooksLinear symbols.old.memo
        (length text) symbols.old.looks symbols.new.looks) }
{
    let Ok(mut input) = BufReader::with_capacity(alloc, BUFFER, reader) else {
        return Err(StreamFault::Memory);
    };
    let mut filter = BytesFilter::new(alloc);
    filter_steps(&mut filter, &mut input, output, symbols)
}

/// Writes a symbol, with a separate write for each piece. Fails if the writer fails.
fn write_symbol<W: Write>(
    symbol: &Demangle<'_>,
    output: &mut W,
    format: Format,
    looks: &mut Looks,
) -> Result<(), StreamFault>
    ensures ok { OnOk result (Appends (W.contents output.old) (W.contents output.new)
        (concat (handed_in symbol.now format))) }
    ensures named { IfErr result IsWriting }
    ensures looks { PrintingLooksIn symbol.now format looks.old looks.new }
{
    let mut sink = WriteSink::new(output);
    // If it fails, the sink holds the writer's error.
    let _ = symbol.write_formatted_counted(&mut sink, format, looks);
    match sink.into_fault() {
        Some(error) => Err(StreamFault::Write(error)),
        None => Ok(()),
    }
}

/// Writes an argument as `argument_in` defines, without a line feed. Fails if the writer fails or
/// memory can't be allocated.
fn write_argument<W: Write>(
    argument: &str,
    output: &mut W,
    symbols: &mut Symbols,
) -> Result<(), StreamFault>
    ensures ok { OnOk result (Appends (W.contents output.old) (W.contents output.new)
        (argument_in symbols.old.memo argument.now)) }
    ensures err { IfErr result (λ fault. BytesStopped (rewritten_after symbols.old.memo) fault
        (from_start argument.now) (W.contents output.old) (W.contents output.new)) }
    ensures same { symbols.new.memo ≡ symbols.old.memo }
    ensures grows { LooksGrow symbols.old.looks symbols.new.looks }
    ensures linear { LooksAt symbols.old.memo (length argument.now + 1) symbols.old.looks
        symbols.new.looks }
{
    let looks = &mut symbols.looks;
    match try_demangle_counted(argument, &mut looks.accepting_looks) {
        Ok(symbol) => {
            let format = symbols.memo.format();
            write_symbol(&symbol, output, format, &mut looks.printing_looks)
        }
        Err(_) => {
            let mut text = argument.as_bytes();
            demangle_bytes_counted(&mut text, output, &mut symbols.memo, looks)
        }
    }
}

/// Writes an argument and a line feed. Fails as `write_argument` does.
fn write_line<W: Write>(
    argument: &str,
    output: &mut W,
    symbols: &mut Symbols,
) -> Result<(), StreamFault>
    ensures ok { OnOk result (Appends (W.contents output.old) (W.contents output.new)
        (argument_in symbols.old.memo argument.now ++ 10 ∷ [])) }
    ensures err { IfErr result (λ fault. BytesStopped (rewritten_after symbols.old.memo) fault
        (from_start argument.now) (W.contents output.old) (W.contents output.new)) }
    ensures same { symbols.new.memo ≡ symbols.old.memo }
    ensures grows { LooksGrow symbols.old.looks symbols.new.looks }
    ensures linear { LooksAt symbols.old.memo (length argument.now + 1) symbols.old.looks
        symbols.new.looks }
{
    write_argument(argument, output, symbols)?;
    match output.write_all(b"\n") {
        Ok(()) => Ok(()),
        Err(error) => Err(StreamFault::Write(error)),
    }
}

impl<'a, R: Read + Drop> Part<'a, R> {
    /// Writes what the part prints. Writes a note on an input that is compressed or encoded. Fails
    /// if a reader or the writer fails, or if memory can't be allocated.
    fn write<W: Write, E: Write>(
        self,
        settings: Settings,
        output: &mut W,
        errors: &mut E,
        symbols: &mut Symbols,
    ) -> Result<(), InputError<'a>>
        requires { symbols.old.memo ≡ settings.format }
        ensures ok { OnOk result (IfSome (part_of R.remaining self.entry) (λ part.
            Appends (W.contents output.old) (W.contents output.new)
            (part_in settings.format part))) }
        ensures err { IfErr result (λ stop. IfSome (part_of R.remaining self.entry) (λ part.
            BytesStopped (rewritten_after settings.format) stop.fault
            (from_start (part_bytes part))
            (W.contents output.old) (W.contents output.new))) }
        ensures same { symbols.new.memo ≡ symbols.old.memo }
        ensures grows { LooksGrow symbols.old.looks symbols.new.looks }
        ensures linear { IfSome (part_of R.remaining self.entry) (λ part.
            LooksAt settings.format (part_len part) symbols.old.looks symbols.new.looks) }
    {
        match self {
            Part::Text(Input { name, reader }) => {
                let noting = NotingReader::new(settings.alloc, name, reader, errors);
                match filter_reader(settings.alloc, noting, output, symbols) {
                    Ok(()) => Ok(()),
                    Err(fault) => Err(InputError { name, fault }),
                }
            }
            Part::Argument(argument) => {
                match write_line(argument, output, symbols) {
                    Ok(()) => Ok(()),
                    Err(fault) => Err(InputError { name: "", fault }),
                }
            }
        }
    }
}

/// Writes what each part prints, in order and with one memo, and then flushes the output. Counts its
/// looks. Stops at the first error, and returns it with the name of its input.
fn write_parts<'a, R: Read + Drop, W: Write, E: Write>(
    settings: Settings,
    parts: Vec<Part<'a, R>>,
    output: &mut W,
    errors: &mut E,
    looks: &mut RunLooks,
) -> Result<(), InputError<'a>>
    ensures ok { OnOk result (WroteAll (part_in settings.format)
        (map (part_of R.remaining) parts.entry.items)
        (W.contents output.old) (W.contents output.new)) }
    ensures err { IfErr result (λ stop. RunStopped stop.fault settings.format
        (map (part_of R.remaining) parts.entry.items)
        (W.contents output.old) (W.contents output.new)) }
    ensures grows { LooksGrow looks.old looks.new }
    ensures linear { LooksAtParts settings.format (map (part_of R.remaining) parts.entry.items)
        looks.old looks.new }
{
    let mut symbols = Symbols {
        memo: SymbolMemo::with_format(settings.alloc, settings.format),
        looks: mem::replace(looks, RunLooks::new()),
    };
    for part in parts {
        if let Err(stop) = part.write(settings, output, errors, &mut symbols) {
            *looks = symbols.looks;
            return Err(stop);
        }
    }
    *looks = symbols.looks;
    match flush(output) {
        Ok(()) => Ok(()),
        Err(fault) => Err(InputError { name: "", fault }),
    }
}

/// Returns how filtering ended after an error.
fn outcome_of(fault: &StreamFault) -> FilterOutcome
    ensures stopped { (result ≡ FilterOutcome.Complete → ⊥) }
    ensures read_failed { result ≡ FilterOutcome.ReadFailed → IsWriting fault.now → ⊥ }
    ensures unwritten { result ≡ FilterOutcome.WriteFailed → IsWriting fault.now }
    ensures closed { result ≡ FilterOutcome.Closed → IsClosedPipe fault.now }
    ensures closed_iff { IsClosedPipe fault.now → result ≡ FilterOutcome.Closed }
{
    match fault {
        StreamFault::Write(error) => {
            if error.kind() == ErrorKind::BrokenPipe {
                FilterOutcome::Closed
            } else {
                FilterOutcome::WriteFailed
            }
        }
        _ => FilterOutcome::ReadFailed,
    }
}

/// Writes what the parts print, in order: each text filtered on its own, and each argument as a
/// line. Each path is cut at the limits. Writes a line if an input can't be read, the output can't
/// be written, or memory can't be allocated. Writes a note on each input that is compressed or
/// encoded.
///
/// On `Complete`, the writer appended what all parts print. On `ReadFailed`, it appended what the
/// parts before one print, and a filtered prefix of that one. The prefix is not cut inside a
/// symbol. Nothing is known of the bytes that a writer accepted in a call that failed. All that was
/// written before is flushed in any case. An error of `errors` is ignored.
///
/// With a linear limit of bytes, the parts print at most 1,000 bytes for each of their own, of which
/// each argument has a line feed. On `Complete` and `ReadFailed`, the writer appended no more.
///
/// The looks are counted. With a linear limit of the bytes that are read again, the looks are at
/// most 23,650 for each byte of the parts, for each outcome.
pub fn filter_all_counted<R: Read + Drop, W: Write, E: Write>(
    settings: Settings,
    parts: Vec<Part<'_, R>>,
    output: &mut W,
    errors: &mut E,
    looks: &mut RunLooks,
) -> FilterOutcome
    ensures complete { result ≡ FilterOutcome.Complete →
        WroteAll (part_in settings.format) (map (part_of R.remaining) parts.entry.items)
        (W.contents output.old) (W.contents output.new) }
    ensures read_failed { result ≡ FilterOutcome.ReadFailed →
        WrotePrefix settings.format (map (part_of R.remaining) parts.entry.items)
        (W.contents output.old) (W.contents output.new) }
    ensures grows { LooksGrow looks.old looks.new }
    ensures linear { LooksAtParts settings.format (map (part_of R.remaining) parts.entry.items)
        looks.old looks.new }
    ensures prints { settings.format.limit ≡ Linear → (all : List PartText) →
        length (all_printed (part_in settings.format) all) ≤ 1000 * total_len all }
    ensures output { settings.format.limit ≡ Linear →
        OutputWithin result (map (part_of R.remaining) parts.entry.items)
        (W.contents output.old) (W.contents output.new) }
{
    let written = write_parts(settings, parts, output, errors, looks);
    let Err(stop) = written else {
        return FilterOutcome::Complete;
    };
    let outcome = outcome_of(&stop.fault);
    if outcome == FilterOutcome::ReadFailed {
        let _ = flush(output);
    }
    if outcome != FilterOutcome::Closed {
        report(settings.alloc, errors, &stop);
    }
    outcome
}

/// Writes what the parts print, as `filter_all_counted` does.
pub fn filter_all<R: Read + Drop, W: Write, E: Write>(
    settings: Settings,
    parts: Vec<Part<'_, R>>,
    output: &mut W,
    errors: &mut E,
) -> FilterOutcome
    ensures complete { result ≡ FilterOutcome.Complete → WroteAll (part_in settings.format)
        (map (part_of R.remaining) parts.entry.items)
        (W.contents output.old) (W.contents output.new) }
    ensures read_failed { result ≡ FilterOutcome.ReadFailed → WrotePrefix settings.format
        (map (part_of R.remaining) parts.entry.items)
        (W.contents output.old) (W.contents output.new) }
{
    filter_all_counted(settings, parts, output, errors, &mut RunLooks::new())
}
