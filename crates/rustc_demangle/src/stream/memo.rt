//! Remembers the symbols that a filter printed.
ghost use Rattle.std.specs.Prelude.{◌≡◌, ◌+◌, ◌*◌, ◌<◌, ◌≤◌, [], true, length, IfNone, IfSome, IsTrue, OnOk};
ghost use Rattle.std.specs.List.{concat, list_all};
ghost use Rattle.std.specs.Io.KnownBytes.{Appends};
ghost use Rattle.demangle_value.specs.Filtered.{is_run_byte, replacement_in};
ghost use Rattle.rustc_demangle.specs.LinearLooks.{LooksGrow, LooksLinear};
ghost use Rattle.rustc_demangle.specs.PrintedRuns.{IsPrinted};
ghost use Rattle.demangle_value.specs.LinearPrinting.{PrintsLinear};
ghost use Rattle.demangle_value.specs.Stripped.{stripped};
ghost use Rattle.demangle_value.specs.Symbols.{PrintingLooksIn, bounded_within, handed_in};
ghost use Rattle.demangle_value.specs.Tried.{IsRunRead, IsUnknown};
ghost use Rattle.text_memo.specs.Memo.{Remembers, IsSmall};

use crate::stream::buffer_sink::BufferSink;
use crate::stream::credit::Credit;
use crate::stream::line_writer::write_run;
use demangle_symbol::cursor::{Looks, RunLooks};
use demangle_value::format::{Format, MAX_SIZE, SizeLimit, TextFormat, unfolded_form};
use demangle_value::value::printing::{Tried, print_first, starts_as_v0};
use demangle_value::value::{Demangle, has_style, read_run};
use piece_buffer::GrowingBuffer;
use std::alloc::Global;
use std::io;
use std::io::Write;
use std::marker::Model;
use text_memo::{Comparisons, MAX_KEY, MAX_TEXT, Noted, TextMemo, hash_of};

/// A lookup that finds nothing adds one to the count, and one that finds a text subtracts this. So
/// the count increases if fewer than one lookup in twenty finds a text.
const HIT_WORTH: u32 = 19;

/// The count at which a memo is turned off.
const MAX_MISSES: u32 = 4096;

/// The number of runs for which a memo stays off.
const PAUSE: u32 = 32_768;

/// The most bytes of a run that is printed before it is known to be a symbol. Of the symbols that
/// are longer, many have so many references that they are validated in any case.
const MOST_PRINTED: usize = 384;

/// The same if arguments are folded. Then no reference in them is followed.
const MOST_FOLDED: usize = 768;

/// A counter that turns a memo off for a while if few symbols repeat.
#[derive(Clone, Copy)]
struct Probe {
    misses: u32,
    pause: u32,
}

impl Probe {
    /// Returns whether the memo is on. If it is off, this run counts as one of the pause.
    #[inline(always)]
    fn is_on(&mut self) -> bool {
        if self.pause == 0 {
            return true;
        }
        self.pause -= 1;
        false
    }

    /// Counts a lookup that found a text.
    #[inline(always)]
    fn hit(&mut self) {
        self.misses = self.misses.saturating_sub(HIT_WORTH);
    }

    /// Counts a lookup that found nothing.
    #[inline(always)]
    fn miss(&mut self) {
        self.misses = self.misses.saturating_add(1);
        if self.misses >= MAX_MISSES {
            self.misses = 0;
            self.pause = PAUSE;
        }
    }
}

/// The texts that are remembered, the last one that was printed, the format of all, and whether runs
/// are printed first.
#[derive(Drop)]
struct Store {
    format: Format,
    texts: TextMemo,
    printed: GrowingBuffer,
    credit: Credit,
}

/// A memo of printed symbols, with which a filter does not parse a repeated symbol again.
///
/// It belongs to one format, in which all its texts were printed. It has at most 5.5 MB of memory,
/// of which the last printed text uses at most 1,024,000 bytes, and 7.6 MB while that grows. It
/// allocates none if there are no symbols. A lookup compares at most two symbols. If memory can't be
/// allocated, symbols are parsed as without a memo. The memo turns itself off for a while if few
/// symbols repeat.
#[derive(Drop)]
pub struct SymbolMemo {
    alloc: Global,
    store: Store,
    probe: Probe,
}

impl Model for SymbolMemo {
    ghost use Rattle.demangle_value.specs.declared.format.Format.{Format};
    ghost use Rattle.demangle_value.specs.Filtered.{replacement_in};
    ghost use Rattle.text_memo.specs.Memo.{Remembers, IsSmall};

    ghost Value = { Format };

    ghost view = { λ memo. memo.store.format };

    ghost invariant = { λ memo. Remembers (replacement_in memo.store.format) memo.store.texts
        × IsSmall memo.store.texts };
}

/// Prints a symbol into an empty buffer, or returns `false` if the buffer can't hold it. Counts its
/// looks.
fn print_to_buffer(
    symbol: &Demangle<'_>,
    held: &mut GrowingBuffer,
    format: Format,
    looks: &mut Looks,
) -> bool
    requires { held.old ≡ [] }
    ensures text { IsTrue result → held.new ≡ concat (handed_in symbol.now format) }
    ensures looks { PrintingLooksIn symbol.now format looks.old looks.new }
{
    let mut sink = BufferSink::new(held);
    symbol
        .write_formatted_counted(&mut sink, format, looks)
        .is_ok()
}

/// Prints a run into the buffer before it is known to be a symbol, and counts its looks. Returns
/// what is known of it then. Unless it was printed, the buffer may have a part of it.
#[inline(always)]
fn try_print<'a>(
    run: &'a str,
    held: &mut GrowingBuffer,
    format: Format,
    looks: &mut Looks,
) -> Tried<'a>
    requires { list_all is_run_byte run.now ≡ true }
    ensures printed { result ≡ Tried.Printed → held.new ≡ replacement_in format run.now }
    ensures read { IsRunRead run.now result }
    ensures grows { looks.old ≤ looks.new }
    ensures most { looks.new ≤ looks.old + 143 * (length run.now + 1) }
    ensures early { IsUnknown result → looks.new ≤ looks.old + 88 * (length run.now + 1) }
{
    held.clear();
    let mut sink = BufferSink::new(held);
    print_first(run, &mut sink, format, looks)
}

/// How the text of a run was found.
#[derive(Clone, Copy)]
enum Printed {
    /// The run is a symbol, and its text is in the buffer.
    Symbol,
    /// The run is not a symbol, and its text is the run.
    NoSymbol,
    /// The buffer does not hold the text of the run. Memory could not be allocated, or the text may
    /// be too long.
    NotHeld,
}

/// Returns whether a run is looked up, and printed first. It must start as a v0 symbol, or end with
/// the hash of a legacy symbol or the digit of a suffix. It must not be too short or too long. Most
/// other runs are not symbols.
#[inline(always)]
fn is_looked_up(run: &[u8]) -> bool {
    if run.len() < 20 || run.len() > MAX_KEY {
        return false;
    }
    let end = run.len();
    starts_as_v0(run)
        | ((run[end - 1] == b'E') & (run[end - 18] == b'h') & (run[end - 19] == b'7'))
        | run[end - 1].is_ascii_digit()
}

impl Store {
    /// Prints a run into the buffer before it is known to be a symbol, if `is_first`, the run is not
    /// too long, and runs are printed first. Otherwise, or if that was in vain, it reads the run.
    /// Counts its looks: the bound of those that decide whether the run is a symbol is linear in its
    /// length. Returns what the run was read as, or `None` if it was printed.
    #[inline(always)]
    fn print_or_read<'a>(
        &mut self,
        run: &'a str,
        is_first: bool,
        looks: &mut RunLooks,
    ) -> Option<Demangle<'a>>
        requires run { list_all is_run_byte run.now ≡ true }
        ensures printed { IfNone result (self.new.printed ≡ replacement_in self.old.format run.now) }
        ensures read { IfSome result (λ symbol. symbol ≡ stripped run.now) }
        ensures texts { self.new.texts ≡ self.old.texts }
        ensures format { self.new.format ≡ self.old.format }
        ensures grows { LooksGrow looks.old looks.new }
        ensures most { looks.new.accepting_looks
            ≤ looks.old.accepting_looks + 152 * (length run.now + 1) }
        ensures prints { PrintsLinear self.old.format 1 (length run.now) looks.old.printing_looks
            looks.new.printing_looks }
    {
        let most = if self.format.form.fold_arguments {
            MOST_FOLDED
        } else {
            MOST_PRINTED
        };
        if !is_first || run.len() > most || !self.credit.is_given() {
            let symbol = read_run(run, &mut looks.accepting_looks);
            if is_first && has_style(&symbol) {
                self.credit.gain();
            }
            return Some(symbol);
        }
        let accepting = &mut looks.accepting_looks;
        let (read, fuel) = match try_print(run, &mut self.printed, self.format, accepting) {
            Tried::Printed => {
                self.credit.gain();
                return None;
            }
            Tried::InVain(read, fuel) => (read, fuel),
        };
        let symbol = match read {
            Some(symbol) => symbol,
            None => read_run(run, &mut looks.accepting_looks),
        };
        if has_style(&symbol) {
            self.credit.give_up(run);
        } else {
            self.credit.lose(run, self.printed.len(), fuel);
        }
        Some(symbol)
    }

    /// Prints a run into the buffer, as `print_or_read` does, or after that has read it. Counts its
    /// looks. If the path of a run that was read may have over 1,000,000 bytes, it prints nothing, so
    /// that nothing is printed in vain.
    #[inline(always)]
    fn print(&mut self, run: &str, is_first: bool, looks: &mut RunLooks) -> Printed
        requires run { list_all is_run_byte run.now ≡ true }
        ensures text { IsPrinted self.old.format run.now result self.new.printed }
        ensures texts { self.new.texts ≡ self.old.texts }
        ensures format { self.new.format ≡ self.old.format }
        ensures grows { LooksGrow looks.old looks.new }
        ensures most { looks.new.accepting_looks
            ≤ looks.old.accepting_looks + 152 * (length run.now + 1) }
        ensures prints { PrintsLinear self.old.format 2 (length run.now) looks.old.printing_looks
            looks.new.printing_looks }
    {
        let Some(symbol) = self.print_or_read(run, is_first, looks) else {
            return Printed::Symbol;
        };
        if !has_style(&symbol) {
            return Printed::NoSymbol;
        }
        if TextFormat::for_text(self.format, run.len()).limit > MAX_SIZE {
            return Printed::NotHeld;
        }
        self.printed.clear();
        if print_to_buffer(
            &symbol,
            &mut self.printed,
            self.format,
            &mut looks.printing_looks,
        ) {
            Printed::Symbol
        } else {
            Printed::NotHeld
        }
    }

    /// Remembers the text of a run that was printed so, or that it is too long for that.
    #[inline(never)]
    fn remember(&mut self, run: &str, hash: u64, printed: Printed)
        requires printed { IsPrinted self.old.format run.now printed self.old.printed }
        requires remembers { Remembers (replacement_in self.old.format) self.old.texts }
        ensures remembers { Remembers (replacement_in self.old.format) self.new.texts }
        ensures small { IsSmall self.old.texts → IsSmall self.new.texts }
        ensures printed { self.new.printed ≡ self.old.printed }
        ensures format { self.new.format ≡ self.old.format }
    {
        let key = run.as_bytes();
        match printed {
            Printed::Symbol if self.printed.len() > MAX_TEXT => self.texts.note_too_long(hash),
            Printed::Symbol => self.texts.insert(key, self.printed.as_slice(), hash),
            Printed::NoSymbol => self.texts.insert(key, key, hash),
            Printed::NotHeld => self.texts.note_too_long(hash),
        }
    }

    /// Writes the replacement of a run that was printed so, by one call of the writer if the buffer
    /// holds it. Counts its looks. Fails if the writer fails.
    #[inline(always)]
    fn write<W: Write>(
        &self,
        run: &str,
        printed: Printed,
        output: &mut W,
        looks: &mut RunLooks,
    ) -> io::Result<()>
        requires run { list_all is_run_byte run.now ≡ true }
        requires printed { IsPrinted self.now.format run.now printed self.now.printed }
        ensures text { OnOk result (Appends (W.contents output.old) (W.contents output.new)
            (replacement_in self.now.format run.now)) }
        ensures grows { LooksGrow looks.old looks.new }
        ensures most { looks.new.accepting_looks ≤ looks.old.accepting_looks + 61 * (length run.now + 1) }
        ensures prints { PrintsLinear self.now.format 1 (length run.now) looks.old.printing_looks
            looks.new.printing_looks }
    {
        match printed {
            Printed::Symbol => output.write_all(self.printed.as_slice()),
            Printed::NoSymbol => output.write_all(run.as_bytes()),
            Printed::NotHeld => write_run(run, output, self.format, looks),
        }
    }
}

impl SymbolMemo {
    /// Returns a memo of symbols that are printed with or without the hash, each cut at `limit`
    /// bytes before its suffix. Its limit of the bytes that are read again is linear.
    pub fn new(alloc: Global, include_hash: bool, limit: usize) -> Self
        ensures { result ≡ bounded_within include_hash limit }
    {
        let limit = SizeLimit::Bytes(limit);
        let format = Format::bounded(unfolded_form(include_hash), limit);
        SymbolMemo::with_format(alloc, format)
    }

    /// Returns a memo of symbols that are printed in a format.
    pub fn with_format(alloc: Global, format: Format) -> Self
        ensures { result ≡ format }
    {
        SymbolMemo {
            alloc,
            store: Store {
                format,
                texts: TextMemo::new(alloc),
                printed: GrowingBuffer::new(alloc),
                credit: Credit::new(),
            },
            probe: Probe {
                misses: 0,
                pause: 0,
            },
        }
    }

    /// Returns the format in which symbols are printed.
    pub fn format(&self) -> Format
        ensures { result ≡ self.now }
    {
        self.store.format
    }

    /// Returns the allocator of the memo.
    pub(super) fn allocator(&self) -> Global {
        self.alloc
    }

    /// Returns the number of bytes of memory that the memo has allocated, which is at most 5.5 MB.
    /// While it grows, the memory before is allocated too, until its bytes are copied.
    pub fn allocated(&self) -> usize
        ensures { result ≤ 5_500_000 }
    {
        self.store.texts.allocated() + self.store.printed.allocated()
    }

    /// Writes the replacement of a run: the printed symbol, or the run itself if it is not a
    /// symbol. Compares the run with at most two others, and counts its looks. Fails if the writer
    /// fails.
    pub(super) fn write_run<W: Write>(
        &mut self,
        run: &str,
        output: &mut W,
        comparisons: &mut Comparisons,
        looks: &mut RunLooks,
    ) -> io::Result<()>
        requires all { list_all is_run_byte run.now ≡ true }
        requires some { 0 < length run.now }
        ensures text { OnOk result (Appends (W.contents output.old) (W.contents output.new)
            (replacement_in self.old run.now)) }
        ensures same { self.new ≡ self.old }
        ensures compared { comparisons.new ≤ comparisons.old + 2 }
        ensures grows { LooksGrow looks.old looks.new }
        ensures linear { LooksLinear self.old (length run.now) looks.old looks.new }
    {
        let is_likely = is_looked_up(run.as_bytes());
        if !is_likely || !self.probe.is_on() {
            let printed = self.store.print(run, is_likely, looks);
            return self.store.write(run, printed, output, looks);
        }
        let hash = hash_of(run.as_bytes());
        if let Some(text) = self.store.texts.get(run.as_bytes(), hash, comparisons) {
            self.probe.hit();
            return output.write_all(text);
        }
        self.probe.miss();
        let noted = self.store.texts.note(hash);
        let is_first = !matches!(noted, Noted::TooLong);
        let printed = self.store.print(run, is_first, looks);
        if matches!(noted, Noted::Again) {
            self.store.remember(run, hash, printed);
        }
        self.store.write(run, printed, output, looks)
    }
}
