//! The workloads: the library's calls over the text of each round.
use crate::digest::Digest;
use crate::template::Template;
use rustc_demangle::{
    BytesFilter, Format, StreamFault, SymbolMemo, demangle_slice, demangle_slice_formatted,
    demangle_stream, try_demangle,
};
use std::alloc::Global;
use std::fmt::Write;
use std::io::{BufReader, ErrorKind};
use std::{io, str};

/// The number of rounds after which a profile has other symbols.
const PROFILE_ROUNDS: u32 = 20;

/// The size limit of each symbol.
const LIMIT: usize = 1_000_000;

/// The size of the memory for a listed line, and for a text of hostile symbols.
const LINE_SIZE: usize = 4_096;

const TEXT_SIZE: usize = 4_000_000;

/// The calls that a workload makes.
#[derive(Clone, Copy)]
pub enum Workload {
    /// A symbol a line: `try_demangle`, and printing by `{}` and by `{:#}`.
    Table,
    /// The lines of a log: `demangle_stream`.
    Log,
    /// A profile, whose symbols come often: `BytesFilter` with a memo.
    Profile,
    /// The lines of a listing: `demangle_slice` for each.
    Listing,
    /// Symbols that are made to be costly: `demangle_slice_formatted` over all.
    Hostile,
}

/// Returns the workload with this name.
pub fn workload_named(name: &str) -> Option<Workload> {
    match name {
        "table" => Some(Workload::Table),
        "log" => Some(Workload::Log),
        "profile" => Some(Workload::Profile),
        "listing" => Some(Workload::Listing),
        "hostile" => Some(Workload::Hostile),
        _ => None,
    }
}

impl Workload {
    /// Fills the template in each round and makes the calls. Returns the digest of all results.
    pub fn run(self, alloc: Global, template: Template, rounds: u32) -> io::Result<Digest> {
        match self {
            Workload::Table => run_table(alloc, template, rounds),
            Workload::Log => run_log(alloc, template, rounds),
            Workload::Profile => run_profile(alloc, template, rounds),
            Workload::Listing => run_listing(alloc, template, rounds),
            Workload::Hostile => run_hostile(alloc, template, rounds),
        }
    }
}

fn is_not_utf8() -> io::Error {
    io::Error::from(ErrorKind::InvalidData)
}

/// Prints each symbol of a table, by turns in both forms.
fn print_table(text: &str, out: &mut String) -> io::Result<()> {
    for (number, line) in text.lines().enumerate() {
        let written = match try_demangle(line) {
            Ok(symbol) if number % 2 == 0 => writeln!(out, "{symbol}"),
            Ok(symbol) => writeln!(out, "{symbol:#}"),
            Err(_) => writeln!(out, "{line}"),
        };
        if written.is_err() {
            return Err(io::Error::from(ErrorKind::OutOfMemory));
        }
    }
    Ok(())
}

fn run_table(alloc: Global, template: Template, rounds: u32) -> io::Result<Digest> {
    let mut template = template;
    let mut digest = Digest::new();
    let mut out = String::new(alloc);
    for _ in 0..rounds {
        let Ok(text) = str::from_utf8(template.fill()) else {
            return Err(is_not_utf8());
        };
        out.clear();
        print_table(text, &mut out)?;
        digest.add(out.as_bytes());
    }
    Ok(digest)
}

fn run_log(alloc: Global, template: Template, rounds: u32) -> io::Result<Digest> {
    let mut template = template;
    let mut digest = Digest::new();
    let mut out = Vec::new(alloc);
    for _ in 0..rounds {
        let mut input = BufReader::new(alloc, template.fill())?;
        out.clear();
        demangle_stream(alloc, &mut input, &mut out, true)?;
        digest.add(out.as_slice());
    }
    Ok(digest)
}

/// Filters a text to its end. The memo knows the symbols of earlier texts.
fn filter_text(
    alloc: Global,
    text: &[u8],
    out: &mut Vec<u8>,
    memo: &mut SymbolMemo,
) -> io::Result<()> {
    let mut input = BufReader::new(alloc, text)?;
    let mut filter = BytesFilter::new(alloc);
    for _ in 0..=u64::MAX {
        if !filter
            .step(&mut input, out, memo)
            .map_err(StreamFault::into_io)?
        {
            return Ok(());
        }
    }
    Ok(())
}

fn run_profile(alloc: Global, template: Template, rounds: u32) -> io::Result<Digest> {
    let mut template = template;
    let mut digest = Digest::new();
    let mut out = Vec::new(alloc);
    let mut memo = SymbolMemo::new(alloc, false, LIMIT);
    for round in 0..rounds {
        if round % PROFILE_ROUNDS == 0 {
            template.fill_shared();
            memo = SymbolMemo::new(alloc, false, LIMIT);
        }
        out.clear();
        filter_text(alloc, template.fill(), &mut out, &mut memo)?;
        digest.add(out.as_slice());
    }
    Ok(digest)
}

/// Returns the bytes that a call wrote, which are as many as it returned if there was room.
fn written_part(room: &[u8], size: usize) -> &[u8] {
    room.get(..size).unwrap_or(room)
}

fn run_listing(alloc: Global, template: Template, rounds: u32) -> io::Result<Digest> {
    let mut template = template;
    let mut digest = Digest::new();
    let mut room = vec![in alloc; 0u8; LINE_SIZE]?;
    for _ in 0..rounds {
        for line in template.fill().split(|byte| *byte == b'\n') {
            let size = demangle_slice(line, room.as_mut_slice(), false, LIMIT).unwrap_or(0);
            digest.add(written_part(room.as_slice(), size));
        }
    }
    Ok(digest)
}

fn run_hostile(alloc: Global, template: Template, rounds: u32) -> io::Result<Digest> {
    let mut template = template;
    let mut digest = Digest::new();
    let mut room = vec![in alloc; 0u8; TEXT_SIZE]?;
    let format = Format::unfolded(true, LIMIT);
    for _ in 0..rounds {
        let text = template.fill();
        let size = demangle_slice_formatted(text, room.as_mut_slice(), format).unwrap_or(0);
        digest.add(written_part(room.as_slice(), size));
    }
    Ok(digest)
}
