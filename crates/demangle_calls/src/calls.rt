//! Single calls of the library, each repeated for two symbols by turns.
ghost use Rattle.std.specs.Prelude.{◌≡◌, false};

use rustc_demangle::sink::{ArraySink, TextSink, WriteSink};
use rustc_demangle::{
    Demangle, Looks, demangle, demangle_counted, demangle_stream, demangle_stream_named,
    try_demangle,
};
use std::alloc::Global;
use std::fmt::Write;
use std::io;
use std::io::ErrorKind;

/// The size of the array below which the calls are made, so that earlier calls touch none of their stack.
const PAD: usize = 524_288;

/// The size of the array for a printed symbol, and the limit of a call that has one.
const PRINTED_SIZE: usize = 1_024;

const LIMIT: usize = 1_000;

/// A call that is repeated.
#[derive(Clone, Copy)]
pub enum Call {
    /// No call: what the repetition itself takes.
    Nothing,
    TryDemangle,
    Demangle,
    DemangleCounted,
    WriteTo,
    WriteCounted,
    WriteLimited,
    WriteLimitedCounted,
    /// `write_to` into a `WriteSink`.
    WriteToWriter,
    Display,
    Debug,
    DemangleStream,
    DemangleStreamNamed,
}

/// Returns the call with this name.
pub fn call_named(name: &str) -> Option<Call> {
    match name {
        "nothing" => Some(Call::Nothing),
        "try_demangle" => Some(Call::TryDemangle),
        "demangle" => Some(Call::Demangle),
        "demangle_counted" => Some(Call::DemangleCounted),
        "write_to, ArraySink<1024>" => Some(Call::WriteTo),
        "write_counted, ArraySink<1024>" => Some(Call::WriteCounted),
        "write_limited, ArraySink<1024>" => Some(Call::WriteLimited),
        "write_limited_counted, ArraySink<1024>" => Some(Call::WriteLimitedCounted),
        "write_to, WriteSink" => Some(Call::WriteToWriter),
        "Display" => Some(Call::Display),
        "Debug" => Some(Call::Debug),
        "demangle_stream" => Some(Call::DemangleStream),
        "demangle_stream_named" => Some(Call::DemangleStreamNamed),
        _ => None,
    }
}

#[inline(never)]
fn call_try_demangle(text: &str) -> usize {
    usize::from(try_demangle(text).is_ok())
}

#[inline(never)]
fn call_demangle<'a>(text: &'a str) -> Demangle<'a> {
    demangle(text)
}

#[inline(never)]
fn call_demangle_counted<'a>(text: &'a str) -> Demangle<'a> {
    demangle_counted(text, &mut Looks::new())
}

#[inline(never)]
fn call_write_to<S: TextSink>(symbol: &Demangle<'_>, sink: &mut S) -> usize
    requires { S.failed sink.old ≡ false }
{
    usize::from(symbol.write_to(sink, true).is_ok())
}

#[inline(never)]
fn call_write_counted<S: TextSink>(symbol: &Demangle<'_>, sink: &mut S) -> usize
    requires { S.failed sink.old ≡ false }
{
    usize::from(symbol.write_counted(sink, true, &mut Looks::new()).is_ok())
}

#[inline(never)]
fn call_write_limited<S: TextSink>(symbol: &Demangle<'_>, sink: &mut S) -> usize
    requires { S.failed sink.old ≡ false }
{
    usize::from(symbol.write_limited(sink, true, LIMIT).is_ok())
}

#[inline(never)]
fn call_write_limited_counted<S: TextSink>(symbol: &Demangle<'_>, sink: &mut S) -> usize
    requires { S.failed sink.old ≡ false }
{
    usize::from(
        symbol
            .write_limited_counted(sink, true, LIMIT, &mut Looks::new())
            .is_ok(),
    )
}

#[inline(never)]
fn call_display(symbol: &Demangle<'_>, text: &mut String) -> usize {
    usize::from(write!(text, "{symbol}").is_ok())
}

#[inline(never)]
fn call_debug(symbol: &Demangle<'_>, text: &mut String) -> usize {
    usize::from(write!(text, "{symbol:?}").is_ok())
}

#[inline(never)]
fn call_demangle_stream(alloc: Global, input: &mut &[u8], output: &mut Vec<u8>) -> usize {
    usize::from(demangle_stream(alloc, input, output, true).is_ok())
}

#[inline(never)]
fn call_demangle_stream_named(alloc: Global, input: &mut &[u8], output: &mut Vec<u8>) -> usize {
    usize::from(demangle_stream_named(alloc, input, output, true).is_ok())
}

/// Makes a call that prints a symbol into an array.
fn print(call: Call, symbol: &Demangle<'_>) -> usize {
    let mut sink: ArraySink<PRINTED_SIZE> = ArraySink::new();
    let done = match call {
        Call::WriteTo => call_write_to(symbol, &mut sink),
        Call::WriteCounted => call_write_counted(symbol, &mut sink),
        Call::WriteLimited => call_write_limited(symbol, &mut sink),
        _ => call_write_limited_counted(symbol, &mut sink),
    };
    done.wrapping_add(sink.as_str().len())
}

/// Makes a call that formats a symbol into a string.
fn format(alloc: Global, call: Call, symbol: &Demangle<'_>) -> usize {
    let mut text = String::new(alloc);
    let done = match call {
        Call::Display => call_display(symbol, &mut text),
        _ => call_debug(symbol, &mut text),
    };
    done.wrapping_add(text.len())
}

/// Makes a call that writes a symbol, or the text in which it is, into a vector.
fn write(alloc: Global, call: Call, symbol: &Demangle<'_>) -> usize {
    let mut output = Vec::new(alloc);
    let mut input = symbol.as_str().as_bytes();
    let done = match call {
        Call::WriteToWriter => call_write_to(symbol, &mut WriteSink::new(&mut output)),
        Call::DemangleStream => call_demangle_stream(alloc, &mut input, &mut output),
        _ => call_demangle_stream_named(alloc, &mut input, &mut output),
    };
    done.wrapping_add(output.len())
}

/// Makes a call once.
fn turn(alloc: Global, call: Call, symbol: &Demangle<'_>) -> usize {
    let text = symbol.as_str();
    match call {
        Call::Nothing => text.len(),
        Call::TryDemangle => call_try_demangle(text),
        Call::Demangle => call_demangle(text).as_str().len(),
        Call::DemangleCounted => call_demangle_counted(text).as_str().len(),
        Call::WriteTo | Call::WriteCounted | Call::WriteLimited | Call::WriteLimitedCounted => {
            print(call, symbol)
        }
        Call::Display | Call::Debug => format(alloc, call, symbol),
        Call::WriteToWriter | Call::DemangleStream | Call::DemangleStreamNamed => {
            write(alloc, call, symbol)
        }
    }
}

#[inline(never)]
fn fill(pad: &mut [u8], turns: usize) {
    for byte in pad.iter_mut() {
        *byte = (turns % 256) as u8;
    }
}

#[inline(never)]
fn part_of(pad: &[u8], turns: usize) -> usize {
    pad.get(turns).copied().map_or(0, usize::from)
}

#[inline(never)]
fn repeat<'s>(
    alloc: Global,
    call: Call,
    turns: usize,
    one: &'s Demangle<'s>,
    two: &'s Demangle<'s>,
) -> usize {
    let mut pad = [0; PAD];
    fill(pad.as_mut_slice(), turns);
    let mut done = 0usize;
    for at in 0..turns {
        let symbol = if at % 2 == 0 { one } else { two };
        done = done.wrapping_add(turn(alloc, call, symbol));
    }
    done.wrapping_add(part_of(pad.as_slice(), turns))
}

/// Makes a call that many times, for the symbols of two lines by turns. Returns a number that
/// depends on all that the calls returned and printed.
pub fn run_call(alloc: Global, call: Call, turns: usize, text: &str) -> io::Result<usize> {
    let mut lines = text.lines();
    let (Some(one), Some(two)) = (lines.next(), lines.next()) else {
        return Err(io::Error::from(ErrorKind::InvalidInput));
    };
    Ok(repeat(alloc, call, turns, &call_demangle(one), &call_demangle(two)))
}
