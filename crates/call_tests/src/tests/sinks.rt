//! Tests of sinks that take a part of the text, and of their contents then. What a test asserts is
//! run, not proved, so that its helpers have no contract.
use rustc_demangle::sink::{ArraySink, TextSink, WriteSink};
use rustc_demangle::{Demangle, demangle, demangle_stream};
use std::alloc::Global;
use std::io;
use std::io::{ErrorKind, Write};
use std::process::Abort;
use std::test::Fail;
use test_doubles::RefusingSink;

/// Counts the texts that are written completely, their bytes, and the flushes.
#[derive(Drop, Default)]
struct CountingWriter {
    texts: usize,
    bytes: usize,
    flushes: usize,
}

impl Write for CountingWriter {
    fn write(&mut self, buf: &[u8]) -> io::Result<usize> {
        self.bytes = self.bytes.saturating_add(buf.len());
        Ok(buf.len())
    }

    fn write_all(&mut self, buf: &[u8]) -> io::Result<()> {
        self.texts = self.texts.saturating_add(1);
        self.bytes = self.bytes.saturating_add(buf.len());
        Ok(())
    }

    fn flush(&mut self) -> io::Result<()> {
        self.flushes = self.flushes.saturating_add(1);
        Ok(())
    }
}

#[test]
fn a_full_sink_holds_the_pieces_before_the_rejected_one(rt: HostRuntime) {
    let symbol = demangle("_ZN1a1bE");
    for include_hash in [true, false] {
        let mut sink: ArraySink<4> = ArraySink::new();
        assert!(rt; symbol.write_to(&mut sink, include_hash).is_ok());
        assert_eq!(rt; sink.as_str(), "a::b");
        assert!(rt; !sink.is_failed());
        let mut sink: ArraySink<2> = ArraySink::new();
        assert!(rt; symbol.write_to(&mut sink, include_hash).is_err());
        assert_eq!(rt; sink.as_str(), "a");
        assert!(rt; sink.is_failed());
    }
}

/// Asserts that a sink that takes this many of a symbol's four pieces has this text then.
fn assert_takes(rt: &impl Abort, symbol: &Demangle<'_>, include_hash: bool, taken: (usize, &str)) {
    let (pieces, text) = taken;
    let mut sink = RefusingSink::new(pieces.saturating_add(1));
    let result = symbol.write_to(&mut sink, include_hash);
    assert_eq!(rt; result.is_ok(), pieces == 4, "after {pieces}");
    assert_eq!(rt; sink.is_failed(), pieces != 4, "after {pieces}");
    assert_eq!(rt; sink.as_str(), text, "after {pieces}");
}

#[test]
fn each_piece_is_rejected_in_turn(rt: HostRuntime) {
    let symbol = demangle("_ZN1a1bE.x");
    let texts = ["", "a", "a::", "a::b", "a::b.x"];
    for (pieces, text) in texts.iter().enumerate() {
        for include_hash in [true, false] {
            assert_takes(&rt, &symbol, include_hash, (pieces, *text));
        }
    }
}

#[test]
fn each_piece_of_a_disambiguator_is_rejected_in_turn(rt: HostRuntime) {
    let symbol = demangle("_RCs_3foo");
    let texts = ["", "foo", "foo[", "foo[1", "foo[1]"];
    for (pieces, text) in texts.iter().enumerate() {
        assert_takes(&rt, &symbol, true, (pieces, *text));
    }
}

#[test]
fn empty_pieces_are_taken_where_no_other_is(rt: HostRuntime) {
    for symbol in ["_ZNE", "_ZN0E", "", ".llvm."] {
        let mut sink = RefusingSink::new(1);
        assert!(rt;
            demangle(symbol).write_to(&mut sink, true).is_ok(),
            "{symbol}"
        );
        let mut room: &mut [u8] = &mut [];
        let mut sink = WriteSink::new(&mut room);
        assert!(rt;
            demangle(symbol).write_to(&mut sink, true).is_ok(),
            "{symbol}"
        );
        assert!(rt; sink.into_fault().is_none(), "{symbol}");
    }
}

#[test]
fn a_write_sink_holds_the_error_of_its_writer(rt: HostRuntime) {
    let mut bytes = [0; 4];
    let mut room = bytes.as_mut_slice();
    let mut sink = WriteSink::new(&mut room);
    assert!(rt; demangle("_ZN1a3bcdE").write_to(&mut sink, true).is_err());
    assert!(rt; sink.is_failed());
    let fault = sink.into_fault();
    assert!(rt; matches!(&fault, Some(fault) if fault.kind() == ErrorKind::WriteZero));
    assert!(rt; bytes.starts_with(b"a::"));
}

/// Returns what a writer counts of a text that the stream copies to it.
fn count_of(alloc: Global, text: &[u8]) -> io::Result<CountingWriter> {
    let mut input = text;
    let mut writer = CountingWriter::default();
    demangle_stream(alloc, &mut input, &mut writer, true)?;
    Ok(writer)
}

#[test]
fn a_write_sink_writes_each_piece_once_and_flushes_nothing(rt: HostRuntime) -> Result<(), Fail> {
    for (symbol, texts, bytes) in [("_ZN1a1bE.x", 4, 6), ("_ZN1a0E", 2, 3), ("_ZNE", 0, 0)] {
        let mut writer = CountingWriter::default();
        let mut sink = WriteSink::new(&mut writer);
        assert!(rt; demangle(symbol).write_to(&mut sink, true).is_ok());
        assert!(rt; sink.into_result().is_ok());
        assert_eq!(rt; writer.texts, texts, "of {symbol}");
        assert_eq!(rt; writer.bytes, bytes, "of {symbol}");
        assert_eq!(rt; writer.flushes, 0, "of {symbol}");
    }
    let writer = count_of(rt.alloc(), b"_ZN1a1bE.x\n")?;
    assert_eq!(rt; (writer.texts, writer.bytes, writer.flushes), (5, 7, 0));
    Ok(())
}
