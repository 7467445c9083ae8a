//! Tests of each public call, with an input for which it succeeds.
use rustc_demangle::sink::{ArraySink, SinkRefused, SliceSink, TextSink, WriteSink};
use rustc_demangle::{
    Looks, StreamFault, demangle, demangle_counted, demangle_stream, demangle_stream_named,
    try_demangle,
};
use std::alloc::Global;
use std::io;
use std::io::ErrorKind;
use std::process::Abort;
use std::test::Fail;

const SYMBOL: &str = "_ZN3foo17h05af221e174051e9E.x.llvm.AB";

#[test]
fn symbols_are_read(rt: HostRuntime) {
    let stripped = "_ZN3foo17h05af221e174051e9E.x";
    assert_eq!(rt; demangle(SYMBOL).as_str(), stripped);
    assert_eq!(rt;
        demangle_counted(SYMBOL, &mut Looks::new()).as_str(),
        stripped
    );
    assert!(rt; matches!(try_demangle(SYMBOL), Ok(symbol) if symbol.as_str() == stripped));
}

#[test]
fn symbols_are_printed(rt: HostRuntime) {
    let symbol = demangle(SYMBOL);
    let mut looks = Looks::new();
    let mut sink: ArraySink<100> = ArraySink::new();
    assert!(rt; symbol.write_to(&mut sink, true).is_ok());
    assert_eq!(rt; sink.as_str(), "foo::h05af221e174051e9.x");
    let mut sink: ArraySink<100> = ArraySink::new();
    assert!(rt; symbol.write_counted(&mut sink, false, &mut looks).is_ok());
    assert_eq!(rt; sink.as_str(), "foo.x");
    let mut sink: ArraySink<100> = ArraySink::new();
    assert!(rt; symbol.write_limited(&mut sink, true, 5).is_ok());
    assert_eq!(rt; sink.as_str(), "foo::{size limit reached}.x");
    let mut sink: ArraySink<100> = ArraySink::new();
    assert!(rt;
        symbol
            .write_limited_counted(&mut sink, true, 4, &mut looks)
            .is_ok()
    );
    assert_eq!(rt; sink.as_str(), "foo{size limit reached}.x");
}

#[test]
fn a_value_prints_into_several_sinks(rt: HostRuntime) -> Result<(), Fail> {
    let symbol = demangle(SYMBOL);
    let mut text = Vec::from_slice(rt.alloc(), b"at ")?;
    let mut sink = WriteSink::new(&mut text);
    assert!(rt; symbol.write_to(&mut sink, false).is_ok());
    assert!(rt; sink.put(", ").is_ok());
    assert!(rt; symbol.write_to(&mut sink, true).is_ok());
    assert!(rt; !sink.is_failed());
    assert!(rt; sink.into_fault().is_none());
    assert_eq!(rt;
        text.as_slice(),
        b"at foo.x, foo::h05af221e174051e9.x".as_slice()
    );
    Ok(())
}

/// Returns a clone of a value.
fn clone_of<T: Clone>(value: &T) -> Result<T, Fail> {
    Ok(value.clone()?)
}

#[test]
fn errors_are_values(rt: HostRuntime) -> Result<(), Fail> {
    let alloc = rt.alloc();
    let error = try_demangle("foo").err().ok_or("no error")?;
    let again = error.clone()?;
    for value in [&error, &again] {
        assert_eq!(rt;
            format!(in alloc; "{value:?}")?.as_str(),
            "TryDemangleError { _priv: () }"
        );
    }
    let refused = SinkRefused;
    let copied = refused;
    let cloned = clone_of(&refused)?;
    assert_eq!(rt;
        format!(in alloc; "{refused:?} {copied:?} {cloned:?}")?.as_str(),
        "SinkRefused SinkRefused SinkRefused"
    );
    Ok(())
}

#[test]
fn an_array_is_a_sink(rt: HostRuntime) {
    let mut sink: ArraySink<4> = ArraySink::new();
    assert_eq!(rt; sink.as_str(), "");
    for piece in ["ab", "", "c"] {
        assert!(rt; !sink.is_failed());
        assert!(rt; sink.put(piece).is_ok());
    }
    assert_eq!(rt; sink.as_str(), "abc");
    assert!(rt; !sink.is_failed());
    assert!(rt; sink.put("de").is_err());
    assert!(rt; sink.is_failed());
    assert_eq!(rt; sink.as_str(), "abc");
}

#[test]
fn memory_is_a_sink(rt: HostRuntime) {
    let mut memory = [9; 5];
    let mut sink = SliceSink::new(&mut memory[..3]);
    assert_eq!(rt; sink.len(), 0);
    for piece in ["a", "", "\u{e9}e", "f"] {
        assert!(rt; !sink.is_failed());
        assert!(rt; sink.put(piece).is_ok());
    }
    assert_eq!(rt; sink.len(), 5);
    assert!(rt; memory == *b"a\xc3\xa9\x09\x09");
}

#[test]
fn memory_keeps_the_prefix(rt: HostRuntime) {
    for &(room, text) in &[
        (0, ""),
        (1, "f"),
        (4, "foo:"),
        (8, "foo::bar"),
        (9, "foo::bar"),
    ] {
        let mut memory = [9; 12];
        let mut sink = SliceSink::new(&mut memory[..room]);
        assert!(rt; demangle("_RNvC3foo3bar").write_to(&mut sink, true).is_ok());
        assert_eq!(rt; sink.len(), 8, "in {room}");
        assert!(rt; memory.starts_with(text.as_bytes()), "in {room}");
        let mut following = memory.iter().skip(text.len());
        assert!(rt; following.all(|byte| *byte == 9), "in {room}");
    }
}

#[test]
fn streams_are_copied(rt: HostRuntime) -> Result<(), Fail> {
    let alloc = rt.alloc();
    let (mut first, mut second) = (SYMBOL.as_bytes(), SYMBOL.as_bytes());
    let mut output = Vec::from_slice(alloc, b"at ")?;
    demangle_stream(alloc, &mut first, &mut output, true)?;
    assert!(rt; first.is_empty());
    let result = demangle_stream_named(alloc, &mut second, &mut output, false);
    assert!(rt; result.is_ok());
    assert!(rt; second.is_empty());
    assert_eq!(rt;
        output.as_slice(),
        b"at foo::h05af221e174051e9.xfoo.x".as_slice()
    );
    Ok(())
}

/// Asserts the kind and the text of the error that a fault becomes.
fn assert_becomes(
    rt: &impl Abort,
    alloc: Global,
    fault: StreamFault,
    wanted: (ErrorKind, &str),
) -> Result<(), Fail> {
    let (kind, text) = wanted;
    let error = fault.into_io();
    assert_eq!(rt; error.kind(), kind);
    assert_eq!(rt; format!(in alloc; "{error}")?.as_str(), text);
    Ok(())
}

#[test]
fn faults_become_errors(rt: HostRuntime) -> Result<(), Fail> {
    let alloc = rt.alloc();
    let read = StreamFault::Read(io::Error::new(ErrorKind::TimedOut, "late"));
    assert_becomes(&rt, alloc, read, (ErrorKind::TimedOut, "late"))?;
    let write = StreamFault::Write(io::Error::new(ErrorKind::BrokenPipe, "gone"));
    assert_becomes(&rt, alloc, write, (ErrorKind::BrokenPipe, "gone"))?;
    let bytes = (ErrorKind::InvalidData, "the stream is not UTF-8");
    assert_becomes(&rt, alloc, StreamFault::NotUtf8, bytes)?;
    let memory = (ErrorKind::OutOfMemory, "out of memory");
    assert_becomes(&rt, alloc, StreamFault::Memory, memory)
}
