//! Tests of what `demangle_filter` does itself: its arguments, statuses and texts, and the times of
//! its flushes. The library's tests cover the demangled output.
use filter_program::filter::filter_run;
use filter_program::flushing::FlushingOutput;
use piece_buffer::CAPACITY;
use std::alloc::{AllocError, Global};
use std::cell::Cell;
use std::io::{BufRead, BufReader, ErrorKind, Read, Write};
use std::process::Abort;
use std::test::Fail;
use streams::{CountingReader, CountingWriter, WatchedWriter, WatchingReader};
use test_doubles::streams::{ChunkReader, FailingWriter, RecordingWriter};

mod outputs;
mod streams;

/// The status of a run, and the text that it wrote to `errors`.
#[derive(Drop)]
struct Ended {
    status: u8,
    errors: Vec<u8>,
}

fn run<R: BufRead, W: Write>(
    alloc: Global,
    args: &[&str],
    input: &mut R,
    output: &mut W,
) -> Result<Ended, AllocError> {
    let mut owned = Vec::new(alloc);
    for arg in args.iter() {
        owned.push(String::from_str(alloc, arg)?)?;
    }
    let mut errors = Vec::new(alloc);
    let status = filter_run(alloc, owned.as_slice(), input, output, &mut errors);
    Ok(Ended { status, errors })
}

/// Asserts that a run over a text succeeds and writes this output.
fn assert_run_writes(
    rt: &impl Abort,
    alloc: Global,
    args: &[&str],
    text: &[u8],
    wanted: &[u8],
) -> Result<(), AllocError> {
    let mut input = text;
    let mut output = Vec::new(alloc);
    let ended = run(alloc, args, &mut input, &mut output)?;
    assert_eq!(rt; ended.status, 0, "of {text:?}");
    assert_eq!(rt; output.as_slice(), wanted, "of {text:?}");
    assert!(rt; ended.errors.is_empty(), "of {text:?}");
    Ok(())
}

#[test]
fn symbols_are_demangled_with_their_hash_or_without(rt: HostRuntime) -> Result<(), AllocError> {
    let text = b"x _ZN3foo17h05af221e174051e9E\r\n\n_RCs_3foo";
    let alloc = rt.alloc();
    assert_run_writes(
        &rt,
        alloc,
        &[],
        text,
        b"x foo::h05af221e174051e9\r\n\nfoo[1]",
    )?;
    assert_run_writes(&rt, alloc, &["--no-hash"], text, b"x foo\r\n\nfoo")?;
    assert_run_writes(&rt, alloc, &[], b"", b"")
}

#[test]
fn other_arguments_read_nothing(rt: HostRuntime) -> Result<(), Fail> {
    let alloc = rt.alloc();
    let cases: [&[&str]; 8] = [
        &["--no-hash", "--no-hash"],
        &["--hash"],
        &["-n"],
        &["--no-has"],
        &["no-hash"],
        &[""],
        &["--no-hash", "x"],
        &["--no-hash "],
    ];
    for args in cases {
        let mut input: &[u8] = b"_ZN3fooE\n";
        let mut output = Vec::new(alloc);
        let ended = run(alloc, args, &mut input, &mut output)?;
        assert_eq!(rt; ended.status, 2, "with {args:?}");
        assert_eq!(rt;
            ended.errors.as_slice(),
            b"usage: demangle_filter [--no-hash]\n".as_slice()
        );
        assert!(rt; output.is_empty(), "with {args:?}");
        assert_eq!(rt; input, b"_ZN3fooE\n".as_slice(), "with {args:?}");
    }
    Ok(())
}

/// Asserts that a run ended with status 1 and this line.
fn assert_failed(rt: &impl Abort, ended: &Ended, line: &[u8]) {
    assert_eq!(rt; ended.status, 1);
    assert_eq!(rt; ended.errors.as_slice(), line);
}

#[test]
fn a_reader_that_fails_is_reported(rt: HostRuntime) -> Result<(), Fail> {
    let alloc = rt.alloc();
    let faults: [(ErrorKind, &[u8]); 2] = [
        (ErrorKind::Other, b"demangle_filter: read failed\n"),
        (ErrorKind::OutOfMemory, b"demangle_filter: out of memory\n"),
    ];
    for (fault, line) in faults {
        let parts: [&[u8]; 1] = [b"x _ZN3fooE\n"];
        let mut input = ChunkReader::new(&parts, 1, fault);
        let mut output = Vec::new(alloc);
        let ended = run(alloc, &[], &mut input, &mut output)?;
        assert_failed(&rt, &ended, line);
        assert_eq!(rt; output.as_slice(), b"x foo\n".as_slice());
    }
    Ok(())
}

#[test]
fn a_line_that_is_not_utf8_is_reported(rt: HostRuntime) -> Result<(), Fail> {
    let alloc = rt.alloc();
    let cases: [(&[u8], &[u8]); 3] = [
        (b"x _ZN3fooE\n_ZN3fooE \xFF\n_ZN3fooE", b"x foo\n"),
        (b"x _RCx _ZN3fooE\n\xFF", b"x _RCx foo\n"),
        (b"x _RCx _ZN3fooE\xFF", b""),
    ];
    for (text, wanted) in cases {
        let mut input = text;
        let mut output = Vec::new(alloc);
        let ended = run(alloc, &[], &mut input, &mut output)?;
        assert_failed(&rt, &ended, b"demangle_filter: not UTF-8\n");
        assert_eq!(rt; output.as_slice(), wanted, "of {text:?}");
    }
    Ok(())
}

const WRITE_FAILED: &[u8] = b"demangle_filter: write failed\n";

#[test]
fn a_writer_that_fails_is_reported(rt: HostRuntime) -> Result<(), Fail> {
    let alloc = rt.alloc();
    let mut input: &[u8] = b"x _ZN3fooE\n";
    let mut output = FailingWriter::new(alloc, b"old", 2, true)?;
    let ended = run(alloc, &[], &mut input, &mut output)?;
    assert_failed(&rt, &ended, WRITE_FAILED);
    assert_eq!(rt; output.written(), b"oldx foo".as_slice());
    Ok(())
}

#[test]
fn a_flush_fails(rt: HostRuntime) -> Result<(), Fail> {
    let alloc = rt.alloc();
    let texts: [(&[u8], &[u8]); 3] = [
        (b"_ZN1a1bE\n", b"olda::b\n"),
        (b"\xFF", b"old"),
        (b"", b"old"),
    ];
    for (text, wanted) in texts {
        let mut input = text;
        let mut output = FailingWriter::new(alloc, b"old", 100, false)?;
        let ended = run(alloc, &[], &mut input, &mut output)?;
        assert_failed(&rt, &ended, WRITE_FAILED);
        assert_eq!(rt; output.written(), wanted, "of {text:?}");
    }
    Ok(())
}

/// Runs the program with an output that is flushed before more is read.
fn run_pausing<R: Read + Drop, W: Write>(
    alloc: Global,
    input: R,
    output: &mut W,
) -> Result<Ended, Fail> {
    let output = FlushingOutput::new(output);
    let mut reader = BufReader::new(alloc, output.reader(input))?;
    Ok(run(alloc, &[], &mut reader, &mut output.writer())?)
}

#[test]
fn an_output_that_fails_in_a_flush_ends_filtering(rt: HostRuntime) -> Result<(), Fail> {
    let alloc = rt.alloc();
    let parts: [&[u8]; 3] = [b"_ZN3fooE\n\xC3", b"\xA9\n", b"z\n"];
    let input = ChunkReader::new(&parts, 100, ErrorKind::Other);
    let mut output = FailingWriter::new(alloc, b"", 100, false)?;
    let ended = run_pausing(alloc, input, &mut output)?;
    assert_failed(&rt, &ended, WRITE_FAILED);
    assert_eq!(rt; output.written(), b"foo\n".as_slice());
    Ok(())
}

#[test]
fn finished_lines_are_flushed_before_more_is_read(rt: HostRuntime) -> Result<(), Fail> {
    let alloc = rt.alloc();
    let is_unflushed = Cell::new(false);
    let parts: [&[u8]; 4] = [b"_ZN3fooE\nx", b"\n", b"a\nb\n", b"_ZN3barE"];
    let input = WatchingReader::new(&parts, &is_unflushed);
    let mut output = WatchedWriter::new(Vec::new(alloc), &is_unflushed);
    let ended = run_pausing(alloc, input, &mut output)?;
    assert_eq!(rt; ended.status, 0);
    assert_eq!(rt; output.written(), b"foo\nx\na\nb\nbar".as_slice());
    assert!(rt; !is_unflushed.get());
    Ok(())
}

#[test]
fn lines_are_written_before_more_is_read(rt: HostRuntime) -> Result<(), Fail> {
    let alloc = rt.alloc();
    let long = vec![in alloc; b'l'; CAPACITY + 5]?;
    let mut text = Vec::from_slice(alloc, b"a\n")?;
    text.extend_from_slice(long.as_slice())?;
    text.extend_from_slice(b"\nb\nc\n")?;
    let ends = [2, CAPACITY + 8, CAPACITY + 12];
    let written = Cell::new(0);
    let is_unflushed = Cell::new(false);
    let input = CountingReader::new(text.as_slice(), &ends, &written, &is_unflushed);
    let mut output = CountingWriter::new(&written, &is_unflushed);
    let ended = run_pausing(alloc, input, &mut output)?;
    assert_eq!(rt; ended.status, 0);
    assert_eq!(rt; written.get(), text.len());
    Ok(())
}

#[test]
fn an_error_of_standard_error_is_ignored(rt: HostRuntime) -> Result<(), Fail> {
    let alloc = rt.alloc();
    let mut args = Vec::new(alloc);
    for wanted in [1, 2] {
        let mut input: &[u8] = b"_ZN3fooE\n\xFF";
        let mut output = Vec::new(alloc);
        let mut errors = FailingWriter::new(alloc, b"", 0, false)?;
        let status = filter_run(alloc, args.as_slice(), &mut input, &mut output, &mut errors);
        assert_eq!(rt; status, wanted);
        assert!(rt; errors.written().is_empty());
        args.push(String::from_str(alloc, "--hash")?)?;
    }
    Ok(())
}

/// Writes one part by `write`. Returns the number of its bytes that were taken.
fn write_part<W: Write>(output: &mut W, part: &[u8]) -> Result<usize, ErrorKind> {
    let output = FlushingOutput::new(output);
    output.writer().write(part).map_err(|error| error.kind())
}

#[test]
fn a_part_goes_to_the_output_at_once(rt: HostRuntime) -> Result<(), Fail> {
    let mut output = FailingWriter::new(rt.alloc(), b"old", 1, true)?;
    assert_eq!(rt; write_part(&mut output, b"foo"), Ok(3));
    assert_eq!(rt; output.written(), b"oldfoo".as_slice());
    assert_eq!(rt; write_part(&mut output, b"bar"), Err(ErrorKind::BrokenPipe));
    assert_eq!(rt; output.written(), b"oldfoo".as_slice());
    Ok(())
}

/// Asserts the writes that the writer receives for these parts.
fn assert_handed_on(
    rt: &impl Abort,
    alloc: Global,
    parts: &[&[u8]],
    wanted: &[&[u8]],
) -> Result<(), Fail> {
    let mut noting = RecordingWriter::new(alloc);
    let output = FlushingOutput::new(&mut noting);
    let mut writer = output.writer();
    for part in parts {
        writer.write_all(part)?;
    }
    writer.flush()?;
    drop(output);
    assert_eq!(rt; noting.writes().len(), wanted.len());
    for (written, wanted) in noting.writes().iter().zip(wanted) {
        assert_eq!(rt; written.as_slice(), *wanted);
    }
    Ok(())
}

#[test]
fn pieces_are_written_when_no_more_fit(rt: HostRuntime) -> Result<(), Fail> {
    let alloc = rt.alloc();
    let full = vec![in alloc; b'f'; CAPACITY]?;
    let full = full.as_slice();
    let (prefix, back) = full.split_at(2000);
    let long = vec![in alloc; b'l'; CAPACITY + 1]?;
    let long = long.as_slice();
    assert_handed_on(&rt, alloc, &[], &[])?;
    assert_handed_on(&rt, alloc, &[prefix, back], &[full])?;
    assert_handed_on(&rt, alloc, &[prefix, back, b"x", b"y"], &[full, b"xy"])?;
    assert_handed_on(&rt, alloc, &[prefix, full, b"x"], &[prefix, full, b"x"])?;
    assert_handed_on(&rt, alloc, &[b"a", long, b"b"], &[b"a", long, b"b"])
}

#[test]
fn a_failed_write_is_reported_by_the_flush(rt: HostRuntime) -> Result<(), Fail> {
    let alloc = rt.alloc();
    let full = vec![in alloc; b'f'; CAPACITY]?;
    let mut refusing = FailingWriter::new(alloc, b"old", 0, true)?;
    let output = FlushingOutput::new(&mut refusing);
    let mut writer = output.writer();
    assert!(rt; writer.write_all(b"x").is_ok());
    assert!(rt; writer.write_all(full.as_slice()).is_err());
    let told = writer.flush().map_err(|error| error.kind());
    assert_eq!(rt; told, Err(ErrorKind::BrokenPipe));
    drop(output);
    assert_eq!(rt; refusing.written(), b"old".as_slice());
    Ok(())
}
