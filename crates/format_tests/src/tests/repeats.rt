//! Tests of repeated symbols, with chunks of all sizes and several limits.
use rustc_demangle::{BytesFilter, SymbolMemo, demangle_bytes_limited};
use std::alloc::{AllocError, Global};
use std::io::ErrorKind;
use std::process::Abort;
use std::test::Fail;
use test_doubles::streams::{ChunkReader, FailingWriter, RecordingWriter};

/// The number of times that each text is repeated.
const TIMES: usize = 5;

/// A symbol whose text is longer than a memo stores.
const LONG: &[u8] = b"_RIC1aTyyyyyyyyyyyyyyyyETB3_B3_B3_ETBl_Bl_Bl_ETBw_Bw_Bw_EE";

/// A run, a limit, and the texts printed under it, with the hash and without it.
type Row = (&'static [u8], usize, &'static [u8], &'static [u8]);

/// Runs that a memo looks up.
const ROWS: [Row; 15] = [
    (
        b"_ZN3foo17h05af221e174051e9E",
        1_000_000,
        b"foo::h05af221e174051e9",
        b"foo",
    ),
    (
        b"_RNvMNtNtNtNtCs8a2262Dv4r_3mio3sys4unix8selector5epollNtB2_8Selector6select",
        1_000_000,
        b"<mio[1888792e1a78739]::sys::unix::selector::epoll::Selector>::select",
        b"<mio::sys::unix::selector::epoll::Selector>::select",
    ),
    (
        b"_RNvC5crate4main.llvm.0@1",
        1_000_000,
        b"crate::main@1",
        b"crate::main@1",
    ),
    (
        b"_ZNfoo17h05af221e174051e9E",
        1_000_000,
        b"_ZNfoo17h05af221e174051e9E",
        b"_ZNfoo17h05af221e174051e9E",
    ),
    (
        b"_RNvC5crate4mainNo_symbol",
        1_000_000,
        b"_RNvC5crate4mainNo_symbol",
        b"_RNvC5crate4mainNo_symbol",
    ),
    // A first path that prints, and then what makes the run no symbol, or a symbol all the same.
    (
        b"_RNvC5crate4main_not_allowed",
        1_000_000,
        b"_RNvC5crate4main_not_allowed",
        b"_RNvC5crate4main_not_allowed",
    ),
    (
        b"_RNvC5crate4mainNvC5other",
        1_000_000,
        b"_RNvC5crate4mainNvC5other",
        b"_RNvC5crate4mainNvC5other",
    ),
    (
        b"_RNvNtC5crate4main3fooC5other.llvm.1F",
        1_000_000,
        b"crate::main::foo",
        b"crate::main::foo",
    ),
    // A symbol whose first path prints an error.
    (
        b"_RINvC5crate7genericRL1_uE",
        1_000_000,
        b"crate::generic::<&'{invalid syntax} ?>",
        b"crate::generic::<&'{invalid syntax} ?>",
    ),
    (
        b"_ZN3foo17h05af221e174051e9E",
        3,
        b"foo{size limit reached}",
        b"foo",
    ),
    (
        b"_RNvMNtNtNtNtCs8a2262Dv4r_3mio3sys4unix8selector5epollNtB2_8Selector6select",
        3,
        b"<{size limit reached}",
        b"<{size limit reached}",
    ),
    (
        LONG,
        3,
        b"a::{size limit reached}",
        b"a::{size limit reached}",
    ),
    (
        b"_ZN3foo17h05af221e174051e9E",
        0,
        b"{size limit reached}",
        b"{size limit reached}",
    ),
    (
        b"_ZNfoo17h05af221e174051e9E",
        0,
        b"_ZNfoo17h05af221e174051e9E",
        b"_ZNfoo17h05af221e174051e9E",
    ),
    (LONG, 0, b"{size limit reached}", b"{size limit reached}"),
];

/// A text, and its output in one form.
#[derive(Drop)]
struct Case<'a> {
    text: &'a [u8],
    include_hash: bool,
    limit: usize,
    wanted: &'a [u8],
}

impl Case<'_> {
    /// Asserts the output for the text in chunks of one size.
    fn assert_written(&self, rt: &impl Abort, alloc: Global, size: usize) -> Result<(), Fail> {
        let parts: Vec<&[u8]> = self.text.chunks(size.max(1)).collect(alloc)?;
        let mut input = ChunkReader::new(parts.as_slice(), usize::MAX, ErrorKind::Other);
        let mut output = Vec::new(alloc);
        demangle_bytes_limited(
            alloc,
            &mut input,
            &mut output,
            self.include_hash,
            self.limit,
        )
        .map_err(|fault| fault.into_io())?;
        assert_eq!(rt;
            output.as_slice(),
            self.wanted,
            "of {:?} by {size}",
            self.text
        );
        Ok(())
    }
}

/// Returns a text `TIMES` times, each on a line.
pub(super) fn repeated(alloc: Global, text: &[u8]) -> Result<Vec<u8>, AllocError> {
    let mut lines = Vec::new(alloc);
    for _ in 0..TIMES {
        lines.extend_from_slice(text)?;
        lines.extend_from_slice(b"\n")?;
    }
    Ok(lines)
}

#[test]
fn a_repeated_run_is_written_alike(rt: HostRuntime) -> Result<(), Fail> {
    let alloc = rt.alloc();
    for (run, limit, plain, alt) in ROWS {
        let text = repeated(alloc, run)?;
        for (include_hash, printed) in [(true, plain), (false, alt)] {
            let wanted = repeated(alloc, printed)?;
            let case = Case {
                text: text.as_slice(),
                include_hash,
                limit,
                wanted: wanted.as_slice(),
            };
            for size in [1, 2, 3, 64, 4_096] {
                case.assert_written(&rt, alloc, size)?;
            }
        }
    }
    Ok(())
}

/// Returns the text of a tuple that has this text as each of its `times` elements.
fn tuple_of(alloc: Global, text: &[u8], times: usize) -> Result<Vec<u8>, AllocError> {
    let mut tuple = Vec::from_slice(alloc, b"(")?;
    for at in 0..times {
        if at > 0 {
            tuple.extend_from_slice(b", ")?;
        }
        tuple.extend_from_slice(text)?;
    }
    tuple.extend_from_slice(b")")?;
    Ok(tuple)
}

/// Returns what `LONG` prints.
fn long_text(alloc: Global) -> Result<Vec<u8>, AllocError> {
    let mut printed = Vec::from_slice(alloc, b"a::<")?;
    let mut tuple = tuple_of(alloc, b"u64", 16)?;
    printed.extend_from_slice(tuple.as_slice())?;
    for _ in 0..3 {
        tuple = tuple_of(alloc, tuple.as_slice(), 3)?;
        printed.extend_from_slice(b", ")?;
        printed.extend_from_slice(tuple.as_slice())?;
    }
    printed.extend_from_slice(b">")?;
    Ok(printed)
}

#[test]
fn a_long_text_is_written_whole_each_time(rt: HostRuntime) -> Result<(), Fail> {
    let alloc = rt.alloc();
    let printed = long_text(alloc)?;
    let text = repeated(alloc, LONG)?;
    let wanted = repeated(alloc, printed.as_slice())?;
    let case = Case {
        text: text.as_slice(),
        include_hash: true,
        limit: 1_000_000,
        wanted: wanted.as_slice(),
    };
    for size in [1, 64, 4_096] {
        case.assert_written(&rt, alloc, size)?;
    }
    Ok(())
}

#[test]
fn a_long_text_is_one_write(rt: HostRuntime) -> Result<(), Fail> {
    let alloc = rt.alloc();
    let printed = long_text(alloc)?;
    let text = repeated(alloc, LONG)?;
    let mut input = text.as_slice();
    let mut output = RecordingWriter::new(alloc);
    let result = demangle_bytes_limited(alloc, &mut input, &mut output, true, 1_000_000);
    result.map_err(|fault| fault.into_io())?;
    assert_eq!(rt; output.writes().len(), 2 * TIMES);
    for pair in output.writes().chunks_exact(2) {
        let [path, after] = pair else {
            return Err("a line is two writes".into());
        };
        assert_eq!(rt; path.as_slice(), printed.as_slice());
        assert_eq!(rt; after.as_slice(), b"\n".as_slice());
    }
    Ok(())
}

#[test]
fn a_run_that_is_too_long_for_the_memo_is_one_write(rt: HostRuntime) -> Result<(), Fail> {
    let alloc = rt.alloc();
    let mut suffix = Vec::new(alloc);
    suffix.push(b'.')?;
    for _ in 0..2_048u32 {
        suffix.push(b'x')?;
    }
    let mut text = Vec::new(alloc);
    text.extend_from_slice(LONG)?;
    text.extend_from_slice(suffix.as_slice())?;
    let mut printed = long_text(alloc)?;
    printed.extend_from_slice(suffix.as_slice())?;
    let mut input = text.as_slice();
    let mut output = RecordingWriter::new(alloc);
    let result = demangle_bytes_limited(alloc, &mut input, &mut output, true, 1_000_000);
    result.map_err(|fault| fault.into_io())?;
    let [path] = output.writes() else {
        return Err("the symbol is one write".into());
    };
    assert_eq!(rt; path.as_slice(), printed.as_slice());
    Ok(())
}

#[test]
fn a_long_text_is_noted(rt: HostRuntime) -> Result<(), Fail> {
    let alloc = rt.alloc();
    let mut memo = SymbolMemo::new(alloc, true, 1_000_000);
    let text = repeated(alloc, LONG)?;
    let mut filter = BytesFilter::new(alloc);
    let mut input = text.as_slice();
    let mut output = Vec::new(alloc);
    for _ in 0..100u32 {
        match filter.step(&mut input, &mut output, &mut memo) {
            Ok(true) => {}
            Ok(false) => break,
            Err(fault) => return Err(fault.into_io().into()),
        }
    }
    // The table of the symbols that came, that of the ones whose texts are too long, and the buffer
    // of the last text.
    assert_eq!(rt; memo.allocated(), 69_632);
    Ok(())
}

#[test]
fn alternating_runs_keep_their_texts(rt: HostRuntime) -> Result<(), Fail> {
    let alloc = rt.alloc();
    for include_hash in [true, false] {
        let mut text = Vec::new(alloc);
        let mut wanted = Vec::new(alloc);
        for (run, limit, plain, alt) in ROWS {
            if limit == 1_000_000 {
                text.extend_from_slice(run)?;
                text.push(b' ')?;
                wanted.extend_from_slice(if include_hash { plain } else { alt })?;
                wanted.push(b' ')?;
            }
        }
        let text = repeated(alloc, text.as_slice())?;
        let wanted = repeated(alloc, wanted.as_slice())?;
        let case = Case {
            text: text.as_slice(),
            include_hash,
            limit: 1_000_000,
            wanted: wanted.as_slice(),
        };
        for size in [1, 2, 3, 64, 4_096] {
            case.assert_written(&rt, alloc, size)?;
        }
    }
    Ok(())
}

#[test]
fn filters_share_a_memo(rt: HostRuntime) -> Result<(), Fail> {
    let alloc = rt.alloc();
    let mut memo = SymbolMemo::new(alloc, false, 1_000_000);
    let mut output = Vec::new(alloc);
    for _ in 0..TIMES {
        let mut filter = BytesFilter::new(alloc);
        let mut input = b"<_ZN3foo17h05af221e174051e9E>\n".as_slice();
        for _ in 0..100u32 {
            match filter.step(&mut input, &mut output, &mut memo) {
                Ok(true) => {}
                Ok(false) => break,
                Err(fault) => return Err(fault.into_io().into()),
            }
        }
    }
    assert_eq!(rt; output.as_slice(), repeated(alloc, b"<foo>")?.as_slice());
    Ok(())
}

#[test]
fn a_repeated_symbol_is_one_write(rt: HostRuntime) -> Result<(), Fail> {
    let alloc = rt.alloc();
    let text = repeated(alloc, b"_RNvC5crate4main.llvm.0@1")?;
    // A v0 symbol is one write when it is found first, too.
    let writes: [&[u8]; 10] = [
        b"crate::main",
        b"@1\n",
        b"crate::main",
        b"@1\n",
        b"crate::main",
        b"@1\n",
        b"crate::main",
        b"@1\n",
        b"crate::main",
        b"@1\n",
    ];
    for taken in 0..=writes.len() {
        let mut input = text.as_slice();
        let mut output = FailingWriter::new(alloc, b"", taken, true)?;
        let result = demangle_bytes_limited(alloc, &mut input, &mut output, true, 1_000_000);
        assert_eq!(rt; result.is_ok(), taken == writes.len(), "at {taken}");
        let mut wanted = Vec::new(alloc);
        for write in writes.iter().take(taken) {
            wanted.extend_from_slice(write)?;
        }
        assert_eq!(rt; output.written(), wanted.as_slice(), "at {taken}");
    }
    Ok(())
}
