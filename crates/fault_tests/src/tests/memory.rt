//! Tests of streams in heaps of a fixed size, in which each allocation fails in turn.
use linked_list_allocator::LocalHeap;
use rustc_demangle::{BytesFilter, StreamFault, SymbolMemo, demangle_stream_named};
use std::alloc::Global;
use std::io;
use std::io::{BufRead, Read};
use std::test::Fail;

const TEXT: &[u8] = b"_ZN3fooE.llvm moocow _ZN3fooE.llvm\n\
    and a longer line, which needs more room than the first one had: _ZN3foo3barE _ZN3fooE.llvm\n";

const FIRST: &[u8] = b"foo.llvm moocow foo.llvm\n";

const WHOLE: &[u8] = b"foo.llvm moocow foo.llvm\n\
    and a longer line, which needs more room than the first one had: foo::bar foo.llvm\n";

const TWICE: &[u8] =
    b"_ZN3fooE.llvm moocow _RNvMNtNtNtNtCs8a2262Dv4r_3mio3sys4unix8selector5epollNtB2_8Selector6select _ZN3fooE.llvm\n\
    _ZN3fooE.llvm moocow _RNvMNtNtNtNtCs8a2262Dv4r_3mio3sys4unix8selector5epollNtB2_8Selector6select _ZN3fooE.llvm\n";

const ONCE_COPIED: &[u8] =
    b"foo.llvm moocow <mio::sys::unix::selector::epoll::Selector>::select foo.llvm\n";

const TWICE_COPIED: &[u8] =
    b"foo.llvm moocow <mio::sys::unix::selector::epoll::Selector>::select foo.llvm\n\
    foo.llvm moocow <mio::sys::unix::selector::epoll::Selector>::select foo.llvm\n";

/// Which outcomes the copies had.
#[derive(Clone, Copy, Default)]
struct Copies {
    refused_first: bool,
    refused_second: bool,
    whole: bool,
    other: bool,
}

/// Checks that each heap size lets the buffer grow to its own limit, and that each failure leaves
/// complete lines.
fn copied_in_heaps(alloc: Global, text: &[u8], first: &[u8], whole: &[u8]) -> Result<Copies, Fail> {
    let mut copies = Copies::default();
    for units in 1..64usize {
        let heap = LocalHeap::new(alloc, units * 16)?;
        let mut input = text;
        let mut output = Vec::new(alloc);
        match demangle_stream_named(&heap, &mut input, &mut output, false) {
            Ok(()) if output.as_slice() == whole => copies.whole = true,
            Err(StreamFault::Memory) if output.is_empty() => copies.refused_first = true,
            Err(StreamFault::Memory) if output.as_slice() == first => copies.refused_second = true,
            _ => copies.other = true,
        }
    }
    Ok(copies)
}

#[test]
fn allocation_fails(rt: HostRuntime) -> Result<(), Fail> {
    let growing = copied_in_heaps(rt.alloc(), TEXT, FIRST, WHOLE)?;
    assert!(rt; growing.refused_first && growing.refused_second && growing.whole && !growing.other);
    // The second line needs no more memory than the first.
    let equal = copied_in_heaps(rt.alloc(), TWICE, ONCE_COPIED, TWICE_COPIED)?;
    assert!(rt; equal.refused_first && !equal.refused_second && equal.whole && !equal.other);
    Ok(())
}

/// A reader of a text in chunks of one byte. It records the chunks before which the heap had grown.
#[derive(Drop)]
struct WatchingReader<'a> {
    text: &'a [u8],
    taken: usize,
    heap: &'a LocalHeap,
    used: usize,
    requests: Vec<usize>,
}

impl<'a> WatchingReader<'a> {
    fn new(alloc: Global, text: &'a [u8], heap: &'a LocalHeap) -> WatchingReader<'a> {
        WatchingReader {
            text,
            taken: 0,
            heap,
            used: heap.used(),
            requests: Vec::new(alloc),
        }
    }
}

impl Read for WatchingReader<'_> {
    fn read(&mut self, buf: &mut [u8]) -> io::Result<usize> {
        let part = self.fill_buf()?;
        let count = part.len().min(buf.len());
        buf[..count].copy_from_slice(&part[..count]);
        self.consume(count);
        Ok(count)
    }
}

impl BufRead for WatchingReader<'_> {
    fn fill_buf(&mut self) -> io::Result<&[u8]> {
        let used = self.heap.used();
        if used != self.used {
            self.used = used;
            self.requests.push(self.taken.saturating_sub(1))?;
        }
        match self.text.get(self.taken..self.taken.saturating_add(1)) {
            None => Ok(b""),
            Some(part) => Ok(part),
        }
    }

    fn consume(&mut self, amount: usize) {
        self.taken = self.taken.saturating_add(amount);
    }
}

/// Returns the chunks at which a copy allocates, if each allocation succeeds.
fn requests_of(alloc: Global, text: &[u8], whole: &[u8]) -> Result<Vec<usize>, Fail> {
    let heap = LocalHeap::new(alloc, 4_096)?;
    let mut input = WatchingReader::new(alloc, text, &heap);
    let mut output = Vec::new(alloc);
    let result = demangle_stream_named(&heap, &mut input, &mut output, false);
    if result.is_err() || output.as_slice() != whole {
        return Err("it is not copied".into());
    }
    Ok(input.requests)
}

/// Returns the chunks at which an allocation fails, in heaps of all sizes. Asserts that a copy that
/// failed wrote only the lines before that chunk.
fn refusals_of(alloc: Global, text: &[u8], first: &[u8], whole: &[u8]) -> Result<Vec<usize>, Fail> {
    let mut refusals = Vec::new(alloc);
    for units in 1..64usize {
        let heap = LocalHeap::new(alloc, units * 16)?;
        // The smallest heap has room for one block of 16 bytes. This byte uses it, so the first
        // allocation fails.
        let mut held = Vec::new(&heap);
        held.push(0u8)?;
        let mut input = WatchingReader::new(alloc, text, &heap);
        let mut output = Vec::new(alloc);
        let result = demangle_stream_named(&heap, &mut input, &mut output, false);
        let prefix = text.get(..input.taken).unwrap_or(text);
        let written = if result.is_ok() {
            whole
        } else if prefix.contains(&b'\n') {
            first
        } else {
            b""
        };
        match result {
            Ok(()) => {}
            Err(StreamFault::Memory) => refusals.push(input.taken)?,
            Err(_) => return Err("it is another fault".into()),
        }
        if output.as_slice() != written {
            return Err("it wrote something else".into());
        }
    }
    Ok(refusals)
}

#[test]
fn each_allocation_fails_once(rt: HostRuntime) -> Result<(), Fail> {
    let alloc = rt.alloc();
    for (text, first, whole) in [(TEXT, FIRST, WHOLE), (TWICE, ONCE_COPIED, TWICE_COPIED)] {
        let requests = requests_of(alloc, text, whole)?;
        let refusals = refusals_of(alloc, text, first, whole)?;
        assert!(rt; requests.len() >= 4);
        for request in requests.iter() {
            assert!(rt; refusals.contains(request), "at {request}");
        }
    }
    Ok(())
}

const RUNS: &[u8] = b"\xE9 _ZN1aE _ZN3fooE _ZN3foo3barE.a_long_suffix_that_wants_more \xE9";

/// The output before each run, and the complete output.
const WRITTEN: [&[u8]; 4] = [
    b"\xE9 ",
    b"\xE9 a ",
    b"\xE9 a foo ",
    b"\xE9 a foo foo::bar.a_long_suffix_that_wants_more \xE9",
];

/// Returns the index of the text that is written in a heap of this size, from chunks of one byte.
fn written_in_heap(alloc: Global, size: usize) -> Result<usize, Fail> {
    let heap = LocalHeap::new(alloc, size)?;
    // As above, the first allocation fails in the smallest heap.
    let mut held = Vec::new(&heap);
    held.push(0u8)?;
    let mut filter = BytesFilter::new(&heap);
    let mut memo = SymbolMemo::new(alloc, false, 1_000_000);
    let mut input = WatchingReader::new(alloc, RUNS, &heap);
    let mut output = Vec::new(alloc);
    let mut is_whole = false;
    for _ in 0..10_000u32 {
        match filter.step(&mut input, &mut output, &mut memo) {
            Ok(true) => {}
            Ok(false) => {
                is_whole = true;
                break;
            }
            Err(StreamFault::Memory) => break,
            Err(_) => return Err("it is another fault".into()),
        }
    }
    for (at, text) in WRITTEN.iter().enumerate() {
        if *text == output.as_slice() && is_whole == (at == 3) {
            return Ok(at);
        }
    }
    Err("it wrote something else".into())
}

#[test]
fn allocation_fails_for_a_pending_run(rt: HostRuntime) -> Result<(), Fail> {
    let mut is_written = [false; 4];
    for units in 1..64usize {
        let at = written_in_heap(rt.alloc(), units * 16)?;
        if let Some(is_at) = is_written.get_mut(at) {
            *is_at = true;
        }
    }
    // The second run is not longer than the first, so it needs no allocation.
    assert_eq!(rt; is_written, [true, false, true, true]);
    Ok(())
}
