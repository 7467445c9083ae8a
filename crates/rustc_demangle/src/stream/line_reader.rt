//! Reads a line from a reader, in the reader's chunks.
ghost use Rattle.std.specs.Prelude.{◌≡◌, ◌≢◌, true, All, ◌++◌, take, ◌-◌, ◌<◌, ◌≤◌, length, Ok, IfSome, OnOk, OnSome, IfErr};
ghost use Rattle.std.specs.Io.KnownBytes.{Consumes, IsAtEnd};
ghost use Rattle.std.specs.Io.BufRead.{take_through, DropsThrough};
ghost use Rattle.std.specs.Io.{StartsWith, StopsAt, IsEmptyOrEndsWith, appended_bytes};
ghost use Rattle.rustc_demangle.specs.LineStream.{IsReaderFault};

use crate::stream::fault::{StreamFault, read_fault};
use memchr::memchr;
use std::alloc::Allocator;
use std::io;
use std::io::BufRead;

/// Returns the length up to and including the first line feed, or the complete length if there is
/// none.
fn len_through_feed(bytes: &[u8]) -> usize
    ensures bound { result ≤ length bytes.now }
    ensures some { 0 < length bytes.now → 0 < result }
    ensures before { All (λ x. x ≢ 10) (take (result - 1) bytes.now) }
    ensures through { take result bytes.now ≡ take_through 10 bytes.now }
{
    match memchr(b'\n', bytes) {
        Some(at) => at + 1,
        None => bytes.len(),
    }
}

/// Appends one chunk to the line, up to and including the chunk's first line feed. Returns whether
/// the line is complete, and fails if the reader fails or memory can't be allocated.
fn read_chunk<R: BufRead, A: Allocator>(
    input: &mut R,
    line: &mut Vec<u8, A>,
) -> Result<bool, StreamFault>
    ensures appends { StartsWith line.new.items line.old.items }
    ensures stops { StopsAt (appended_bytes line.old.items line.new.items) 10 }
    ensures bytes { Consumes (R.remaining input.old) (R.remaining input.new)
        (appended_bytes line.old.items line.new.items) }
    ensures end { result ≡ Ok true → length (appended_bytes line.old.items line.new.items) ≡ 0
        → OnSome (R.remaining input.old) (IsAtEnd (R.remaining input.new)) }
    ensures open { result ≢ Ok true
        → All (λ x. x ≢ 10) (appended_bytes line.old.items line.new.items) }
    ensures whole { result ≡ Ok true
        → IsEmptyOrEndsWith (appended_bytes line.old.items line.new.items) 10 }
    ensures named { IfErr result IsReaderFault }
{
    let available = match input.fill_buf() {
        Ok(available) => available,
        Err(error) => return Err(read_fault(error)),
    };
    let end = len_through_feed(available);
    if line.extend_from_slice(&available[..end]).is_err() {
        return Err(StreamFault::Memory);
    }
    let is_whole = end == 0 || available[end - 1] == b'\n';
    input.consume(end);
    Ok(is_whole)
}

/// Appends the rest of a line to the buffer, including its line feed. Fails if the reader fails or
/// memory can't be allocated.
pub(super) fn read_line<R: BufRead, A: Allocator>(
    input: &mut R,
    line: &mut Vec<u8, A>,
) -> Result<(), StreamFault>
    ensures bytes { OnOk result (IfSome (R.remaining input.old)
        (λ xs. line.new.items ≡ line.old.items ++ take_through 10 xs)) }
    ensures rest { OnOk result (DropsThrough (R.remaining input.old) (R.remaining input.new) 10) }
    ensures named { IfErr result IsReaderFault }
{
    for _ in 0..u64::MAX {
        if read_chunk(input, line)? {
            return Ok(());
        }
    }
    Err(StreamFault::Read(io::Error::other("too many fillings")))
}
