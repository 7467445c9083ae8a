//! Readers and writers that check the times of writes and flushes.
use std::cell::Cell;
use std::io;
use std::io::{ErrorKind, Read, Write};
use test_doubles::streams::ChunkReader;

/// Stores the bytes that are written, and shows its reader whether they were flushed.
#[derive(Drop)]
pub struct WatchedWriter<'a> {
    written: Vec<u8>,
    is_unflushed: &'a Cell<bool>,
}

impl<'a> WatchedWriter<'a> {
    pub fn new(written: Vec<u8>, is_unflushed: &'a Cell<bool>) -> WatchedWriter<'a> {
        WatchedWriter {
            written,
            is_unflushed,
        }
    }

    pub fn written(&self) -> &[u8] {
        self.written.as_slice()
    }
}

impl Write for WatchedWriter<'_> {
    fn write(&mut self, buf: &[u8]) -> io::Result<usize> {
        self.written.extend_from_slice(buf)?;
        self.is_unflushed.set(true);
        Ok(buf.len())
    }

    fn flush(&mut self) -> io::Result<()> {
        self.is_unflushed.set(false);
        Ok(())
    }
}

/// Returns its parts. Fails if it is read while written bytes are not flushed.
#[derive(Drop)]
pub struct WatchingReader<'a> {
    parts: ChunkReader<'a>,
    is_unflushed: &'a Cell<bool>,
}

impl<'a> WatchingReader<'a> {
    pub fn new(parts: &'a [&'a [u8]], is_unflushed: &'a Cell<bool>) -> WatchingReader<'a> {
        WatchingReader {
            parts: ChunkReader::new(parts, 100, ErrorKind::Other),
            is_unflushed,
        }
    }
}

impl Read for WatchingReader<'_> {
    fn read(&mut self, buf: &mut [u8]) -> io::Result<usize> {
        if self.is_unflushed.get() {
            return Err(io::Error::from(ErrorKind::Other));
        }
        self.parts.read(buf)
    }
}

/// Counts the bytes that are written. Shows its reader the count, and whether they were flushed.
#[derive(Drop)]
pub struct CountingWriter<'a> {
    written: &'a Cell<usize>,
    is_unflushed: &'a Cell<bool>,
}

impl<'a> CountingWriter<'a> {
    pub fn new(written: &'a Cell<usize>, is_unflushed: &'a Cell<bool>) -> CountingWriter<'a> {
        CountingWriter {
            written,
            is_unflushed,
        }
    }
}

impl Write for CountingWriter<'_> {
    fn write(&mut self, buf: &[u8]) -> io::Result<usize> {
        self.written
            .set(self.written.get().saturating_add(buf.len()));
        self.is_unflushed.set(true);
        Ok(buf.len())
    }

    fn flush(&mut self) -> io::Result<()> {
        self.is_unflushed.set(false);
        Ok(())
    }
}

/// Returns a text, at each read up to the next of its ends. Fails if it is read before the writer
/// has received all bytes returned so far, or before they were flushed.
#[derive(Drop)]
pub struct CountingReader<'a> {
    text: &'a [u8],
    ends: &'a [usize],
    read: usize,
    written: &'a Cell<usize>,
    is_unflushed: &'a Cell<bool>,
}

impl<'a> CountingReader<'a> {
    pub fn new(
        text: &'a [u8],
        ends: &'a [usize],
        written: &'a Cell<usize>,
        is_unflushed: &'a Cell<bool>,
    ) -> CountingReader<'a> {
        CountingReader {
            text,
            ends,
            read: 0,
            written,
            is_unflushed,
        }
    }
}

impl Read for CountingReader<'_> {
    fn read(&mut self, buf: &mut [u8]) -> io::Result<usize> {
        if self.written.get() != self.read || self.is_unflushed.get() {
            return Err(io::Error::from(ErrorKind::Other));
        }
        let Some((end, later)) = self.ends.split_first() else {
            return Ok(0);
        };
        self.ends = later;
        let part = self.text.get(self.read..*end).unwrap_or(b"");
        let count = part.len().min(buf.len());
        buf[..count].copy_from_slice(&part[..count]);
        self.read = self.read.saturating_add(count);
        Ok(count)
    }
}
