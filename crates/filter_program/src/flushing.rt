//! An output that is flushed before its program waits for more input.
use piece_buffer::PieceBuffer;
use std::cell::RefCell;
use std::io;
use std::io::{Read, Write};

/// A writer with the bytes that are buffered for it.
#[derive(Drop)]
struct Pending<W: Write + Drop> {
    held: PieceBuffer,
    writer: W,
    /// Whether bytes were passed to the writer since its last flush.
    is_unflushed: bool,
    /// The writer's error that the next flush returns.
    fault: Option<io::Error>,
}

impl<W: Write + Drop> Pending<W> {
    /// Writes the buffered bytes. If the writer fails, they stay buffered.
    fn write_held(&mut self) -> io::Result<()> {
        if !self.held.is_empty() {
            self.is_unflushed = true;
            self.writer.write_all(self.held.as_slice())?;
            self.held.clear();
        }
        Ok(())
    }

    /// Writes the buffered bytes, then buffers the piece. A piece that is too long for the buffer
    /// is written at once.
    fn write_all(&mut self, piece: &[u8]) -> io::Result<()> {
        self.write_held()?;
        if self.held.push(piece) {
            return Ok(());
        }
        self.is_unflushed = true;
        self.writer.write_all(piece)
    }

    /// Writes the buffered bytes and flushes the writer.
    fn flush(&mut self) -> io::Result<()> {
        self.write_held()?;
        self.is_unflushed = false;
        self.writer.flush()
    }
}

/// An output that a `FlushingWriter` writes and that a `FlushingReader` flushes. Bytes are buffered
/// until there is no room for more.
#[derive(Drop)]
pub struct FlushingOutput<W: Write + Drop> {
    pending: RefCell<Pending<W>>,
}

impl<W: Write + Drop> FlushingOutput<W> {
    /// Returns an output for this writer with an empty buffer.
    pub fn new(writer: W) -> Self {
        FlushingOutput {
            pending: RefCell::new(Pending {
                held: PieceBuffer::new(),
                writer,
                is_unflushed: false,
                fault: None,
            }),
        }
    }

    /// Returns a writer to the output.
    pub fn writer(&self) -> FlushingWriter<'_, W> {
        FlushingWriter { output: self }
    }

    /// Returns a reader of the input that flushes the output before each read.
    pub fn reader<R: Read + Drop>(&self, input: R) -> FlushingReader<'_, R, W> {
        FlushingReader {
            input,
            output: self,
        }
    }

    /// Buffers the piece. Returns `false` if there is no room for it.
    #[inline(always)]
    fn hold(&self, piece: &[u8]) -> bool {
        match self.pending.try_borrow_mut() {
            Ok(mut pending) => pending.held.push(piece),
            Err(_) => false,
        }
    }

    /// Writes a piece for which there is no room. Stores the error if that fails.
    #[cold]
    #[inline(never)]
    fn write_when_full(&self, piece: &[u8]) -> bool {
        let Ok(mut pending) = self.pending.try_borrow_mut() else {
            return false;
        };
        match pending.write_all(piece) {
            Ok(()) => true,
            Err(error) => {
                pending.fault = Some(error);
                false
            }
        }
    }

    /// Flushes the bytes that were written. Stores the error if that fails.
    fn flush_pending(&self) -> io::Result<()> {
        let Ok(mut pending) = self.pending.try_borrow_mut() else {
            return Err(is_in_use());
        };
        if pending.held.is_empty() && !pending.is_unflushed {
            return Ok(());
        }
        if let Err(error) = pending.flush() {
            pending.fault = Some(error);
            return Err(is_broken());
        }
        Ok(())
    }
}

/// Returns the error of an output whose writer has failed before.
fn is_broken() -> io::Error {
    io::Error::other("the output is broken")
}

/// Returns the error of an output that is already borrowed.
fn is_in_use() -> io::Error {
    io::Error::other("the output is in use")
}

/// Writes to a `FlushingOutput`.
#[derive(Drop)]
pub struct FlushingWriter<'a, W: Write + Drop> {
    output: &'a FlushingOutput<W>,
}

impl<W: Write + Drop> Write for FlushingWriter<'_, W> {
    fn write(&mut self, buf: &[u8]) -> io::Result<usize> {
        let Ok(mut pending) = self.output.pending.try_borrow_mut() else {
            return Err(is_in_use());
        };
        pending.write_held()?;
        pending.is_unflushed = true;
        pending.writer.write(buf)
    }

    /// Writes a piece. If the writer fails, the next flush returns the writer's own error.
    #[inline(always)]
    fn write_all(&mut self, buf: &[u8]) -> io::Result<()> {
        if self.output.hold(buf) || self.output.write_when_full(buf) {
            return Ok(());
        }
        Err(is_broken())
    }

    /// Flushes the output. Returns an earlier error too, from the write of a piece or from the wait
    /// for input.
    fn flush(&mut self) -> io::Result<()> {
        let Ok(mut pending) = self.output.pending.try_borrow_mut() else {
            return Err(is_in_use());
        };
        let flushed = pending.flush();
        match pending.fault.take() {
            Some(fault) => Err(fault),
            None => flushed,
        }
    }
}

/// Reads the input, and flushes the output before each read.
///
/// Put a buffer over it, so that it is read only when the buffer is empty. If the output can't be
/// flushed, the read fails, and so does the next flush of the writer.
#[derive(Drop)]
pub struct FlushingReader<'a, R: Read + Drop, W: Write + Drop> {
    input: R,
    output: &'a FlushingOutput<W>,
}

impl<R: Read + Drop, W: Write + Drop> Read for FlushingReader<'_, R, W> {
    fn read(&mut self, buf: &mut [u8]) -> io::Result<usize> {
        self.output.flush_pending()?;
        self.input.read(buf)
    }
}
