//! A sink that writes to a writer.
ghost use Rattle.std.specs.Prelude.{◌≡◌, Some, false, is_some, refl, IfErr, OnOk};
ghost use Rattle.std.proofs.Common.{◌∙◌};
ghost use Rattle.demangle_sink.specs.Writer.{writer_of, fault_of, Wrote, Wrote-nothing, Wrote-joined};

use crate::{SinkRefused, TextSink};
use std::io;
use std::io::Write;

/// A sink that passes each nonempty piece to a writer by one `write_all`. It stores the writer's
/// error and does not allocate. After an error, the number of bytes of the piece that the writer
/// took is unknown.
#[derive(Drop)]
pub struct WriteSink<'w, W: Write> {
    out: &'w mut W,
    fault: Option<io::Error>,
}

impl<'w, W: Write> WriteSink<'w, W> {
    /// Returns a sink for this writer. It has not failed.
    pub fn new(out: &'w mut W) -> Self
        ensures same_writer { (writer_of result).ghost_name ≡ out.entry.ghost_name }
        ensures contents { (writer_of result).now ≡ out.old }
        ensures not_failed { ⟦<WriteSink<'w, W> as TextSink>⟧.failed result ≡ false }
    {
        WriteSink { out, fault: None }
    }

    /// Returns the writer's error. It is `Some` exactly if the sink has failed.
    pub fn into_fault(self) -> Option<io::Error>
        ensures failed { is_some result ≡ ⟦<WriteSink<'w, W> as TextSink>⟧.failed self.entry }
        ensures fault { result ≡ fault_of self.entry }
        ensures written { self.exit.0.now ≡ (writer_of self.entry).now }
    {
        let WriteSink { out: _, fault } = self;
        fault
    }

    /// Returns `Ok` if the sink has not failed.
    ///
    /// # Errors
    ///
    /// Returns the writer's error.
    pub fn into_result(self) -> io::Result<()>
        ensures ok { OnOk result (⟦<WriteSink<'w, W> as TextSink>⟧.failed self.entry ≡ false) }
        ensures err { IfErr result (λ fault. Some fault ≡ fault_of self.entry) }
        ensures written { self.exit.0.now ≡ (writer_of self.entry).now }
    {
        let WriteSink { out: _, fault } = self;
        match fault {
            Some(fault) => Err(fault),
            None => Ok(()),
        }
    }
}

impl<'w, W: Write> TextSink for WriteSink<'w, W> {
    ghost took = { λ s bytes t. (t.out.ghost_name ≡ s.out.ghost_name)
        × Wrote (W.contents s.out.now) bytes (W.contents t.out.now) };

    ghost failed = { λ s. is_some s.fault };

    ghost room = { λ s. Some 0 };

    ghost keeps = { false };

    #[inline(always)]
    fn put(&mut self, s: &str) -> Result<(), SinkRefused> {
        if s.is_empty() {
            return Ok(());
        }
        match self.out.write_all(s.as_bytes()) {
            Ok(()) => Ok(()),
            Err(fault) => {
                self.fault = Some(fault);
                Err(SinkRefused)
            }
        }
    }

    fn is_failed(&self) -> bool {
        self.fault.is_some()
    }

    ghost took_nothing = { λ s. (refl, Wrote-nothing (W.contents s.out.now)) };

    ghost took_joined = { λ s t u xs ys h k. (k.0 ∙ h.0, Wrote-joined _ _ _ xs ys h.1 k.1) };
}
