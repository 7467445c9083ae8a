//! A sink that writes to a formatter.
ghost use Rattle.std.specs.Prelude.{◌≡◌, Some, false, refl};
ghost use Rattle.std.proofs.Common.{◌∙◌};
ghost use Rattle.demangle_sink.specs.Formatter.{FmtTook, FmtTook-nothing, FmtTook-joined};

use crate::{SinkRefused, TextSink};
use std::fmt;

/// A sink that passes each nonempty piece to a formatter.
#[derive(Drop)]
pub struct FmtSink<'f, W: fmt::Write> {
    out: &'f mut fmt::Formatter<W>,
    failed: bool,
}

impl<'f, W: fmt::Write> FmtSink<'f, W> {
    /// Returns a sink for this formatter. It has not failed.
    pub fn new(out: &'f mut fmt::Formatter<W>) -> Self
        ensures same { result.out.ghost_name ≡ out.entry.ghost_name }
        ensures text { result.out.now ≡ out.old }
        ensures not_failed { result.failed ≡ false }
    {
        FmtSink { out, failed: false }
    }
}

impl<'f, W: fmt::Write> TextSink for FmtSink<'f, W> {
    ghost took = { λ s bytes t. (t.out.ghost_name ≡ s.out.ghost_name)
        × FmtTook W.write_str_gives s.out.now bytes t.out.now };

    ghost failed = { λ s. s.failed };

    ghost room = { λ s. Some 0 };

    ghost keeps = { false };

    fn put(&mut self, s: &str) -> Result<(), SinkRefused> {
        if s.is_empty() {
            return Ok(());
        }
        match self.out.write_str(s) {
            Ok(()) => Ok(()),
            Err(_) => {
                self.failed = true;
                Err(SinkRefused)
            }
        }
    }

    fn is_failed(&self) -> bool {
        self.failed
    }

    ghost took_nothing = { λ s. (refl, FmtTook-nothing W.write_str_gives s.out.now) };

    ghost took_joined = { λ s t u xs ys h k.
        (k.0 ∙ h.0, FmtTook-joined W.write_str_gives _ _ _ xs ys h.1 k.1) };
}
