//! A sink that stores its pieces separately.
ghost use Rattle.std.specs.Prelude.{◌≡◌, [], ◌∷◌, ◌++◌, Some, true, false, map, OnOk, OnErr};
ghost use Rattle.std.specs.List.{concat};
ghost use Rattle.std.specs.String.{string_bytes};
ghost use Rattle.std.proofs.Common.{sym, ap, ◌∙◌};
ghost use Rattle.std.proofs.lemmas.List.{append-nil, append_assoc};
ghost use Rattle.corpus_program.specs.PiecesSink.{taken_pieces};

use rustc_demangle::sink::{SinkRefused, TextSink};
use std::alloc::{AllocError, Global};

/// Stores each nonempty piece separately. A piece is rejected if an allocation fails.
#[derive(Drop)]
pub struct PiecesSink {
    alloc: Global,
    pieces: Vec<String>,
    failed: bool,
}

impl PiecesSink {
    /// Returns a sink without pieces. It has not failed.
    pub fn new(alloc: Global) -> PiecesSink
        ensures alive { ⟦<PiecesSink as TextSink>⟧.failed result ≡ false }
        ensures empty { taken_pieces result ≡ [] }
    {
        PiecesSink {
            alloc,
            pieces: Vec::new(alloc),
            failed: false,
        }
    }

    /// Returns the pieces that the sink has taken.
    pub fn pieces(&self) -> &[String]
        ensures { map string_bytes result.now ≡ taken_pieces self.now }
    {
        self.pieces.as_slice()
    }

    /// Appends a piece. If an allocation fails, the pieces stay unchanged.
    fn keep(&mut self, piece: &str) -> Result<(), AllocError>
        ensures ok { OnOk result (taken_pieces self.new ≡ taken_pieces self.old ++ piece.now ∷ []) }
        ensures err { OnErr result (taken_pieces self.new ≡ taken_pieces self.old) }
        ensures same { self.new.failed ≡ self.old.failed }
    {
        let text = String::from_str(self.alloc, piece)?;
        self.pieces.push(text)?;
        Ok(())
    }
}

impl TextSink for PiecesSink {
    ghost took = { λ s bytes t. concat (taken_pieces t) ≡ concat (taken_pieces s) ++ bytes };

    ghost failed = { λ s. s.failed };

    ghost room = { λ s. Some 0 };

    ghost keeps = { true };

    fn put(&mut self, s: &str) -> Result<(), SinkRefused> {
        if s.is_empty() {
            return Ok(());
        }
        match self.keep(s) {
            Ok(()) => Ok(()),
            Err(_) => {
                self.failed = true;
                Err(SinkRefused)
            }
        }
    }

    fn is_failed(&self) -> bool {
        self.failed
    }

    ghost took_nothing = { λ s. sym (append-nil (concat (taken_pieces s))) };

    ghost took_joined = { λ s t u xs ys h k.
        k ∙ (ap (λ z. z ++ ys) h ∙ append_assoc (concat (taken_pieces s)) xs ys) };
}
