//! A sink that rejects a piece.
ghost use Rattle.std.specs.Prelude.{◌≡◌, ◌-◌, ◌<◌, [], ◌++◌, Some, true, false};
ghost use Rattle.std.proofs.Common.{sym, ap, ◌∙◌};
ghost use Rattle.std.proofs.lemmas.List.{append-nil, append_assoc};
ghost use Rattle.test_doubles.specs.Refusing.{taken_text, pieces_left};

use demangle_sink::{ArraySink, SinkRefused, TextSink};

/// Takes every empty piece, and rejects one of the nonempty ones. It stores the text that it took,
/// of at most 4,096 bytes.
#[derive(Drop)]
pub struct RefusingSink {
    text: ArraySink<4096>,
    /// The number of nonempty pieces that are taken before the rejected one.
    left: usize,
    failed: bool,
}

impl RefusingSink {
    /// Returns a sink that rejects the nonempty piece with this number, counted from 1.
    pub fn new(number: usize) -> RefusingSink
        requires { 0 < number }
        ensures alive { ⟦<RefusingSink as TextSink>⟧.failed result ≡ false }
        ensures empty { taken_text result ≡ [] }
        ensures left { pieces_left result ≡ number - 1 }
    {
        RefusingSink {
            text: ArraySink::new(),
            left: number - 1,
            failed: false,
        }
    }

    /// Returns the text that the sink has taken.
    pub fn as_str(&self) -> &str
        ensures { result.now ≡ taken_text self.now }
    {
        self.text.as_str()
    }
}

impl TextSink for RefusingSink {
    ghost took = { λ s bytes t. taken_text t ≡ taken_text s ++ bytes };

    ghost failed = { λ s. s.failed };

    ghost room = { λ s. Some 0 };

    ghost keeps = { true };

    fn put(&mut self, s: &str) -> Result<(), SinkRefused> {
        if s.is_empty() {
            return Ok(());
        }
        if self.left == 0 || self.text.is_failed() {
            self.failed = true;
            return Err(SinkRefused);
        }
        self.left -= 1;
        match self.text.put(s) {
            Ok(()) => Ok(()),
            Err(refused) => {
                self.failed = true;
                Err(refused)
            }
        }
    }

    fn is_failed(&self) -> bool {
        self.failed
    }

    ghost took_nothing = { λ s. sym (append-nil (taken_text s)) };

    ghost took_joined = { λ s t u xs ys h k.
        k ∙ (ap (λ z. z ++ ys) h ∙ append_assoc (taken_text s) xs ys) };
}
