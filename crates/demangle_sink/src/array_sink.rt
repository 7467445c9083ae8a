//! A sink that stores the text in the value itself.
ghost use Rattle.std.specs.Prelude.{◌≡◌, ◌-◌, [], ◌++◌, length, Some, true, false};
ghost use Rattle.std.proofs.Common.{sym, ap, ◌∙◌};
ghost use Rattle.std.proofs.lemmas.List.{append-nil, append_assoc};
ghost use Rattle.demangle_sink.specs.Array.{text_of};

use crate::{SinkRefused, TextSink};
use arrayvec::ArrayString;

/// A text of at most `N` bytes, stored in the value itself. A piece that does not fit is rejected,
/// and the text taken before stays.
#[derive(Drop)]
pub struct ArraySink<const N: usize> {
    text: ArrayString<N>,
    failed: bool,
}

impl<const N: usize> ArraySink<N> {
    /// Returns an empty sink that has not failed.
    pub fn new() -> Self
        ensures not_failed { ⟦<ArraySink<N> as TextSink>⟧.failed result ≡ false }
        ensures empty { text_of result ≡ [] }
    {
        ArraySink {
            text: ArrayString::new(),
            failed: false,
        }
    }

    /// Returns the text that the sink has taken.
    pub fn as_str(&self) -> &str
        ensures { result.now ≡ text_of self.now }
    {
        self.text.as_str()
    }
}

impl<const N: usize> TextSink for ArraySink<N> {
    ghost took = { λ s bytes t. text_of t ≡ text_of s ++ bytes };

    ghost failed = { λ s. s.failed };

    ghost room = { λ s. Some (N - length (text_of s)) };

    ghost keeps = { true };

    fn put(&mut self, s: &str) -> Result<(), SinkRefused> {
        if s.len() > self.text.remaining_capacity() {
            self.failed = true;
            return Err(SinkRefused);
        }
        self.text.push_str(s);
        Ok(())
    }

    fn is_failed(&self) -> bool {
        self.failed
    }

    ghost took_nothing = { λ s. sym (append-nil (text_of s)) };

    ghost took_joined = { λ s t u xs ys h k.
        k ∙ (ap (λ z. z ++ ys) h ∙ append_assoc (text_of s) xs ys) };
}
