//! The outputs to which the parser sends its tokens: a sink, or none.
ghost use Rattle.std.specs.Prelude.{◌≡◌, ◌+◌, ◌≤◌, ℕ, List, Bool, Result, true, false, IsAscii, IsOk, OnOk};
ghost use Rattle.demangle_v0_tokens.specs.Tokens.{texts_of, print_looks};
ghost use Rattle.demangle_sink.specs.Limit.{Follows, GivesBack, Prints, Ready, and_one};
ghost use Rattle.demangle_v0_tokens.specs.Tokens.{IsTokenWithin};
ghost use Rattle.demangle_sink.specs.declared.SinkRefused.{SinkRefused};

use crate::source::Source;
use crate::token::Token;
use demangle_sink::{SinkRefused, SizeLimitedFmtAdapter, TextSink};
use demangle_symbol::cursor::Looks;

/// Receives the tokens that the parser reads.
///
/// The parser is generic over its output. With `NoOutput` it only validates a symbol. With a
/// `SizeLimitedFmtAdapter` it prints one.
pub trait Output {
    // Whether tokens are printed. If not, the first error ends the parse.
    ghost is_printed: { Bool };

    // Whether the output accepts another token.
    ghost ready: { Self → Type 0 };

    // Relates the output before, the texts of a token, the result, and the output after.
    ghost prints: { Self → List (List ℕ) → Result (Unit {0}) SinkRefused → Self → Type 0 };

    // Relates the output before a reference is followed, the number of bytes that may be read again
    // for it, the result, and the output after.
    ghost follows: { Self → ℕ → Result (Unit {0}) SinkRefused → Self → Type 0 };

    // Relates the output before bytes are given back, their number, and the output after.
    ghost gives_back: { Self → ℕ → Self → Type 0 };

    /// Returns `true` if tokens are printed.
    fn is_printing(&self) -> bool
        ensures { result ≡ is_printed };

    /// Returns `true` if the text of the target that is next is looked up, to be put again.
    fn looks_up(&self) -> bool;

    /// Prints a token, piece by piece.
    ///
    /// # Errors
    ///
    /// Returns `SinkRefused` if the sink or the size limit rejects a piece. No later piece is sent.
    fn emit(
        &mut self,
        source: &Source<'_>,
        token: &Token,
        looks: &mut Looks,
    ) -> Result<(), SinkRefused>
        requires ascii { is_printed ≡ true → IsAscii source.now.symbol.now }
        requires in_bounds { IsTokenWithin source.now.symbol.now token.now }
        requires ready { ready self.old }
        ensures prints { prints self.old (texts_of source.now.symbol.now source.now.form token.now) result
            self.new }
        ensures ready { OnOk result (ready self.new) }
        ensures no_output { is_printed ≡ false → IsOk result }
        ensures grows { looks.old ≤ looks.new }
        ensures most { looks.new ≤ looks.old + print_looks token.now };

    /// Counts the bytes that a reference may make the parser read again, and one more.
    ///
    /// # Errors
    ///
    /// Returns `SinkRefused` if the output allows fewer.
    fn follow(&mut self, bytes: usize) -> Result<(), SinkRefused>
        requires ready { ready self.old }
        ensures follows { follows self.old (bytes + 1) result self.new }
        ensures ready { OnOk result (ready self.new) };

    /// Gives back these bytes, which were not read, and one more. Gives back none for `None`.
    fn give_back(&mut self, bytes: Option<usize>)
        ensures back { gives_back self.old (and_one bytes) self.new }
        ensures ready { ready self.old → ready self.new };

    /// Prints the token of a syntax error.
    ///
    /// # Errors
    ///
    /// Returns `SinkRefused` as `emit` does, and always if nothing is printed.
    fn emit_error(
        &mut self,
        source: &Source<'_>,
        token: &Token,
        looks: &mut Looks,
    ) -> Result<(), SinkRefused>
        requires ascii { is_printed ≡ true → IsAscii source.now.symbol.now }
        requires in_bounds { IsTokenWithin source.now.symbol.now token.now }
        requires ready { ready self.old }
        ensures prints { prints self.old (texts_of source.now.symbol.now source.now.form token.now) result
            self.new }
        ensures ready { OnOk result (ready self.new) }
        ensures grows { looks.old ≤ looks.new }
        ensures most { looks.new ≤ looks.old + print_looks token.now };
}

/// An output that prints nothing. It is used to validate a symbol.
#[derive(Drop)]
pub struct NoOutput;

impl Output for NoOutput {
    ghost is_printed = { false };

    ghost ready = { λ v. Unit {0} };

    ghost prints = { λ v texts result w. Unit {0} };

    ghost follows = { λ v n result w. Unit {0} };

    ghost gives_back = { λ v n w. Unit {0} };

    #[inline(always)]
    fn is_printing(&self) -> bool {
        false
    }

    #[inline(always)]
    fn looks_up(&self) -> bool {
        false
    }

    #[inline(always)]
    fn emit(
        &mut self,
        _source: &Source<'_>,
        _token: &Token,
        _looks: &mut Looks,
    ) -> Result<(), SinkRefused> {
        Ok(())
    }

    #[inline(always)]
    fn follow(&mut self, _bytes: usize) -> Result<(), SinkRefused> {
        Ok(())
    }

    #[inline(always)]
    fn give_back(&mut self, _bytes: Option<usize>) {}

    #[inline(always)]
    fn emit_error(
        &mut self,
        _source: &Source<'_>,
        _token: &Token,
        _looks: &mut Looks,
    ) -> Result<(), SinkRefused> {
        Err(SinkRefused)
    }
}

impl<'s, S: TextSink> Output for SizeLimitedFmtAdapter<'s, S> {
    ghost is_printed = { true };

    ghost ready = { λ v. Ready S.TextSink v };

    ghost prints = { λ v texts result w. Prints S.TextSink v texts result w };

    ghost follows = { λ v n result w. Follows v n result w };

    ghost gives_back = { λ v n w. GivesBack v n w };

    #[inline(always)]
    fn is_printing(&self) -> bool {
        true
    }

    #[inline(always)]
    fn looks_up(&self) -> bool {
        SizeLimitedFmtAdapter::looks_up(self)
    }

    #[inline(always)]
    fn emit(
        &mut self,
        source: &Source<'_>,
        token: &Token,
        looks: &mut Looks,
    ) -> Result<(), SinkRefused> {
        source.render(token, self, looks)
    }

    #[inline(always)]
    fn follow(&mut self, bytes: usize) -> Result<(), SinkRefused> {
        SizeLimitedFmtAdapter::follow(self, bytes)
    }

    #[inline(always)]
    fn give_back(&mut self, bytes: Option<usize>) {
        SizeLimitedFmtAdapter::give_back(self, bytes)
    }

    #[inline(always)]
    fn emit_error(
        &mut self,
        source: &Source<'_>,
        token: &Token,
        looks: &mut Looks,
    ) -> Result<(), SinkRefused> {
        source.render(token, self, looks)
    }
}
