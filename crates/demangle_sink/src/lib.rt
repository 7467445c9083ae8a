//! Sinks take printed text, one piece at a time.
#![tactic(auto)]

ghost use Rattle.std.specs.Prelude.{◌≡◌, ◌+◌, ◌≤◌, ℕ, List, [], ◌++◌, length, Option, None, Bool, true, false, IfSome, IsOk, OnOk, OnErr};
ghost use Rattle.demangle_sink.specs.Sink.{IsWithin, room_after, HasLength, TakesAgain, HoldingLaws};

mod array_sink;
mod chars;
mod fmt_sink;
mod limit;
mod pieces;
mod slice_sink;
mod write_sink;

pub use array_sink::ArraySink;
pub use chars::{put_char, put_chars};
pub use fmt_sink::FmtSink;
pub use limit::{HeldText, Reread, SizeLimitedFmtAdapter, put_piece};
pub use pieces::put_each;
pub use slice_sink::SliceSink;
pub use write_sink::WriteSink;

/// The error of a sink that rejected a piece. The sink has failed and takes no further piece.
#[derive(Debug, Clone, Copy)]
pub struct SinkRefused;

/// Takes pieces of text until it rejects one.
///
/// A sink has a `room`. A piece within the room is always taken, and the room falls by the number
/// of its bytes. An empty piece is always taken. If `keeps` is true, a rejected piece leaves the
/// sink's text and room unchanged.
///
/// A sink that does not hold its text leaves out `can_copy`, `held_len` and `put_again`.
pub trait TextSink {
    // Says that the second sink is the first after it took these bytes.
    ghost took: { Self → List ℕ → Self → Type 0 };

    ghost failed: { Self → Bool };

    // The number of further bytes that are always taken. `None` means that there is no bound.
    ghost room: { Self → Option ℕ };

    // Says whether a rejected piece leaves the text and the room of the sink unchanged.
    ghost keeps: { Bool };

    // The text that the sink took from its start on, if it holds all of it. Such a sink proves its
    // laws in the clauses `laws`. Any other sink leaves this out.
    ghost held: { Self → Option (List ℕ) } = { λ _. None };

    /// Takes a piece.
    ///
    /// # Errors
    ///
    /// Returns `SinkRefused` if the sink rejects the piece. The sink has failed from then on.
    fn put(&mut self, s: &str) -> Result<(), SinkRefused>
        requires { failed self.old ≡ false }
        ensures taken { OnOk result (took self.old s.now self.new) }
        ensures not_failed { OnOk result (failed self.new ≡ false) }
        ensures refused { OnErr result (failed self.new ≡ true) }
        ensures kept { OnErr result
            (keeps ≡ true → took self.old [] self.new × (room self.new ≡ room self.old)) }
        ensures fits { IsWithin (length s.now) (room self.old) →
            IsOk result × (room self.new ≡ room_after (length s.now) (room self.old)) };

    /// Returns `true` if the sink has rejected a piece.
    fn is_failed(&self) -> bool
        ensures { result ≡ failed self.now };

    /// Returns `true` if the sink may take bytes again that it holds.
    #[inline(always)]
    fn can_copy(&self) -> bool {
        false
    }

    /// Returns the number of bytes that the sink holds, or `None` if it can't take them again.
    #[inline(always)]
    fn held_len(&self) -> Option<usize>
        ensures laws { IfSome result (λ n. HoldingLaws took failed room held) }
        ensures length { IfSome result (HasLength (held self.now)) }
    {
        None
    }

    /// Takes `len` bytes again that the sink holds, from the byte `start` on. Returns `false`, and
    /// changes nothing, if it can't.
    #[inline(always)]
    fn put_again(&mut self, start: usize, len: usize) -> bool
        requires ready { failed self.old ≡ false }
        requires within { IfSome (held self.old) (λ bytes. start + len ≤ length bytes) }
        ensures laws { result ≡ true → HoldingLaws took failed room held }
        ensures copied { result ≡ true → TakesAgain took (held self.old) start len self.old self.new }
        ensures room { result ≡ true → room self.new ≡ room_after len (room self.old) }
        ensures not_failed { failed self.new ≡ false }
        ensures same { result ≡ false → self.new ≡ self.old }
    {
        // The default takes no bytes, wherever they are.
        let _ = (start, len);
        false
    }

    ghost took_nothing: { (s : Self) → took s [] s };

    ghost took_joined: { (s t u : Self) (xs ys : List ℕ) →
        took s xs t → took t ys u → took s (xs ++ ys) u };
}
