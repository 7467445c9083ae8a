//! What is before a text, and which part of it a run takes in.
ghost use Rattle.std.specs.Prelude.{◌≡◌, false, IsTrue};
ghost use Rattle.rustc_demangle.specs.Rewritten.{before_of, before_after, starts_candidate, IsPlainLen};

use crate::runs::{is_run_byte, starts_run};

/// What is before a text.
#[derive(Clone, Copy)]
pub enum ByteBefore {
    /// Nothing, or a byte that is not a run byte. A run takes in a single `_` after it.
    Outside,
    /// A run byte.
    Inside,
}

// A filter calls some of these methods at each run. They are inlined, as each is a few instructions.
impl ByteBefore {
    /// Returns what a byte is for the text after it.
    #[inline(always)]
    fn of(byte: u8) -> Self
        ensures { result ≡ before_of byte }
    {
        if is_run_byte(byte) {
            ByteBefore::Inside
        } else {
            ByteBefore::Outside
        }
    }

    /// Returns what is before the text that follows these bytes.
    #[inline(always)]
    pub(crate) fn after(self, text: &[u8]) -> Self
        ensures { result ≡ before_after self text.now }
    {
        if text.is_empty() {
            self
        } else {
            ByteBefore::of(text[text.len() - 1])
        }
    }

    /// Returns whether this is outside of runs.
    #[inline(always)]
    pub(crate) fn is_outside(self) -> bool
        ensures yes { IsTrue result → self ≡ ByteBefore.Outside }
        ensures no { result ≡ false → self ≡ ByteBefore.Outside → ⊥ }
    {
        matches!(self, ByteBefore::Outside)
    }

    /// Returns whether a candidate starts here: a run, or a run with the `_` that it takes in.
    #[inline(always)]
    pub(crate) fn starts_candidate(self, text: &[u8]) -> bool
        ensures { result ≡ starts_candidate self text.now }
    {
        starts_run(text)
            || (self.is_outside() && !text.is_empty() && text[0] == b'_' && starts_run(&text[1..]))
    }

    /// Returns the length of plain text before a run, without the `_` at its end that the run takes
    /// in.
    #[inline(always)]
    pub(crate) fn plain_len(self, text: &[u8]) -> usize
        ensures { IsPlainLen self text.now result }
    {
        if text.is_empty() || text[text.len() - 1] != b'_' {
            return text.len();
        }
        let front = text.len() - 1;
        if self.after(&text[..front]).is_outside() {
            front
        } else {
            text.len()
        }
    }
}

/// Returns the length of the plain text before a run, without a single `_` at its end. The path of
/// the run takes the place of that `_` too.
///
/// The plain text starts where the whole text does, or after the run before it. A `_` is single if
/// it is the first byte or follows a byte that no run may have.
pub fn plain_len(plain: &[u8]) -> usize
    ensures { IsPlainLen ByteBefore.Outside plain.now result }
{
    ByteBefore::Outside.plain_len(plain)
}
