//! Puts characters into a sink.
ghost use Rattle.std.specs.Prelude.{[], ◌∷◌, map, encode_utf8};
ghost use Rattle.demangle_sink.specs.Limit.{Prints, Ready};

use crate::{SinkRefused, SizeLimitedFmtAdapter, TextSink};

/// Puts one character as one piece.
///
/// # Errors
///
/// Returns `SinkRefused` if the sink or the size limit rejects the piece.
pub fn put_char<S: TextSink>(
    c: char,
    out: &mut SizeLimitedFmtAdapter<'_, S>,
) -> Result<(), SinkRefused>
    requires { Ready S.TextSink out.old }
    ensures { Prints S.TextSink out.old (encode_utf8 c ∷ []) result out.new }
{
    out.put(c.encode_utf8(&mut [0; 4]))
}

/// Puts characters in order, each as one piece.
///
/// # Errors
///
/// Returns `SinkRefused` if the sink or the size limit rejects a piece. No later piece is sent.
#[tactic(auto, using(crate::proofs::PrintsLemmas::prints_ready, crate::proofs::PrintsLemmas::prints_nothing))]
pub fn put_chars<S: TextSink>(
    characters: &[char],
    out: &mut SizeLimitedFmtAdapter<'_, S>,
) -> Result<(), SinkRefused>
    requires { Ready S.TextSink out.old }
    ensures { Prints S.TextSink out.old (map encode_utf8 characters.now) result out.new }
{
    for c in characters {
        put_char(*c, out)?;
    }
    Ok(())
}
