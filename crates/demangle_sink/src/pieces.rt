//! Puts several pieces into a sink.
ghost use Rattle.demangle_sink.specs.Limit.{Prints, Ready};
ghost use Rattle.demangle_sink.specs.Limit.{texts};

use crate::{SinkRefused, SizeLimitedFmtAdapter, TextSink};

/// Puts pieces in order.
///
/// # Errors
///
/// Returns `SinkRefused` if the sink or the size limit rejects a piece. No later piece is sent.
#[tactic(auto, using(crate::proofs::PrintsLemmas::prints_ready, crate::proofs::PrintsLemmas::prints_nothing))]
pub fn put_each<S: TextSink>(
    pieces: &[&str],
    out: &mut SizeLimitedFmtAdapter<'_, S>,
) -> Result<(), SinkRefused>
    requires { Ready S.TextSink out.old }
    ensures { Prints S.TextSink out.old (texts pieces.now) result out.new }
{
    for piece in pieces {
        out.put(piece)?;
    }
    Ok(())
}
