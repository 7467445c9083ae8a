//! Prints the names of lifetimes, and binders.
ghost use Rattle.std.specs.Prelude.{◌+◌, ◌<◌, ◌^◌, [], ◌∷◌, ◌++◌, codes};
ghost use Rattle.demangle_v0_grammar.specs.Binders.{binder_texts};
ghost use Rattle.demangle_sink.specs.Limit.{Prints, Ready};
ghost use Rattle.demangle_v0_grammar.specs.Reading.{letter_of};

use crate::render::numbers::put_decimal;
use demangle_sink::{SinkRefused, SizeLimitedFmtAdapter, TextSink, put_char};

/// Prints the name of the lifetime of a number: a letter, or `_` and the number.
fn put_letter<S: TextSink>(
    number: u128,
    out: &mut SizeLimitedFmtAdapter<'_, S>,
) -> Result<(), SinkRefused>
    requires { Ready S.TextSink out.old }
    ensures { Prints S.TextSink out.old (letter_of number) result out.new }
{
    if number < 26 {
        return put_char(char::from(b'a' + number as u8), out);
    }
    // After `'z` comes `'_26`: the number itself, not its distance from the letters.
    out.put("_")?;
    put_decimal(number, out)
}

/// Prints the lifetime of a number.
#[tactic(auto, using(demangle_sink::proofs::PrintsLemmas::prints_ready))]
#[inline(never)]
pub(super) fn put_lifetime<S: TextSink>(
    number: u128,
    out: &mut SizeLimitedFmtAdapter<'_, S>,
) -> Result<(), SinkRefused>
    requires { Ready S.TextSink out.old }
    ensures { Prints S.TextSink out.old (codes "'" ∷ letter_of number) result out.new }
{
    out.put("'")?;
    put_letter(number, out)
}

/// Prints the lifetime of a number, and a space after it.
#[tactic(auto, using(demangle_sink::proofs::PrintsLemmas::prints_ready))]
#[inline(never)]
pub(super) fn put_spaced_lifetime<S: TextSink>(
    number: u128,
    out: &mut SizeLimitedFmtAdapter<'_, S>,
) -> Result<(), SinkRefused>
    requires { Ready S.TextSink out.old }
    ensures { Prints S.TextSink out.old
        (codes "'" ∷ (letter_of number ++ codes " " ∷ [])) result out.new }
{
    put_lifetime(number, out)?;
    out.put(" ")
}

/// Prints a text, and the lifetime of a number after it.
#[tactic(auto, using(demangle_sink::proofs::PrintsLemmas::prints_ready))]
#[inline(never)]
pub(super) fn put_prefixed_lifetime<S: TextSink>(
    before: &str,
    number: u128,
    out: &mut SizeLimitedFmtAdapter<'_, S>,
) -> Result<(), SinkRefused>
    requires { Ready S.TextSink out.old }
    ensures { Prints S.TextSink out.old (before.now ∷ codes "'" ∷ letter_of number) result out.new }
{
    out.put(before)?;
    put_lifetime(number, out)
}

/// Prints the binder of `count` new lifetimes, whose numbers begin at `first`. It prints nothing
/// if `count` is 0.
#[tactic(auto, using(demangle_sink::proofs::PrintsLemmas::prints_ready, demangle_sink::proofs::PrintsLemmas::prints_nothing, demangle_sink::proofs::Printed::printed_ready))]
#[inline(never)]
pub(super) fn put_binder<S: TextSink>(
    first: u128,
    count: u64,
    out: &mut SizeLimitedFmtAdapter<'_, S>,
) -> Result<(), SinkRefused>
    requires fits { first + count < 2 ^ 128 }
    requires ready { Ready S.TextSink out.old }
    ensures { Prints S.TextSink out.old (binder_texts count first) result out.new }
{
    if count == 0 {
        return Ok(());
    }
    put_prefixed_lifetime("for<", first, out)?;
    for at in 1..count {
        put_prefixed_lifetime(", ", first + at as u128, out)?;
    }
    out.put("> ")
}
