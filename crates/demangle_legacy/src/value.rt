//! The value of a parsed legacy symbol.
ghost use Rattle.std.specs.Prelude.{◌≡◌, ◌+◌, ◌*◌, ◌≤◌, IsAscii, IsSome, IfSome, IfOk, IfErr, OnOk, Ok, Err, length, drop, option_map};
ghost use Rattle.demangle_legacy.specs.Legacy.{elements_of, suffix_of};
ghost use Rattle.demangle_sink.specs.Limit.{Prints, Ready};
ghost use Rattle.demangle_legacy.specs.Unescaped.{legacy_pieces};

use crate::elements::element_at;
use crate::printing::{is_omitted, put_element};
use demangle_sink::{SinkRefused, SizeLimitedFmtAdapter, TextSink};
use demangle_symbol::cursor::{Looks, Symbol};
use demangle_symbol::form::Form;
use std::marker::Model;

/// A legacy symbol that was parsed.
#[derive(Drop)]
pub struct Demangle<'s> {
    inner: Symbol<'s>,
}

impl<'s> Model for Demangle<'s> {
    ghost use Rattle.std.specs.Prelude.{ℕ, List, IsAscii, IsSome};
    ghost use Rattle.demangle_legacy.specs.Legacy.{suffix_of};

    ghost Value = { List ℕ };

    ghost view = { λ s. s.inner };

    // The symbol has all its elements and the `E` after them.
    ghost invariant = { λ s. IsAscii s.inner × IsSome (suffix_of s.inner) };
}

impl<'s> Demangle<'s> {
    pub(super) fn new(inner: Symbol<'s>) -> Demangle<'s>
        requires ascii { IsAscii inner }
        requires legacy { IsSome (suffix_of inner) }
        ensures { result ≡ inner.entry }
    {
        Demangle { inner }
    }

    /// Puts the elements with `::` between them. The hash is omitted unless `form` includes it.
    ///
    /// # Errors
    ///
    /// Returns `SinkRefused` if the sink or the size limit rejects a piece. No later piece is sent.
    pub fn write_to<S: TextSink>(
        &self,
        out: &mut SizeLimitedFmtAdapter<'_, S>,
        form: Form,
        looks: &mut Looks,
    ) -> Result<(), SinkRefused>
        requires { Ready S.TextSink out.old }
        ensures prints { Prints S.TextSink out.old
            (legacy_pieces form (elements_of self.now)) result out.new }
        ensures grows { looks.old ≤ looks.new }
        ensures most { looks.new ≤ looks.old + 16 * (length self.now + 1) }
    {
        print_elements(&self.inner, out, form, looks)?;
        Ok(())
    }
}

/// Puts the elements of a text with `::` between them, before it is known whether an `E` follows
/// the last one. Returns the place after the `E`, or `None` if there is no `E`: then the text is
/// not a legacy symbol. The hash is omitted unless `form` includes it.
///
/// Fails if the sink or the limit rejects a piece. No later piece is sent.
pub(super) fn print_elements<S: TextSink>(
    symbol: &Symbol<'_>,
    out: &mut SizeLimitedFmtAdapter<'_, S>,
    form: Form,
    looks: &mut Looks,
) -> Result<Option<usize>, SinkRefused>
    requires ascii { IsAscii symbol.now }
    requires ready { Ready S.TextSink out.old }
    ensures end { IfOk result (λ end.
        option_map (λ end. drop end symbol.now) end ≡ suffix_of symbol.now) }
    ensures within { IfOk result (λ end. IfSome end (λ end. end ≤ length symbol.now)) }
    ensures prints { IsSome (suffix_of symbol.now) → OnOk result (Prints S.TextSink out.old
        (legacy_pieces form (elements_of symbol.now)) (Ok tt) out.new) }
    ensures refused { IsSome (suffix_of symbol.now) → IfErr result (λ error. Prints S.TextSink out.old
        (legacy_pieces form (elements_of symbol.now)) (Err error) out.new) }
    ensures grows { looks.old ≤ looks.new }
    ensures most { looks.new ≤ looks.old + 16 * (length symbol.now + 1) }
{
    let mut at = 0;
    while let Some(element) = element_at(symbol, at, looks) {
        if is_omitted(symbol, element, form, looks) {
            // The hash is followed by the `E`.
            return Ok(Some(element.to + 1));
        }
        if at > 0 {
            out.put("::")?;
        }
        put_element(symbol, element, out, looks)?;
        at = element.to;
    }
    if symbol.is_at(b'E', at, looks) {
        Ok(Some(at + 1))
    } else {
        Ok(None)
    }
}
