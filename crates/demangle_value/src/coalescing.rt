//! A sink that passes pieces on together.
ghost use Rattle.std.specs.Prelude.{◌≡◌, [], Some, true, false, OnOk, OnErr};
ghost use Rattle.demangle_value.specs.Coalescing.{PassedOn, PassedOn-nothing, PassedOn-joined};
ghost use Rattle.std.specs.List.{concat};
ghost use Rattle.demangle_value.specs.Symbols.{PrintingLooksIn, handed_in, printed};

use crate::format::Format;
use crate::value::Demangle;
use arrayvec::ArrayString;
use demangle_sink::{SinkRefused, TextSink};
use demangle_symbol::cursor::Looks;

/// The most bytes that are held for a formatter.
const MOST_FORMATTED: usize = 256;

/// The most bytes that are held for a filter, which are those of the longest text of its memo.
const MOST_FILTERED: usize = 2048;

/// Holds pieces of up to `MOST` bytes, and passes them to a sink together.
///
/// The sink gets the held text before a piece that does not fit after it, and by `flush`. A piece of
/// more than `MOST` bytes is passed on alone. So what the sink got is always a prefix of the text that
/// ends between two pieces, and after `flush` it is all of it.
#[derive(Drop)]
struct CoalescingSink<'s, S: TextSink, const MOST: usize> {
    out: &'s mut S,
    held: ArrayString<MOST>,
}

impl<'s, S: TextSink, const MOST: usize> CoalescingSink<'s, S, MOST> {
    /// Returns a sink that passes pieces to this one. It holds nothing.
    fn new(out: &'s mut S) -> Self
        ensures same_sink { result.out.ghost_name ≡ out.entry.ghost_name }
        ensures text { result.out.now ≡ out.old }
        ensures empty { result.held.bytes ≡ [] }
    {
        CoalescingSink {
            out,
            held: ArrayString::new(),
        }
    }

    /// Passes on the held text, if there is any.
    ///
    /// # Errors
    ///
    /// Returns `SinkRefused` if the sink rejects it.
    fn flush(&mut self) -> Result<(), SinkRefused>
        requires { S.failed self.old.out.now ≡ false }
        ensures same_sink { self.new.out.ghost_name ≡ self.old.out.ghost_name }
        ensures took { OnOk result
            (S.took self.old.out.now self.old.held.bytes self.new.out.now) }
        ensures empty { OnOk result (self.new.held.bytes ≡ []) }
        ensures not_failed { OnOk result (S.failed self.new.out.now ≡ false) }
        ensures refused { OnErr result (S.failed self.new.out.now ≡ true) }
    {
        if self.held.is_empty() {
            return Ok(());
        }
        self.out.put(self.held.as_str())?;
        self.held.clear();
        Ok(())
    }

    /// Takes a piece for which there is no room after the held text.
    #[inline(never)]
    fn put_after_flush(&mut self, s: &str) -> Result<(), SinkRefused>
        requires { S.failed self.old.out.now ≡ false }
        ensures took { OnOk result (PassedOn S.took self.old s.now self.new) }
        ensures not_failed { OnOk result (S.failed self.new.out.now ≡ false) }
        ensures refused { OnErr result (S.failed self.new.out.now ≡ true) }
    {
        self.flush()?;
        if s.len() > MOST {
            self.out.put(s)?;
        } else {
            self.held.push_str(s);
        }
        Ok(())
    }
}

impl<'s, S: TextSink, const MOST: usize> TextSink for CoalescingSink<'s, S, MOST> {
    ghost took = { λ s bytes t. PassedOn S.took s bytes t };

    ghost failed = { λ s. S.failed s.out.now };

    ghost room = { λ s. Some 0 };

    ghost keeps = { false };

    fn put(&mut self, s: &str) -> Result<(), SinkRefused> {
        if s.len() > self.held.remaining_capacity() {
            return self.put_after_flush(s);
        }
        self.held.push_str(s);
        Ok(())
    }

    fn is_failed(&self) -> bool {
        self.out.is_failed()
    }

    ghost took_nothing = { λ s. PassedOn-nothing S.took S.took_nothing s };

    ghost took_joined = { λ s t u xs ys h k. PassedOn-joined S.took S.took_joined s t u xs ys h k };
}

/// Prints a symbol into a sink, as `Demangle::write_to` does, and passes its pieces on together.
///
/// # Errors
///
/// Returns `SinkRefused` if the sink rejects a text. It then got a prefix of the pieces' text.
#[tactic(auto, using(crate::proofs::CoalescingLemmas::all_passed_on))]
pub(crate) fn write_coalesced<S: TextSink>(
    symbol: &Demangle<'_>,
    out: &mut S,
    include_hash: bool,
) -> Result<(), SinkRefused>
    requires { S.failed out.old ≡ false }
    ensures text { OnOk result (S.took out.old (printed symbol.now include_hash) out.new) }
{
    let mut pieces = CoalescingSink::<'_, S, MOST_FORMATTED>::new(out);
    symbol.write_to(&mut pieces, include_hash)?;
    pieces.flush()
}

/// Prints a symbol into a sink in a format, and passes its pieces on together. Counts its looks. A
/// text of up to 2,048 bytes is passed on at once.
///
/// # Errors
///
/// Returns `SinkRefused` if the sink rejects a text. It then got a prefix of the pieces' text.
#[tactic(auto, using(crate::proofs::CoalescingLemmas::all_passed_on))]
pub fn write_at_once<S: TextSink>(
    symbol: &Demangle<'_>,
    out: &mut S,
    format: Format,
    looks: &mut Looks,
) -> Result<(), SinkRefused>
    requires { S.failed out.old ≡ false }
    ensures text { OnOk result (S.took out.old (concat (handed_in symbol.now format)) out.new) }
    ensures looks { PrintingLooksIn symbol.now format looks.old looks.new }
{
    let mut pieces = CoalescingSink::<'_, S, MOST_FILTERED>::new(out);
    symbol.write_formatted_counted(&mut pieces, format, looks)?;
    pieces.flush()
}
