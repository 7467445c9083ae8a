//! Prints names, decoded if they have a Punycode part.
ghost use Rattle.std.specs.Prelude.{◌+◌, ◌<◌, ◌≤◌, IsAscii};
ghost use Rattle.demangle_symbol.specs.Idents.{IsIdentWithin, ascii_prefix, name_in, name_size};
ghost use Rattle.demangle_sink.specs.Limit.{Prints, Ready};
ghost use Rattle.demangle_symbol.specs.Names.{name_pieces, fallback_pieces};

use crate::cursor::{Ident, Looks, Part, Symbol};
use crate::punycode::decode;
use demangle_sink::{SinkRefused, SizeLimitedFmtAdapter, TextSink, put_chars};

impl Ident {
    /// Puts the ASCII part and `-`. Puts nothing if the ASCII part is empty.
    #[tactic(auto, using(demangle_sink::proofs::PrintsLemmas::prints_ready, demangle_sink::proofs::PrintsLemmas::prints_nothing))]
    fn write_ascii<S: TextSink>(
        &self,
        symbol: &Symbol<'_>,
        out: &mut SizeLimitedFmtAdapter<'_, S>,
    ) -> Result<(), SinkRefused>
        requires parts { IsIdentWithin symbol.now self.now }
        requires ascii { IsAscii symbol.now }
        requires ready { Ready S.TextSink out.old }
        ensures { Prints S.TextSink out.old
            (ascii_prefix (name_in symbol.now self.now)) result out.new }
    {
        if self.ascii.to <= self.ascii.from {
            return Ok(());
        }
        symbol.span(self.ascii).write_to(out)?;
        out.put("-")
    }

    /// Puts both parts undecoded, between `punycode{` and `}`.
    #[tactic(auto, using(demangle_sink::proofs::PrintsLemmas::prints_ready))]
    fn write_undecoded<S: TextSink>(
        &self,
        symbol: &Symbol<'_>,
        out: &mut SizeLimitedFmtAdapter<'_, S>,
    ) -> Result<(), SinkRefused>
        requires parts { IsIdentWithin symbol.now self.now }
        requires ascii { IsAscii symbol.now }
        requires ready { Ready S.TextSink out.old }
        ensures { Prints S.TextSink out.old
            (fallback_pieces (name_in symbol.now self.now)) result out.new }
    {
        out.put("punycode{")?;
        self.write_ascii(symbol, out)?;
        symbol.span(self.punycode).write_to(out)?;
        out.put("}")
    }

    /// Puts the decoded characters of a name with these parts. If they cannot be decoded, puts both
    /// parts undecoded, between `punycode{` and `}`.
    // Most names have no Punycode part. A separate function keeps the code for them short. It takes
    // the parts by value, so that they can stay in registers.
    #[inline(never)]
    fn write_decoded<S: TextSink>(
        ascii: Part,
        punycode: Part,
        symbol: &Symbol<'_>,
        out: &mut SizeLimitedFmtAdapter<'_, S>,
        looks: &mut Looks,
    ) -> Result<(), SinkRefused>
        requires parts { IsIdentWithin symbol.now (record { ascii = ascii; punycode = punycode }) }
        requires some { punycode.from < punycode.to }
        requires ascii { IsAscii symbol.now }
        requires ready { Ready S.TextSink out.old }
        ensures prints { Prints S.TextSink out.old
            (name_pieces (name_in symbol.now (record { ascii = ascii; punycode = punycode })))
            result out.new }
        ensures grows { looks.old ≤ looks.new }
        ensures looks { looks.new ≤ looks.old
            + name_size (record { ascii = ascii; punycode = punycode }) }
    {
        let name = Ident { ascii, punycode };
        match decode(symbol, name, looks) {
            Some(characters) => put_chars(&characters, out),
            None => name.write_undecoded(symbol, out),
        }
    }

    /// Puts a name: the ASCII part if there is no Punycode part, and otherwise the decoded
    /// characters. If they cannot be decoded, puts both parts between `punycode{` and `}`.
    ///
    /// # Errors
    ///
    /// Returns `SinkRefused` if the sink or the size limit rejects a piece. No later piece is sent.
    #[inline(always)]
    pub fn write_to<S: TextSink>(
        &self,
        symbol: &Symbol<'_>,
        out: &mut SizeLimitedFmtAdapter<'_, S>,
        looks: &mut Looks,
    ) -> Result<(), SinkRefused>
        requires parts { IsIdentWithin symbol.now self.now }
        requires ascii { IsAscii symbol.now }
        requires ready { Ready S.TextSink out.old }
        ensures prints { Prints S.TextSink out.old
            (name_pieces (name_in symbol.now self.now)) result out.new }
        ensures grows { looks.old ≤ looks.new }
        ensures looks { looks.new ≤ looks.old + name_size self.now }
    {
        if self.punycode.to <= self.punycode.from {
            return symbol.span(self.ascii).write_to(out);
        }
        Ident::write_decoded(self.ascii, self.punycode, symbol, out, looks)
    }
}
