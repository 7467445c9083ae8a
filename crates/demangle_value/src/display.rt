//! Formats a demangled symbol.
ghost use Rattle.std.specs.Prelude.{Some, true, not};
ghost use Rattle.std.specs.Fmt.{DisplaysOnOk, WritesStyledOnOk, formatter_spec, spec_alternate};
ghost use Rattle.demangle_value.specs.Symbols.{printed};

use crate::coalescing::write_coalesced;
use crate::value::Demangle;
use demangle_sink::FmtSink;
use std::fmt;

/// Prints with the hash, and with `{:#}` without it. Width, fill, sign and precision have no
/// effect.
///
/// The formatter gets several pieces of the text at once. Fails if it rejects a part. It then got a
/// prefix of the text.
impl fmt::Display for Demangle<'_> {
    ghost output = { λ symbol. Some (printed symbol true) };

    ghost styled_output = { λ symbol spec. Some (printed symbol (not (spec_alternate spec))) };

    fn fmt<W: fmt::Write>(&self, f: &mut fmt::Formatter<W>) -> fmt::Result {
        let include_hash = !f.alternate();
        let mut sink = FmtSink::new(f);
        match write_coalesced(self, &mut sink, include_hash) {
            Ok(()) => Ok(()),
            Err(_) => Err(fmt::Error),
        }
    }
}

/// Prints as `Display` does, whatever the options.
impl fmt::Debug for Demangle<'_> {
    ghost debug_output = { λ symbol. Some (printed symbol true) };

    fn fmt<W: fmt::Write>(&self, f: &mut fmt::Formatter<W>) -> fmt::Result
        ensures writes { DisplaysOnOk W.write_str_gives f.old result
            (Some (printed self.now true)) f.new }
        ensures styled { WritesStyledOnOk W.write_str_gives f.old result
            (printed self.now (not (spec_alternate (formatter_spec f.old)))) f.new }
    {
        fmt::Display::fmt(self, f)
    }
}
