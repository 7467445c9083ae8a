//! A v0 symbol that was read. It prints its first path.
ghost use Rattle.std.specs.Prelude.{◌≡◌, ◌+◌, ◌*◌, ◌≤◌, IfSome, IsAscii, length};
ghost use Rattle.demangle_sink.specs.Cut.{kept};
ghost use Rattle.demangle_sink.specs.Limit.{Ready};
ghost use Rattle.demangle_v0_grammar.specs.Again.{path_again};
ghost use Rattle.demangle_v0.specs.FirstPaths.{PrintsPath, texts_for};

use crate::printer::print_path;
use crate::stacks::SHORT_STACK;
use demangle_sink::{SinkRefused, SizeLimitedFmtAdapter, TextSink};
use demangle_symbol::cursor::{Looks, Symbol};
use demangle_symbol::form::Form;
use demangle_v0_parser::frames::UNUSED_FRAME;
use demangle_v0_parser::parse::Parser;
use demangle_v0_tokens::source::Source;
use std::marker::Model;

/// A v0 symbol that was read: the bytes after its prefix, with the suffix.
#[derive(Drop)]
pub struct Demangle<'s> {
    inner: Symbol<'s>,
}

impl<'s> Model for Demangle<'s> {
    ghost use Rattle.std.specs.Prelude.{ℕ, List, IsAscii};

    ghost Value = { List ℕ };

    ghost view = { λ s. s.inner };

    ghost invariant = { λ s. IsAscii s.inner };
}

impl<'s> Demangle<'s> {
    /// Returns the symbol with these bytes, which are ASCII.
    pub(super) fn new(inner: Symbol<'s>) -> Demangle<'s>
        requires { IsAscii inner }
        ensures { result ≡ inner.entry }
    {
        Demangle { inner }
    }

    /// Prints the first path, with hashes or without them, and with its generic arguments or with
    /// `_` for them.
    ///
    /// Fails at the first piece that the limit or the sink rejects, and at the first reference for
    /// which more bytes may be read again than the adapter allows.
    pub fn write_to<S: TextSink>(
        &self,
        out: &mut SizeLimitedFmtAdapter<'_, S>,
        form: Form,
        looks: &mut Looks,
    ) -> Result<(), SinkRefused>
        requires { Ready S.TextSink out.old }
        ensures prints { PrintsPath S.TextSink out.old self.now form result out.new }
        ensures grows { looks.old ≤ looks.new }
        ensures most { looks.new ≤ looks.old + 100000 * (kept (texts_for out.old self.now
            form) out.old.remaining + 1) * (length self.now + 1) }
        ensures again { looks.new ≤ looks.old + 17 * (length self.now + 1 + path_again self.now form) }
        ensures few { IfSome out.old.reread.most (λ most.
            looks.new ≤ looks.old + 20 * (length self.now + 1 + most)) }
        ensures least { looks.old + 1 ≤ looks.new }
    {
        let source = Source {
            symbol: &self.inner,
            form,
        };
        let mut memory = [UNUSED_FRAME; SHORT_STACK];
        let mut parser = Parser::at_path(source, 0, &mut memory, looks);
        let printed = print_path(&mut parser, out);
        *looks = parser.looks;
        printed
    }
}
