//! Prints tokens, piece by piece.
ghost use Rattle.std.specs.Prelude.{◌+◌, ◌≤◌, IsAscii};
ghost use Rattle.demangle_v0_tokens.specs.Tokens.{texts_of, print_looks};
ghost use Rattle.demangle_sink.specs.Limit.{Prints, Ready};
ghost use Rattle.demangle_v0_tokens.specs.Tokens.{IsTokenWithin};

use crate::fixed_texts::text;
use crate::render::names::NamespacedName;
use crate::source::Source;
use crate::token::Token;
use demangle_sink::{SinkRefused, SizeLimitedFmtAdapter, TextSink, put_each};
use demangle_symbol::cursor::Looks;
use demangle_symbol::literal::{put_char_literal, put_string_literal};

mod functions;
mod lifetimes;
mod names;
mod numbers;

use lifetimes::{put_binder, put_lifetime, put_prefixed_lifetime, put_spaced_lifetime};

impl Source<'_> {
    /// Prints a token, piece by piece.
    ///
    /// # Errors
    ///
    /// Returns `SinkRefused` if the sink or the size limit rejects a piece. No later piece is sent.
    #[inline(always)]
    pub fn render<S: TextSink>(
        &self,
        token: &Token,
        out: &mut SizeLimitedFmtAdapter<'_, S>,
        looks: &mut Looks,
    ) -> Result<(), SinkRefused>
        requires ascii { IsAscii self.now.symbol.now }
        requires in_bounds { IsTokenWithin self.now.symbol.now token.now }
        requires ready { Ready S.TextSink out.old }
        ensures prints { Prints S.TextSink out.old (texts_of self.now.symbol.now self.now.form
            token.now) result out.new }
        ensures grows { looks.old ≤ looks.new }
        ensures most { looks.new ≤ looks.old + print_looks token.now }
    {
        match token {
            Token::Nothing => Ok(()),
            Token::Fixed(fixed_text) => out.put(text(*fixed_text)),
            Token::CrateName(name, number) => self.put_crate_name(name, *number, out, looks),
            Token::FieldName(name) => name.write_to(self.symbol, out, looks),
            Token::NestedName(namespace, number, ident) => {
                let name = NamespacedName {
                    namespace: *namespace,
                    number: *number,
                    ident: *ident,
                };
                self.put_nested_name(name, out, looks)
            }
            Token::NameAfterError => put_each(&["::", "?"], out),
            Token::Lifetime(None) => put_each(&["'", "_"], out),
            Token::Lifetime(Some(number)) => put_lifetime(*number, out),
            Token::LifetimeError => put_each(&["'", "{invalid syntax}"], out),
            Token::SpacedLifetime(number) => put_spaced_lifetime(*number, out),
            Token::SpacedLifetimeError => put_each(&["'", "{invalid syntax}", " "], out),
            Token::DynLifetime(number) => put_prefixed_lifetime(" + ", *number, out),
            Token::DynLifetimeError => put_each(&[" + ", "'", "{invalid syntax}"], out),
            Token::FunctionQualifiers(is_unsafe, abi) => {
                self.put_function_qualifiers(*is_unsafe, *abi, out, looks)
            }
            Token::Number(value, nibbles, tag) => {
                self.put_number_constant(*value, *nibbles, *tag, out)
            }
            Token::Character(c) => put_char_literal(*c, out),
            Token::StrLiteral(nibbles) => put_string_literal(self.symbol, *nibbles, out, looks),
            Token::Binder(first, count) => put_binder(*first, *count, out),
            Token::BindingName(name) => self.put_binding(name, out, looks),
        }
    }
}
