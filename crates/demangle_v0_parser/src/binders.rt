//! Binders: lifetimes that a function type or dyn traits bring into scope.
ghost use Rattle.std.specs.Prelude.{◌≡◌, ◌^◌, ◌<◌, ◌≤◌, IsOk, OnOk, false};
ghost use Rattle.demangle_v0_grammar.specs.Binders.{binder_texts};
ghost use Rattle.demangle_v0_parser.specs.Parsers.{CanPrint, binding};
ghost use Rattle.demangle_v0_parser.specs.Measure.{most_lifetimes};

use crate::parse::Parser;
use demangle_sink::SinkRefused;
use demangle_v0_tokens::output::Output;
use demangle_v0_tokens::token::Token;

impl Parser<'_, '_> {
    /// Brings `number` further lifetimes into scope, and prints them.
    ///
    /// Fails if the output does.
    #[inline(always)]
    pub(super) fn bind_lifetimes<V: Output>(
        &mut self,
        number: u64,
        output: &mut V,
    ) -> Result<(), SinkRefused>
        requires can_step { CanPrint V.Output self.old output.old }
        requires most { self.old.state.lifetimes ≤ most_lifetimes }
        ensures prints { V.prints output.old (binder_texts number self.old.state.lifetimes) result
            output.new }
        ensures ready { OnOk result (V.ready output.new) }
        ensures no_output { V.is_printed ≡ false → IsOk result }
        ensures parser { self.new ≡ binding self.old number }
        ensures number { number < 2 ^ 64 }
    {
        let token = Token::Binder(self.state.lifetimes, number);
        self.state.lifetimes += u128::from(number);
        self.emit(&token, output)
    }
}
