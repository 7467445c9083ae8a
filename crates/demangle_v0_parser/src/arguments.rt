//! Continuations of generic arguments.
ghost use Rattle.std.specs.Prelude.{◌≡◌, ◌+◌, ◌≤◌, false, Ok, Some};
ghost use Rattle.demangle_v0_parser.specs.Productions.{arguments_continuation, argument_continuation, argument_place, argument_costs};
ghost use Rattle.demangle_v0_grammar.specs.LookTotals.{total};
ghost use Rattle.demangle_v0_parser.specs.Parsers.{CanAdvance, Advanced, AdvancedUnfolded, restated};
ghost use Rattle.demangle_v0_parser.specs.Steps.{looks_bound};

use crate::Continuation;
use crate::lists::separator;
use crate::parse::Parser;
use demangle_v0_tokens::fixed_texts::FixedText;

impl Parser<'_, '_> {
    /// Queues the `<` of a path's generic arguments, or `::` before it in value position.
    #[inline(always)]
    pub(super) fn generic(&mut self) -> Continuation
        requires can_step { CanAdvance Continuation.Generic self.old }
        ensures { Advanced Continuation.Generic self.old (Ok result) self.new }
    {
        if self.state.in_value {
            self.put(FixedText::PathSeparator);
            return Continuation::OpenArguments;
        }
        self.put(FixedText::Less);
        Continuation::FirstArgument
    }

    /// Starts the first or a further generic argument of a path, or ends their list.
    ///
    /// A parse that prints folded arguments does not read them here, but as it reads an impl path.
    #[inline(always)]
    pub(super) fn arguments(&mut self, is_first: bool) -> Continuation
        requires can_step { CanAdvance Continuation.NextArgument self.old }
        ensures { AdvancedUnfolded is_first (arguments_continuation is_first) self.old (Ok result) self.new }
    {
        let Some(at) = self.element_place() else {
            return self.end_with(FixedText::Greater);
        };
        self.push(Continuation::NextArgument);
        self.state.pending_text = separator(is_first, FixedText::Comma);
        self.argument(at)
    }

    /// Reads the tag of a generic argument at `at`, the current offset: `L` for a lifetime, `K` for
    /// a constant, and none for a type.
    #[inline(always)]
    pub(super) fn argument(&mut self, at: usize) -> Continuation
        requires place { self.old.state.place ≡ Some at }
        ensures continuation { result ≡ argument_continuation self.old.source.symbol.now at }
        ensures parser { self.new ≡ restated self.old (record self.old.state {
          in_value = false;
          place = Some (argument_place self.old.source.symbol.now at);
        }) self.new.looks }
        ensures grows { self.old.looks ≤ self.new.looks }
        ensures own_looks { self.new.looks ≤ self.old.looks + looks_bound 20 self.old.source.symbol.now
            self.old.state.place }
        ensures looks { self.new.looks ≤ self.old.looks + total (argument_costs self.old.source.symbol.now
            at) }
        ensures least_looks { self.new.looks ≤ self.old.looks + 2 }
    {
        self.state.in_value = false;
        if self.source.symbol.is_at(b'L', at, &mut self.looks) {
            self.state.place = Some(at + 1);
            return Continuation::Lifetime;
        }
        if self.source.symbol.is_at(b'K', at, &mut self.looks) {
            self.state.place = Some(at + 1);
            return Continuation::Constant;
        }
        Continuation::Type
    }
}
