//! Continuations of trait objects, which are `dyn` types.
ghost use Rattle.std.specs.Prelude.{◌+◌, ◌≤◌, Ok, if◌then◌else◌, IsOk};
ghost use Rattle.demangle_v0_parser.specs.Productions.{dyn_type};
ghost use Rattle.demangle_v0_parser.specs.Parsers.{Performed, CanPerform, CanAdvance, Advanced, AdvancedRest, AdvancedUnfolded};
ghost use Rattle.demangle_v0_parser.specs.Steps.{looks_bound};

use crate::lists::separator;
use crate::parse::Parser;
use crate::{Continuation, StepError};
use demangle_v0_tokens::fixed_texts::FixedText;
use demangle_v0_tokens::output::Output;
use demangle_v0_tokens::token::TokenKind;

impl Parser<'_, '_> {
    /// Queues the `dyn ` of a dyn type, after its `D`. The binder of its traits follows.
    #[inline(always)]
    pub(super) fn dyn_type(&mut self) -> Continuation
        requires can_step { CanAdvance Continuation.DynBinder self.old }
        ensures { AdvancedRest dyn_type 5 4 5 self.old (Ok result) self.new }
    {
        // The lifetime of the type follows the traits, outside their binder. So the frame has only
        // the lifetimes that are in scope without it.
        self.push(Continuation::DynLifetime);
        self.put(FixedText::Dyn);
        Continuation::DynBinder
    }

    /// Reads the binder of dyn traits, and prints its lifetimes.
    ///
    /// The traits follow. If there is no binder, the same step starts the first of them.
    #[inline(never)]
    pub(super) fn dyn_binder<V: Output>(
        &mut self,
        output: &mut V,
    ) -> Result<Continuation, StepError>
        requires can_step { CanPerform V.Output Continuation.DynBinder self.old output.old }
        ensures { Performed V.Output Continuation.DynBinder self.old output.old result self.new output.new }
    {
        let at = self.state.place_or_abort()?;
        let (number, next) = self
            .source
            .symbol
            .opt_integer_62(b'G', at, &mut self.looks)?;
        self.state.place = Some(next);
        if number == 0 {
            return Ok(self.dyn_trait(true));
        }
        self.bind_lifetimes(number, output)?;
        Ok(Continuation::FirstDynTrait)
    }

    /// Starts the next dyn trait, or ends the traits.
    ///
    /// Queues the ` + ` before a trait that is not the first.
    #[inline(always)]
    pub(super) fn dyn_trait(&mut self, is_first: bool) -> Continuation
        requires can_step { CanAdvance Continuation.NextDynTrait self.old }
        ensures performs { Advanced
            (if is_first then Continuation.FirstDynTrait else Continuation.NextDynTrait)
            self.old (Ok result) self.new }
        ensures own_looks { self.new.looks ≤ self.old.looks + looks_bound 16 self.old.source.symbol.now
            self.old.state.place }
    {
        if self.ends_list() {
            self.state.is_bracket_open = false;
            return Continuation::End;
        }
        self.push(Continuation::Bindings);
        self.state.pending_text = separator(is_first, FixedText::Plus);
        Continuation::TraitPath
    }

    /// Starts the path of a dyn trait, which may be a back reference.
    ///
    /// If the path has arguments, their bracket stays open for the bindings that may follow.
    #[inline(always)]
    pub(super) fn trait_path<V: Output>(
        &mut self,
        output: &mut V,
    ) -> Result<Continuation, StepError>
        requires can_step { CanPerform V.Output Continuation.TraitPath self.old output.old }
        ensures { Performed V.Output Continuation.TraitPath self.old output.old result self.new output.new }
    {
        let at = self.state.place_or_abort()?;
        if self.source.symbol.is_at(b'B', at, &mut self.looks) {
            self.state.place = Some(at + 1);
            return self.follow_backref(Continuation::TraitPath, output);
        }
        self.state.in_value = false;
        if self.source.symbol.is_at(b'I', at, &mut self.looks) {
            self.state.place = Some(at + 1);
            self.push(Continuation::OpenTraitArguments);
            return Ok(Continuation::Path);
        }
        Ok(Continuation::Path)
    }

    /// Starts the next argument of a dyn trait path, or ends the arguments.
    ///
    /// Queues the `, ` before an argument that is not the first. After the last one the bracket is
    /// still open.
    #[inline(always)]
    pub(super) fn trait_argument(&mut self, is_first: bool) -> Continuation
        requires can_step { CanAdvance Continuation.NextTraitArgument self.old }
        ensures { AdvancedUnfolded is_first (if is_first then Continuation.FirstTraitArgument else
            Continuation.NextTraitArgument) self.old (Ok result) self.new }
    {
        let Some(at) = self.element_place() else {
            self.state.is_bracket_open = true;
            return Continuation::End;
        };
        self.push(Continuation::NextTraitArgument);
        self.state.pending_text = separator(is_first, FixedText::Comma);
        self.argument(at)
    }

    /// Queues the `_` for the arguments of a dyn trait path, which were read. The bracket stays
    /// open.
    #[inline(always)]
    pub(super) fn folded_trait_arguments(&mut self) -> Continuation
        requires can_step { CanAdvance Continuation.FoldedTraitArguments self.old }
        ensures { Advanced Continuation.FoldedTraitArguments self.old (Ok result) self.new }
    {
        self.put(FixedText::Placeholder);
        self.state.is_bracket_open = true;
        Continuation::End
    }

    /// Reads the lifetime of a dyn type, and prints it after a ` + ` unless it is erased.
    #[inline(never)]
    pub(super) fn dyn_lifetime<V: Output>(
        &mut self,
        output: &mut V,
    ) -> Result<Continuation, StepError>
        requires can_step { CanPerform V.Output Continuation.DynLifetime self.old output.old }
        ensures { Performed V.Output Continuation.DynLifetime self.old output.old result self.new output.new }
    {
        self.end_with_token(TokenKind::DynLifetime, output)
    }
}
