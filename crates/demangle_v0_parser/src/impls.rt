//! Continuations of the paths of impls, and of self types.
ghost use Rattle.std.specs.Prelude.{◌≡◌, Ok, IsOk};
ghost use Rattle.demangle_v0_parser.specs.Productions.{impl_items, self_type_continuation, impl_path_continuation};
ghost use Rattle.demangle_v0_parser.specs.Parsers.{CanAdvance, Advanced, AdvancedRest, AdvancedWithoutOutput};

use crate::parse::Parser;
use crate::{Continuation, StepError};
use demangle_v0_tokens::fixed_texts::FixedText;

impl Parser<'_, '_> {
    /// Reads the disambiguator of an impl, after its `M`, or its `X` if the impl is of a trait.
    #[inline(always)]
    pub(super) fn impl_disambiguator(&mut self, is_trait: bool) -> Result<Continuation, StepError>
        requires can_step { CanAdvance Continuation.Path self.old }
        ensures { AdvancedRest (impl_items is_trait) 6 1 2 self.old result self.new }
    {
        let Some(at) = self.state.place else {
            return Err(StepError::Abort(FixedText::AfterError));
        };
        // The disambiguator distinguishes the impls of a module, and is not printed.
        let Ok(next) = self.source.symbol.after_disambiguator(at, &mut self.looks) else {
            return Err(StepError::Abort(FixedText::Invalid));
        };
        self.state.place = Some(next);
        if is_trait {
            return Ok(Continuation::TraitImplPath);
        }
        Ok(Continuation::InherentImplPath)
    }

    /// Starts the impl's own path during validation. The printing loop skips that path instead.
    #[inline(always)]
    pub(super) fn read_impl_path(&mut self, is_trait: bool) -> Continuation
        requires can_step { CanAdvance Continuation.Path self.old }
        ensures { AdvancedWithoutOutput (impl_path_continuation is_trait) self.old (Ok result) self.new }
    {
        let next = if is_trait {
            Continuation::TraitSelfType
        } else {
            Continuation::InherentSelfType
        };
        self.push(next);
        self.state.in_value = false;
        Continuation::Path
    }

    /// Queues `<` and starts the self type, which is followed by a trait or by `>`.
    #[inline(always)]
    pub(super) fn self_type(&mut self, is_trait: bool) -> Continuation
        requires can_step { CanAdvance Continuation.Path self.old }
        ensures { Advanced (self_type_continuation is_trait) self.old (Ok result) self.new }
    {
        self.put(FixedText::Less);
        if is_trait {
            self.push(Continuation::AsTrait);
            return Continuation::Type;
        }
        self.push(Continuation::CloseAngle);
        Continuation::Type
    }

    /// Queues ` as ` and starts the trait, which is followed by `>`.
    #[inline(always)]
    pub(super) fn as_trait(&mut self) -> Continuation
        requires can_step { CanAdvance Continuation.AsTrait self.old }
        ensures { Advanced Continuation.AsTrait self.old (Ok result) self.new }
    {
        self.push(Continuation::CloseAngle);
        self.put(FixedText::AsTrait);
        self.state.in_value = false;
        Continuation::Path
    }
}
