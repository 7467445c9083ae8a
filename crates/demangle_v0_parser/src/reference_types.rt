//! Continuations of reference types.
ghost use Rattle.std.specs.Prelude.{◌≡◌, Ok, IsOk};
ghost use Rattle.demangle_v0_parser.specs.Parsers.{Performed, CanPerform, AdvancedRest};
ghost use Rattle.demangle_v0_parser.specs.Measure.{Fits};
ghost use Rattle.demangle_v0_parser.specs.Continuations.{after_reference_lifetime, lifetime_continuation, spaced_lifetime};
ghost use Rattle.demangle_v0_tokens.specs.Tokens.{print_looks};
ghost use Rattle.demangle_v0_tokens.specs.Tags.{reference_to};

use crate::parse::Parser;
use crate::{Continuation, StepError};
use demangle_v0_tokens::fixed_texts::FixedText;
use demangle_v0_tokens::output::Output;
use demangle_v0_tokens::token::Token;

/// Returns the continuation after the lifetime of a reference.
#[inline(always)]
fn after_reference_lifetime(is_mut: bool) -> Continuation
    ensures { result ≡ after_reference_lifetime is_mut }
{
    if is_mut {
        Continuation::Mut
    } else {
        Continuation::Type
    }
}

/// Returns the token for the lifetime of an index above 0, and the place after it.
///
/// If the index is above the lifetimes in scope, the token is an error, and there is no place.
#[inline(always)]
fn spaced_lifetime(lifetimes: u128, index: u64, next: usize) -> (Token, Option<usize>)
    ensures value { result ≡ spaced_lifetime lifetimes index next }
    ensures later { print_looks result.0 ≡ 0 }
{
    if u128::from(index) > lifetimes {
        return (Token::SpacedLifetimeError, None);
    }
    (
        Token::SpacedLifetime(lifetimes - u128::from(index)),
        Some(next),
    )
}

impl Parser<'_, '_> {
    /// Queues the `&` of a reference, and reads the `L` if a lifetime follows.
    #[inline(always)]
    pub(super) fn reference_type(&mut self, is_mut: bool) -> Continuation
        requires fits { Fits Continuation.«Type» self.old.state.depth_left self.old.state.lifetimes }
        ensures { AdvancedRest (reference_to is_mut) 5 50 9 self.old (Ok result) self.new }
    {
        self.put(FixedText::Ampersand);
        let Some(at) = self.state.place else {
            return after_reference_lifetime(is_mut);
        };
        if !self.source.symbol.is_at(b'L', at, &mut self.looks) {
            return after_reference_lifetime(is_mut);
        }
        self.state.place = Some(at + 1);
        if is_mut {
            Continuation::MutReferenceLifetime
        } else {
            Continuation::ReferenceLifetime
        }
    }

    /// Reads the lifetime of a reference, after its `L`, and prints it with a space.
    ///
    /// The lifetime `'_` is not printed. A lifetime that is not in scope is an error, but only if
    /// `output` prints.
    #[inline(always)]
    pub(super) fn reference_lifetime<V: Output>(
        &mut self,
        is_mut: bool,
        output: &mut V,
    ) -> Result<Continuation, StepError>
        requires can_step { CanPerform V.Output Continuation.«Type» self.old output.old }
        ensures { Performed V.Output (lifetime_continuation is_mut) self.old output.old result self.new
            output.new }
    {
        let at = self.state.place_or_abort()?;
        let (index, next) = self.source.symbol.integer_62(at, &mut self.looks)?;
        self.state.place = Some(next);
        // `&'_ T` is printed as `&T`. Without output no lifetime is checked.
        if index == 0 || !output.is_printing() {
            return Ok(after_reference_lifetime(is_mut));
        }
        let (token, place) = spaced_lifetime(self.state.lifetimes, index, next);
        self.state.place = place;
        self.emit(&token, output)?;
        Ok(after_reference_lifetime(is_mut))
    }
}
