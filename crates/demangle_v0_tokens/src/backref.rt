//! Reads back references.
ghost use Rattle.std.specs.Prelude.{◌≡◌, ◌+◌, ◌≤◌};
ghost use Rattle.demangle_v0_grammar.specs.LookTotals.{total};
ghost use Rattle.demangle_v0_tokens.specs.Backrefs.{read_backref, IsDeep};

use crate::fixed_texts::FixedText;
use demangle_symbol::cursor::{Looks, MAX_DEPTH, ParseError, Symbol};

/// The result of reading a back reference.
#[derive(Clone, Copy)]
pub enum BackrefOutcome {
    /// The reference is not followed. The production ends with this error text.
    NotFollowed(FixedText),
    /// The place of the target, and the place after the reference.
    Target(usize, usize),
}

/// Reads a back reference after its `B`. `left` is how many more levels of nesting are allowed.
///
/// Returns the places of its target and after it. If the reference is invalid, if no level is left,
/// or after an error, it returns the error text.
#[tactic(auto, unfolding(demangle_symbol::specs::Primitives::backref_at))]
#[inline(always)]
pub fn read_backref(
    symbol: &Symbol<'_>,
    left: u16,
    place: Option<usize>,
    looks: &mut Looks,
) -> BackrefOutcome
    ensures value { result ≡ (read_backref symbol.now left place).refers }
    ensures grows { looks.old ≤ looks.new }
    ensures looks { looks.new ≤ looks.old + total (read_backref symbol.now left place).costs }
    ensures deep { IsDeep result left }
{
    let Some(at) = place else {
        return BackrefOutcome::NotFollowed(FixedText::AfterError);
    };
    // No `B` is before the symbol's first byte.
    if at == 0 {
        return BackrefOutcome::NotFollowed(FixedText::Invalid);
    }
    // The remaining depth is never more than the whole depth. The difference saturates at 0 so that
    // no caller has to show that.
    let depth = MAX_DEPTH.saturating_sub(u32::from(left));
    match symbol.backref(at, depth, looks) {
        Ok((target, following)) => BackrefOutcome::Target(target, following),
        Err(ParseError::Invalid) => BackrefOutcome::NotFollowed(FixedText::Invalid),
        Err(ParseError::RecursedTooDeep) => BackrefOutcome::NotFollowed(FixedText::Recursion),
    }
}
