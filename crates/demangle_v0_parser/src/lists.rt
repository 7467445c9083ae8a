//! Lists: where they end, and what separates their elements.
ghost use Rattle.std.specs.Prelude.{◌≡◌, Some, None, IfSome, IfNone, true, false, if◌then◌else◌};
ghost use Rattle.demangle_symbol.specs.Digits.{is_byte};
ghost use Rattle.demangle_v0_parser.specs.Parsers.{moved};
ghost use Rattle.demangle_v0_parser.specs.Steps.{LooksWithin};
ghost use Rattle.demangle_v0_parser.specs.Continuations.{after_list, is_list_end, list_costs};

use crate::parse::Parser;
use demangle_v0_tokens::fixed_texts::FixedText;

/// Returns the text before an element: none before the first.
#[inline(always)]
pub(super) fn separator(is_first: bool, pending_text: FixedText) -> Option<FixedText>
    ensures { result ≡ (if is_first then None else Some pending_text) }
{
    if is_first { None } else { Some(pending_text) }
}

impl Parser<'_, '_> {
    /// Returns the place of the next element of a list. Returns `None` if the list ends, and reads
    /// the `E` after it.
    ///
    /// A list also ends if parsing has failed, so that what follows the list is printed.
    #[inline(always)]
    pub(super) fn element_place(&mut self) -> Option<usize>
        ensures over { IfNone result
            (is_list_end self.old.source.symbol.now self.old.state.place ≡ true) }
        ensures element { IfSome result (λ at. (self.old.state.place ≡ Some at)
            × (is_byte self.old.source.symbol.now at 69 ≡ false)) }
        ensures place { self.new ≡ moved self.old (after_list self.old.source.symbol.now
            self.old.state.place) self.new.looks }
        ensures within_budget { LooksWithin self.old.looks (list_costs self.old.state.place) self.new.looks }
    {
        let at = self.state.place?;
        if !self.source.symbol.is_at(b'E', at, &mut self.looks) {
            return Some(at);
        }
        self.state.place = Some(at + 1);
        None
    }

    /// Returns whether a list ends, and reads the `E` after it, as `element_place` does.
    #[inline(always)]
    pub(super) fn ends_list(&mut self) -> bool
        ensures over { result ≡ is_list_end self.old.source.symbol.now self.old.state.place }
        ensures place { self.new ≡ moved self.old (after_list self.old.source.symbol.now
            self.old.state.place) self.new.looks }
        ensures within_budget { LooksWithin self.old.looks (list_costs self.old.state.place) self.new.looks }
    {
        self.element_place().is_none()
    }
}
