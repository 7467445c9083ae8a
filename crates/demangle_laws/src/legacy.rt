//! Laws of the legacy scheme.
ghost use Rattle.std.specs.Prelude.{◌≡◌, ℕ, List, Some};
ghost use Rattle.demangle_legacy.specs.Legacy.{IsLegacy, legacy_of};
ghost use Rattle.demangle_legacy.specs.Unescaped.{unescaped};
ghost use Rattle.demangle_legacy.specs.UnescapedRelation.{IsUnescaped};

/// A text is parsed as a legacy symbol exactly if the grammar spells it, and in at most one way.
pub fn legacy_is_read()
    ensures read { (text : List ℕ) (elements : List (List ℕ)) (suffix : List ℕ) →
        legacy_of text ≡ Some (elements, suffix) → IsLegacy text elements suffix }
    ensures spelled { (text : List ℕ) (elements : List (List ℕ)) (suffix : List ℕ) →
        IsLegacy text elements suffix → legacy_of text ≡ Some (elements, suffix) }
    ensures once { (text : List ℕ) (elements others : List (List ℕ)) (suffix other : List ℕ) →
        IsLegacy text elements suffix → IsLegacy text others other →
        (elements ≡ others) × (suffix ≡ other) }
{}

/// An element prints exactly the pieces that the relation gives it.
///
/// These are the pieces of its units in sequence. Each unit has one form: `..`, a single `.`, an
/// escape between two `$`, or plain bytes up to one of these. A rest that starts with no unit is
/// printed unchanged.
pub fn elements_are_unescaped()
    ensures read { (element : List ℕ) → IsUnescaped element (unescaped element) }
    ensures once { (element : List ℕ) (pieces : List (List ℕ)) → IsUnescaped element pieces →
        pieces ≡ unescaped element }
{}
