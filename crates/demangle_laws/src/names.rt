//! Laws about decoded names.
ghost use Rattle.std.specs.Prelude.{◌≡◌, ℕ, ◌^◌, ◌<◌, ◌≤◌, true, List, length, All, Some};
ghost use Rattle.demangle_symbol.specs.Punycode.{next_delta, deltas, puny};

/// Each delta of a name that can be decoded is below 2^28, and so fits machine integers.
pub fn deltas_are_small()
    ensures { (ascii digits characters ds : List ℕ) → puny ascii digits ≡ Some characters →
        deltas (next_delta (length ascii) true 72) digits ≡ Some ds → All (λ d. d < 2 ^ 28) ds }
{}

/// A decoded name has at most 128 characters.
pub fn names_are_short()
    ensures { (ascii digits characters : List ℕ) → puny ascii digits ≡ Some characters →
        length characters ≤ 128 }
{}
