//! Laws about the primitives of v0 symbols.
ghost use Rattle.std.specs.Prelude.{◌≡◌, ◌↔◌, ℕ, ◌+◌, List, Some, slice_range};
ghost use Rattle.demangle_symbol.specs.Primitives.{Name, namespace_at, Namespace, integer_at, Integer, optional_at, OptInteger, backref_at, Backref, identifier_at, Identifier, nibbles_at, Hex};

/// A primitive's function returns a value and the place after the primitive exactly if its relation
/// holds for both.
pub fn primitives_are_read_as_spelled()
    ensures namespace { (s : List ℕ) (i j b : ℕ) →
        (namespace_at s i ≡ Some (b, j)) ↔ (Namespace s i b × (j ≡ i + 1)) }
    ensures integer { (s : List ℕ) (i j v : ℕ) → (integer_at s i ≡ Some (v, j)) ↔ Integer s i j v }
    ensures optional { (tag : ℕ) (s : List ℕ) (i j v : ℕ) →
        (optional_at tag s i ≡ Some (v, j)) ↔ OptInteger tag s i j v }
    ensures backref { (s : List ℕ) (i j target : ℕ) →
        (backref_at s i ≡ Some (target, j)) ↔ Backref s i j target }
    ensures identifier { (s : List ℕ) (i j : ℕ) (name : Name) →
        (identifier_at s i ≡ Some (name, j)) ↔ Identifier s i j name }
    ensures nibbles { (s : List ℕ) (i j : ℕ) (ns : List ℕ) →
        (nibbles_at s i ≡ Some (ns, j)) ↔ ((end : ℕ) × Hex s i j end × (ns ≡ slice_range s i end)) }
{}
