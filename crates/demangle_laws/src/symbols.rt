//! Laws about the output of each scheme.
ghost use Rattle.std.specs.Prelude.{◌≡◌, ◌⊎◌, ℕ, Bool, true, false, List, [], ◌∷◌, ◌++◌, Option, codes};
ghost use Rattle.demangle_sink.specs.Cut.{cut, kept, marker};
ghost use Rattle.demangle_legacy.specs.Legacy.{IsLegacy};
ghost use Rattle.demangle_legacy.specs.Unescaped.{legacy_pieces};
ghost use Rattle.demangle_value.specs.Shape.{path_pieces};
ghost use Rattle.demangle_value.specs.Stripped.{is_allowed};
ghost use Rattle.demangle_value.specs.Filtered.{starts_run};
ghost use Rattle.demangle_value.specs.Symbols.{form_in, limit_in, handed, handed_in, kept_of, IsSymbol};
ghost use Rattle.demangle_value.specs.declared.format.Format.{Format};
ghost use Rattle.demangle_value.specs.declared.format.RereadLimit.TheVariants.{Unlimited};
ghost use Rattle.demangle_v0_grammar.specs.Reading.{Form, form, path_texts};
ghost use Rattle.demangle_v0_grammar.specs.References.{is_path_whole, path_texts_before};
ghost use Rattle.demangle_v0_grammar.specs.V0.{IsV0};

/// A legacy symbol with an allowed suffix prints the pieces of its elements, cut at the limit, and
/// then its suffix.
pub fn legacy_symbol_prints_its_elements()
    ensures handed { (text : List ℕ) → (elements : List (List ℕ)) → (suffix : List ℕ) →
        (hash : Bool) → (limit : ℕ) → IsLegacy text elements suffix → is_allowed suffix ≡ true →
        handed text hash limit ≡ cut (legacy_pieces (form hash false) elements) limit ++ suffix ∷ [] }
    ensures kept { (text : List ℕ) → (elements : List (List ℕ)) → (suffix : List ℕ) →
        (hash : Bool) → (limit : ℕ) → IsLegacy text elements suffix → is_allowed suffix ≡ true →
        kept_of text hash limit ≡ kept (legacy_pieces (form hash false) elements) limit }
{}

/// A v0 symbol with an allowed suffix prints the texts of its tree, cut at the limit, and then its
/// suffix. The tree is that of its first path, with the tree of its target for each reference.
pub fn v0_symbol_prints_its_tree()
    ensures handed { (text inner suffix : List ℕ) → (hash : Bool) → (limit : ℕ) →
        IsV0 text inner suffix → is_allowed suffix ≡ true →
        handed text hash limit ≡ cut (path_texts inner (form hash false)) limit ++ suffix ∷ [] }
    ensures kept { (text inner suffix : List ℕ) → (hash : Bool) → (limit : ℕ) →
        IsV0 text inner suffix → is_allowed suffix ≡ true →
        kept_of text hash limit ≡ kept (path_texts inner (form hash false)) limit }
{}

/// A v0 symbol prints a prefix of the texts of its tree, whatever the limit of the bytes that are
/// read again. If no reference goes beyond that limit, only the limit of bytes cuts them.
pub fn limited_symbol_prints_a_prefix_of_its_tree()
    ensures texts { (inner : List ℕ) → (form : Form) → (most : Option ℕ) →
        (rest : List (List ℕ)) × (path_texts inner form ≡ path_texts_before most inner form ++ rest) }
    ensures all { (inner : List ℕ) → (form : Form) → (most : Option ℕ) →
        is_path_whole most inner form ≡ true →
        path_texts_before most inner form ≡ path_texts inner form }
    ensures whole { (text inner suffix : List ℕ) → (format : Format) →
        IsV0 text inner suffix → is_allowed suffix ≡ true →
        is_path_whole (form_in format text).reread inner format.form ≡ true →
        handed_in text format
        ≡ cut (path_texts inner format.form) (limit_in format text) ++ suffix ∷ [] }
    ensures cut { (text inner suffix : List ℕ) → (format : Format) →
        IsV0 text inner suffix → is_allowed suffix ≡ true →
        (texts : List (List ℕ)) × (rest : List (List ℕ))
        × (path_texts inner format.form ≡ texts ++ rest)
        × (((rest ≡ []) × (handed_in text format ≡ texts ++ suffix ∷ []))
        ⊎ (handed_in text format ≡ texts ++ marker ∷ suffix ∷ [])) }
{}

/// The same for each format: a symbol is the same whatever the format. Only its pieces differ, and
/// folding changes only those of a v0 symbol.
pub fn each_format_prints_the_same_symbols()
    ensures legacy { (text : List ℕ) → (elements : List (List ℕ)) → (suffix : List ℕ) →
        (format : Format) → IsLegacy text elements suffix → is_allowed suffix ≡ true →
        handed_in text format
        ≡ cut (legacy_pieces format.form elements) (limit_in format text) ++ suffix ∷ [] }
    ensures v0 { (text inner suffix : List ℕ) → (format : Format) →
        IsV0 text inner suffix → is_allowed suffix ≡ true →
        handed_in text format
        ≡ cut (path_pieces inner (form_in format text)) (limit_in format text) ++ suffix ∷ [] }
    ensures unlimited { (text inner suffix : List ℕ) → (format : Format) →
        format.reread ≡ Unlimited → IsV0 text inner suffix → is_allowed suffix ≡ true →
        handed_in text format
        ≡ cut (path_texts inner format.form) (limit_in format text) ++ suffix ∷ [] }
{}

/// No text is a symbol of both schemes.
pub fn no_symbol_is_of_both_schemes()
    ensures { (text : List ℕ) → (elements : List (List ℕ)) → (inner suffix other : List ℕ) →
        IsLegacy text elements suffix → IsV0 text inner other → ⊥ }
{}

/// A symbol that starts with an underscore starts a run there or after the underscore. A symbol of
/// macOS has one more underscore. So a stream examines every symbol that starts with one, whatever
/// its scheme.
pub fn symbol_after_underscore_starts_a_run()
    ensures { (text : List ℕ) → IsSymbol (codes "_" ++ text) →
        (starts_run (codes "_" ++ text) ≡ true) ⊎ (starts_run text ≡ true) }
{}
