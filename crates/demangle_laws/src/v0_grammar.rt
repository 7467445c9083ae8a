//! Laws about the bytes that are v0 symbols, and where they end.
ghost use Rattle.std.specs.Prelude.{◌≡◌, ◌↔◌, ◌⊎◌, ℕ, ◌≤◌, Bool, true, false, if◌then◌else◌, List, length, Some, None};
ghost use Rattle.demangle_v0_grammar.specs.Items.{Items, Kind};
ghost use Rattle.demangle_v0_grammar.specs.Table.{items};
ghost use Rattle.demangle_v0_grammar.specs.Reading.{HasNoError, max_depth, read_at, suffix_place};
ghost use Rattle.demangle_v0_grammar.specs.V0.{IsV0, v0_of};
ghost use Rattle.demangle_v0_grammar.specs.Spelling.{Rule, freely, named, named_outside, simple, Spells, IsPaths};

/// A production of a v0 symbol has at most one end for each start.
#[tactic(auto, using(demangle_v0_grammar::proofs::Unique::unique, demangle_v0_grammar::proofs::ParsedIffSpelled::one_suffix))]
pub fn units_end_once()
    ensures unit { (symbol : List ℕ) (rule : Rule) (depth lifetimes : ℕ) (p : Items) (i j k : ℕ) →
        Spells symbol rule depth lifetimes p i j → Spells symbol rule depth lifetimes p i k →
        j ≡ k }
    ensures symbol { (inner : List ℕ) (j k : ℕ) → IsPaths inner j → IsPaths inner k → j ≡ k }
{}

/// Parsing without output accepts exactly the bytes that the grammar spells.
#[tactic(auto, using(demangle_v0_grammar::proofs::ParsedIffSpelled::reading_is_spelling))]
pub fn reading_accepts_what_is_spelled()
    ensures unit { (symbol : List ℕ) (folds : Bool) (kind : Kind) (value : Bool)
        (i j depth lifetimes : ℕ) → depth ≤ max_depth → i ≤ length symbol →
        ((read_at symbol folds false kind i depth lifetimes value).place ≡ Some j)
        ↔ Spells symbol freely depth lifetimes (items kind value) i j }
    ensures symbol { (inner : List ℕ) (k : ℕ) → (suffix_place inner ≡ Some k) ↔ IsPaths inner k }
    ensures whole { (symbol inner suffix : List ℕ) →
        (v0_of symbol ≡ Some (inner, suffix)) ↔ IsV0 symbol inner suffix }
{}

/// Parsing with output ends at the same place as parsing without output, or fails. It fails only at
/// a lifetime outside back references that names none in scope. If arguments are folded, it fails
/// only at such a lifetime outside generic arguments.
#[tactic(auto, using(demangle_v0_grammar::proofs::ParsedIffSpelled::printing_is_spelling, demangle_v0_grammar::proofs::ParsedIffSpelled::printing_ends, demangle_v0_grammar::proofs::Rules::spelled_freely))]
pub fn printing_ends_where_reading_does()
    ensures named { (symbol : List ℕ) (folds : Bool) (kind : Kind) (value : Bool)
        (i j depth lifetimes : ℕ) → depth ≤ max_depth → i ≤ length symbol →
        ((read_at symbol folds true kind i depth lifetimes value).place ≡ Some j)
        ↔ Spells symbol (if folds then named_outside else named) depth lifetimes
        (items kind value) i j }
    ensures freely { (symbol : List ℕ) (folds : Bool) (depth lifetimes : ℕ) (p : Items)
        (i j : ℕ) → Spells symbol (if folds then named_outside else named) depth lifetimes p i j →
        Spells symbol freely depth lifetimes p i j }
    ensures fails { (symbol : List ℕ) (folds : Bool) (kind : Kind) (value : Bool)
        (i j depth lifetimes : ℕ) → depth ≤ max_depth → i ≤ length symbol →
        Spells symbol freely depth lifetimes (items kind value) i j →
        ((read_at symbol folds true kind i depth lifetimes value).place ≡ Some j)
        ⊎ (((read_at symbol folds true kind i depth lifetimes value).place ≡ None)
        × (Spells symbol (if folds then named_outside else named) depth lifetimes
        (items kind value) i j → ⊥)) }
{}

/// A production without a back reference, and with no lifetime except that of index 0, is printed
/// without a stop such as `{invalid syntax}`.
#[tactic(auto, using(demangle_v0_grammar::proofs::NoErrors::read_whole, demangle_v0_grammar::proofs::Rules::simply_named))]
pub fn simple_productions_print_no_error()
    ensures whole { (symbol : List ℕ) (folds : Bool) (kind : Kind) (value : Bool)
        (i j depth lifetimes : ℕ) → depth ≤ max_depth → i ≤ length symbol →
        Spells symbol simple depth lifetimes (items kind value) i j →
        HasNoError (read_at symbol folds true kind i depth lifetimes value).tree }
    ensures named { (symbol : List ℕ) (depth lifetimes : ℕ) (p : Items) (i j : ℕ) →
        Spells symbol simple depth lifetimes p i j → Spells symbol named depth lifetimes p i j }
{}
