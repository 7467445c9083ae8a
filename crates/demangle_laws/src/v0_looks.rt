//! Laws about the number of looks of parsing a v0 symbol.
ghost use Rattle.std.specs.Prelude.{◌≡◌, ℕ, ◌+◌, ◌-◌, ◌*◌, ◌≤◌, Bool, true, List, length, take, None};
ghost use Rattle.demangle_v0_grammar.specs.Again.{OnlyBack, again, led_back, reach, read_again};
ghost use Rattle.demangle_v0_grammar.specs.ValidationLooks.{accepting_looks, looks_in};
ghost use Rattle.demangle_v0_grammar.specs.LookBudget.{bytes_of, looks_of, IsWithinBudget};
ghost use Rattle.demangle_sink.specs.Cut.{size};
ghost use Rattle.demangle_v0_grammar.specs.Items.{Items, Kind, a_path};
ghost use Rattle.demangle_v0_grammar.specs.Reading.{Form, Context, max_depth, costs_of, read_at, path_texts, parse};

/// The looks up to and including a token are bounded by the bytes that were printed before it,
/// however large the symbol's tree is. The same holds for each production, by the depths that
/// remain for it.
pub fn printing_looks_stay_linear()
    ensures printing { (symbol : List ℕ) (form : Form) (k : ℕ) →
        let read = read_at symbol form.fold_arguments true a_path 0 0 0 true in
        let all = costs_of form.include_hash read.tree in
        looks_of (take (k + 1) all) ≤ 100000 * (bytes_of (take k all) + 1) * (length symbol + 1) }
    ensures within_budget { (symbol : List ℕ) (form : Form) →
        IsWithinBudget (34 * max_depth * (length symbol + 1)) (34 * (max_depth + 1) * (length symbol + 1))
        (costs_of form.include_hash
        (read_at symbol form.fold_arguments true a_path 0 0 0 true).tree) 0 }
    ensures unit { (symbol : List ℕ) (form : Form) (kind : Kind)
        (i depth lifetimes : ℕ) (value : Bool) (k : ℕ) → i ≤ length symbol → depth ≤ max_depth →
        let read = read_at symbol form.fold_arguments true kind i depth lifetimes value in
        let all = costs_of form.include_hash read.tree in
        looks_of (take (k + 1) all)
        ≤ 34 * (length symbol + 1) * (max_depth + 1 - depth) * (bytes_of (take k all) + 1) }
    ensures bytes { (symbol : List ℕ) (form : Form) →
        bytes_of (costs_of form.include_hash
        (read_at symbol form.fold_arguments true a_path 0 0 0 true).tree)
        ≡ size (path_texts symbol form) }
{}

/// The looks of a production, printed or not, are at most 17 for each byte that it reads. A byte
/// counts again each time that reading goes back over it: to the target of a reference, and from
/// the end of a target that is read beyond its reference. If no target is, the distances back to
/// the targets are enough.
pub fn looks_grow_with_what_is_read()
    ensures read { (symbol : List ℕ) (folds printed : Bool) (kind : Kind)
        (i depth lifetimes : ℕ) (value : Bool) → i ≤ length symbol →
        let read = read_at symbol folds printed kind i depth lifetimes value in
        looks_in read + 6
        ≤ 17 * (reach (length symbol) i read.place + again (read_again (length symbol)) read.tree) }
    ensures only_back { (symbol : List ℕ) (folds printed : Bool) (kind : Kind)
        (i depth lifetimes : ℕ) (value : Bool) → i ≤ length symbol →
        let read = read_at symbol folds printed kind i depth lifetimes value in
        OnlyBack read.tree →
        looks_in read + 6 ≤ 17 * (reach (length symbol) i read.place + again led_back read.tree) }
{}

/// Accepting a symbol makes at most 32 looks for each of its bytes, and 32 more.
#[tactic(auto, using(demangle_v0_grammar::proofs::LooksLaw::accepting_costs))]
pub fn accepting_looks_stay_linear()
    ensures { (symbol : List ℕ) → accepting_looks symbol ≤ 32 * (length symbol + 1) }
{}

/// After a parse failed, the rest of it makes no look.
#[tactic(auto, using(demangle_v0_grammar::proofs::LooksLaw::failed_looks))]
pub fn failed_parser_makes_no_looks()
    ensures { (p : Items) (s : Context) (plain : Bool) →
        looks_of (costs_of plain (parse p s None).tree) ≡ 0 }
{}
