//! Laws of printing, with or without the hash, and within a limit.
ghost use Rattle.std.specs.Prelude.{◌≡◌, ◌⊎◌, ℕ, ◌+◌, ◌≤◌, Bool, true, false, IsAscii, List, [], ◌∷◌, length, Some, IsOk, OnOk, if◌then◌else◌};
ghost use Rattle.std.specs.List.{concat, list_all};
ghost use Rattle.demangle_sink.specs.Array.{text_of};
ghost use Rattle.demangle_sink.specs.Cut.{size};
ghost use Rattle.demangle_value.specs.Hashes.{OmitsHash};
ghost use Rattle.demangle_legacy.specs.Legacy.{IsLegacy};
ghost use Rattle.demangle_legacy.specs.Unescaped.{legacy_pieces};
ghost use Rattle.demangle_value.specs.Stripped.{stripped, is_thin_lto, is_allowed, IsCut};
ghost use Rattle.demangle_value.specs.Limits.{most_bytes};
ghost use Rattle.demangle_value.specs.Symbols.{IsSymbol, handed, kept_of, pieces_of, printed};
ghost use Rattle.demangle_v0_grammar.specs.Reading.{form};

use demangle_sink::{ArraySink, SinkRefused, TextSink};
use rustc_demangle::Demangle;

/// A text is cut at its first `.llvm.` if only characters of a ThinLTO suffix follow. Stripping a
/// text twice is the same as stripping it once.
pub fn stripped_is_cut_once()
    ensures cut { (text prefix ending : List ℕ) → IsCut text prefix ending →
        stripped text ≡ (if list_all is_thin_lto ending then prefix else text) }
    ensures whole { (text : List ℕ) → ((prefix ending : List ℕ) → IsCut text prefix ending → ⊥) →
        stripped text ≡ text }
    ensures twice { (text : List ℕ) → stripped (stripped text) ≡ stripped text }
{}

/// A text that is not a symbol prints itself, in one piece and without a limit.
pub fn no_symbol_prints_itself()
    ensures handed { (text : List ℕ) → (IsSymbol text → ⊥) → (hash : Bool) → (limit : ℕ) →
        handed text hash limit ≡ text ∷ [] }
    ensures kept { (text : List ℕ) → (IsSymbol text → ⊥) → (hash : Bool) → (limit : ℕ) →
        kept_of text hash limit ≡ 0 }
{}

/// A symbol prints at most the bytes of the limit, the 20 of the marker, and its suffix.
pub fn symbol_stays_within_limit()
    ensures { (text : List ℕ) → (hash : Bool) → (limit : ℕ) → (pieces : List (List ℕ)) →
        (suffix : List ℕ) → pieces_of hash text ≡ Some (pieces, suffix) →
        size (handed text hash limit) ≤ limit + 20 + length suffix }
{}

/// A symbol prints at most the bytes of the limit, the 20 of the marker, and the number of its own
/// bytes.
#[tactic(auto, using(demangle_value::proofs::SymbolLaws::length_handed))]
pub fn symbol_text_is_bounded()
    ensures { (text : List ℕ) → (hash : Bool) → (limit : ℕ) → IsSymbol text →
        length (concat (handed text hash limit)) ≤ limit + 20 + length text }
{}

/// A text is ASCII if it is a symbol after stripping.
#[tactic(auto, using(demangle_value::proofs::SymbolLaws::symbols_ascii))]
pub fn symbols_are_ascii()
    ensures { (text : List ℕ) → IsSymbol (stripped text) → IsAscii text }
{}

/// The hash is the last element of a legacy symbol. If its pieces are within the limit, omitting
/// the hash changes nothing, or omits only that element and the `::` before it.
pub fn hash_is_the_last_element()
    ensures { (text : List ℕ) → (elements : List (List ℕ)) → (suffix : List ℕ) → (limit : ℕ) →
        IsLegacy text elements suffix → is_allowed suffix ≡ true →
        size (legacy_pieces (form true false) elements) ≤ limit →
        (handed text false limit ≡ handed text true limit)
        ⊎ OmitsHash text elements suffix limit }
{}

/// Prints a symbol twice with the same flag. The texts are equal, and printing succeeds if there is
/// room for them. Fails if a sink fails.
pub fn prints_the_same<const N: usize, const M: usize>(
    symbol: &Demangle<'_>,
    include_hash: bool,
    first: &mut ArraySink<N>,
    second: &mut ArraySink<M>,
) -> Result<(), SinkRefused>
    requires first_alive { ⟦<ArraySink<N> as TextSink>⟧.failed first.old ≡ false }
    requires second_alive { ⟦<ArraySink<M> as TextSink>⟧.failed second.old ≡ false }
    requires first_empty { text_of first.old ≡ [] }
    requires second_empty { text_of second.old ≡ [] }
    ensures same { OnOk result (text_of first.new ≡ text_of second.new) }
    ensures text { OnOk result (text_of first.new ≡ printed symbol.now include_hash) }
    ensures fits { size (handed symbol.now include_hash most_bytes) ≤ N →
        size (handed symbol.now include_hash most_bytes) ≤ M → IsOk result }
{
    symbol.write_to(first, include_hash)?;
    symbol.write_to(second, include_hash)
}
