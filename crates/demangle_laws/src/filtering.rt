//! Laws about the lines of a text and their output.
ghost use Rattle.std.specs.Prelude.{◌≡◌, ◌↔◌, ◌∷◌, ◌++◌, ℕ, List, [], Bool, false, Some, OnOk, IfErr, IsUtf8, flat_map, length, ◌*◌, ◌≤◌};
ghost use Rattle.std.specs.List.{concat};
ghost use Rattle.demangle_value.specs.Filtered.{HasNoStart, IsFiltered, filtered, filtered_in, filtered_within, is_run_byte};
ghost use Rattle.rustc_demangle.specs.Rewritten.{IsRewritten, before_after, rewritten_after, rewritten_in};
ghost use Rattle.rustc_demangle.specs.ByteStream.{SplitsNoCandidate};
ghost use Rattle.rustc_demangle.specs.Lines.{lines, line_feeds, OnlyLines};
ghost use Rattle.rustc_demangle.specs.TextPieces.{filtered_pieces};
ghost use Rattle.rustc_demangle.specs.LineStream.{output_of, StreamStopped};
ghost use Rattle.demangle_value.specs.Symbols.{handed_in};
ghost use Rattle.demangle_value.specs.declared.format.Format.{Format};
ghost use Rattle.demangle_value.specs.declared.format.SizeLimit.TheVariants.{Linear};
ghost use Rattle.rustc_demangle.specs.declared.byte_before.ByteBefore.{ByteBefore};

use rustc_demangle::{StreamFault, demangle_stream_named};
use std::alloc::Global;

/// A text is divided in only one way into parts that are not empty and have their line feeds
/// exactly at their ends. The last part may lack one. These parts are the lines of the text.
#[tactic(auto, using(crate::proofs::LineLaws::only_lines))]
pub fn lines_are_the_only_division()
    ensures { (text : List ℕ) → OnlyLines text }
{}

/// The computed output of a line is the output of its division into plain texts and runs. No other
/// output is.
pub fn filtered_is_the_only_text()
    ensures { (format : Format) → (line out : List ℕ) →
        (out ≡ filtered_in format line) ↔ IsFiltered format line out }
{}

/// The pieces of a text, joined, are the text filtered under the limit.
#[tactic(auto, using(rustc_demangle::proofs::PieceLemmas::pieces_join))]
pub fn pieces_join_to_the_filtered_text()
    ensures { (hash : Bool) → (limit : ℕ) → (text : List ℕ) →
        concat (filtered_pieces hash limit text) ≡ filtered_within hash limit text }
{}

/// A filtered text is the text of its filtered lines.
#[tactic(auto, using(crate::proofs::WholeText::whole_is_lines))]
pub fn text_is_filtered_by_lines()
    ensures { (hash : Bool) → (text : List ℕ) → filtered hash text ≡ output_of hash (lines text) }
{}

/// The computed output of any bytes is the output of their division into plain texts and runs. The
/// bytes before a run determine what its replacement takes the place of. No other output is.
pub fn rewritten_is_the_only_text()
    ensures { (format : Format) → (text out : List ℕ) →
        (out ≡ rewritten_in format text) ↔ IsRewritten format text out }
{}

/// Bytes can be rewritten in two parts, if the first splits no candidate. The second part is
/// rewritten after what is before it. If that is a byte that is not of a run, such as a line feed,
/// the second part is a text of its own.
pub fn rewritten_texts_can_be_divided()
    ensures after { (format : Format) → (before : ByteBefore) → (prefix rest : List ℕ) →
        SplitsNoCandidate before prefix rest →
        rewritten_after format before (prefix ++ rest) ≡ rewritten_after format before prefix
        ++ rewritten_after format (before_after before prefix) rest }
    ensures anew { (format : Format) → (prefix rest : List ℕ) → (c : ℕ) → is_run_byte c ≡ false →
        rewritten_in format (prefix ++ c ∷ rest)
        ≡ rewritten_in format (prefix ++ c ∷ []) ++ rewritten_in format rest }
    ensures lines { (format : Format) → (text : List ℕ) →
        rewritten_in format text ≡ flat_map (rewritten_in format) (lines text) }
{}

/// A line without `_ZN` and `_R` is not changed.
pub fn line_without_symbols_passes()
    ensures filtered { (format : Format) → (line : List ℕ) → HasNoStart line →
        filtered_in format line ≡ line }
    ensures rewritten { (format : Format) → (line : List ℕ) → HasNoStart line →
        rewritten_in format line ≡ line }
{}

/// If everything succeeds, the output has the same number of line feeds as the input.
pub fn as_many_lines_are_written()
    ensures printed { (text : List ℕ) → (format : Format) → line_feeds text ≡ 0 →
        line_feeds (concat (handed_in text format)) ≡ 0 }
    ensures written { (hash : Bool) → (text : List ℕ) →
        line_feeds (output_of hash (lines text)) ≡ line_feeds text }
    ensures rewritten { (format : Format) → (text : List ℕ) →
        line_feeds (rewritten_in format text) ≡ line_feeds text }
{}

/// Without a limit that a caller gives, the output has at most 1,000 bytes for each byte of the input,
/// markers and suffixes included.
pub fn output_is_linear()
    ensures { (format : Format) → format.limit ≡ Linear → (text : List ℕ) →
        length (rewritten_in format text) ≤ 1000 * length text }
{}

/// Demangles a text in memory. It shows the stream's contract with a reader and a writer whose
/// contents are known.
pub fn demangle_in_memory(
    alloc: Global,
    text: &[u8],
    output: &mut Vec<u8>,
    include_hash: bool,
) -> Result<(), StreamFault>
    ensures utf8 { OnOk result (IsUtf8 text.now) }
    ensures written { OnOk result
        (output.new.items ≡ output.old.items ++ output_of include_hash (lines text.now)) }
    ensures stopped { IfErr result (λ fault. StreamStopped fault text.now include_hash
        (Some output.old.items) (Some output.new.items)) }
{
    let mut input = text;
    demangle_stream_named(alloc, &mut input, output, include_hash)
}
