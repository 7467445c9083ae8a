//! Validates v0 symbols: parses them without output, and finds the suffix.
ghost use Rattle.std.specs.Prelude.{◌≡◌, ◌+◌, ◌*◌, ◌≤◌, [], length, false, true, IsAscii, IfOk, IfSome, IsSome, Ok, OnErr, Some};
ghost use Rattle.demangle_v0_grammar.specs.Items.{a_path};
ghost use Rattle.demangle_v0_parser.specs.Parsers.{IsValid, Recounted, Same, trace_without_output};
ghost use Rattle.demangle_v0_parser.specs.Measure.{AllInner};
ghost use Rattle.demangle_v0_parser.specs.Loops.{first_state};
ghost use Rattle.demangle_v0_grammar.specs.Reading.{starts_second_path, unit_end, suffix_place, read_at};
ghost use Rattle.demangle_v0_grammar.specs.LookTotals.{allowed_in};
ghost use Rattle.demangle_v0_grammar.specs.ValidationLooks.{looks_in, suffix_looks, accepting_looks};
ghost use Rattle.demangle_sink.specs.Limit.{Ready};
ghost use Rattle.demangle_v0.specs.FirstPaths.{PrintsPath};

use crate::printer::{end_of_print, print_steps};
use crate::reading::read_steps;
use crate::stacks::{FULL_STACK, MIDDLE_STACK, SHORT_STACK};
use demangle_sink::{SinkRefused, SizeLimitedFmtAdapter, TextSink};
use demangle_symbol::cursor::{Looks, Symbol};
use demangle_symbol::form::Form;
use demangle_v0_parser::Continuation;
use demangle_v0_parser::frames::UNUSED_FRAME;
use demangle_v0_parser::parse::Parser;
use demangle_v0_parser::stops::ReadOutcome;
use demangle_v0_tokens::source::Source;

/// Reads the rest in a stack with room for every frame. Returns the place after it, or `None`
/// after an error.
#[inline(never)]
fn read_in_full_stack(parser: &mut Parser<'_, '_>) -> Option<usize>
    requires valid { IsValid parser.old }
    requires inner { AllInner parser.old.stack.frames }
    requires smaller { parser.old.stack.room ≤ FULL_STACK }
    ensures value { result ≡ (trace_without_output parser.old).place }
    ensures looks { parser.new.looks ≤ parser.old.looks + allowed_in (trace_without_output parser.old).events }
    ensures grows { parser.old.looks ≤ parser.new.looks }
{
    let mut memory = [UNUSED_FRAME; FULL_STACK];
    let mut larger = parser.in_larger_stack(&mut memory);
    let outcome = read_steps(&mut larger, 0);
    let end = larger.place();
    parser.looks = larger.looks;
    match outcome {
        ReadOutcome::Complete => end,
        // A stack with room for every frame is never full.
        ReadOutcome::StackFull | ReadOutcome::Failed => None,
    }
}

/// Reads the rest, in the largest stack if this one is full. Returns the place after it, or
/// `None` after an error.
#[inline(always)]
fn read_to_end(parser: &mut Parser<'_, '_>) -> Option<usize>
    requires valid { IsValid parser.old }
    requires inner { AllInner parser.old.stack.frames }
    requires smaller { parser.old.stack.room ≤ FULL_STACK }
    ensures value { result ≡ (trace_without_output parser.old).place }
    ensures looks { parser.new.looks ≤ parser.old.looks + allowed_in (trace_without_output parser.old).events }
    ensures grows { parser.old.looks ≤ parser.new.looks }
{
    match read_steps(parser, 0) {
        ReadOutcome::Complete => parser.place(),
        ReadOutcome::StackFull => read_in_full_stack(parser),
        ReadOutcome::Failed => None,
    }
}

/// Reads the rest in a larger stack, and if that is full too, in the largest. Returns the place
/// after it, or `None` after an error.
#[inline(never)]
fn read_in_middle_stack(parser: &mut Parser<'_, '_>) -> Option<usize>
    requires valid { IsValid parser.old }
    requires inner { AllInner parser.old.stack.frames }
    requires smaller { parser.old.stack.room ≤ MIDDLE_STACK }
    ensures value { result ≡ (trace_without_output parser.old).place }
    ensures looks { parser.new.looks ≤ parser.old.looks + allowed_in (trace_without_output parser.old).events }
    ensures grows { parser.old.looks ≤ parser.new.looks }
    ensures parser { Recounted parser.old parser.new }
{
    let mut memory = [UNUSED_FRAME; MIDDLE_STACK];
    let mut larger = parser.in_larger_stack(&mut memory);
    let end = read_to_end(&mut larger);
    parser.looks = larger.looks;
    end
}

/// Reads the path at a place, with no frames on the stack. Returns the place after it, and then
/// leaves no frames. Returns `None` after an error.
fn path_end(parser: &mut Parser<'_, '_>, place: usize) -> Option<usize>
    requires empty { parser.old.stack.frames ≡ [] }
    requires smaller { parser.old.stack.room ≤ MIDDLE_STACK }
    requires whole { parser.old.source.form.fold_arguments ≡ false }
    ensures value { result ≡ unit_end parser.old.source.symbol.now a_path place 0 }
    ensures empty { IsSome result → parser.new.stack.frames ≡ [] }
    ensures grows { parser.old.looks ≤ parser.new.looks }
    ensures looks { parser.new.looks ≤ parser.old.looks + looks_in (read_at parser.old.source.symbol.now false false
        a_path place 0 0 true) }
    ensures same { Same parser.old parser.new }
{
    parser.start_path(place);
    match read_steps(parser, 0) {
        ReadOutcome::Complete => parser.place(),
        ReadOutcome::StackFull => {
            let end = read_in_middle_stack(parser);
            parser.stack.truncate(0);
            end
        }
        ReadOutcome::Failed => None,
    }
}

/// Reads one path or two. Returns the place of the suffix after them, or `None` after an
/// error.
fn suffix(parser: &mut Parser<'_, '_>) -> Option<usize>
    requires empty { parser.old.stack.frames ≡ [] }
    requires smaller { parser.old.stack.room ≤ MIDDLE_STACK }
    requires whole { parser.old.source.form.fold_arguments ≡ false }
    ensures value { result ≡ suffix_place parser.old.source.symbol.now }
    ensures grows { parser.old.looks ≤ parser.new.looks }
    ensures looks { parser.new.looks + suffix_looks parser.old.source.symbol.now result ≤ parser.old.looks +
        accepting_looks parser.old.source.symbol.now }
{
    let Some(end) = path_end(parser, 0) else {
        return None;
    };
    // A second path names the crate in which a generic was instantiated. It is read, so that
    // the suffix begins after it, and never printed.
    if begins_path(parser.source.symbol, end, &mut parser.looks) {
        return path_end(parser, end);
    }
    Some(end)
}

/// Returns the place of the suffix after one path or two, or `None` if they have an error.
pub fn suffix_at(symbol: &Symbol<'_>, looks: &mut Looks) -> Option<usize>
    ensures value { result ≡ suffix_place symbol.now }
    ensures grows { looks.old ≤ looks.new }
    ensures looks { looks.new + suffix_looks symbol.now result ≤ looks.old + accepting_looks
        symbol.now }
{
    // Without the hashes, the disambiguators of crates get no value.
    let source = Source {
        symbol,
        form: Form {
            include_hash: false,
            fold_arguments: false,
        },
    };
    let mut memory = [UNUSED_FRAME; SHORT_STACK];
    let mut parser = Parser::at_path(source, 0, &mut memory, looks);
    let end = suffix(&mut parser);
    *looks = parser.looks;
    end
}

/// Returns `true` if a path begins at a place.
pub fn begins_path(symbol: &Symbol<'_>, place: usize, looks: &mut Looks) -> bool
    ensures value { result ≡ starts_second_path symbol.now place }
    ensures look { looks.new ≡ looks.old + 1 }
{
    match symbol.byte(place, looks) {
        Some(b'A'..=b'Z') => true,
        _ => false,
    }
}

/// Reads a second path after the first one, which ends at a place. Returns the place of the suffix,
/// or `None` if the second path has an error.
#[inline(always)]
fn end_after(parser: &mut Parser<'_, '_>, end: usize) -> Option<usize>
    requires first { Some end ≡ unit_end parser.old.source.symbol.now a_path 0 0 }
    requires smaller { parser.old.stack.room ≤ MIDDLE_STACK }
    ensures value { result ≡ suffix_place parser.old.source.symbol.now }
    ensures grows { parser.old.looks ≤ parser.new.looks }
    ensures most { parser.new.looks ≤ parser.old.looks + 32 * (length parser.old.source.symbol.now + 1)
        + 1 }
{
    if !begins_path(parser.source.symbol, end, &mut parser.looks) {
        return Some(end);
    }
    // Arguments are folded only when they are printed.
    parser.source.form.fold_arguments = false;
    parser.stack.truncate(0);
    path_end(parser, end)
}

/// Prints the first path, at which the parser is, before it is known whether the symbol is valid, and
/// reads a second one. Returns the place of the suffix, or `None` if the second path has an error.
///
/// Fails if the path is not printed to its end: if the fuel is used up, the stack is full, the path
/// has an error, the limit or the sink rejects a piece, or the limit a reference. Then a part of it
/// may be printed. The looks are bounded by the length of the symbol and the bytes that may be read
/// again.
#[inline(always)]
pub fn print_to_suffix<S: TextSink>(
    parser: &mut Parser<'_, '_>,
    out: &mut SizeLimitedFmtAdapter<'_, S>,
) -> Result<Option<usize>, SinkRefused>
    requires ascii { IsAscii parser.old.source.symbol.now }
    requires ready { Ready S.TextSink out.old }
    requires path { parser.old.continuation ≡ Continuation.Path }
    requires state { parser.old.state ≡ first_state 0 }
    requires empty { parser.old.stack.frames ≡ [] }
    requires smaller { parser.old.stack.room ≤ MIDDLE_STACK }
    ensures suffix { IfOk result (λ end. end ≡ suffix_place parser.old.source.symbol.now) }
    ensures prints { IfOk result (λ end. PrintsPath S.TextSink out.old parser.old.source.symbol.now
        parser.old.source.form (Ok tt) out.new) }
    ensures grows { parser.old.looks ≤ parser.new.looks }
    ensures most { IfSome out.old.reread.most (λ most. parser.new.looks ≤ parser.old.looks + 17 * (length
        parser.old.source.symbol.now + 1 + most) + 32 * (length parser.old.source.symbol.now + 1) + 3) }
    ensures early { IfSome out.old.reread.most (λ most. OnErr result (parser.new.looks ≤ parser.old.looks +
        17 * (length parser.old.source.symbol.now + 1 + most) + 2)) }
{
    let left = print_steps(parser, out, true)?;
    let Some(end) = end_of_print(parser, left) else {
        return Err(SinkRefused);
    };
    Ok(end_after(parser, end))
}
