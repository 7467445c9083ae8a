//! Prints the first path of a v0 symbol. Each step prints what it reads as soon as it is known.
ghost use Rattle.std.specs.Prelude.{◌≡◌, ◌+◌, ◌<◌, ◌≤◌, ◌⊎◌, true, false, length, IsAscii, IfSome, IsOk, Ok, Some, None};
ghost use Rattle.demangle_sink.specs.Limit.{Ready};
ghost use Rattle.demangle_v0.specs.Above.{PrintsAbove, PrintsTarget, StopsAtTarget, printing_on, work_left};
ghost use Rattle.demangle_v0.specs.HeldTexts.{HoldsTexts};
ghost use Rattle.demangle_v0_parser.specs.Targets.{is_target};
ghost use Rattle.demangle_v0_parser.specs.Parsers.{EndsPrinting, IsValid, UnfinishedIsValid, PrintsAll, PrintsOn, PrintsSteps, Same, first_looks_of, unfinished_looks};

use crate::held_texts::{
    MOST_TEXTS, PrintScope, StoredText, UNUSED_TEXT, end_note, run_target, start_note,
};
use crate::skip::{finish_skip, skip_part};
use crate::stacks::{FULL_STACK, MIDDLE_STACK};
use demangle_sink::{SinkRefused, SizeLimitedFmtAdapter, TextSink};
use demangle_v0_parser::Continuation;
use demangle_v0_parser::asides::is_aside;
use demangle_v0_parser::frames::UNUSED_FRAME;
use demangle_v0_parser::parse::Parser;
use demangle_v0_parser::stops::Unfinished;
use demangle_v0_parser::targets::{is_target, unit_of};

/// Prints until only the frames below the scope are left or the stack is full. If it `may_stop`, it
/// also stops when the fuel is used up. One that notes stops at a target whose text the scope does
/// not have. Returns what is left then.
///
/// Fails at the first piece that the limit or the sink rejects.
// All prints share this loop. With two, the compiler would put the continuations into neither.
#[inline(never)]
fn print_above<S: TextSink>(
    parser: &mut Parser<'_, '_>,
    out: &mut SizeLimitedFmtAdapter<'_, S>,
    may_stop: bool,
    scope: PrintScope<'_>,
) -> Result<Option<Unfinished>, SinkRefused>
    requires ascii { IsAscii parser.old.source.symbol.now }
    requires ready { Ready S.TextSink out.old }
    requires valid { IsValid parser.old }
    requires above { scope.base ≤ length parser.old.stack.frames }
    requires held { HoldsTexts S.TextSink parser.old.source.symbol.now parser.old.source.form out.old scope.texts.now }
    ensures ran { PrintsAbove S.TextSink scope.entry.base parser.old out.old result parser.new out.new }
    ensures ready { IsOk result → Ready S.TextSink out.new }
    ensures valid { UnfinishedIsValid 0 result parser.new }
    ensures done { result ≡ Ok None → IsValid parser.new × (parser.new.continuation ≡ Continuation.End) }
    ensures full { may_stop ≡ false → (StopsAtTarget result parser.new × (scope.entry.notes ≡ true)) ⊎ UnfinishedIsValid parser.new.stack.room result parser.new }
    ensures grows { parser.old.looks ≤ parser.new.looks }
    ensures least { may_stop ≡ false → parser.old.looks + first_looks_of parser.old ≤ parser.new.looks +
        unfinished_looks result parser.new }
    ensures falls { result ≡ Ok (Some Unfinished.Printing) → work_left parser.new ≤ work_left parser.old }
    ensures same { Same parser.old parser.new }
{
    let mut continuation = parser.continuation;
    'steps: while parser.stack.has_room() {
        if may_stop && parser.fuel.is_used_up() {
            parser.continuation = continuation;
            return Ok(Some(Unfinished::Printing));
        }
        let Some(next) = parser.resume(scope.base, continuation) else {
            parser.continuation = Continuation::End;
            return Ok(None);
        };
        // An impl path only identifies the impl, and arguments may be folded. They are read and
        // not printed.
        if !is_aside(next, parser.source.form) {
            continuation = parser.steps(next, out)?;
        } else if is_target(next) {
            parser.continuation = next;
            let Some(following) = run_target(parser, out, scope) else {
                return Ok(Some(Unfinished::Printing));
            };
            continuation = following;
        } else {
            parser.continuation = next;
            if let Some(left) = skip_part(parser) {
                return Ok(Some(left));
            }
            continuation = parser.continuation;
        }
    }
    parser.continuation = continuation;
    Ok(Some(Unfinished::Printing))
}

/// Prints the target that is next above the frames, and notes its text in `texts` if the sink holds
/// it. Returns what is left if the parse stops before its end.
///
/// Fails at the first piece that the limit or the sink rejects.
fn print_target<S: TextSink>(
    parser: &mut Parser<'_, '_>,
    out: &mut SizeLimitedFmtAdapter<'_, S>,
    may_stop: bool,
    texts: &mut [StoredText; MOST_TEXTS],
) -> Result<Option<Unfinished>, SinkRefused>
    requires ascii { IsAscii parser.old.source.symbol.now }
    requires ready { Ready S.TextSink out.old }
    requires valid { IsValid parser.old }
    requires target { is_target parser.old.continuation ≡ true }
    requires held { HoldsTexts S.TextSink parser.old.source.symbol.now parser.old.source.form out.old texts.old }
    ensures ran { PrintsTarget S.TextSink parser.old out.old result parser.new out.new }
    ensures ready { IsOk result → Ready S.TextSink out.new }
    ensures valid { UnfinishedIsValid 0 (printing_on result) parser.new }
    ensures full { may_stop ≡ false → StopsAtTarget result parser.new ⊎ UnfinishedIsValid parser.new.stack.room result parser.new }
    ensures held { IsOk result → HoldsTexts S.TextSink parser.old.source.symbol.now parser.old.source.form out.new texts.new }
    ensures grows { parser.old.looks ≤ parser.new.looks }
    ensures falls { printing_on result ≡ Ok (Some Unfinished.Printing) → work_left parser.new < work_left parser.old }
    ensures same { Same parser.old parser.new }
{
    let note = start_note(parser, out);
    parser.continuation = unit_of(parser.continuation);
    let scope = PrintScope {
        base: parser.stack.len(),
        texts: &*texts,
        notes: false,
    };
    if let Some(left) = print_above(parser, out, may_stop, scope)? {
        return Ok(Some(left));
    }
    end_note(parser, &note, out, texts);
    Ok(None)
}

/// Returns whether a print that left this stopped at a target.
#[inline(always)]
fn stops_at_target(parser: &Parser<'_, '_>, left: Option<Unfinished>) -> bool
    ensures stops { result ≡ true → StopsAtTarget (Ok left) parser.now }
    ensures not { result ≡ false → StopsAtTarget (Ok left) parser.now → ⊥ }
{
    match left {
        Some(Unfinished::Printing) => is_target(parser.continuation) && parser.stack.has_room(),
        _ => false,
    }
}

/// Prints on from a target, and notes the texts of targets. Returns what is left, as `print_steps`
/// does.
///
/// Fails at the first piece that the limit or the sink rejects.
#[inline(never)]
fn print_noting<S: TextSink>(
    parser: &mut Parser<'_, '_>,
    out: &mut SizeLimitedFmtAdapter<'_, S>,
    may_stop: bool,
) -> Result<Option<Unfinished>, SinkRefused>
    requires ascii { IsAscii parser.old.source.symbol.now }
    requires ready { Ready S.TextSink out.old }
    requires valid { IsValid parser.old }
    requires stops { StopsAtTarget (Ok (Some Unfinished.Printing)) parser.old }
    ensures ran { PrintsSteps S.TextSink parser.old out.old result parser.new out.new }
    ensures ready { IsOk result → Ready S.TextSink out.new }
    ensures valid { UnfinishedIsValid 0 result parser.new }
    ensures full { may_stop ≡ false → UnfinishedIsValid parser.new.stack.room result parser.new }
    ensures grows { parser.old.looks ≤ parser.new.looks }
    ensures same { Same parser.old parser.new }
{
    let mut texts = [UNUSED_TEXT; MOST_TEXTS];
    let mut left = Some(Unfinished::Printing);
    'noting: while stops_at_target(parser, left) {
        left = print_target(parser, out, may_stop, &mut texts)?;
        if left.is_none() {
            let scope = PrintScope {
                base: 0,
                texts: &texts,
                notes: true,
            };
            left = print_above(parser, out, may_stop, scope)?;
        }
    }
    Ok(left)
}

/// Prints until nothing is left or the stack is full. If it `may_stop`, it also stops when the fuel is
/// used up. Returns what is left then.
///
/// Fails at the first piece that the limit or the sink rejects.
pub fn print_steps<S: TextSink>(
    parser: &mut Parser<'_, '_>,
    out: &mut SizeLimitedFmtAdapter<'_, S>,
    may_stop: bool,
) -> Result<Option<Unfinished>, SinkRefused>
    requires ascii { IsAscii parser.old.source.symbol.now }
    requires ready { Ready S.TextSink out.old }
    requires valid { IsValid parser.old }
    ensures ran { PrintsSteps S.TextSink parser.old out.old result parser.new out.new }
    ensures ready { IsOk result → Ready S.TextSink out.new }
    ensures valid { UnfinishedIsValid 0 result parser.new }
    ensures full { may_stop ≡ false → UnfinishedIsValid parser.new.stack.room result parser.new }
    ensures grows { parser.old.looks ≤ parser.new.looks }
    ensures least { may_stop ≡ false → parser.old.looks + first_looks_of parser.old ≤ parser.new.looks +
        unfinished_looks result parser.new }
    ensures same { Same parser.old parser.new }
{
    // If the sink can't copy, the compiler drops all that follows a stop at a target.
    let scope = PrintScope {
        base: 0,
        texts: &[],
        notes: out.can_copy(),
    };
    let left = print_above(parser, out, may_stop, scope)?;
    if scope.notes && stops_at_target(parser, left) {
        return print_noting(parser, out, may_stop);
    }
    Ok(left)
}

/// Finishes a part that is not printed, if the parser is in one, and then prints as
/// `print_steps` does. Returns what is left if the stack is full.
///
/// Fails at the first piece that the limit or the sink rejects.
fn print_unfinished<S: TextSink>(
    parser: &mut Parser<'_, '_>,
    left: Unfinished,
    out: &mut SizeLimitedFmtAdapter<'_, S>,
) -> Result<Option<Unfinished>, SinkRefused>
    requires ascii { IsAscii parser.old.source.symbol.now }
    requires ready { Ready S.TextSink out.old }
    requires valid { UnfinishedIsValid 0 (Ok (Some left)) parser.old }
    ensures ran { PrintsOn S.TextSink parser.old left out.old result parser.new out.new }
    ensures ready { IsOk result → Ready S.TextSink out.new }
    ensures valid { UnfinishedIsValid parser.new.stack.room result parser.new }
    ensures grows { parser.old.looks ≤ parser.new.looks }
    ensures least { parser.old.looks + unfinished_looks (Ok (Some left)) parser.old ≤ parser.new.looks +
        unfinished_looks result parser.new }
    ensures same { Same parser.old parser.new }
{
    if let Some(more) = finish_skip(parser, left) {
        return Ok(Some(more));
    }
    print_steps(parser, out, false)
}

/// Prints all that is left in the largest stack, which has room for every frame.
///
/// Fails at the first piece that the limit or the sink rejects.
#[inline(never)]
fn print_in_full_stack<S: TextSink>(
    parser: &mut Parser<'_, '_>,
    left: Unfinished,
    out: &mut SizeLimitedFmtAdapter<'_, S>,
) -> Result<(), SinkRefused>
    requires ascii { IsAscii parser.old.source.symbol.now }
    requires ready { Ready S.TextSink out.old }
    requires valid { UnfinishedIsValid 0 (Ok (Some left)) parser.old }
    requires smaller { parser.old.stack.room ≤ FULL_STACK }
    ensures ended { EndsPrinting S.TextSink parser.old left out.old result parser.new out.new }
    ensures grows { parser.old.looks ≤ parser.new.looks }
    ensures least { parser.old.looks + unfinished_looks (Ok (Some left)) parser.old ≤ parser.new.looks }
{
    let mut memory = [UNUSED_FRAME; FULL_STACK];
    let mut larger = parser.in_larger_stack(&mut memory);
    let printed = print_unfinished(&mut larger, left, out);
    parser.looks = larger.looks;
    printed?;
    Ok(())
}

/// Prints all that is left in a larger stack. If that becomes full, the largest one takes over.
///
/// Fails at the first piece that the limit or the sink rejects.
#[inline(never)]
fn print_in_middle_stack<S: TextSink>(
    parser: &mut Parser<'_, '_>,
    left: Unfinished,
    out: &mut SizeLimitedFmtAdapter<'_, S>,
) -> Result<(), SinkRefused>
    requires ascii { IsAscii parser.old.source.symbol.now }
    requires ready { Ready S.TextSink out.old }
    requires valid { UnfinishedIsValid 0 (Ok (Some left)) parser.old }
    requires smaller { parser.old.stack.room ≤ MIDDLE_STACK }
    ensures ended { EndsPrinting S.TextSink parser.old left out.old result parser.new out.new }
    ensures grows { parser.old.looks ≤ parser.new.looks }
    ensures least { parser.old.looks + unfinished_looks (Ok (Some left)) parser.old ≤ parser.new.looks }
{
    let mut memory = [UNUSED_FRAME; MIDDLE_STACK];
    let mut larger = parser.in_larger_stack(&mut memory);
    let printed = print_to_end(&mut larger, left, out);
    parser.looks = larger.looks;
    printed
}

/// Prints all that is left. If this stack becomes full, the largest one takes over.
///
/// Fails at the first piece that the limit or the sink rejects.
#[inline(always)]
fn print_to_end<S: TextSink>(
    parser: &mut Parser<'_, '_>,
    left: Unfinished,
    out: &mut SizeLimitedFmtAdapter<'_, S>,
) -> Result<(), SinkRefused>
    requires ascii { IsAscii parser.old.source.symbol.now }
    requires ready { Ready S.TextSink out.old }
    requires valid { UnfinishedIsValid 0 (Ok (Some left)) parser.old }
    requires smaller { parser.old.stack.room ≤ FULL_STACK }
    ensures ended { EndsPrinting S.TextSink parser.old left out.old result parser.new out.new }
    ensures grows { parser.old.looks ≤ parser.new.looks }
    ensures least { parser.old.looks + unfinished_looks (Ok (Some left)) parser.old ≤ parser.new.looks }
{
    match print_unfinished(parser, left, out)? {
        None => Ok(()),
        Some(left) => print_in_full_stack(parser, left, out),
    }
}

/// Prints until nothing is left, in larger stacks if this one is full.
///
/// Fails at the first piece that the limit or the sink rejects.
#[inline(always)]
pub fn print_path<S: TextSink>(
    parser: &mut Parser<'_, '_>,
    out: &mut SizeLimitedFmtAdapter<'_, S>,
) -> Result<(), SinkRefused>
    requires ascii { IsAscii parser.old.source.symbol.now }
    requires ready { Ready S.TextSink out.old }
    requires valid { IsValid parser.old }
    requires smaller { parser.old.stack.room ≤ MIDDLE_STACK }
    ensures ended { PrintsAll S.TextSink parser.old out.old result parser.new out.new }
    ensures grows { parser.old.looks ≤ parser.new.looks }
    ensures least { parser.old.looks + first_looks_of parser.old ≤ parser.new.looks }
{
    match print_steps(parser, out, false)? {
        None => Ok(()),
        Some(left) => print_in_middle_stack(parser, left, out),
    }
}

/// Returns the place after a path that was printed to its end. Returns `None` if anything is left of
/// it, and after an error.
#[inline(always)]
pub fn end_of_print(parser: &Parser<'_, '_>, left: Option<Unfinished>) -> Option<usize>
    ensures some { IfSome result (λ place. (left ≡ None) × (parser.now.state.place ≡ Some place)) }
{
    match left {
        None => parser.place(),
        Some(_) => None,
    }
}
