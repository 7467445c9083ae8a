//! Parts that a printing parse reads and does not print: impl paths, and folded arguments.
ghost use Rattle.std.specs.Prelude.{◌≡◌, ◌≤◌, true, Some, Ok, IfSome, IfNone};
ghost use Rattle.demangle_v0_parser.specs.Parsers.{FinishesSkip, IsValid, UnfinishedIsValid, Same, SkipsFull, SkipsOver, checked_at};
ghost use Rattle.demangle_v0_parser.specs.Loops.{state_at};
ghost use Rattle.demangle_v0_parser.specs.Skips.{after_skip, is_skipped, skipped_continuation};

use crate::reading::read_steps;
use demangle_v0_parser::parse::Parser;
use demangle_v0_parser::stops::{Checkpoint, ReadOutcome, Unfinished};
use demangle_v0_parser::{Continuation, State};

/// Returns the continuation that reads a part that is not printed.
#[inline(always)]
fn skipped_continuation(continuation: Continuation) -> Continuation
    ensures { result ≡ skipped_continuation continuation }
{
    match continuation {
        Continuation::InherentImplPath | Continuation::TraitImplPath => Continuation::Path,
        other => other,
    }
}

/// Returns the continuation after such a part.
#[inline(always)]
fn after_skip(continuation: Continuation) -> Continuation
    ensures { result ≡ after_skip continuation }
{
    match continuation {
        Continuation::InherentImplPath => Continuation::InherentSelfType,
        Continuation::TraitImplPath => Continuation::TraitSelfType,
        Continuation::FirstArgument => Continuation::FoldedArguments,
        Continuation::FirstTraitArgument => Continuation::FoldedTraitArguments,
        other => other,
    }
}

/// Continues at a checkpoint, after the part there that is not printed. The part ends at
/// `place`, or has a syntax error if that is `None`.
#[inline(always)]
fn continue_after(parser: &mut Parser<'_, '_>, printing: Checkpoint, place: Option<usize>)
    ensures { parser.new ≡ checked_at parser.old (after_skip printing.continuation) (state_at printing.state
        place) }
{
    parser.continuation = after_skip(printing.continuation);
    parser.state = State {
        place,
        ..printing.state
    };
}

/// Reads the rest of a part that is not printed, if `left` is in one, and continues after it.
/// Returns what is left to print if the stack is full before the part ends.
#[inline(always)]
pub fn finish_skip(parser: &mut Parser<'_, '_>, left: Unfinished) -> Option<Unfinished>
    requires valid { UnfinishedIsValid 0 (Ok (Some left)) parser.old }
    ensures finishes { FinishesSkip parser.old left result parser.new }
    ensures grows { parser.old.looks ≤ parser.new.looks }
    ensures same { Same parser.old parser.new }
{
    let Unfinished::Skipping(base, printing) = left else {
        return None;
    };
    match read_steps(parser, base) {
        ReadOutcome::StackFull => Some(left),
        ReadOutcome::Complete => {
            let place = parser.state.place;
            continue_after(parser, printing, place);
            None
        }
        ReadOutcome::Failed => {
            parser.stack.truncate(base);
            continue_after(parser, printing, None);
            None
        }
    }
}

/// Reads the impl path or the folded arguments at which the parser is, and continues after
/// them. Returns what is left to print if the stack is full before they end. They use up no fuel,
/// but an error in them uses up all.
#[inline(never)]
pub fn skip_part(parser: &mut Parser<'_, '_>) -> Option<Unfinished>
    requires skipped { is_skipped parser.old.source.form parser.old.continuation ≡ true }
    requires valid { IsValid parser.old }
    ensures following { IfNone result (SkipsOver parser.old parser.new) }
    ensures unfinished { IfSome result (λ left. SkipsFull parser.old left parser.new) }
    ensures grows { parser.old.looks ≤ parser.new.looks }
    ensures same { Same parser.old parser.new }
{
    let base = parser.stack.len();
    let printing = Checkpoint {
        continuation: parser.continuation,
        state: parser.state,
    };
    let fuel = parser.fuel;
    parser.continuation = skipped_continuation(parser.continuation);
    parser.state.in_value = false;
    let left = finish_skip(parser, Unfinished::Skipping(base, printing));
    parser.fuel = fuel;
    if parser.place().is_none() {
        parser.fuel.use_up();
    }
    left
}
