//! The loop that parses without output.
ghost use Rattle.std.specs.Prelude.{◌≡◌, ◌≤◌, length};
ghost use Rattle.demangle_v0_parser.specs.Parsers.{IsValid, ReadSteps, Same};

use demangle_v0_parser::Continuation;
use demangle_v0_parser::parse::Parser;
use demangle_v0_parser::stops::ReadOutcome;
use demangle_v0_tokens::output::NoOutput;

/// Reads without output until only the lowest `base` frames are left, the stack is full, or the
/// symbol has a syntax error.
pub fn read_steps(parser: &mut Parser<'_, '_>, base: usize) -> ReadOutcome
    requires valid { IsValid parser.old }
    ensures reads { ReadSteps base parser.old result parser.new }
    ensures valid { result ≡ ReadOutcome.StackFull → IsValid parser.new }
    ensures full { result ≡ ReadOutcome.StackFull → parser.new.stack.room ≤ length parser.new.stack.frames }
    ensures grows { parser.old.looks ≤ parser.new.looks }
    ensures same { Same parser.old parser.new }
{
    let mut continuation = parser.continuation;
    'steps: while parser.stack.has_room() {
        let Some(next) = parser.resume(base, continuation) else {
            parser.continuation = Continuation::End;
            return ReadOutcome::Complete;
        };
        match parser.steps(next, &mut NoOutput) {
            Ok(following) => continuation = following,
            Err(_) => return ReadOutcome::Failed,
        }
    }
    parser.continuation = continuation;
    ReadOutcome::StackFull
}
