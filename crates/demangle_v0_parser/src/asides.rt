//! The continuations that the loop of printing does not run.
ghost use Rattle.std.specs.Prelude.{◌≡◌};
ghost use Rattle.demangle_v0_parser.specs.Skips.{is_aside};

use crate::Continuation;
use crate::targets::is_target;
use demangle_symbol::form::Form;

/// Returns whether the loop of printing does not run this continuation.
// It is not inlined, so that the loop has one test for the seven continuations.
#[inline(never)]
fn is_left_out(continuation: Continuation, form: Form) -> bool
    ensures { result ≡ is_aside form continuation }
{
    match continuation {
        Continuation::InherentImplPath | Continuation::TraitImplPath => true,
        Continuation::FirstArgument | Continuation::FirstTraitArgument => form.fold_arguments,
        _ => is_target(continuation),
    }
}

/// Returns whether the loop of printing does not run this continuation. Then a part that is not
/// printed is next, an impl path or folded arguments, or a target whose text may be put again.
#[inline(always)]
pub fn is_aside(continuation: Continuation, form: Form) -> bool
    ensures { result ≡ is_aside form continuation }
{
    match continuation {
        Continuation::InherentImplPath
        | Continuation::TraitImplPath
        | Continuation::FirstArgument
        | Continuation::FirstTraitArgument
        | Continuation::TargetPath
        | Continuation::TargetType
        | Continuation::TargetConstant => is_left_out(continuation, form),
        _ => false,
    }
}
