//! The productions to which references lead.
ghost use Rattle.std.specs.Prelude.{◌≡◌};
ghost use Rattle.demangle_v0_parser.specs.Targets.{is_target, target_of, unit_of};

use crate::Continuation;

/// Returns whether the target of a reference is next, whose text may be put again.
#[inline(always)]
pub fn is_target(continuation: Continuation) -> bool
    ensures { result ≡ is_target continuation }
{
    match continuation {
        Continuation::TargetPath | Continuation::TargetType | Continuation::TargetConstant => true,
        _ => false,
    }
}

/// Returns the continuation at a target, if that of the production is this one.
#[inline(always)]
pub fn target_of(unit: Continuation) -> Continuation
    ensures { result ≡ target_of unit }
{
    match unit {
        Continuation::Path => Continuation::TargetPath,
        Continuation::Type => Continuation::TargetType,
        Continuation::Constant => Continuation::TargetConstant,
        other => other,
    }
}

/// Returns the continuation that reads and prints a target.
#[inline(always)]
pub fn unit_of(target: Continuation) -> Continuation
    ensures { result ≡ unit_of target }
{
    match target {
        Continuation::TargetPath => Continuation::Path,
        Continuation::TargetType => Continuation::Type,
        Continuation::TargetConstant => Continuation::Constant,
        other => other,
    }
}

/// Does the same as `unit_of`.
// It is not inlined, so that the loops stay small. They run no target.
#[inline(never)]
pub fn production_of(target: Continuation) -> Continuation
    ensures { result ≡ unit_of target }
{
    unit_of(target)
}
