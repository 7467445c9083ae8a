//! Finds the kind of one argument.
ghost use Rattle.std.specs.Prelude.{◌≡◌, ◌≢◌, ◌++◌, ℕ, List, codes, false, nat_eq};
ghost use Rattle.std.specs.Prelude.{None, Some, IfSome, IfNone, IfOk, IfErr};
ghost use Rattle.std.specs.List.{starts_with};
ghost use Rattle.kodliwe_program.specs.CommandLine.{IsAlone, HasValue, IsNotOption, IsInvalidShell, shell_name, rejection_of};
ghost use Rattle.kodliwe_program.specs.OneArgument.{IsArgument};

use crate::about::{About, Shell};
use crate::arguments::{Argument, UsageError, ValuedOption};

/// Returns whether an argument is the option `short` or `long`, and the value if the argument
/// includes it, as `-iFILE` or `--input=FILE`.
fn option_value<'a>(argument: &'a str, short: &str, long: &str) -> Option<Option<&'a str>>
    ensures none { IfNone result (IsNotOption short.now long.now argument.now) }
    ensures alone { result ≡ Some None → IsAlone short.now long.now argument.now }
    ensures value { IfSome result (λ within. IfSome within (λ value.
        HasValue short.now long.now argument.now value.now)) }
    ensures short { argument.now ≡ short.now → result ≡ Some None }
    ensures long { argument.now ≡ long.now → result ≡ Some None }
{
    if argument == short || argument == long {
        return Some(None);
    }
    if let Some(rest) = argument.strip_prefix(long) {
        if let Some(value) = rest.strip_prefix("=") {
            return Some(Some(value));
        }
    }
    match argument.strip_prefix(short) {
        Some(value) => Some(Some(value)),
        None => None,
    }
}

/// Returns the kind of an option that needs a value, which the argument may include. Returns `None`
/// for `--completions` without its value, and for any other argument.
fn classify_valued_option(argument: &str) -> Option<Argument<'_>>
    ensures is { IfSome result (IsArgument argument.now) }
    ensures shell { IfNone result ((name : List ℕ) → argument.now ≢ codes "--completions=" ++ name) }
    ensures no_input { IfNone result (IsNotOption (codes "-i") (codes "--input") argument.now) }
    ensures no_output { IfNone result (IsNotOption (codes "-o") (codes "--output") argument.now) }
    ensures no_limit { IfNone result (IsNotOption (codes "-l") (codes "--limit") argument.now) }
    ensures input { argument.now ≡ codes "--input" →
        result ≡ Some (Argument.Valued ValuedOption.Input None) }
{
    if let Some(name) = argument.strip_prefix("--completions=") {
        return Some(Argument::CompletionsOf(name));
    }
    if let Some(value) = option_value(argument, "-i", "--input") {
        return Some(Argument::Valued(ValuedOption::Input, value));
    }
    if let Some(value) = option_value(argument, "-o", "--output") {
        return Some(Argument::Valued(ValuedOption::Output, value));
    }
    match option_value(argument, "-l", "--limit") {
        Some(value) => Some(Argument::Valued(ValuedOption::Limit, value)),
        None => None,
    }
}

/// Returns the kind of an argument before `--`.
pub(super) fn classify(argument: &str) -> Argument<'_>
    ensures is { IsArgument argument.now result }
    ensures symbol { starts_with nat_eq argument.now (codes "-") ≡ false → result ≡ Argument.Symbol }
    ensures hash { argument.now ≡ codes "--hash" → result ≡ Argument.Hash }
    ensures f { argument.now ≡ codes "-f" → result ≡ Argument.Fold }
    ensures fold { argument.now ≡ codes "--fold" → result ≡ Argument.Fold }
    ensures end { argument.now ≡ codes "--" → result ≡ Argument.End }
    ensures stdin { argument.now ≡ codes "-" → result ≡ Argument.Stdin }
    ensures h { argument.now ≡ codes "-h" → result ≡ Argument.Print About.Help }
    ensures help { argument.now ≡ codes "--help" → result ≡ Argument.Print About.Help }
    ensures version { argument.now ≡ codes "--version" → result ≡ Argument.Print About.Version }
    ensures man { argument.now ≡ codes "--man" → result ≡ Argument.Print About.Manual }
    ensures shell { argument.now ≡ codes "--completions" → result ≡ Argument.Completions }
    ensures input { argument.now ≡ codes "--input" → result ≡ Argument.Valued ValuedOption.Input None }
{
    if !argument.starts_with("-") {
        return Argument::Symbol;
    }
    match argument {
        "-" => Argument::Stdin,
        "--" => Argument::End,
        "--hash" => Argument::Hash,
        "-f" | "--fold" => Argument::Fold,
        "-h" | "--help" => Argument::Print(About::Help),
        "-V" | "--version" => Argument::Print(About::Version),
        "--man" => Argument::Print(About::Manual),
        "--completions" => Argument::Completions,
        _ => match classify_valued_option(argument) {
            Some(kind) => kind,
            None => Argument::Unknown,
        },
    }
}

/// Returns the shell of this name. Fails if there is none.
pub(super) fn shell_of(name: &str) -> Result<Shell, UsageError<'_>>
    ensures named { IfOk result (λ shell. name.now ≡ shell_name shell) }
    ensures refused { IfErr result (λ fault. IfSome (rejection_of fault) (IsInvalidShell name.now)) }
{
    match name {
        "bash" => Ok(Shell::Bash),
        "zsh" => Ok(Shell::Zsh),
        "fish" => Ok(Shell::Fish),
        _ => Err(UsageError::BadShell(name)),
    }
}
