//! The value of one Rust symbol: how it is read and printed.
#![tactic(auto)]

ghost use Rattle.std.specs.Prelude.{◌≡◌, ◌+◌, ◌-◌, ◌*◌, ◌≤◌, length, IfOk, OnOk, OnErr};
ghost use Rattle.demangle_value.specs.Stripped.{stripped};
ghost use Rattle.demangle_value.specs.Symbols.{IsSymbol};

pub mod coalescing;
mod display;
pub mod format;
mod strip;
pub mod value;

use demangle_symbol::cursor::Looks;
use strip::without_thin_lto;
use value::{Demangle, has_style};

/// The error for a text that is not a Rust symbol.
#[derive(Debug, Clone, Drop)]
pub struct TryDemangleError {
    _priv: (),
}

/// Parses a text as a Rust symbol, in the legacy scheme or in v0 (Rust RFC 2603), and counts its
/// looks.
///
/// A suffix that ThinLTO appended is removed first. A text that is not a symbol is kept as it is.
/// It does not allocate.
pub fn demangle_counted<'a>(s: &'a str, looks: &mut Looks) -> Demangle<'a>
    ensures text { result ≡ stripped s.now }
    ensures grows { looks.old ≤ looks.new }
    ensures most { looks.new ≤ looks.old + 64 * (length s.now + 1) }
    ensures least { IsSymbol (stripped s.now) →
        looks.old + (length (stripped s.now) - 4) ≤ looks.new }
{
    Demangle::read(without_thin_lto(s), false, looks)
}

/// Parses a text as a Rust symbol, in the legacy scheme or in v0 (Rust RFC 2603).
///
/// A suffix that ThinLTO appended is removed first. A text that is not a symbol is kept as it is.
/// It does not allocate.
pub fn demangle(s: &str) -> Demangle<'_>
    ensures { result ≡ stripped s.now }
{
    demangle_counted(s, &mut Looks::new())
}

/// Parses a text as a Rust symbol, as `demangle` does. Fails if it is not a symbol.
pub fn try_demangle(s: &str) -> Result<Demangle<'_>, TryDemangleError>
    ensures symbol { OnOk result (IsSymbol (stripped s.now)) }
    ensures text { IfOk result (λ d. d ≡ stripped s.now) }
    ensures none { OnErr result (IsSymbol (stripped s.now) → ⊥) }
{
    try_demangle_counted(s, &mut Looks::new())
}

/// Parses a text as a Rust symbol, as `try_demangle` does, and counts its looks. Fails if it is not a
/// symbol.
pub fn try_demangle_counted<'a>(
    s: &'a str,
    looks: &mut Looks,
) -> Result<Demangle<'a>, TryDemangleError>
    ensures symbol { OnOk result (IsSymbol (stripped s.now)) }
    ensures text { IfOk result (λ d. d ≡ stripped s.now) }
    ensures none { OnErr result (IsSymbol (stripped s.now) → ⊥) }
    ensures grows { looks.old ≤ looks.new }
    ensures most { looks.new ≤ looks.old + 64 * (length s.now + 1) }
    ensures least { IsSymbol (stripped s.now) →
        looks.old + (length (stripped s.now) - 4) ≤ looks.new }
{
    let symbol = demangle_counted(s, looks);
    if has_style(&symbol) {
        Ok(symbol)
    } else {
        Err(TryDemangleError { _priv: () })
    }
}
