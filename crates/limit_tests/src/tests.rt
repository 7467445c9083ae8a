//! Tests of limits, of references and of fuel.
use demangle_vectors::{print_symbol, printed_is};
use rustc_demangle::try_demangle;
use std::alloc::{AllocError, Global};
use std::process::Abort;

mod fuel;
mod hostile;
mod limits;
mod repeated_references;
mod reread;
mod v0_hostile;
mod v0_limits;

/// Asserts that a text is a symbol that prints as these texts, with the hash and without it.
fn assert_prints(rt: &impl Abort, symbol: &str, plain: &str, alt: &str) {
    assert!(rt; try_demangle(symbol).is_ok(), "{symbol} is a symbol");
    assert!(rt; printed_is(symbol, true, plain), "{symbol} with the hash");
    assert!(rt; printed_is(symbol, false, alt), "{symbol} without the hash");
}

/// Asserts that a text is not a symbol and prints as this text in both forms.
fn assert_rejected(rt: &impl Abort, text: &str, printed: &str) {
    assert!(rt; try_demangle(text).is_err(), "{text} is no symbol");
    assert!(rt; printed_is(text, true, printed), "{text} with the hash");
    assert!(rt; printed_is(text, false, printed), "{text} without the hash");
}

/// Asserts that a text is a symbol that prints as this text in both forms, of any length.
fn assert_prints_long(
    rt: &impl Abort,
    alloc: Global,
    symbol: &str,
    text: &str,
) -> Result<(), AllocError> {
    assert!(rt; try_demangle(symbol).is_ok(), "it is a symbol");
    for include_hash in [true, false] {
        let printed = print_symbol(alloc, symbol, include_hash)?;
        assert!(rt; printed.as_slice() == text.as_bytes(), "it prints the text");
    }
    Ok(())
}
