//! Tests with v0 symbols and their parts, and with the vectors of the Rust crate.
use crate::printed_is;
use rustc_demangle::try_demangle;
use std::process::Abort;

mod beginnings;
mod literals;
mod names;
mod primitives;
mod v0_constants;
mod v0_literals;
mod v0_paths;
mod v0_references;
mod v0_types;
mod vectors;

/// Asserts that a text is a symbol that prints as these texts, with the hash and without it.
fn assert_prints(rt: &impl Abort, symbol: &str, plain: &str, alt: &str) {
    assert!(rt; try_demangle(symbol).is_ok(), "{symbol} is a symbol");
    assert!(rt; printed_is(symbol, true, plain), "{symbol} with the hash");
    assert!(rt; printed_is(symbol, false, alt), "{symbol} without the hash");
}

/// Asserts that a text is not a symbol and prints as this text in both forms.
fn assert_rejected(rt: &impl Abort, text: &str, printed: &str) {
    assert!(rt; try_demangle(text).is_err(), "{text} is no symbol");
    assert!(rt; printed_is(text, true, printed), "{text} with the hash");
    assert!(rt; printed_is(text, false, printed), "{text} without the hash");
}
