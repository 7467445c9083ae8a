//! Tests of each call for one symbol, of sinks, and of legacy symbols.
use demangle_vectors::printed_is;
use rustc_demangle::try_demangle;
use std::process::Abort;

mod calls;
mod folded;
mod formats;
mod legacy;
mod legacy_elements;
mod pieces;
mod refused;
mod sinks;

/// Asserts that a text is a symbol that prints as these texts, with the hash and without it.
fn assert_prints(rt: &impl Abort, symbol: &str, plain: &str, alt: &str) {
    assert!(rt; try_demangle(symbol).is_ok(), "{symbol} is a symbol");
    assert!(rt; printed_is(symbol, true, plain), "{symbol} with the hash");
    assert!(rt; printed_is(symbol, false, alt), "{symbol} without the hash");
}

/// Asserts that a text is not a symbol and prints as this text in both forms.
fn assert_rejected(rt: &impl Abort, text: &str, printed: &str) {
    assert!(rt; try_demangle(text).is_err(), "{text} is no symbol");
    assert!(rt; printed_is(text, true, printed), "{text} with the hash");
    assert!(rt; printed_is(text, false, printed), "{text} without the hash");
}
