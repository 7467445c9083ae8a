//! Tests of v0 symbols that are long.
use super::assert_prints_long;
use demangle_vectors::{print_symbol, repeat_between};
use rustc_demangle::try_demangle;
use std::test::Fail;

#[test]
fn zeros_before_a_number_are_nothing(rt: HostRuntime) -> Result<(), Fail> {
    let alloc = rt.alloc();
    let symbol = repeat_between(alloc, "_RIC0Kj", "0", 100_000, "1_E")?;
    assert!(rt; try_demangle(symbol.as_str()).is_ok());
    let plain = print_symbol(alloc, symbol.as_str(), true)?;
    assert_eq!(rt; plain.as_slice(), b"::<1usize>".as_slice());
    let alt = print_symbol(alloc, symbol.as_str(), false)?;
    assert_eq!(rt; alt.as_slice(), b"::<1>".as_slice());
    Ok(())
}

#[test]
fn long_names_print_as_they_are(rt: HostRuntime) -> Result<(), Fail> {
    let alloc = rt.alloc();
    let symbol = repeat_between(alloc, "_RC1000000", "a", 1_000_000, "")?;
    let text = repeat_between(alloc, "", "a", 1_000_000, "")?;
    assert_prints_long(&rt, alloc, symbol.as_str(), text.as_str())?;
    let symbol = repeat_between(alloc, "_RCu1000000", "a", 1_000_000, "")?;
    let cut = "punycode{{size limit reached}";
    assert_prints_long(&rt, alloc, symbol.as_str(), cut)?;
    Ok(())
}
