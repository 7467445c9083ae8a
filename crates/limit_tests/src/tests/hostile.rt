//! Tests of symbols that are made to do harm.
use super::{assert_prints, assert_rejected};
use demangle_vectors::print_symbol;
use std::test::Fail;

#[test]
fn lengths_without_bound_are_rejected(rt: HostRuntime) {
    for &text in &[
        "_ZN1000000000000000000000000000000aE",
        "_ZN18446744073709551616aE",
        "_ZN18446744073709551617aE",
        "_ZN3foo18446744073709551615barE",
        "_ZN3foéE",
        "_ZN2éE",
    ] {
        assert_rejected(&rt, text, text);
    }
}

#[test]
fn control_characters_are_kept(rt: HostRuntime) {
    assert_prints(&rt, "_ZN1\0E", "\0", "\0");
    assert_prints(&rt, "_ZN1\x7fE", "\x7f", "\x7f");
    assert_prints(&rt, "_ZN3a\nbE", "a\nb", "a\nb");
}

#[test]
fn a_million_elements_print_up_to_the_limit(rt: HostRuntime) -> Result<(), Fail> {
    let alloc = rt.alloc();
    let elements = "1a".repeat(alloc, 1_000_000)?;
    let symbol = format!(in alloc; "_ZN{}E", elements.as_str())?;
    let path = "::a".repeat(alloc, 333_333)?;
    let wanted = format!(in alloc; "a{}{{size limit reached}}", path.as_str())?;
    for include_hash in [true, false] {
        let text = print_symbol(alloc, symbol.as_str(), include_hash)?;
        assert!(rt; text.as_slice() == wanted.as_bytes());
    }
    Ok(())
}

#[test]
fn a_million_special_characters_print_as_they_should(rt: HostRuntime) -> Result<(), Fail> {
    let alloc = rt.alloc();
    for &(len, unit, count, printed_unit) in &[
        (1_000_000, "$", 1_000_000, "$"),
        (1_000_000, "$.", 500_000, "$."),
        (1_000_000, "..", 500_000, "::"),
        (999_999, "$C$", 333_333, ","),
    ] {
        let element = unit.repeat(alloc, count)?;
        let symbol = format!(in alloc; "_ZN{len}{}E", element.as_str())?;
        let wanted = printed_unit.repeat(alloc, count)?;
        let text = print_symbol(alloc, symbol.as_str(), true)?;
        assert!(rt; text.as_slice() == wanted.as_bytes(), "of {unit}");
    }
    Ok(())
}

#[test]
fn a_million_zeros_are_one_length(rt: HostRuntime) -> Result<(), Fail> {
    let alloc = rt.alloc();
    let zeros = "0".repeat(alloc, 1_000_000)?;
    let zeros = zeros.as_str();
    let named = format!(in alloc; "_ZN{zeros}1aE")?;
    assert_eq!(rt;
        print_symbol(alloc, named.as_str(), true)?.as_slice(),
        b"a".as_slice()
    );
    let empty = format!(in alloc; "_ZN{zeros}E")?;
    assert!(rt; print_symbol(alloc, empty.as_str(), true)?.is_empty());
    Ok(())
}
