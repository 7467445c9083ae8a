//! Tests of v0 symbols: characters and strings.
use super::v0_constants::assert_constant;
use std::test::Fail;

#[test]
fn characters_are_quoted(rt: HostRuntime) -> Result<(), Fail> {
    for &(constant, text) in &[
        ("c27_", "'\\''"),
        ("c_", "'\\0'"),
        ("c0_", "'\\0'"),
        ("c9_", "'\\t'"),
        ("cd_", "'\\r'"),
        ("c5c_", "'\\\\'"),
        ("c1b_", "'\\u{1b}'"),
        ("c7f_", "'\\u{7f}'"),
        ("c10ffff_", "'\\u{10ffff}'"),
        ("c00000041_", "'A'"),
    ] {
        assert_constant(&rt, rt.alloc(), constant, text, text)?;
    }
    Ok(())
}

#[test]
fn characters_past_ascii_are_escaped_by_their_category(rt: HostRuntime) -> Result<(), Fail> {
    for &(constant, text) in &[
        ("ca0_", "'\\u{a0}'"),
        ("cad_", "'\\u{ad}'"),
        ("c301_", "'\\u{301}'"),
        ("c200b_", "'\\u{200b}'"),
        ("c3000_", "'\\u{3000}'"),
        ("c2028_", "'\\u{2028}'"),
        ("c2029_", "'\\u{2029}'"),
        ("ce000_", "'\\u{e000}'"),
        ("cdf_", "'ß'"),
        ("c4e00_", "'一'"),
        ("c1f600_", "'😀'"),
    ] {
        assert_constant(&rt, rt.alloc(), constant, text, text)?;
    }
    Ok(())
}

#[test]
fn strings_are_quoted(rt: HostRuntime) -> Result<(), Fail> {
    for &(constant, text) in &[
        ("e22_", "{*\"\\\"\"}"),
        ("e5c_", "{*\"\\\\\"}"),
        ("e_", "{*\"\"}"),
        ("e00_", "{*\"\\0\"}"),
        ("QRe61_", "{&mut \"a\"}"),
    ] {
        assert_constant(&rt, rt.alloc(), constant, text, text)?;
    }
    Ok(())
}
