//! Tests of the calls, for each kind of result. The texts are those of the Rust crate.
use crate::{
    kodliwe_demangle_folded, kodliwe_demangle_limited, kodliwe_demangle_text,
    kodliwe_demangle_text_folded, kodliwe_is_symbol, kodliwe_plain_len, kodliwe_run_len,
    kodliwe_run_start, kodliwe_stays,
};

#[test]
fn a_path_and_its_nul_are_written(rt: HostRuntime) {
    let mut out = [9; 40];
    let want = kodliwe_demangle_limited(b"_ZN3foo17h05af221e174051e9E", &mut out, true, 100);
    assert_eq!(rt; want, 23);
    assert!(rt; out.starts_with(b"foo::h05af221e174051e9\0\x09\x09"));
}

#[test]
fn a_limit_cuts_before_the_suffix(rt: HostRuntime) {
    let mut out = [9; 40];
    let want = kodliwe_demangle_limited(b"_ZN3foo3barE.cold.7", &mut out, false, 4);
    assert_eq!(rt; want, 31);
    assert!(rt; out.starts_with(b"foo{size limit reached}.cold.7\0\x09"));
}

#[test]
fn arguments_are_folded(rt: HostRuntime) {
    let mut out = [9; 40];
    let symbol = b"_RNvMC3fooINtB2_3BarlE3baz";
    assert_eq!(rt; kodliwe_demangle_folded(symbol, &mut out, false, 100), 19);
    assert!(rt; out.starts_with(b"<foo::Bar<_>>::baz\0\x09\x09"));
    let mut cut = [9; 40];
    assert_eq!(rt; kodliwe_demangle_folded(symbol, &mut cut, true, 1), 22);
    assert!(rt; cut.starts_with(b"<{size limit reached}\0\x09"));
    let mut none = [9; 4];
    assert_eq!(rt; kodliwe_demangle_folded(b"main", &mut none, false, 100), 0);
    assert!(rt; none == [9; 4]);
}

#[test]
fn a_folded_path_has_its_hash(rt: HostRuntime) {
    let mut out = [9; 40];
    let symbol = b"_RINvCs1234_3foo3barhE";
    assert_eq!(rt; kodliwe_demangle_folded(symbol, &mut out, true, 100), 21);
    assert!(rt; out.starts_with(b"foo[3c1c0]::bar::<_>\0\x09"));
}

#[test]
fn no_symbol_leaves_the_memory(rt: HostRuntime) {
    let mut out = [9; 4];
    assert_eq!(rt; kodliwe_demangle_limited(b"main", &mut out, true, 100), 0);
    assert!(rt; out == [9; 4]);
    assert!(rt; !kodliwe_is_symbol(b"main"));
    assert!(rt; kodliwe_is_symbol(b"_RNvC3foo3bar.llvm.0AB@1"));
}

#[test]
fn a_text_keeps_what_is_no_symbol(rt: HostRuntime) {
    let mut out = [9; 40];
    let want = kodliwe_demangle_text(b"\xFF _ZN3foo3barE\r\n\0_R", &mut out, false, 100);
    assert_eq!(rt; want, 16);
    assert!(rt; out.starts_with(b"\xFF foo::bar\r\n\0_R\0\x09"));
}

#[test]
fn the_bytes_before_a_symbol_of_a_text(rt: HostRuntime) {
    let mut out = [9; 40];
    let text = b"SW_RC0.zip .text._ZN3fooE __ZN3fooE a__ZN1aE";
    assert_eq!(rt; kodliwe_demangle_text(text, &mut out, false, 100), 29);
    assert!(rt; out.starts_with(b"SW_RC0.zip .text.foo foo a_a\0\x09"));
}

#[test]
fn a_text_is_counted_past_the_memory(rt: HostRuntime) {
    let mut out = [9; 5];
    assert_eq!(rt;
        kodliwe_demangle_text(b"_ZN3foo3barE", &mut out, false, 100),
        9
    );
    assert!(rt; out == *b"foo:\0");
    assert_eq!(rt;
        kodliwe_demangle_text(b"_ZN3foo3barE", &mut out[..0], false, 4),
        24
    );
}

#[test]
fn arguments_in_a_text_are_folded(rt: HostRuntime) {
    let mut out = [9; 40];
    let text = b"\xFF _RINvC3foo3barhE\r\n\0_R";
    assert_eq!(rt;
        kodliwe_demangle_text_folded(text, &mut out, false, 100),
        21
    );
    assert!(rt; out.starts_with(b"\xFF foo::bar::<_>\r\n\0_R\0\x09"));
    assert_eq!(rt;
        kodliwe_demangle_text_folded(text, &mut out[..0], false, 4),
        31
    );
}

#[test]
fn runs_are_found(rt: HostRuntime) {
    assert_eq!(rt; kodliwe_run_start(b"a _Z _ZN3fooE"), 5);
    assert_eq!(rt; kodliwe_run_start(b"a _r _"), 6);
    assert_eq!(rt; kodliwe_run_len(b"_ZN3foo$.1E-x"), 11);
    assert_eq!(rt; kodliwe_run_len(b" _R"), 0);
}

#[test]
fn plain_text_before_a_run_is_measured(rt: HostRuntime) {
    let rows: [(&[u8], usize); 9] = [
        (b"", 0),
        (b"_", 0),
        (b" _", 1),
        (b"a _", 2),
        (b"__", 2),
        (b"a_", 2),
        (b"._", 2),
        (b"a-", 2),
        (b" a", 2),
    ];
    for (plain, wanted) in rows {
        assert_eq!(rt; kodliwe_plain_len(plain), wanted, "of {plain:?}");
    }
}

#[test]
fn runs_that_begin_with_a_crate_stay(rt: HostRuntime) {
    let rows: [(&[u8], bool); 9] = [
        (b"_RC0", true),
        (b"__RC0", true),
        (b"_RC", true),
        (b"___RC0", false),
        (b"_RNvC1a1b", false),
        (b"__RNvC1a1b", false),
        (b"_ZNC", false),
        (b"_R", false),
        (b"", false),
    ];
    for (candidate, wanted) in rows {
        assert_eq!(rt; kodliwe_stays(candidate), wanted, "of {candidate:?}");
    }
}
