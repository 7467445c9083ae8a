//! Tests of the calls, for each kind of result and of size. The texts are those of the Rust crate.
use crate::{
    kodliwe_demangle, kodliwe_demangle_folded, kodliwe_demangle_limited, kodliwe_demangle_part,
    kodliwe_demangle_text, kodliwe_demangle_text_folded, kodliwe_is_symbol, kodliwe_path_len,
    kodliwe_print_part, kodliwe_symbol_len, kodliwe_version,
};

/// A symbol whose text doubles with each of 18 tuples, and so exceeds every limit.
const TREE: &[u8; 96] =
    b"_RMC0TTTTTTTTTTTTTTTTTTpBk_EBj_EBi_EBh_EBg_EBf_EBe_EBd_EBc_EBb_EBa_EB9_EB8_EB7_EB6_EB5_EB4_EB3_E";

#[test]
fn a_path_and_its_nul_are_written(rt: HostRuntime) {
    let mut out = [9; 40];
    let want = kodliwe_demangle(b"_ZN3foo17h05af221e174051e9E", &mut out, true);
    assert_eq!(rt; want, 23);
    assert!(rt; out.starts_with(b"foo::h05af221e174051e9\0\x09\x09"));
}

#[test]
fn the_hash_is_left_out(rt: HostRuntime) {
    let mut out = [9; 40];
    let want = kodliwe_demangle(b"_ZN3foo17h05af221e174051e9E", &mut out, false);
    assert_eq!(rt; want, 4);
    assert!(rt; out.starts_with(b"foo\0\x09\x09"));
}

#[test]
fn arguments_are_folded(rt: HostRuntime) {
    let mut out = [9; 40];
    let symbol = b"_RNvMC3fooINtB2_3BarlE3baz";
    assert_eq!(rt; kodliwe_demangle_folded(symbol, &mut out, false, 1_000), 19);
    assert!(rt; out.starts_with(b"<foo::Bar<_>>::baz\0\x09\x09"));
    assert_eq!(rt; kodliwe_demangle_folded(b"main", &mut out, false, 1_000), 0);
    let mut cut = [9; 40];
    assert_eq!(rt; kodliwe_demangle_folded(symbol, &mut cut, true, 1), 22);
    assert!(rt; cut.starts_with(b"<{size limit reached}\0\x09"));
}

#[test]
fn arguments_in_a_text_are_folded(rt: HostRuntime) {
    let mut out = [9; 40];
    let text = b"\xFF _RNvMC3fooINtB2_3BarlE3baz!";
    assert_eq!(rt;
        kodliwe_demangle_text_folded(text, &mut out, false, 1_000),
        22
    );
    assert!(rt; out.starts_with(b"\xFF <foo::Bar<_>>::baz!\0\x09\x09"));
}

#[test]
fn a_thin_lto_suffix_is_left_out(rt: HostRuntime) {
    let mut out = [9; 40];
    assert_eq!(rt;
        kodliwe_demangle(b"_RNvC3foo3bar.llvm.0AB@1", &mut out, true),
        9
    );
    assert!(rt; out.starts_with(b"foo::bar\0\x09"));
}

#[test]
fn an_exact_fit_is_whole(rt: HostRuntime) {
    let mut out = [9; 10];
    assert_eq!(rt; kodliwe_demangle(b"_RNvC3foo3bar", &mut out[..9], false), 9);
    assert!(rt; out == *b"foo::bar\0\x09");
}

#[test]
fn one_byte_less_loses_the_last(rt: HostRuntime) {
    let mut out = [9; 10];
    assert_eq!(rt; kodliwe_demangle(b"_RNvC3foo3bar", &mut out[..8], false), 9);
    assert!(rt; out == *b"foo::ba\0\x09\x09");
}

#[test]
fn one_byte_holds_the_nul(rt: HostRuntime) {
    let mut out = [9; 4];
    assert_eq!(rt; kodliwe_demangle(b"_RNvC3foo3bar", &mut out[..1], false), 9);
    assert!(rt; out == *b"\0\x09\x09\x09");
}

#[test]
fn no_byte_is_counted_alone(rt: HostRuntime) {
    let mut out = [9; 4];
    assert_eq!(rt; kodliwe_demangle(b"_RNvC3foo3bar", &mut out[..0], false), 9);
    assert_eq!(rt;
        kodliwe_demangle_limited(b"_RNvC3foo3bar", &mut out[..0], false, 4),
        24
    );
    assert!(rt; out == [9; 4]);
}

#[test]
fn no_symbol_leaves_the_memory(rt: HostRuntime) {
    let mut out = [9; 4];
    assert_eq!(rt; kodliwe_demangle(b"main", &mut out, true), 0);
    assert_eq!(rt; kodliwe_demangle(b"", &mut out, true), 0);
    assert_eq!(rt; kodliwe_demangle(b"_ZN\xFF", &mut out, true), 0);
    assert_eq!(rt;
        kodliwe_demangle_limited(b"_ZN3foo", &mut out, true, 100),
        0
    );
    assert!(rt; out == [9; 4]);
}

#[test]
fn a_length_past_every_number_is_no_symbol(rt: HostRuntime) {
    let mut out = [9; 4];
    let legacy = b"_ZN1000000000000000000000000000000fooE";
    assert_eq!(rt; kodliwe_demangle(legacy, &mut out, true), 0);
    let v0 = b"_RNvC1000000000000000000000000000000a3foo";
    assert_eq!(rt; kodliwe_demangle(v0, &mut out, true), 0);
    assert!(rt; out == [9; 4]);
}

#[test]
fn a_limit_cuts_before_the_suffix(rt: HostRuntime) {
    let mut out = [9; 40];
    let want = kodliwe_demangle_limited(b"_ZN3foo3barE.cold.7", &mut out, false, 4);
    assert_eq!(rt; want, 31);
    assert!(rt; out.starts_with(b"foo{size limit reached}.cold.7\0\x09"));
}

#[test]
fn a_limit_that_suffices_cuts_nothing(rt: HostRuntime) {
    let mut out = [9; 40];
    let want = kodliwe_demangle_limited(b"_ZN3foo3barE.cold.7", &mut out, false, 8);
    assert_eq!(rt; want, 16);
    assert!(rt; out.starts_with(b"foo::bar.cold.7\0\x09"));
}

#[test]
fn a_tree_ends_at_the_limit(rt: HostRuntime) {
    let mut out = [9; 8];
    assert_eq!(rt; kodliwe_demangle_limited(TREE, &mut out, true, 1000), 1021);
    assert!(rt; out == *b"<((((((\0");
}

#[test]
fn no_limit_is_above_1_000_000(rt: HostRuntime) {
    let mut out = [9; 8];
    assert_eq!(rt;
        kodliwe_demangle_limited(TREE, &mut out, true, 999_990),
        1_000_011
    );
    assert_eq!(rt;
        kodliwe_demangle_limited(TREE, &mut out, true, 1_000_001),
        1_000_020
    );
    assert_eq!(rt;
        kodliwe_demangle_limited(TREE, &mut out, true, usize::MAX),
        1_000_020
    );
    assert_eq!(rt; kodliwe_demangle(TREE, &mut out, true), 1_000_020);
}

#[test]
fn is_symbol_finds_a_symbol(rt: HostRuntime) {
    assert!(rt; kodliwe_is_symbol(b"_ZN3foo17h05af221e174051e9E"));
    assert!(rt; kodliwe_is_symbol(b"_RNvC3foo3bar.llvm.0AB@1"));
    assert!(rt; !kodliwe_is_symbol(b"_ZN3foo17h05af221e174051e9"));
    assert!(rt; !kodliwe_is_symbol(b"_ZN\xFF"));
    assert!(rt; !kodliwe_is_symbol(b""));
}

#[test]
fn parts_join_to_the_path(rt: HostRuntime) {
    let symbol = b"_ZN3foo3barE.cold.7";
    let mut part = [9; 8];
    assert_eq!(rt;
        kodliwe_demangle_part(symbol, &mut part, false, 1000, 0),
        16
    );
    assert!(rt; part == *b"foo::ba\0");
    assert_eq!(rt;
        kodliwe_demangle_part(symbol, &mut part, false, 1000, 7),
        16
    );
    assert!(rt; part == *b"r.cold.\0");
    assert_eq!(rt;
        kodliwe_demangle_part(symbol, &mut part, false, 1000, 14),
        16
    );
    assert!(rt; part == *b"7\0cold.\0");
}

#[test]
fn a_part_past_the_end_is_empty(rt: HostRuntime) {
    let mut part = [9; 4];
    assert_eq!(rt;
        kodliwe_demangle_part(b"_RNvC3foo3bar", &mut part, false, 1000, 8),
        9
    );
    assert!(rt; part == *b"\0\x09\x09\x09");
    part[0] = 9;
    assert_eq!(rt;
        kodliwe_demangle_part(b"_RNvC3foo3bar", &mut part, false, 1000, usize::MAX),
        9
    );
    assert!(rt; part == *b"\0\x09\x09\x09");
}

#[test]
fn a_part_is_cut_at_the_limit(rt: HostRuntime) {
    let mut part = [9; 40];
    let symbol = b"_ZN3foo3barE.cold.7";
    assert_eq!(rt; kodliwe_demangle_part(symbol, &mut part, false, 4, 3), 31);
    assert!(rt; part.starts_with(b"{size limit reached}.cold.7\0\x09"));
    assert_eq!(rt;
        kodliwe_demangle_part(TREE, &mut part, true, usize::MAX, 1_000_000),
        1_000_020
    );
    assert!(rt; part.starts_with(b"size limit reached}\0"));
}

#[test]
fn no_symbol_has_no_part(rt: HostRuntime) {
    let mut out = [9; 4];
    assert_eq!(rt; kodliwe_demangle_part(b"main", &mut out, true, 1000, 0), 0);
    assert_eq!(rt;
        kodliwe_demangle_part(b"_RNvC3foo3bar", &mut out[..0], true, 1000, 2),
        9
    );
    assert!(rt; out == [9; 4]);
}

#[test]
fn a_symbol_ends_before_thin_lto(rt: HostRuntime) {
    assert_eq!(rt; kodliwe_symbol_len(b"_ZN3foo17h05af221e174051e9E"), 27);
    assert_eq!(rt; kodliwe_symbol_len(b"_RNvC3foo3bar.llvm.0AB@1"), 13);
    assert_eq!(rt; kodliwe_symbol_len(b"_ZN3foo3barE.cold.7"), 19);
    assert_eq!(rt; kodliwe_symbol_len(b"_ZN3foo3barE.cold.7.llvm.9"), 19);
    assert_eq!(rt; kodliwe_symbol_len(b"_ZN3fooE.llvm.Z"), 15);
    assert_eq!(rt; kodliwe_symbol_len(b"main"), 0);
    assert_eq!(rt; kodliwe_symbol_len(b"_ZN\xFF"), 0);
    assert_eq!(rt; kodliwe_symbol_len(b""), 0);
}

#[test]
fn a_text_keeps_all_but_its_symbols(rt: HostRuntime) {
    let mut out = [9; 40];
    let text = b"\xFF at _ZN3foo17h05af221e174051e9E: _RNvC3foo3bar\n";
    assert_eq!(rt; kodliwe_demangle_text(text, &mut out, false, 1000), 20);
    assert!(rt; out.starts_with(b"\xFF at foo: foo::bar\n\0\x09"));
}

#[test]
fn the_bytes_before_a_symbol_of_a_text(rt: HostRuntime) {
    let mut out = [9; 40];
    let text = b"SW_RC0.zip .text._ZN3fooE __ZN3fooE a__ZN1aE";
    assert_eq!(rt; kodliwe_demangle_text(text, &mut out, false, 1000), 29);
    assert!(rt; out.starts_with(b"SW_RC0.zip .text.foo foo a_a\0\x09"));
    assert_eq!(rt;
        kodliwe_demangle_text_folded(text, &mut out, false, 1000),
        29
    );
    assert!(rt; out.starts_with(b"SW_RC0.zip .text.foo foo a_a\0\x09"));
}

#[test]
fn runs_of_a_text_that_stay_and_runs_after_each_byte(rt: HostRuntime) {
    let rows: &[(&[u8], &[u8])] = &[
        (b"int _RC0 = 1; v1.0_RC0", b"int _RC0 = 1; v1.0_RC0"),
        (b"_RC2_40 __RC0 x__RC0", b"_RC2_40 __RC0 x__RC0"),
        (b"config_Release __REG", b"config_Release __REG"),
        (b"\"a\\n_RNvC3foo3bar\"", b"\"a\\nfoo::bar\""),
        (b"\\t_ZN3fooE\\r\\n_ZN3fooE", b"\\tfoo\\r\\nfoo"),
        (
            b"\x1B[01;31m\x1B[K_ZN3fooE\x1B[m",
            b"\x1B[01;31m\x1B[Kfoo\x1B[m",
        ),
        (b"b'\\x00_RNvC3foo3bar\\xff'", b"b'\\x00foo::bar\\xff'"),
        (b"%20_RNvC3foo3bar", b"%20foo::bar"),
        (b"L_ZN3fooE .L_RNvC3foo3bar", b"Lfoo .Lfoo::bar"),
        (b"_RMC3foox a_RXC0uC1t", b"<i64> a<() as t>"),
        (b"_RYsC5h05af __RMC3foox", b"<i16 as h05af> <i64>"),
    ];
    for &(text, wanted) in rows {
        let mut out = [9; 40];
        let size = wanted.len().saturating_add(1);
        assert_eq!(rt; kodliwe_demangle_text(text, &mut out, false, 1000), size);
        assert!(rt; out.starts_with(wanted), "of {text:?}");
        assert_eq!(rt; out.get(wanted.len()), Some(&0), "of {text:?}");
        let mut out = [9; 40];
        assert_eq!(rt;
            kodliwe_demangle_text_folded(text, &mut out, true, 1000),
            size
        );
        assert!(rt; out.starts_with(wanted), "of {text:?}");
        assert_eq!(rt; out.get(wanted.len()), Some(&0), "of {text:?}");
    }
}

#[test]
fn a_text_is_cut_where_the_memory_ends(rt: HostRuntime) {
    let mut out = [9; 8];
    assert_eq!(rt;
        kodliwe_demangle_text(b"<_RNvC3foo3bar>", &mut out[..7], false, 1000),
        11
    );
    assert!(rt; out == *b"<foo::\0\x09");
    assert_eq!(rt;
        kodliwe_demangle_text(b"<_RNvC3foo3bar>", &mut out[..0], false, 1000),
        11
    );
    assert!(rt; out == *b"<foo::\0\x09");
}

#[test]
fn the_limit_of_a_text_is_each_symbols(rt: HostRuntime) {
    let mut out = [9; 40];
    assert_eq!(rt;
        kodliwe_demangle_text(b"_ZN3foo3barE _ZN1aE", &mut out, false, 4),
        26
    );
    assert!(rt; out.starts_with(b"foo{size limit reached} a\0\x09"));
}

#[test]
fn a_text_without_a_limit_has_1_000_bytes_for_each(rt: HostRuntime) {
    let text = b"_RMC0FG15FTGf_Eu";
    let mut out = [9; 1];
    let most = 1_000 * text.len() + 1;
    let linear = kodliwe_demangle_text(text, &mut out, false, usize::MAX);
    assert!(rt; linear <= most);
    let folded = kodliwe_demangle_text_folded(text, &mut out, false, usize::MAX);
    assert!(rt; folded <= most);
    assert!(rt; kodliwe_demangle_text(text, &mut out, false, 1_000_000) > most);
}

#[test]
fn an_empty_text_is_a_nul(rt: HostRuntime) {
    let mut out = [9; 2];
    assert_eq!(rt; kodliwe_demangle_text(b"", &mut out, true, 1000), 1);
    assert!(rt; out == *b"\0\x09");
}

#[test]
fn a_path_ends_before_its_suffix(rt: HostRuntime) {
    assert_eq!(rt; kodliwe_path_len(b"_ZN3foo17h05af221e174051e9E"), 27);
    assert_eq!(rt; kodliwe_path_len(b"_RNvC3foo3bar.cold.7.llvm.9"), 13);
    assert_eq!(rt; kodliwe_path_len(b"_ZN3foo3barE.llvm.Z"), 12);
    assert_eq!(rt; kodliwe_path_len(b"main"), 0);
    assert_eq!(rt; kodliwe_path_len(b"_ZN\xFF"), 0);
}

#[test]
fn a_known_path_is_printed_in_parts(rt: HostRuntime) {
    let symbol = b"_RNvC3foo3bar.cold.7.llvm.9";
    let mut part = [9; 8];
    assert_eq!(rt;
        kodliwe_print_part(symbol, 13, &mut part, false, 1000, 0),
        16
    );
    assert!(rt; part == *b"foo::ba\0");
    assert_eq!(rt;
        kodliwe_print_part(symbol, 13, &mut part, false, 1000, 7),
        16
    );
    assert!(rt; part == *b"r.cold.\0");
    let legacy = b"_ZN3foo17h05af221e174051e9E";
    assert_eq!(rt;
        kodliwe_print_part(legacy, 27, &mut part, false, 1000, 0),
        4
    );
    assert!(rt; part.starts_with(b"foo\0"));
}

#[test]
fn another_length_does_no_harm(rt: HostRuntime) {
    let mut part = [9; 12];
    let symbol = b"_RNvC3foo3bar.a";
    for path_len in [0, 1, 14, 15, 16, usize::MAX] {
        let want = kodliwe_print_part(symbol, path_len, &mut part[..10], false, 1000, 0);
        assert!(rt; want >= 9);
        assert!(rt; want <= 1036);
    }
    assert_eq!(rt;
        kodliwe_print_part(b"_RNv\xFF", 4, &mut part[..10], false, 1000, 0),
        0
    );
    assert_eq!(rt;
        kodliwe_print_part(b"_RNvC3fo", 8, &mut part[..10], true, 4, 0),
        21
    );
    assert!(rt; part[10..] == [9; 2]);
}

#[test]
fn a_version_is_a_text(rt: HostRuntime) {
    let mut out = [9; 60];
    let want = kodliwe_version(&mut out);
    assert!(rt; out.starts_with(b"kodliwe 0.1.0, "));
    assert!(rt; out[want - 1] == 0 && out[want] == 9);
    let mut cut = [9; 9];
    assert_eq!(rt; kodliwe_version(&mut cut[..8]), want);
    assert!(rt; cut == *b"kodliwe\0\x09");
    assert_eq!(rt; kodliwe_version(&mut cut[..0]), want);
    assert!(rt; cut == *b"kodliwe\0\x09");
}
