//! Tests of v0 symbols: types, functions, binders and patterns.
use super::{assert_prints, assert_rejected};

#[test]
fn basic_types_have_their_names(rt: HostRuntime) {
    for &(symbol, text) in &[
        ("_RMC0b", "<bool>"),
        ("_RMC0c", "<char>"),
        ("_RMC0e", "<str>"),
        ("_RMC0u", "<()>"),
        ("_RMC0a", "<i8>"),
        ("_RMC0l", "<i32>"),
        ("_RMC0x", "<i64>"),
        ("_RMC0n", "<i128>"),
        ("_RMC0i", "<isize>"),
        ("_RMC0h", "<u8>"),
        ("_RMC0t", "<u16>"),
        ("_RMC0m", "<u32>"),
        ("_RMC0y", "<u64>"),
        ("_RMC0o", "<u128>"),
        ("_RMC0j", "<usize>"),
        ("_RMC0f", "<f32>"),
        ("_RMC0d", "<f64>"),
        ("_RMC0z", "<!>"),
        ("_RMC0p", "<_>"),
        ("_RMC0v", "<...>"),
        ("_RMC0s", "<i16>"),
    ] {
        assert_prints(&rt, symbol, text, text);
    }
}

#[test]
fn references_and_pointers(rt: HostRuntime) {
    for &(symbol, text) in &[
        ("_RMC0Rh", "<&u8>"),
        ("_RMC0Qh", "<&mut u8>"),
        ("_RMC0Ph", "<*const u8>"),
        ("_RMC0Oh", "<*mut u8>"),
        ("_RMC0RL_h", "<&u8>"),
        ("_RMC0QL_h", "<&mut u8>"),
        ("_RMC0Sh", "<[u8]>"),
        ("_RMC0RSRe", "<&[&str]>"),
    ] {
        assert_prints(&rt, symbol, text, text);
    }
}

#[test]
fn arrays_have_a_length(rt: HostRuntime) {
    for &(symbol, plain, alt) in &[
        ("_RMC0Ahj3_", "<[u8; 3usize]>", "<[u8; 3]>"),
        (
            "_RMC0AAhj1_j2_",
            "<[[u8; 1usize]; 2usize]>",
            "<[[u8; 1]; 2]>",
        ),
        ("_RMC0Ahp", "<[u8; _]>", "<[u8; _]>"),
    ] {
        assert_prints(&rt, symbol, plain, alt);
    }
}

#[test]
fn tuples(rt: HostRuntime) {
    for &(symbol, text) in &[
        ("_RMC0TE", "<()>"),
        ("_RMC0ThE", "<(u8,)>"),
        ("_RMC0ThtE", "<(u8, u16)>"),
        ("_RMC0TThEE", "<((u8,),)>"),
    ] {
        assert_prints(&rt, symbol, text, text);
    }
}

#[test]
fn functions(rt: HostRuntime) {
    for &(symbol, text) in &[
        ("_RMC0FEu", "<fn()>"),
        ("_RMC0FhEh", "<fn(u8) -> u8>"),
        ("_RMC0FUEu", "<unsafe fn()>"),
        ("_RMC0FKCEu", "<extern \"C\" fn()>"),
        ("_RMC0FUK8C_unwindEu", "<unsafe extern \"C-unwind\" fn()>"),
        ("_RMC0FK8C_unwindEu", "<extern \"C-unwind\" fn()>"),
        ("_RMC0FUKCEu", "<unsafe extern \"C\" fn()>"),
        ("_RMC0FKCC3fooEu", "<extern \"C\" fn(foo)>"),
        ("_RMC0FK3a_bEu", "<extern \"a-b\" fn()>"),
        ("_RMC0FThEvEz", "<fn((u8,), ...) -> !>"),
        ("_RMC0FFEuEFEu", "<fn(fn()) -> fn()>"),
    ] {
        assert_prints(&rt, symbol, text, text);
    }
}

#[test]
fn an_argument_is_splat(rt: HostRuntime) {
    for &(symbol, text) in &[
        ("_RMC0wh", "<#[splat] u8>"),
        ("_RMC0FwThmEEu", "<fn(#[splat] (u8, u32))>"),
        ("_RMC0wC1a", "<#[splat] a>"),
    ] {
        assert_prints(&rt, symbol, text, text);
    }
}

#[test]
fn binders_name_their_lifetimes(rt: HostRuntime) {
    for &(symbol, text) in &[
        ("_RMC0FG_RL0_hEu", "<for<'a> fn(&'a u8)>"),
        ("_RMC0FG0_RL0_RL1_hEu", "<for<'a, 'b> fn(&'b &'a u8)>"),
        (
            "_RMC0FGp_RL0_hEu",
            "<for<'a, 'b, 'c, 'd, 'e, 'f, 'g, 'h, 'i, 'j, 'k, 'l, 'm, 'n, 'o, 'p, 'q, 'r, 's, 't, 'u, 'v, 'w, 'x, 'y, 'z, '_26> fn(&'_26 u8)>",
        ),
        (
            "_RMC0FG_FG_RL0_RL1_hEuEu",
            "<for<'a> fn(for<'b> fn(&'b &'a u8))>",
        ),
        ("_RMC0DG_INtC1a1bL0_EEL_", "<dyn for<'a> a::b<'a>>"),
    ] {
        assert_prints(&rt, symbol, text, text);
    }
}

#[test]
fn dynamic_types(rt: HostRuntime) {
    for &(symbol, text) in &[
        ("_RMC0DEL_", "<dyn >"),
        ("_RMC0DC1aEL_", "<dyn a>"),
        ("_RMC0DC1aC1bEL_", "<dyn a + b>"),
        ("_RMC0DIC1auEEL_", "<dyn a<()>>"),
        ("_RMC0DC1ap1XuEL_", "<dyn a<X = ()>>"),
        ("_RMC0DIC1auEp1Xup1YhEL_", "<dyn a<(), X = (), Y = u8>>"),
        ("_RMC0FG_DC1aEL0_Eu", "<for<'a> fn(dyn a + 'a)>"),
    ] {
        assert_prints(&rt, symbol, text, text);
    }
}

#[test]
fn patterns(rt: HostRuntime) {
    for &(symbol, plain, alt) in &[
        (
            "_RMC0WmORm1_m2_Rm5_m6_E",
            "<u32 is 1u32..=2u32 | 5u32..=6u32>",
            "<u32 is 1..=2 | 5..=6>",
        ),
        ("_RMC0WmN", "<u32 is !null>", "<u32 is !null>"),
        ("_RMC0WmONE", "<u32 is !null>", "<u32 is !null>"),
        ("_RMC0WPhN", "<*const u8 is !null>", "<*const u8 is !null>"),
        (
            "_RMC0WcRc61_c7a_",
            "<char is 'a'..='z'>",
            "<char is 'a'..='z'>",
        ),
    ] {
        assert_prints(&rt, symbol, plain, alt);
    }
}

#[test]
fn a_lifetime_out_of_scope_is_marked(rt: HostRuntime) {
    for &(symbol, text) in &[
        ("_RMC0RL0_u", "<&'{invalid syntax} ?>"),
        (
            "_RMC0DIC1aL0_EEL_",
            "<dyn a<'{invalid syntax}>{invalid syntax}>",
        ),
        ("_RMC0TRL0_uuE", "<(&'{invalid syntax} ?,)>"),
        ("_RMC0FRL0_uEu", "<fn(&'{invalid syntax} ?) -> ?>"),
        ("_RIC1aL0_L_E", "a::<'{invalid syntax}>"),
        ("_RMC0DG_C1aEL0_", "<dyn for<'a> a + '{invalid syntax}>"),
        ("_RMC0WRL0_uN", "<&'{invalid syntax} ? is ?>"),
    ] {
        assert_prints(&rt, symbol, text, text);
    }
}

#[test]
fn damaged_types_print_themselves(rt: HostRuntime) {
    for &text in &[
        "_RMC0",
        "_RMC0DE",
        "_RMC0FK0Eu",
        "_RMC0FKu1aEu",
        "_RMC0WmOE",
        "_RMC0Wmh",
        "_RMC0T",
        "_RMC0FE",
        "_RMC0FGEu",
        "_RMC0Ah",
        "_RMC0wwh",
        "_RMC0DC1aL_",
        "_RMC0g",
    ] {
        assert_rejected(&rt, text, text);
    }
}
