//! Tests of the literals of known constants.
use demangle_sink::{ArraySink, SizeLimitedFmtAdapter};
use demangle_symbol::cursor::{Looks, Symbol};
use demangle_symbol::literal::{
    bool_of, character_of, is_string, put_char_literal, put_string_literal,
};

/// Returns the number of a hexadecimal string.
fn number(word: &str) -> Option<u128> {
    let symbol = Symbol::new(word);
    let mut looks = Looks::new();
    let Ok((nibbles, _)) = symbol.hex_nibbles(0, &mut looks) else {
        return None;
    };
    symbol.hex_number(nibbles, &mut looks)
}

/// Returns `true` if the char constant of this hexadecimal string prints as this text.
fn prints_char(word: &str, text: &str) -> bool {
    let Some(c) = character_of(number(word)) else {
        return false;
    };
    let mut sink = ArraySink::<64>::new();
    let mut out = SizeLimitedFmtAdapter::new(&mut sink, 1_000_000);
    if put_char_literal(c, &mut out).is_err() {
        return false;
    }
    sink.as_str() == text
}

/// Returns `true` if this hexadecimal string spells a string.
fn spells(word: &str) -> bool {
    let symbol = Symbol::new(word);
    let mut looks = Looks::new();
    match symbol.hex_nibbles(0, &mut looks) {
        Ok((nibbles, _)) => is_string(&symbol, nibbles, &mut looks),
        Err(_) => false,
    }
}

/// Returns `true` if the string constant of this hexadecimal string prints as this text.
fn prints_string(word: &str, text: &str) -> bool {
    let symbol = Symbol::new(word);
    let mut looks = Looks::new();
    let Ok((nibbles, _)) = symbol.hex_nibbles(0, &mut looks) else {
        return false;
    };
    if !is_string(&symbol, nibbles, &mut looks) {
        return false;
    }
    let mut sink = ArraySink::<64>::new();
    let mut out = SizeLimitedFmtAdapter::new(&mut sink, 1_000_000);
    if put_string_literal(&symbol, nibbles, &mut out, &mut looks).is_err() {
        return false;
    }
    sink.as_str() == text
}

#[test]
fn characters(rt: HostRuntime) {
    assert!(rt; prints_char("76_", "'v'"));
    assert!(rt; prints_char("22_", "'\"'"));
    assert!(rt; prints_char("27_", "'\\''"));
    assert!(rt; prints_char("a_", "'\\n'"));
    assert!(rt; prints_char("2202_", "'∂'"));
    assert!(rt; prints_char("_", "'\\0'"));
    assert!(rt; prints_char("7f_", "'\\u{7f}'"));
    assert!(rt; prints_char("1b_", "'\\u{1b}'"));
}

#[test]
fn characters_past_ascii(rt: HostRuntime) {
    assert!(rt; prints_char("a0_", "'\\u{a0}'"));
    assert!(rt; prints_char("301_", "'\\u{301}'"));
    assert!(rt; prints_char("ad_", "'\\u{ad}'"));
    assert!(rt; prints_char("200b_", "'\\u{200b}'"));
    assert!(rt; prints_char("3000_", "'\\u{3000}'"));
    assert!(rt; prints_char("e000_", "'\\u{e000}'"));
}

#[test]
fn no_characters(rt: HostRuntime) {
    assert!(rt; character_of(number("d800_")).is_none());
    assert!(rt; character_of(number("110000_")).is_none());
}

#[test]
fn booleans(rt: HostRuntime) {
    assert_eq!(rt; bool_of(number("_")), Some(false));
    assert_eq!(rt; bool_of(number("00_")), Some(false));
    assert_eq!(rt; bool_of(number("1_")), Some(true));
    assert_eq!(rt; bool_of(number("2_")), None);
}

#[test]
fn strings(rt: HostRuntime) {
    assert!(rt; prints_string("22_", "\"\\\"\""));
    assert!(rt; prints_string("5c_", "\"\\\\\""));
    assert!(rt; prints_string("27_", "\"'\""));
    assert!(rt; prints_string("616263_", "\"abc\""));
    assert!(rt; prints_string("090a_", "\"\\t\\n\""));
    assert!(rt; prints_string("e28882c3bc_", "\"∂ü\""));
    assert!(rt; prints_string("_", "\"\""));
    assert!(rt; !spells("6_"));
    assert!(rt; !spells("c080_"));
}
