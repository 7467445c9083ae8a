//! Tests of the primitives of known symbols.
use demangle_symbol::cursor::{Ident, Looks, ParseError, Symbol};

fn integer(text: &str) -> Result<(u64, usize), ParseError> {
    Symbol::new(text).integer_62(0, &mut Looks::new())
}

fn optional(text: &str, tag: u8) -> Result<(u64, usize), ParseError> {
    Symbol::new(text).opt_integer_62(tag, 0, &mut Looks::new())
}

fn disambiguator(text: &str) -> Result<(u64, usize), ParseError> {
    Symbol::new(text).disambiguator_if(true, 0, &mut Looks::new())
}

fn unneeded_disambiguator(text: &str) -> Result<(u64, usize), ParseError> {
    Symbol::new(text).disambiguator_if(false, 0, &mut Looks::new())
}

fn after_disambiguator(text: &str) -> Result<usize, ParseError> {
    Symbol::new(text).after_disambiguator(0, &mut Looks::new())
}

fn namespace(text: &str) -> Result<(u8, usize), ParseError> {
    Symbol::new(text).namespace(0, &mut Looks::new())
}

/// Returns the bounds of both parts of a name, and the place after it.
fn parts(text: &str) -> Result<(usize, usize, usize, usize, usize), ParseError> {
    let (name, next) = Symbol::new(text).ident(0, &mut Looks::new())?;
    let Ident { ascii, punycode } = name;
    Ok((ascii.from, ascii.to, punycode.from, punycode.to, next))
}

fn number(text: &str) -> Result<Option<u128>, ParseError> {
    let symbol = Symbol::new(text);
    let mut looks = Looks::new();
    let (nibbles, _) = symbol.hex_nibbles(0, &mut looks)?;
    Ok(symbol.hex_number(nibbles, &mut looks))
}

#[test]
fn integers(rt: HostRuntime) {
    assert_eq!(rt; integer("_"), Ok((0, 1)));
    assert_eq!(rt; integer("0_"), Ok((1, 2)));
    assert_eq!(rt; integer("Z_"), Ok((62, 2)));
    assert_eq!(rt; integer("10_"), Ok((63, 3)));
    assert_eq!(rt; integer("lYGhA16ahye_"), Ok((18446744073709551615, 12)));
    assert_eq!(rt; integer("lYGhA16ahyf_"), Err(ParseError::Invalid));
}

#[test]
fn optional_integers(rt: HostRuntime) {
    assert_eq!(rt; optional("x", b'G'), Ok((0, 0)));
    assert_eq!(rt; optional("s_", b'G'), Ok((0, 0)));
    assert_eq!(rt; optional("G_", b'G'), Ok((1, 2)));
    assert_eq!(rt; optional("G0_", b'G'), Ok((2, 3)));
    assert_eq!(rt;
        optional("GlYGhA16ahyd_", b'G'),
        Ok((18446744073709551615, 13))
    );
    assert_eq!(rt; optional("GlYGhA16ahye_", b'G'), Err(ParseError::Invalid));
    assert_eq!(rt; optional("G", b'G'), Err(ParseError::Invalid));
}

#[test]
fn disambiguators(rt: HostRuntime) {
    assert_eq!(rt; disambiguator("x"), Ok((0, 0)));
    assert_eq!(rt; disambiguator("s_"), Ok((1, 2)));
    assert_eq!(rt;
        disambiguator("slYGhA16ahyd_"),
        Ok((18446744073709551615, 13))
    );
    assert_eq!(rt; disambiguator("slYGhA16ahye_"), Err(ParseError::Invalid));
}

#[test]
fn unneeded_disambiguators(rt: HostRuntime) {
    assert_eq!(rt; unneeded_disambiguator("x"), Ok((0, 0)));
    assert_eq!(rt; unneeded_disambiguator("s_"), Ok((0, 2)));
    assert_eq!(rt; unneeded_disambiguator("slYGhA16ahyd_"), Ok((0, 13)));
    assert_eq!(rt;
        unneeded_disambiguator("slYGhA16ahye_"),
        Err(ParseError::Invalid)
    );
    assert_eq!(rt; unneeded_disambiguator("s"), Err(ParseError::Invalid));
}

#[test]
fn ends_of_disambiguators(rt: HostRuntime) {
    assert_eq!(rt; after_disambiguator("x"), Ok(0));
    assert_eq!(rt; after_disambiguator("s_"), Ok(2));
    assert_eq!(rt; after_disambiguator("sZ_3foo"), Ok(3));
    assert_eq!(rt; after_disambiguator("sZZZZZZZZZZ_3foo"), Ok(12));
    assert_eq!(rt; after_disambiguator("skZZZZZZZZZZ_3foo"), Ok(13));
    assert_eq!(rt; after_disambiguator("slYGhA16ahyd_"), Ok(13));
    assert_eq!(rt; after_disambiguator("s00lYGhA16ahyd_"), Ok(15));
    assert_eq!(rt;
        after_disambiguator("slYGhA16ahye_"),
        Err(ParseError::Invalid)
    );
    assert_eq!(rt;
        after_disambiguator("s100000000000_"),
        Err(ParseError::Invalid)
    );
    assert_eq!(rt;
        after_disambiguator("sZZZZZZZ.ZZZZ_"),
        Err(ParseError::Invalid)
    );
    assert_eq!(rt;
        after_disambiguator("s0123456789"),
        Err(ParseError::Invalid)
    );
}

#[test]
fn namespaces(rt: HostRuntime) {
    assert_eq!(rt; namespace("v"), Ok((b'v', 1)));
    assert_eq!(rt; namespace("C"), Ok((b'C', 1)));
    assert_eq!(rt; namespace("_"), Err(ParseError::Invalid));
}

#[test]
fn identifiers(rt: HostRuntime) {
    assert_eq!(rt; parts("0"), Ok((1, 1, 1, 1, 1)));
    assert_eq!(rt; parts("3_foo"), Ok((2, 5, 5, 5, 5)));
    assert_eq!(rt; parts("4abc"), Err(ParseError::Invalid));
    assert_eq!(rt; parts("u5a_b_c"), Ok((2, 5, 6, 7, 7)));
    assert_eq!(rt; parts("u3abc"), Ok((2, 2, 2, 5, 5)));
    assert_eq!(rt; parts("u2a_"), Err(ParseError::Invalid));
}

#[test]
fn hex_numbers(rt: HostRuntime) {
    assert_eq!(rt; number("_"), Ok(Some(0)));
    assert_eq!(rt; number("00ff_"), Ok(Some(255)));
    assert_eq!(rt; number("ffffffffffffffff_"), Ok(Some(18446744073709551615)));
    assert_eq!(rt;
        number("10000000000000000_"),
        Ok(Some(18446744073709551616))
    );
    assert_eq!(rt;
        number("ffffffffffffffffffffffffffffffff_"),
        Ok(Some(340282366920938463463374607431768211455))
    );
    assert_eq!(rt; number("100000000000000000000000000000000_"), Ok(None));
    assert_eq!(rt; number("fF_"), Err(ParseError::Invalid));
}

#[test]
fn back_references(rt: HostRuntime) {
    let mut looks = Looks::new();
    let three = Symbol::new("xxxB2_");
    let two = Symbol::new("xxxB1_");
    assert_eq!(rt; three.backref(4, 0, &mut looks), Err(ParseError::Invalid));
    assert_eq!(rt; three.backref(4, 500, &mut looks), Err(ParseError::Invalid));
    assert_eq!(rt;
        two.backref(4, 500, &mut looks),
        Err(ParseError::RecursedTooDeep)
    );
    assert_eq!(rt; two.backref(4, 499, &mut looks), Ok((2, 6)));
}
