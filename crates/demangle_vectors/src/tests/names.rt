//! Tests of the names of known symbols.
use demangle_sink::{ArraySink, SizeLimitedFmtAdapter};
use demangle_symbol::cursor::{Looks, Symbol};

/// Returns `true` if the identifier at the start of a text prints as this text.
fn prints(identifier: &str, text: &str) -> bool {
    let symbol = Symbol::new(identifier);
    let mut looks = Looks::new();
    if !symbol.is_ascii(&mut looks) {
        return false;
    }
    let Ok((name, _)) = symbol.ident(0, &mut looks) else {
        return false;
    };
    let mut sink = ArraySink::<256>::new();
    let mut out = SizeLimitedFmtAdapter::new(&mut sink, 1_000_000);
    if name.write_to(&symbol, &mut out, &mut looks).is_err() {
        return false;
    }
    sink.as_str() == text
}

#[test]
fn decoded_names(rt: HostRuntime) {
    assert!(rt; prints("u9bcher_kva", "bücher"));
    assert!(rt; prints("u3tda", "ü"));
    assert!(rt; prints("3foo", "foo"));
    assert!(rt; prints("0", ""));
}

#[test]
fn undecoded_names(rt: HostRuntime) {
    assert!(rt; prints("u3a_A", "punycode{a-A}"));
    assert!(rt; prints("u1t", "punycode{t}"));
    assert!(rt; prints("u14_99999999999999", "punycode{99999999999999}"));
    assert!(rt; prints("u14_9999999999999a", "punycode{9999999999999a}"));
}

#[test]
fn names_of_128_characters(rt: HostRuntime) {
    assert!(rt;
        prints(
            "u131aaaaaaaaaaaaaaaaaaaaaaaaaaaaaaaaaaaaaaaaaaaaaaaaaaaaaaaaaaaaaaaaaaaaaaaaaaaaaaaaaaaaaaaaaaaaaaaaaaaaaaaaaaaaaaaaaaaaaaaaaaaaaaa_ecn",
            "aaaaaaaaaaaaaaaaaaaaaaaaaaaaaaaaaaaaaaaaaaaaaaaaaaaaaaaaaaaaaaaaaaaaaaaaaaaaaaaaaaaaaaaaaaaaaaaaaaaaaaaaaaaaaaaaaaaaaaaaaaaaaaaü"
        )
    );
    assert!(rt;
        prints(
            "u132aaaaaaaaaaaaaaaaaaaaaaaaaaaaaaaaaaaaaaaaaaaaaaaaaaaaaaaaaaaaaaaaaaaaaaaaaaaaaaaaaaaaaaaaaaaaaaaaaaaaaaaaaaaaaaaaaaaaaaaaaaaaaaaa_yfn",
            "punycode{aaaaaaaaaaaaaaaaaaaaaaaaaaaaaaaaaaaaaaaaaaaaaaaaaaaaaaaaaaaaaaaaaaaaaaaaaaaaaaaaaaaaaaaaaaaaaaaaaaaaaaaaaaaaaaaaaaaaaaaaaaaaaaaa-yfn}"
        )
    );
}
