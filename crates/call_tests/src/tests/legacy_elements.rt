//! Tests of known symbols.
use demangle_legacy::demangle;
use demangle_sink::{ArraySink, SizeLimitedFmtAdapter};
use demangle_symbol::cursor::Looks;
use demangle_symbol::form::Form;

/// Returns `true` if a text parses as a symbol, prints as `text` and leaves this suffix.
fn prints(symbol: &str, include_hash: bool, text: &str, suffix: &str) -> bool {
    let mut looks = Looks::new();
    let Ok((read, left)) = demangle(symbol, false, &mut looks) else {
        return false;
    };
    let mut sink = ArraySink::<256>::new();
    let mut out = SizeLimitedFmtAdapter::new(&mut sink, 1_000_000);
    let form = Form {
        include_hash,
        fold_arguments: false,
    };
    if read.write_to(&mut out, form, &mut looks).is_err() {
        return false;
    }
    sink.as_str() == text && left == suffix
}

#[test]
fn symbols_print_their_elements(rt: HostRuntime) {
    let symbol = "_ZN3foo17h05af221e174051e9E";
    assert!(rt; prints(symbol, true, "foo::h05af221e174051e9", ""));
    assert!(rt; prints(symbol, false, "foo", ""));
    assert!(rt; prints("_ZN8$BP$test4foobE", true, "*test::foob", ""));
    assert!(rt; prints("ZN4testE", true, "test", ""));
    assert!(rt; prints("_ZN3fooE.x", true, "foo", ".x"));
    assert!(rt; prints("_ZNE", true, "", ""));
}

#[test]
fn other_texts_are_rejected(rt: HostRuntime) {
    for text in ["", "test", "_ZN", "_ZN4test", "_ZNfooE", "_RC3foo"] {
        assert!(rt; demangle(text, false, &mut Looks::new()).is_err(), "{text}");
    }
}
