//! Tests of v0 runs, in memory and by a filter, which prints them before they are known to be
//! symbols. The expected texts are those of the Rust crate.
use rustc_demangle::sink::WriteSink;
use rustc_demangle::{
    Format, demangle_bytes_formatted, demangle_slice_formatted, demangle_text_formatted,
};
use std::alloc::{AllocError, Global};
use std::io::ErrorKind;
use std::process::Abort;
use std::test::Fail;
use test_doubles::streams::ChunkReader;

const DIGITS: &[u8] = b"0123456789abcdefghijklmnopqrstuvwxyzABCDEFGHIJKLMNOPQRSTUVWXYZ";

/// The bytes of the memory, and of the text that is expected in it, at most.
const ROOM: usize = 4096;

/// Appends a reference to a place, with zeros before its digits.
fn push_reference(symbol: &mut String, place: usize, zeros: usize) -> Result<(), AllocError> {
    symbol.push_str("B")?;
    for _ in 0..zeros {
        symbol.push_str("0")?;
    }
    if let Some(before) = place.checked_sub(1) {
        for digit in [before / 62, before % 62] {
            let byte = DIGITS.get(digit).copied().unwrap_or(b'_');
            symbol.push(char::from(byte))?;
        }
    }
    symbol.push_str("_")
}

/// Returns a generic path with the type `()`, and then `count` references to the argument before. Each
/// reference takes one step more than the one before.
fn chain(alloc: Global, count: usize, end: &str) -> Result<String, AllocError> {
    let mut symbol = String::new(alloc);
    symbol.push_str("_RINvC1a1bu")?;
    let mut place = 8;
    for _ in 0..count {
        let next = symbol.len().saturating_sub(2);
        push_reference(&mut symbol, place, 0)?;
        place = next;
    }
    symbol.push_str(end)?;
    Ok(symbol)
}

/// Returns a generic path with a name of some length, and then references to that name.
fn names(alloc: Global, len: usize, count: usize, end: &str) -> Result<String, AllocError> {
    let mut symbol = format!(in alloc; "_RIC1aC{len}")?;
    for _ in 0..len {
        symbol.push_str("x")?;
    }
    for _ in 0..count {
        push_reference(&mut symbol, 4, 0)?;
    }
    symbol.push_str(end)?;
    Ok(symbol)
}

/// Returns a generic path whose tuple refers to itself, with zeros before the digits.
fn self_reference(alloc: Global, zeros: usize) -> Result<String, AllocError> {
    let mut symbol = String::new(alloc);
    symbol.push_str("_RIC1aTu")?;
    push_reference(&mut symbol, 4, zeros)?;
    symbol.push_str("EE")?;
    Ok(symbol)
}

/// Returns the text of a list of arguments, each of which prints the same.
fn arguments(alloc: Global, path: &str, each: &str, count: usize) -> Result<String, AllocError> {
    let mut text = format!(in alloc; "{path}::<{each}")?;
    for _ in 1..count {
        text.push_str(", ")?;
        text.push_str(each)?;
    }
    text.push_str(">")?;
    Ok(text)
}

/// Asserts what a call writes into memory, and that it leaves the rest of the memory.
pub(super) fn assert_filters_to(rt: &impl Abort, text: &[u8], format: Format, wanted: &[u8]) {
    let mut memory = [7; ROOM];
    let len = demangle_slice_formatted(text, &mut memory, format);
    assert_eq!(rt; len, Some(wanted.len()), "of {text:?}");
    assert_eq!(rt; memory.get(..wanted.len()), Some(wanted), "of {text:?}");
    assert!(rt;
        memory.iter().skip(wanted.len()).all(|byte| *byte == 7),
        "the rest of the memory of {text:?}"
    );
}

/// Asserts what a filter writes for a text.
fn assert_filter_writes(
    rt: &impl Abort,
    alloc: Global,
    text: &str,
    format: Format,
    wanted: &[u8],
) -> Result<(), Fail> {
    let parts = [text.as_bytes()];
    let mut input = ChunkReader::new(&parts, usize::MAX, ErrorKind::Other);
    let mut output = Vec::new(alloc);
    let result = demangle_bytes_formatted(alloc, &mut input, &mut output, format);
    assert!(rt; result.is_ok(), "of {text}");
    assert_eq!(rt; output.as_slice(), wanted, "of {text}");
    Ok(())
}

/// Asserts that a call writes into memory what another call puts into a sink.
fn assert_filters_alike(rt: &impl Abort, alloc: Global, text: &str) -> Result<(), Fail> {
    for limit in [0, 5, 767, 768, 1_000_000] {
        for include_hash in [true, false] {
            for &format in &[
                Format::unfolded(include_hash, limit),
                Format::folded(include_hash, limit),
            ] {
                let mut printed = Vec::new(alloc);
                let mut sink = WriteSink::new(&mut printed);
                assert!(rt; demangle_text_formatted(text, &mut sink, format).is_ok());
                assert!(rt; sink.into_fault().is_none());
                let kept = printed.as_slice().get(..ROOM).unwrap_or(printed.as_slice());
                let mut memory = [7; ROOM];
                let len = demangle_slice_formatted(text.as_bytes(), &mut memory, format);
                assert_eq!(rt; len, Some(printed.len()), "of {text} with {limit}");
                assert_eq!(rt;
                    memory.get(..kept.len()),
                    Some(kept),
                    "of {text} with {limit}"
                );
                assert!(rt;
                    memory.iter().skip(kept.len()).all(|byte| *byte == 7),
                    "after {text}"
                );
            }
        }
    }
    Ok(())
}

#[test]
fn runs_of_each_kind(rt: HostRuntime) -> Result<(), Fail> {
    for &(run, plain, folded) in &[
        ("_RNvC3foo3bar", "foo::bar", "foo::bar"),
        ("_RNvC3foo3bar.llvm.123", "foo::bar", "foo::bar"),
        ("_RNvC3foo3bar.cold", "foo::bar.cold", "foo::bar.cold"),
        ("_RNvC3foo3barx", "_RNvC3foo3barx", "_RNvC3foo3barx"),
        ("_RNvC3foo", "_RNvC3foo", "_RNvC3foo"),
        ("_RNvC3foo3bar$x", "_RNvC3foo3bar$x", "_RNvC3foo3bar$x"),
        ("_RINvC1a1bKj3_KB8_E", "a::b::<3usize, 3usize>", "a::b::<_>"),
        ("_RINvC1a1bRL_hE", "a::b::<&u8>", "a::b::<_>"),
        ("_RINvC1a1bB9_E", "_RINvC1a1bB9_E", "_RINvC1a1bB9_E"),
        (
            "_RNvNtCs1234_7mycrate3foo3barNtB2_3foo",
            "mycrate[3c1c0]::foo::bar",
            "mycrate[3c1c0]::foo::bar",
        ),
        ("_RYFGZZ_", "_RYFGZZ_", "_RYFGZZ_"),
        (
            "_RIC1aFG8_EuE",
            "a::<for<'a, 'b, 'c, 'd, 'e, 'f, 'g, 'h, 'i, 'j> fn()>",
            "a::<_>",
        ),
        (
            "_RNqCs4fqI2P2rA04_11utf8_identsu30____7hkackfecea1cbdathfdh9hlq6y",
            "utf8_idents[317d481089b8c8fe]::საჭმელად_გემრიელი_სადილი",
            "utf8_idents[317d481089b8c8fe]::საჭმელად_გემრიელი_სადილი",
        ),
        (
            "_RNqCs4fqI2P2rA04_11utf8_identsu30____7hkackfecea1cbdathfdh9hlq6",
            "_RNqCs4fqI2P2rA04_11utf8_identsu30____7hkackfecea1cbdathfdh9hlq6",
            "_RNqCs4fqI2P2rA04_11utf8_identsu30____7hkackfecea1cbdathfdh9hlq6",
        ),
        ("_RNvC4u32a3foo", "u32a::foo", "u32a::foo"),
        ("_RUBY", "_RUBY", "_RUBY"),
        ("_R", "_R", "_R"),
    ] {
        assert_filters_to(
            &rt,
            run.as_bytes(),
            Format::unfolded(true, 1_000_000),
            plain.as_bytes(),
        );
        assert_filters_to(
            &rt,
            run.as_bytes(),
            Format::folded(true, 1_000_000),
            folded.as_bytes(),
        );
        assert_filters_alike(&rt, rt.alloc(), run)?;
    }
    Ok(())
}

/// Runs with their texts, plain and folded. A filter prints all but the last first, which has fewer
/// than 20 bytes.
const LONG_RUNS: [(&str, &str, &str); 21] = [
    (
        "_RNvNtCs1234abcd_7mycrate3foo3bar",
        "mycrate[34f0b3031b3]::foo::bar",
        "mycrate[34f0b3031b3]::foo::bar",
    ),
    (
        "_RNvNtCs1234abcd_7mycrate3foo3bar.cold",
        "mycrate[34f0b3031b3]::foo::bar.cold",
        "mycrate[34f0b3031b3]::foo::bar.cold",
    ),
    (
        "_RNvNtCs1234abcd_7mycrate3foo3bar.llvm.123",
        "mycrate[34f0b3031b3]::foo::bar",
        "mycrate[34f0b3031b3]::foo::bar",
    ),
    (
        "_RNvNtCs1234abcd_7mycrate3foo3bar.llvm.12a",
        "mycrate[34f0b3031b3]::foo::bar.llvm.12a",
        "mycrate[34f0b3031b3]::foo::bar.llvm.12a",
    ),
    (
        "_RNvNtCs1234abcd_7mycrate3foo3barNtB2_3foo",
        "mycrate[34f0b3031b3]::foo::bar",
        "mycrate[34f0b3031b3]::foo::bar",
    ),
    (
        "_RNvNtCs1234abcd_7mycrate3foo3barCs99_5other",
        "mycrate[34f0b3031b3]::foo::bar",
        "mycrate[34f0b3031b3]::foo::bar",
    ),
    (
        "_RNvMs_NtCs1234abcd_7mycrate3fooNtB4_3Bar3baz",
        "<mycrate[34f0b3031b3]::foo::Bar>::baz",
        "<mycrate[34f0b3031b3]::foo::Bar>::baz",
    ),
    (
        "_RNvXs_NtCs1234abcd_7mycrate3fooNtB4_3BarNtB4_5Trait3baz",
        "<mycrate[34f0b3031b3]::foo::Bar as mycrate[34f0b3031b3]::foo::Trait>::baz",
        "<mycrate[34f0b3031b3]::foo::Bar as mycrate[34f0b3031b3]::foo::Trait>::baz",
    ),
    (
        "_RINvNtCs1234abcd_7mycrate3foo3barKc41_Kb1_Kan5_E",
        "mycrate[34f0b3031b3]::foo::bar::<'A', true, -5i8>",
        "mycrate[34f0b3031b3]::foo::bar::<_>",
    ),
    (
        "_RINvNtCs1234abcd_7mycrate3foo3barDNtB4_5Traitp4ItemhEL_E",
        "mycrate[34f0b3031b3]::foo::bar::<dyn mycrate[34f0b3031b3]::Trait<Item = u8>>",
        "mycrate[34f0b3031b3]::foo::bar::<_>",
    ),
    (
        "_RINvNtCs1234abcd_7mycrate3foo3barDG_INtB4_5TraitRL0_hEEL_E",
        "mycrate[34f0b3031b3]::foo::bar::<dyn for<'a> mycrate[34f0b3031b3]::Trait<&'a u8>>",
        "mycrate[34f0b3031b3]::foo::bar::<_>",
    ),
    (
        "_RINvNtCs1234abcd_7mycrate3foo3barRL_hE",
        "mycrate[34f0b3031b3]::foo::bar::<&u8>",
        "mycrate[34f0b3031b3]::foo::bar::<_>",
    ),
    (
        "_RINvNtCs1234abcd_7mycrate3foo3barKRe616263_E",
        "mycrate[34f0b3031b3]::foo::bar::<\"abc\">",
        "mycrate[34f0b3031b3]::foo::bar::<_>",
    ),
    (
        "_RNCNvNtCs1234abcd_7mycrate3foo3bars_0",
        "mycrate[34f0b3031b3]::foo::bar::{closure#1}",
        "mycrate[34f0b3031b3]::foo::bar::{closure#1}",
    ),
    (
        "_RINvNtCs1234abcd_7mycrate3foo3barB99_E",
        "_RINvNtCs1234abcd_7mycrate3foo3barB99_E",
        "_RINvNtCs1234abcd_7mycrate3foo3barB99_E",
    ),
    (
        "_RNvNtCs1234abcd_7mycrate3foo3barx",
        "_RNvNtCs1234abcd_7mycrate3foo3barx",
        "_RNvNtCs1234abcd_7mycrate3foo3barx",
    ),
    (
        "_RNvNtCs1234abcd_7mycrate3foo3bar$x",
        "_RNvNtCs1234abcd_7mycrate3foo3bar$x",
        "_RNvNtCs1234abcd_7mycrate3foo3bar$x",
    ),
    (
        "_RNvNtNtCs1234abcd_7mycrate3foo3bar",
        "_RNvNtNtCs1234abcd_7mycrate3foo3bar",
        "_RNvNtNtCs1234abcd_7mycrate3foo3bar",
    ),
    (
        "_RNvNtCs1234abc_7mycrate3foo3bar",
        "mycrate[da97884f0]::foo::bar",
        "mycrate[da97884f0]::foo::bar",
    ),
    ("_RNvC4fooo9mycratesa", "fooo::mycratesa", "fooo::mycratesa"),
    ("_RNvC3foo9mycratesa", "foo::mycratesa", "foo::mycratesa"),
];

#[test]
fn runs_that_may_be_printed_first(rt: HostRuntime) -> Result<(), Fail> {
    let alloc = rt.alloc();
    for (run, plain, folded) in LONG_RUNS {
        for &(format, wanted) in &[
            (Format::unfolded(true, 1_000_000), plain),
            (Format::folded(true, 1_000_000), folded),
        ] {
            assert_filters_to(&rt, run.as_bytes(), format, wanted.as_bytes());
            assert_filter_writes(&rt, alloc, run, format, wanted.as_bytes())?;
        }
        assert_filters_alike(&rt, alloc, run)?;
    }
    Ok(())
}

#[test]
fn a_chain_of_references_takes_all_numbers_of_steps(rt: HostRuntime) -> Result<(), Fail> {
    let alloc = rt.alloc();
    let format = Format::unfolded(true, 1_000_000);
    for count in 0..60usize {
        let symbol = chain(alloc, count, "E")?;
        let text = arguments(alloc, "a::b", "()", count.saturating_add(1))?;
        assert_filters_to(&rt, symbol.as_bytes(), format, text.as_bytes());
        assert_filter_writes(&rt, alloc, symbol.as_str(), format, text.as_bytes())?;
        let damaged = chain(alloc, count, "")?;
        assert_filters_to(&rt, damaged.as_bytes(), format, damaged.as_bytes());
        assert_filter_writes(&rt, alloc, damaged.as_str(), format, damaged.as_bytes())?;
    }
    for count in [0usize, 4, 8, 16, 32, 40, 44, 48, 59] {
        assert_filters_alike(&rt, alloc, chain(alloc, count, "E")?.as_str())?;
        assert_filters_alike(&rt, alloc, chain(alloc, count, "")?.as_str())?;
    }
    Ok(())
}

/// Asserts that references to a name of this length print it, and that the same run without its end
/// is not a symbol.
fn assert_filters_names(
    rt: &impl Abort,
    alloc: Global,
    len: usize,
    count: usize,
) -> Result<(), Fail> {
    let format = Format::unfolded(false, 1_000_000);
    let mut name = String::new(alloc);
    for _ in 0..len {
        name.push_str("x")?;
    }
    let text = arguments(alloc, "a", name.as_str(), count.saturating_add(1))?;
    let symbol = names(alloc, len, count, "E")?;
    assert_filters_to(rt, symbol.as_bytes(), format, text.as_bytes());
    assert_filter_writes(rt, alloc, symbol.as_str(), format, text.as_bytes())?;
    let damaged = names(alloc, len, count, "")?;
    assert_filters_to(rt, damaged.as_bytes(), format, damaged.as_bytes());
    assert_filter_writes(rt, alloc, damaged.as_str(), format, damaged.as_bytes())
}

/// Returns a tuple of a name of some length and three references to it, as the type of an impl.
fn tuple_of_names(alloc: Global, len: usize, end: &str) -> Result<String, AllocError> {
    let mut symbol = format!(in alloc; "_RMC1aTC{len}")?;
    for _ in 0..len {
        symbol.push_str("x")?;
    }
    for _ in 0..3usize {
        push_reference(&mut symbol, 5, 0)?;
    }
    symbol.push_str(end)?;
    Ok(symbol)
}

#[test]
fn folded_texts_have_all_lengths_about_the_longest(rt: HostRuntime) -> Result<(), Fail> {
    let alloc = rt.alloc();
    let format = Format::folded(false, 1_000_000);
    // A path with four names and 10 other bytes may have 1,600 bytes.
    for len in 391..404usize {
        let mut name = String::new(alloc);
        for _ in 0..len {
            name.push_str("x")?;
        }
        let mut text = String::new(alloc);
        text.push_str("<(")?;
        for _ in 0..3usize {
            text.push_str(name.as_str())?;
            text.push_str(", ")?;
        }
        text.push_str(name.as_str())?;
        text.push_str(")>")?;
        let symbol = tuple_of_names(alloc, len, "E")?;
        assert_filters_to(&rt, symbol.as_bytes(), format, text.as_bytes());
        assert_filter_writes(&rt, alloc, symbol.as_str(), format, text.as_bytes())?;
        let damaged = tuple_of_names(alloc, len, "")?;
        assert_filters_to(&rt, damaged.as_bytes(), format, damaged.as_bytes());
        assert_filter_writes(&rt, alloc, damaged.as_str(), format, damaged.as_bytes())?;
    }
    Ok(())
}

#[test]
fn runs_have_all_lengths_about_the_longest(rt: HostRuntime) -> Result<(), Fail> {
    // A run with one name and 14 other bytes may have 384 bytes.
    for len in 364..376usize {
        assert_filters_names(&rt, rt.alloc(), len, 1)?;
    }
    Ok(())
}

#[test]
fn texts_have_all_lengths_about_four_times_the_run(rt: HostRuntime) -> Result<(), Fail> {
    for count in 2..=9usize {
        for len in 10..40usize {
            assert_filters_names(&rt, rt.alloc(), len, count)?;
        }
    }
    Ok(())
}

#[test]
fn a_run_that_was_printed_in_vain_leaves_no_text(rt: HostRuntime) -> Result<(), Fail> {
    let alloc = rt.alloc();
    let format = Format::unfolded(true, 1_000_000);
    // The text of such a run would be longer than the run.
    let damaged = names(alloc, 20, 8, "")?;
    assert_filters_to(&rt, damaged.as_bytes(), format, damaged.as_bytes());
    let mut text = String::new(alloc);
    let mut wanted = String::new(alloc);
    for count in 0..40usize {
        let run = if count % 11 == 0 {
            damaged.as_str()
        } else {
            "_RNvC3foo3bar"
        };
        text.push_str(run)?;
        text.push_str(" ")?;
        wanted.push_str(if count % 11 == 0 { run } else { "foo::bar" })?;
        wanted.push_str(" ")?;
    }
    assert_filters_to(&rt, text.as_bytes(), format, wanted.as_bytes());
    assert_filters_alike(&rt, alloc, text.as_str())
}

#[test]
fn a_tuple_refers_to_itself(rt: HostRuntime) -> Result<(), Fail> {
    let alloc = rt.alloc();
    for zeros in [0usize, 3, 40, 150, 300, 359, 371, 380, 1000] {
        let symbol = self_reference(alloc, zeros)?;
        let mut memory = [7; ROOM];
        let format = Format::unfolded(true, 1_000_000);
        let len = demangle_slice_formatted(symbol.as_bytes(), &mut memory, format);
        assert_eq!(rt; len, Some(1032), "with {zeros} zeros");
        assert_filters_alike(&rt, alloc, symbol.as_str())?;
    }
    Ok(())
}
