//! Tests of texts that are filtered in a format: folded, and with a limit of the bytes that are read
//! again.
use super::repeats::repeated;
use super::slices::assert_filters_to;
use rustc_demangle::sink::ArraySink;
use rustc_demangle::{
    Form, Format, RereadLimit, SizeLimit, demangle_bytes, demangle_bytes_formatted,
    demangle_slice_formatted, demangle_text_formatted,
};
use std::alloc::{AllocError, Global};
use std::io::ErrorKind;
use std::process::Abort;
use std::test::Fail;
use test_doubles::streams::ChunkReader;

/// A text that repeats a symbol of at least 20 bytes, so that a memo keeps it.
const TEXT: &[u8] = b"a _RINvC3foo3barhE \xFF_RNvMC3fooINtB2_3BarlE3baz\n\
    _RNvMC3fooINtB2_3BarlE3baz _RNvMC3fooINtB2_3BarlE3baz _ZN3fooE _RINvC1a1bh";

/// The text with `_` for generic arguments.
const FOLDED_TEXT: &[u8] = b"a foo::bar::<_> \xFF<foo::Bar<_>>::baz\n\
    <foo::Bar<_>>::baz <foo::Bar<_>>::baz foo _RINvC1a1bh";

/// The text with generic arguments.
const UNFOLDED_TEXT: &[u8] = b"a foo::bar::<u8> \xFF<foo::Bar<i32>>::baz\n\
    <foo::Bar<i32>>::baz <foo::Bar<i32>>::baz foo _RINvC1a1bh";

/// Returns what the filter of bytes writes.
fn filtered(alloc: Global, text: &[u8], format: Format) -> Result<Vec<u8>, AllocError> {
    let mut input = text;
    let mut output = Vec::new(alloc);
    // A reader and a writer in memory fail only if an allocation fails.
    match demangle_bytes_formatted(alloc, &mut input, &mut output, format) {
        Ok(()) => Ok(output),
        Err(_) => Err(AllocError),
    }
}

#[test]
fn texts_are_written_in_a_format(rt: HostRuntime) -> Result<(), Fail> {
    let alloc = rt.alloc();
    for (fold_arguments, wanted) in [(true, FOLDED_TEXT), (false, UNFOLDED_TEXT)] {
        let form = Form {
            include_hash: false,
            fold_arguments,
        };
        let format = Format {
            form,
            limit: SizeLimit::Bytes(1_000_000),
            reread: RereadLimit::Unlimited,
        };
        let output = filtered(alloc, TEXT, format)?;
        assert_eq!(rt; output.as_slice(), wanted, "by the filter of bytes");
        assert_filters_to(&rt, TEXT, format, wanted);
    }
    Ok(())
}

#[test]
fn a_text_is_folded_into_a_sink(rt: HostRuntime) {
    let format = Format::folded(false, 10);
    let mut sink: ArraySink<256> = ArraySink::new();
    let result = demangle_text_formatted("x _RINvC3foo3barhE y", &mut sink, format);
    assert!(rt; result.is_ok());
    assert_eq!(rt; sink.as_str(), "x foo::bar::{size limit reached} y");
}

/// A run, a limit, and the folded texts under it, with the hash and without it.
type Row = (&'static [u8], usize, &'static [u8], &'static [u8]);

/// Runs that the filter looks up in its memo.
const RUNS: [Row; 18] = [
    // A lifetime in a list names none. The second path is not printed at all.
    (
        b"_RINvC5crate7genericRL1_uE",
        1_000_000,
        b"crate::generic::<_>",
        b"crate::generic::<_>",
    ),
    (
        b"_RINvC5crate7generichEINvC5other7genericRL1_hE",
        1_000_000,
        b"crate::generic::<_>",
        b"crate::generic::<_>",
    ),
    (
        b"_RMC5crateDINtC5other5traitRL1_hEp4ItemhEL_",
        1_000_000,
        b"<dyn other::trait<_, Item = u8>>",
        b"<dyn other::trait<_, Item = u8>>",
    ),
    // A reference in a list has a bad target.
    (
        b"_RINvC5crate7genericBa_E",
        1_000_000,
        b"crate::generic::<_>",
        b"crate::generic::<_>",
    ),
    // A reference has a list in its target.
    (
        b"_RMC5crateTINtC5other4typehEB8_E",
        1_000_000,
        b"<(other::type<_>, other::type<_>)>",
        b"<(other::type<_>, other::type<_>)>",
    ),
    // A lifetime outside a list names none.
    (
        b"_RNvMC5crateRL1_INtC5other4typehE4main",
        1_000_000,
        b"<&'{invalid syntax} ?>::?",
        b"<&'{invalid syntax} ?>::?",
    ),
    (
        b"_RNvMNtCs8a2262Dv4r_3mio4pollINtB2_4PollKj3_E4poll",
        1_000_000,
        b"<mio[1888792e1a78739]::poll::Poll<_>>::poll",
        b"<mio::poll::Poll<_>>::poll",
    ),
    // A second path or a suffix follows.
    (
        b"_RINvC5crate7generichEC5other",
        1_000_000,
        b"crate::generic::<_>",
        b"crate::generic::<_>",
    ),
    (
        b"_RINvC5crate7generichE.cold",
        1_000_000,
        b"crate::generic::<_>.cold",
        b"crate::generic::<_>.cold",
    ),
    (
        b"_RINvC5crate7generichE.llvm.1F",
        1_000_000,
        b"crate::generic::<_>",
        b"crate::generic::<_>",
    ),
    (
        b"_RINvC5crate7genericRL1_hEC5other.cold.llvm.1F",
        1_000_000,
        b"crate::generic::<_>.cold",
        b"crate::generic::<_>.cold",
    ),
    // These are not symbols: a list, a second path or a suffix has an error.
    (
        b"_RINvC5crate7genericRE",
        1_000_000,
        b"_RINvC5crate7genericRE",
        b"_RINvC5crate7genericRE",
    ),
    (
        b"_RINvC5crate7generichENvC5other",
        1_000_000,
        b"_RINvC5crate7generichENvC5other",
        b"_RINvC5crate7generichENvC5other",
    ),
    (
        b"_RINvC5crate7generichEINvC5otherRE",
        1_000_000,
        b"_RINvC5crate7generichEINvC5otherRE",
        b"_RINvC5crate7generichEINvC5otherRE",
    ),
    (
        b"_RINvC5crate7generichE_not_allowed",
        1_000_000,
        b"_RINvC5crate7generichE_not_allowed",
        b"_RINvC5crate7generichE_not_allowed",
    ),
    // The limit cuts the folded list, keeps all of it, or keeps nothing.
    (
        b"_RINvC5crate7generichE.cold",
        18,
        b"crate::generic::<_{size limit reached}.cold",
        b"crate::generic::<_{size limit reached}.cold",
    ),
    (
        b"_RINvC5crate7generichE.cold",
        19,
        b"crate::generic::<_>.cold",
        b"crate::generic::<_>.cold",
    ),
    (
        b"_RINvC5crate7generichE.cold",
        0,
        b"{size limit reached}.cold",
        b"{size limit reached}.cold",
    ),
];

#[test]
fn a_repeated_run_is_folded_alike(rt: HostRuntime) -> Result<(), Fail> {
    let alloc = rt.alloc();
    for (run, limit, plain, alt) in RUNS {
        for (include_hash, text) in [(true, plain), (false, alt)] {
            let format = Format::folded(include_hash, limit);
            let output = filtered(alloc, repeated(alloc, run)?.as_slice(), format)?;
            let wanted = repeated(alloc, text)?;
            assert_eq!(rt; output.as_slice(), wanted.as_slice(), "of {run:?}");
        }
    }
    Ok(())
}

#[test]
fn a_deep_list_is_folded(rt: HostRuntime) -> Result<(), Fail> {
    let alloc = rt.alloc();
    let format = Format::folded(false, 1_000_000);
    // More tuples than the first stack has frames.
    for depth in [1, 40, 60, 400] {
        let open = "T".repeat(alloc, depth)?;
        let close = "E".repeat(alloc, depth + 1)?;
        let run = format!(in alloc; "_RINvC5crate7generic{open}h{close}")?;
        let output = filtered(alloc, repeated(alloc, run.as_bytes())?.as_slice(), format)?;
        let wanted = repeated(alloc, b"crate::generic::<_>")?;
        assert_eq!(rt; output.as_slice(), wanted.as_slice(), "at depth {depth}");
    }
    Ok(())
}

/// A text with three runs, each a symbol with two references. Each uses at most 24 bytes at once.
const REFERENCES: &[u8] =
    b"x _RINvC1a1bNtB2_1cNtB2_1dE y _RINvC1a1bNtB2_1cNtB2_1dE _RINvC1a1bNtB2_1cNtB2_1dE";

/// The text with the whole paths.
const WHOLE: &[u8] = b"x a::b::<a::c, a::d> y a::b::<a::c, a::d> a::b::<a::c, a::d>";

/// A limit of the bytes that are read again, and what a filter writes for this text.
const LIMITED: [(RereadLimit, &[u8]); 4] = [
    (
        RereadLimit::Bytes(23),
        b"x a::b::<a::c, {size limit reached} y a::b::<a::c, {size limit reached} a::b::<a::c, {size limit reached}",
    ),
    (RereadLimit::Bytes(24), WHOLE),
    (RereadLimit::Linear, WHOLE),
    (RereadLimit::Unlimited, WHOLE),
];

#[test]
fn filters_limit_the_bytes_that_are_read_again(rt: HostRuntime) -> Result<(), Fail> {
    let alloc = rt.alloc();
    for (reread, wanted) in LIMITED {
        let format = Format {
            reread,
            ..Format::unfolded(false, 1_000_000)
        };
        let output = filtered(alloc, REFERENCES, format)?;
        assert_eq!(rt; output.as_slice(), wanted, "by the filter of bytes");
        assert_filters_to(&rt, REFERENCES, format, wanted);
    }
    Ok(())
}

/// Returns what the calls without a limit write: the filter of bytes.
fn unlimited(alloc: Global, text: &[u8]) -> Result<Vec<u8>, AllocError> {
    let mut input = text;
    let mut output = Vec::new(alloc);
    // A reader and a writer in memory fail only if an allocation fails.
    match demangle_bytes(alloc, &mut input, &mut output, false) {
        Ok(()) => Ok(output),
        Err(_) => Err(AllocError),
    }
}

#[test]
fn a_path_is_linear_in_its_symbol_without_a_limit(rt: HostRuntime) -> Result<(), Fail> {
    let alloc = rt.alloc();
    // A symbol of 16 bytes, whose path has over 60,000.
    let symbol = b"_RMC0FG15FTGf_Eu";
    let format = Format::unfolded(false, 999 * 16 - 20);
    let cut = filtered(alloc, symbol, format)?;
    assert!(rt; cut.len() < 1_000 * 16);
    assert!(rt; cut.as_slice().ends_with(b"{size limit reached}"));
    let output = unlimited(alloc, symbol)?;
    assert_eq!(rt; output.as_slice(), cut.as_slice());
    let lines = repeated(alloc, symbol)?;
    let output = unlimited(alloc, lines.as_slice())?;
    let wanted = repeated(alloc, cut.as_slice())?;
    assert_eq!(rt; output.as_slice(), wanted.as_slice(), "in lines");
    Ok(())
}

/// Returns a path of 188 bytes that prints nothing: empty names in one another.
fn empty_names(alloc: Global) -> Result<String, AllocError> {
    let open = "Nt".repeat(alloc, 62)?;
    let close = "0".repeat(alloc, 62)?;
    format!(in alloc; "{open}C0{close}")
}

/// Returns a path of 188 bytes that prints nothing: a crate with a long number.
fn empty_crate(alloc: Global) -> Result<String, AllocError> {
    let number = "0".repeat(alloc, 184)?;
    format!(in alloc; "Cs{number}_0")
}

/// Returns a symbol of 353 bytes whose references may use 384 x 353. It has a path of 188 bytes that
/// prints nothing. The test `each_byte_of_a_symbol_allows_384` of `demangle_vectors` has the
/// arithmetic.
fn tuples(alloc: Global, path: &str) -> Result<String, AllocError> {
    let inner = "B4_".repeat(alloc, 30)?;
    let outer = "B3_".repeat(alloc, 22)?;
    format!(in alloc; "_RMC0TT{path}{inner}E{outer}E")
}

/// Returns the path of that symbol up to the limit, with so many commas in the last tuple.
fn cut_tuples(alloc: Global, commas: usize) -> Result<String, AllocError> {
    let whole = ", ".repeat(alloc, 30)?;
    let whole = format!(in alloc; "({whole}), ")?;
    let whole = whole.repeat(alloc, 22)?;
    let last = ", ".repeat(alloc, commas)?;
    format!(in alloc; "<({whole}({last}{{size limit reached}}")
}

/// Asserts that a text filters to another one in a format: in memory, and from a reader with chunks
/// of several sizes, where a memo finds the symbols again.
fn assert_filters_repeatedly(
    rt: &impl Abort,
    alloc: Global,
    text: &str,
    format: Format,
    wanted: &str,
) -> Result<(), Fail> {
    let mut memory = [0; 8_192];
    let len = demangle_slice_formatted(text.as_bytes(), &mut memory, format);
    assert_eq!(rt; len, Some(wanted.len()));
    assert_eq!(rt; memory.get(..wanted.len()), Some(wanted.as_bytes()));
    let lines = repeated(alloc, text.as_bytes())?;
    let wanted_lines = repeated(alloc, wanted.as_bytes())?;
    for size in [64, 100_000] {
        let parts: Vec<&[u8]> = lines.as_slice().chunks(size).collect(alloc)?;
        let mut input = ChunkReader::new(parts.as_slice(), usize::MAX, ErrorKind::Other);
        let mut output = Vec::new(alloc);
        demangle_bytes_formatted(alloc, &mut input, &mut output, format).map_err(
            |fault| fault.into_io(),
        )?;
        assert!(rt; output.as_slice() == wanted_lines.as_slice(), "by {size}");
    }
    Ok(())
}

#[test]
fn each_run_of_a_text_has_a_limit_of_its_own(rt: HostRuntime) -> Result<(), Fail> {
    let alloc = rt.alloc();
    let path = cut_tuples(alloc, 28)?;
    // A single `_` before a run is a byte of the symbol. A suffix of ThinLTO is none.
    let longer_path = cut_tuples(alloc, 30)?;
    let wanted_one = format!(in alloc; "x {path}")?;
    let wanted_three = format!(in alloc; "x {path} {longer_path} {path} y")?;
    for (inner, limit, fold_arguments) in [
        (empty_names(alloc)?, SizeLimit::Bytes(1_000_000), false),
        (empty_crate(alloc)?, SizeLimit::Linear, true),
    ] {
        let symbol = tuples(alloc, inner.as_str())?;
        let one = format!(in alloc; "x {symbol}.llvm.1234")?;
        let three = format!(in alloc; "x {symbol} _{symbol} {symbol}.llvm.1234 y")?;
        let form = Form {
            include_hash: false,
            fold_arguments,
        };
        let format = Format {
            form,
            limit,
            reread: RereadLimit::Linear,
        };
        for (text, wanted) in [(&one, &wanted_one), (&three, &wanted_three)] {
            let (text, wanted) = (text.as_str(), wanted.as_str());
            assert_filters_repeatedly(&rt, alloc, text, format, wanted)?;
        }
    }
    Ok(())
}

#[test]
fn each_run_of_a_line_has_a_limit_of_its_own(rt: HostRuntime) -> Result<(), Fail> {
    let alloc = rt.alloc();
    let names = empty_names(alloc)?;
    let symbol = tuples(alloc, names.as_str())?;
    let path = cut_tuples(alloc, 28)?;
    let text = format!(in alloc; "x {symbol} _{symbol} {symbol}.llvm.1234 y")?;
    // A `_` before a run is no byte of the symbol here.
    let wanted = format!(in alloc; "x {path} _{path} {path} y")?;
    let format = Format {
        reread: RereadLimit::Linear,
        ..Format::unfolded(false, 1_000_000)
    };
    let mut sink: ArraySink<8_192> = ArraySink::new();
    assert!(rt; demangle_text_formatted(text.as_str(), &mut sink, format).is_ok());
    assert_eq!(rt; sink.as_str(), wanted.as_str());
    Ok(())
}
