//! Writes the path of a symbol as a C string to the caller's memory. The calls for C and those for
//! web pages share this code.
#![tactic(auto)]

ghost use Rattle.std.specs.Prelude.{◌≡◌, ◌+◌, ◌<◌, ◌≤◌, ℕ, true, false, List, length, drop, OnSome, IfSome, IfNone};
ghost use Prim.Native.Nat.{min};
ghost use Rattle.std.specs.List.{concat};
ghost use Rattle.rustc_demangle.specs.Cut.{size};
ghost use Rattle.rustc_demangle.specs.LinearLooks.{LooksGrow, LooksLinear};
ghost use Rattle.rustc_demangle.specs.Rewritten.{rewritten_in};
ghost use Rattle.rustc_demangle.specs.Slice.{overlay};
ghost use Rattle.demangle_value.specs.Stripped.{stripped};
ghost use Rattle.demangle_value.specs.Symbols.{handed_in};
ghost use Rattle.demangle_c_string.specs.CString.{IsRustSymbol, path_in, path_in_text, path_within, capped, c_string, text_in, text_limit, texts};

use rustc_demangle::sink::SliceSink;
use rustc_demangle::{
    Demangle, Form, Format, RunLooks, SizeLimit, demangle_slice_counted, try_demangle,
};
use std::str;

/// The most bytes that are printed for a symbol, without the marker and the suffix.
pub const MAX_SIZE: usize = 1_000_000;

/// Returns the bytes as text, or `None` if they are not UTF-8. In that case they are not a symbol.
#[tactic(auto, using(demangle_value::proofs::SymbolLaws::symbols_utf8))]
pub fn text_of(bytes: &[u8]) -> Option<&str>
    ensures text { IfSome result (λ text. text.now ≡ bytes.now) }
    ensures none { IfNone result (IsRustSymbol bytes.now → ⊥) }
{
    let Ok(text) = str::from_utf8(bytes) else {
        return None;
    };
    Some(text)
}

/// Returns the symbol that the bytes are, after a suffix of ThinLTO is removed, or `None` if they
/// are not a symbol. A symbol may be legacy or v0 (Rust RFC 2603).
pub fn symbol_of(bytes: &[u8]) -> Option<Demangle<'_>>
    ensures symbol { OnSome result (IsRustSymbol bytes.now) }
    ensures text { IfSome result (λ d. d ≡ stripped bytes.now) }
    ensures none { IfNone result (IsRustSymbol bytes.now → ⊥) }
{
    try_demangle(text_of(bytes)?).ok()
}

/// Returns the format with a limit of at most `MAX_SIZE` bytes.
fn capped(format: Format) -> Format
    ensures { result ≡ capped format }
{
    let limit = match format.limit {
        SizeLimit::Bytes(limit) => SizeLimit::Bytes(limit.min(MAX_SIZE)),
        SizeLimit::Linear => SizeLimit::Linear,
    };
    Format { limit, ..format }
}

/// Writes a path from its byte `start` to memory, as far as the memory reaches. Returns the number
/// of bytes of the whole path.
#[tactic(auto, using(crate::proofs::NulTerminator::laid_part))]
fn write_path(symbol: &Demangle<'_>, out: &mut [u8], format: Format, start: usize) -> usize
    requires { size (handed_in symbol.now format) ≤ usize.MAX }
    ensures len { result ≡ length (concat (handed_in symbol.now format)) }
    ensures bytes { out.new ≡ overlay out.old (drop start (concat (handed_in symbol.now format))) }
{
    let mut sink = SliceSink::starting_at(out, start);
    match symbol.write_formatted(&mut sink, format) {
        Ok(()) => sink.len(),
        Err(_) => unreachable!(),
    }
}

/// Writes a 0 after a text of this length at the start of the memory, or to the last byte if the
/// text fills the memory. Memory of size 0 stays unchanged.
pub fn put_nul(out: &mut [u8], len: usize)
    ensures { (memory text : List ℕ) → out.old ≡ overlay memory text → length text ≡ len →
        out.new ≡ overlay memory (c_string (length memory) text) }
{
    if !out.is_empty() {
        let end = len.min(out.len() - 1);
        out[end] = 0;
    }
}

/// Writes the path of a Rust symbol to memory, from the path's byte `start`, with a 0 after it.
/// Returns the number of bytes of the whole path and a 0.
///
/// The path is cut at `limit` bytes, and at `MAX_SIZE` at most. `{size limit reached}` and the
/// symbol's suffix follow a cut path. If the bytes are not a symbol, the call returns 0 and leaves
/// the memory unchanged. Otherwise the memory receives as much of the path from `start` as fits
/// before a 0, and no byte after the 0 is changed. The call does not allocate.
pub fn write_part(
    symbol: &[u8],
    out: &mut [u8],
    include_hash: bool,
    limit: usize,
    start: usize,
) -> usize
    ensures none { (IsRustSymbol symbol.now → ⊥) → (result ≡ 0) × (out.new ≡ out.old) }
    ensures size { IsRustSymbol symbol.now →
        result ≡ length (path_within symbol.now include_hash (min limit MAX_SIZE)) + 1 }
    ensures text { IsRustSymbol symbol.now →
        let path = path_within symbol.now include_hash (min limit MAX_SIZE) in
        out.new ≡ overlay out.old (c_string (length out.old) (drop start path)) }
{
    let format = Format::unfolded(include_hash, limit);
    write_part_formatted(symbol, out, format, start)
}

/// Writes a path as `write_part` does, in a format, and returns the same number. A limit of the
/// format above `MAX_SIZE` counts as `MAX_SIZE`.
pub fn write_part_formatted(symbol: &[u8], out: &mut [u8], format: Format, start: usize) -> usize
    ensures none { (IsRustSymbol symbol.now → ⊥) → (result ≡ 0) × (out.new ≡ out.old) }
    ensures size { IsRustSymbol symbol.now →
        result ≡ length (path_in symbol.now (capped format)) + 1 }
    ensures text { IsRustSymbol symbol.now →
        let path = path_in symbol.now (capped format) in
        out.new ≡ overlay out.old (c_string (length out.old) (drop start path)) }
{
    let Some(demangled) = symbol_of(symbol) else {
        return 0;
    };
    let len = write_path(&demangled, out, capped(format), start);
    put_nul(out, len.saturating_sub(start));
    len + 1
}

/// Writes the path of a symbol of a text to memory, with a 0 after it, and returns the number of
/// bytes of both, as `write_part` does. The path is also cut where the references of the symbol would
/// make a print read more than 384 bytes again for each of its own, or more than 384,000,000.
pub fn write_path_in_text(symbol: &[u8], out: &mut [u8], include_hash: bool, limit: usize) -> usize
    ensures none { (IsRustSymbol symbol.now → ⊥) → (result ≡ 0) × (out.new ≡ out.old) }
    ensures size { IsRustSymbol symbol.now →
        result ≡ length (path_in_text symbol.now include_hash false (min limit MAX_SIZE)) + 1 }
    ensures text { IsRustSymbol symbol.now →
        let path = path_in_text symbol.now include_hash false (min limit MAX_SIZE) in
        out.new ≡ overlay out.old (c_string (length out.old) path) }
{
    let form = Form {
        include_hash,
        fold_arguments: false,
    };
    let format = Format::bounded(form, SizeLimit::Bytes(limit));
    write_part_formatted(symbol, out, format, 0)
}

/// Writes a path as `write_path_in_text` does, with `_` for each list of generic arguments, and
/// returns the same number.
pub fn write_folded_path_in_text(
    symbol: &[u8],
    out: &mut [u8],
    include_hash: bool,
    limit: usize,
) -> usize
    ensures none { (IsRustSymbol symbol.now → ⊥) → (result ≡ 0) × (out.new ≡ out.old) }
    ensures size { IsRustSymbol symbol.now →
        result ≡ length (path_in_text symbol.now include_hash true (min limit MAX_SIZE)) + 1 }
    ensures text { IsRustSymbol symbol.now →
        let path = path_in_text symbol.now include_hash true (min limit MAX_SIZE) in
        out.new ≡ overlay out.old (c_string (length out.old) path) }
{
    let form = Form {
        include_hash,
        fold_arguments: true,
    };
    let format = Format::bounded(form, SizeLimit::Bytes(limit));
    write_part_formatted(symbol, out, format, 0)
}

/// Returns the limit of the paths of a text. `usize::MAX` says that the caller gives none, so the
/// limit is linear in the length of each symbol. Any other number is the limit, and `MAX_SIZE` at
/// most.
fn text_limit(limit: usize) -> SizeLimit
    ensures { result ≡ text_limit limit }
{
    if limit == usize::MAX {
        SizeLimit::Linear
    } else {
        SizeLimit::Bytes(limit.min(MAX_SIZE))
    }
}

/// Returns the format of a text, with the paths in a form. The bytes that are read again have the
/// limit that is linear in the length of each symbol.
fn text_format(form: Form, limit: usize) -> Format
    ensures { result ≡ text_in form limit }
{
    Format::bounded(form, text_limit(limit))
}

/// Writes a text as `write_text` does, with each path in a format, and returns the same number.
///
/// The looks are counted. With a linear limit of the bytes that are read again, the looks are at
/// most 23,586 for each byte of the text.
pub fn write_text_counted(
    text: &[u8],
    out: &mut [u8],
    format: Format,
    looks: &mut RunLooks,
) -> usize
    ensures size { let rewritten = rewritten_in format text.now in
        length rewritten < usize.MAX → result ≡ length rewritten + 1 }
    ensures text { let rewritten = rewritten_in format text.now in
        length rewritten < usize.MAX →
        out.new ≡ overlay out.old (c_string (length out.old) rewritten) }
    ensures past { usize.MAX ≤ length (rewritten_in format text.now) → result ≡ usize.MAX }
    ensures grows { LooksGrow looks.old looks.new }
    ensures linear { LooksLinear format (length text.now) looks.old looks.new }
{
    let Some(len) = demangle_slice_counted(text, out, format, looks) else {
        return usize::MAX;
    };
    put_nul(out, len);
    len.saturating_add(1)
}

/// Writes bytes to memory with each Rust symbol replaced by its path, and a 0 after them. Returns
/// the number of bytes of that text and the 0.
///
/// Each path is cut at `limit` bytes, and at `MAX_SIZE` at most. If `limit` is `usize::MAX`, none is
/// given: then a symbol of n bytes is cut at 999 n - 20 bytes, and at `MAX_SIZE` at most. A path is
/// also cut where the references of its symbol would make a print read more than 384 bytes again for
/// each of its own, or more than 384,000,000.
///
/// The result does not depend on the size of the memory. The memory receives as much of the text as
/// fits before a 0, and no byte after the 0 is changed. The result is `usize::MAX` if the number is
/// not smaller than that. The contents of the memory are then unspecified. The call does not
/// allocate.
pub fn write_text(text: &[u8], out: &mut [u8], include_hash: bool, limit: usize) -> usize
    ensures size { let rewritten = rewritten_in (texts include_hash false limit) text.now in
        length rewritten < usize.MAX → result ≡ length rewritten + 1 }
    ensures text { let rewritten = rewritten_in (texts include_hash false limit) text.now in
        length rewritten < usize.MAX →
        out.new ≡ overlay out.old (c_string (length out.old) rewritten) }
    ensures past { usize.MAX ≤ length (rewritten_in (texts include_hash false limit) text.now) →
        result ≡ usize.MAX }
{
    let form = Form {
        include_hash,
        fold_arguments: false,
    };
    write_text_counted(text, out, text_format(form, limit), &mut RunLooks::new())
}

/// Writes a text as `write_text` does, with `_` for each list of generic arguments, and returns the
/// same number.
pub fn write_folded_text(text: &[u8], out: &mut [u8], include_hash: bool, limit: usize) -> usize
    ensures size { let rewritten = rewritten_in (texts include_hash true limit) text.now in
        length rewritten < usize.MAX → result ≡ length rewritten + 1 }
    ensures text { let rewritten = rewritten_in (texts include_hash true limit) text.now in
        length rewritten < usize.MAX →
        out.new ≡ overlay out.old (c_string (length out.old) rewritten) }
    ensures past { usize.MAX ≤ length (rewritten_in (texts include_hash true limit) text.now) →
        result ≡ usize.MAX }
{
    let form = Form {
        include_hash,
        fold_arguments: true,
    };
    write_text_counted(text, out, text_format(form, limit), &mut RunLooks::new())
}
