//! The demangler as a static library for C, C++ and every language that calls C. Its header is
//! include/kodliwe.h.
#![tactic(auto)]

ghost use Rattle.std.specs.Prelude.{◌≡◌, ◌+◌, ◌<◌, ◌≤◌, ◌↔◌, true, false, length, take, drop, codes, IsTrue};
ghost use Prim.Native.Nat.{min};
ghost use Rattle.std.specs.List.{concat};
ghost use Rattle.rustc_demangle.specs.Cut.{size};
ghost use Rattle.rustc_demangle.specs.Rewritten.{rewritten_in};
ghost use Rattle.demangle_value.specs.PathEnds.{path_len_of, handed_with_path_len};
ghost use Rattle.rustc_demangle.specs.Slice.{overlay};
ghost use Rattle.demangle_value.specs.Stripped.{stripped};
ghost use Rattle.demangle_value.specs.Symbols.{folded};
ghost use Rattle.demangle_c_string.specs.CString.{IsRustSymbol, path_in, printed_path, path_within, c_string, texts};

#[cfg(test)]
mod tests;
mod version;

use crate::version::VERSION;
use demangle_c_string::{
    MAX_SIZE, put_nul, symbol_of, text_of, write_folded_text, write_part, write_part_formatted,
    write_text,
};
use rustc_demangle::sink::{SliceSink, TextSink};
use rustc_demangle::{Format, write_with_path_len};

/// Writes a path from its byte `start` to memory, as far as the memory reaches. The path has
/// `path_len` bytes in the text. Returns the number of bytes of the whole printed path.
#[tactic(auto, using(demangle_c_string::proofs::NulTerminator::laid_part))]
fn write_path_with(
    text: &str,
    path_len: usize,
    out: &mut [u8],
    include_hash: bool,
    limit: usize,
    start: usize,
) -> usize
    requires { size (handed_with_path_len (stripped text.now) path_len include_hash limit) ≤ usize.MAX }
    ensures len { result ≡
        length (concat (handed_with_path_len (stripped text.now) path_len include_hash limit)) }
    ensures bytes { out.new ≡ overlay out.old
        (drop start (concat (handed_with_path_len (stripped text.now) path_len include_hash limit))) }
{
    let mut path = SliceSink::starting_at(out, start);
    match write_with_path_len(text, path_len, &mut path, include_hash, limit) {
        Ok(()) => path.len(),
        Err(_) => unreachable!(),
    }
}

/// Returns `true` if the bytes are a Rust symbol, after a suffix of ThinLTO is removed.
///
/// A symbol may be legacy or v0 (Rust RFC 2603). The call prints nothing and does not allocate, so
/// a program that lists symbols can call it for each.
#[unsafe(no_mangle)]
pub extern "C" fn kodliwe_is_symbol(symbol: &[u8]) -> bool
    ensures { IsTrue result ↔ IsRustSymbol symbol.now }
{
    symbol_of(symbol).is_some()
}

/// Returns the number of bytes of a Rust symbol before a suffix that ThinLTO appended. Without such
/// a suffix, that is the length of the symbol. Returns 0 if the bytes are not a symbol.
///
/// The call prints nothing and does not allocate.
#[unsafe(no_mangle)]
#[tactic(auto, using(crate::proofs::Stripped::stripped_take))]
pub extern "C" fn kodliwe_symbol_len(symbol: &[u8]) -> usize
    ensures none { (IsRustSymbol symbol.now → ⊥) → result ≡ 0 }
    ensures len { IsRustSymbol symbol.now → result ≡ length (stripped symbol.now) }
    ensures prefix { IsRustSymbol symbol.now → take result symbol.now ≡ stripped symbol.now }
{
    match symbol_of(symbol) {
        Some(demangled) => demangled.as_str().len(),
        None => 0,
    }
}

/// Returns the number of bytes of a Rust symbol before its suffix and before a suffix that ThinLTO
/// appended. Returns 0 if the bytes are not a symbol.
///
/// `kodliwe_print_part` needs this number. The call prints nothing and does not allocate.
#[unsafe(no_mangle)]
#[tactic(auto, using(demangle_value::proofs::PathEndLaws::path_len_positive))]
pub extern "C" fn kodliwe_path_len(symbol: &[u8]) -> usize
    ensures none { (IsRustSymbol symbol.now → ⊥) → result ≡ 0 }
    ensures len { IsRustSymbol symbol.now → result ≡ path_len_of (stripped symbol.now) }
    ensures some { IsRustSymbol symbol.now → 0 < result }
{
    if let Some(demangled) = symbol_of(symbol) {
        demangled.path_len()
    } else {
        0
    }
}

/// Writes the path of a Rust symbol to memory, from the path's byte `start`, with a 0 after it.
/// Returns the number of bytes of the whole path and a 0.
///
/// The path is cut at `limit` bytes, and at 1,000,000 at most. `{size limit reached}` and the
/// symbol's suffix follow a cut path.
///
/// If the bytes are not a symbol, the call returns 0 and leaves the memory unchanged. Otherwise the
/// result depends neither on the size of the memory nor on `start`. The memory receives the path
/// from `start` and a 0, if they fit. If they do not, it receives as much as fits before a 0. That
/// rest of the path is empty if `start` is at or after the path's end. No byte after the 0 is
/// changed, and memory of size 0 stays unchanged.
///
/// The call does not allocate. So a caller can print any path in parts through its own buffer.
#[unsafe(no_mangle)]
pub extern "C" fn kodliwe_demangle_part(
    symbol: &[u8],
    out: &mut [u8],
    include_hash: bool,
    limit: usize,
    start: usize,
) -> usize
    ensures none { (IsRustSymbol symbol.now → ⊥) → (result ≡ 0) × (out.new ≡ out.old) }
    ensures size { IsRustSymbol symbol.now →
        result ≡ length (path_within symbol.now include_hash (min limit MAX_SIZE)) + 1 }
    ensures text { IsRustSymbol symbol.now →
        let path = path_within symbol.now include_hash (min limit MAX_SIZE) in
        out.new ≡ overlay out.old (c_string (length out.old) (drop start path)) }
{
    write_part(symbol, out, include_hash, limit, start)
}

/// Writes a path as `kodliwe_demangle_part` does, and returns the same number, without searching
/// again for the end of the path. `path_len` is the nonzero result of `kodliwe_path_len` for these
/// bytes.
///
/// Other bytes or another number do no harm. The call then ends, changes no byte after the memory,
/// and returns at most the size of the limit, the marker, the symbol and the 0. The contents of the
/// memory are then unspecified. The call does not allocate.
#[unsafe(no_mangle)]
pub extern "C" fn kodliwe_print_part(
    symbol: &[u8],
    path_len: usize,
    out: &mut [u8],
    include_hash: bool,
    limit: usize,
    start: usize,
) -> usize
    ensures size { IsRustSymbol symbol.now → path_len ≡ path_len_of (stripped symbol.now) →
        result ≡ length (path_within symbol.now include_hash (min limit MAX_SIZE)) + 1 }
    ensures text { IsRustSymbol symbol.now → path_len ≡ path_len_of (stripped symbol.now) →
        let path = path_within symbol.now include_hash (min limit MAX_SIZE) in
        out.new ≡ overlay out.old (c_string (length out.old) (drop start path)) }
    ensures most { result ≤ min limit MAX_SIZE + 21 + length symbol.now }
{
    let Some(text) = text_of(symbol) else {
        return 0;
    };
    let limit = limit.min(MAX_SIZE);
    let wanted = write_path_with(text, path_len, out, include_hash, limit, start);
    put_nul(out, wanted.saturating_sub(start));
    wanted + 1
}

/// Writes a path as `kodliwe_demangle_part` does, from its first byte.
#[unsafe(no_mangle)]
pub extern "C" fn kodliwe_demangle_limited(
    symbol: &[u8],
    out: &mut [u8],
    include_hash: bool,
    limit: usize,
) -> usize
    ensures none { (IsRustSymbol symbol.now → ⊥) → (result ≡ 0) × (out.new ≡ out.old) }
    ensures size { IsRustSymbol symbol.now →
        result ≡ length (path_within symbol.now include_hash (min limit MAX_SIZE)) + 1 }
    ensures text { IsRustSymbol symbol.now →
        let path = path_within symbol.now include_hash (min limit MAX_SIZE) in
        out.new ≡ overlay out.old (c_string (length out.old) path) }
{
    kodliwe_demangle_part(symbol, out, include_hash, limit, 0)
}

/// Writes a path as `kodliwe_demangle_limited` does, cut at 1,000,000 bytes.
#[unsafe(no_mangle)]
pub extern "C" fn kodliwe_demangle(symbol: &[u8], out: &mut [u8], include_hash: bool) -> usize
    ensures none { (IsRustSymbol symbol.now → ⊥) → (result ≡ 0) × (out.new ≡ out.old) }
    ensures size { IsRustSymbol symbol.now → result ≡ length (printed_path symbol.now include_hash) + 1 }
    ensures text { IsRustSymbol symbol.now →
        out.new ≡ overlay out.old (c_string (length out.old) (printed_path symbol.now include_hash)) }
{
    kodliwe_demangle_limited(symbol, out, include_hash, MAX_SIZE)
}

/// Writes a path as `kodliwe_demangle_limited` does, with `_` for each list of generic arguments.
///
/// So all instances of a generic function have one name. A legacy symbol prints completely, because
/// its arguments are parts of names.
#[unsafe(no_mangle)]
pub extern "C" fn kodliwe_demangle_folded(
    symbol: &[u8],
    out: &mut [u8],
    include_hash: bool,
    limit: usize,
) -> usize
    ensures none { (IsRustSymbol symbol.now → ⊥) → (result ≡ 0) × (out.new ≡ out.old) }
    ensures size { IsRustSymbol symbol.now →
        result ≡ length (path_in symbol.now (folded include_hash (min limit MAX_SIZE))) + 1 }
    ensures text { IsRustSymbol symbol.now →
        let path = path_in symbol.now (folded include_hash (min limit MAX_SIZE)) in
        out.new ≡ overlay out.old (c_string (length out.old) path) }
{
    let format = Format::folded(include_hash, limit);
    write_part_formatted(symbol, out, format, 0)
}

/// Writes a text as `kodliwe_demangle_text` does, with `_` for each list of generic arguments.
#[unsafe(no_mangle)]
pub extern "C" fn kodliwe_demangle_text_folded(
    text: &[u8],
    out: &mut [u8],
    include_hash: bool,
    limit: usize,
) -> usize
    ensures size { let rewritten = rewritten_in (texts include_hash true limit) text.now in
        length rewritten < usize.MAX → result ≡ length rewritten + 1 }
    ensures text { let rewritten = rewritten_in (texts include_hash true limit) text.now in
        length rewritten < usize.MAX →
        out.new ≡ overlay out.old (c_string (length out.old) rewritten) }
    ensures past { usize.MAX ≤ length (rewritten_in (texts include_hash true limit) text.now) →
        result ≡ usize.MAX }
{
    write_folded_text(text, out, include_hash, limit)
}

/// Writes bytes to memory with each Rust symbol replaced by its path, and a 0 after them. Returns
/// the number of bytes of that text and the 0.
///
/// A candidate symbol starts at `_ZN` or `_R`. It ends before the next byte that is not an ASCII
/// letter, a digit, `$`, `.` or `_`. It stays if it begins with `_RC`. A path also replaces a single
/// `_` before its symbol, if that `_` is the first byte or follows a byte that no symbol may have.
/// All other bytes stay unchanged.
///
/// Each path is cut at `limit` bytes, and at 1,000,000 at most. If `limit` is `usize::MAX`, none is
/// given: then a symbol of n bytes is cut at 999 n - 20 bytes, and at 1,000,000 at most. So the text
/// has at most 1,000 bytes for each of its own. A path is also cut where the references of its
/// symbol would make a print read more than 384 bytes again for each of its own, or more than
/// 384,000,000. The marker `{size limit reached}` and the suffix follow a cut path.
///
/// The result does not depend on the size of the memory. The memory receives as much of the text as
/// fits before a 0, and no byte after the 0 is changed. The result is `usize::MAX` if the number is
/// not smaller than that. The contents of the memory are then unspecified. The call does not
/// allocate.
#[unsafe(no_mangle)]
pub extern "C" fn kodliwe_demangle_text(
    text: &[u8],
    out: &mut [u8],
    include_hash: bool,
    limit: usize,
) -> usize
    ensures size { let rewritten = rewritten_in (texts include_hash false limit) text.now in
        length rewritten < usize.MAX → result ≡ length rewritten + 1 }
    ensures text { let rewritten = rewritten_in (texts include_hash false limit) text.now in
        length rewritten < usize.MAX →
        out.new ≡ overlay out.old (c_string (length out.old) rewritten) }
    ensures past { usize.MAX ≤ length (rewritten_in (texts include_hash false limit) text.now) →
        result ≡ usize.MAX }
{
    write_text(text, out, include_hash, limit)
}

/// Writes a text to memory, as far as the memory reaches.
#[tactic(auto, using(demangle_c_string::proofs::NulTerminator::laid_part))]
fn write_all(text: &str, out: &mut [u8])
    ensures { out.new ≡ overlay out.old text.now }
{
    let mut sink = SliceSink::new(out);
    let Ok(()) = sink.put(text) else {
        unreachable!()
    };
}

/// Writes a text to memory, with a 0 after it, or as much of it as fits before a 0.
fn write_c_string(text: &str, out: &mut [u8])
    ensures { out.new ≡ overlay out.old (c_string (length out.old) text.now) }
{
    write_all(text, out);
    put_nul(out, text.len());
}

/// Writes the name and the version of the library to memory, and whether it is proved, with a 0
/// after them. Returns the number of bytes of that text and the 0.
///
/// The result does not depend on the size of the memory. The memory receives as much of the text as
/// fits before a 0, and no byte after the 0 is changed. The call does not allocate.
#[unsafe(no_mangle)]
pub extern "C" fn kodliwe_version(out: &mut [u8]) -> usize
    ensures size { result ≡ length (codes "kodliwe 0.1.0, proved with Rattle") + 1 }
    ensures text { out.new ≡
        overlay out.old (c_string (length out.old) (codes "kodliwe 0.1.0, proved with Rattle")) }
{
    write_c_string(VERSION, out);
    VERSION.len() + 1
}
