//! The demangler as a WebAssembly module for web pages. It exports the calls of the library for C
//! that a page needs, and four calls that find the symbols of a text. The paths of single symbols
//! have the limit of the bytes that are read again, too.
#![tactic(auto)]

ghost use Rattle.std.specs.Prelude.{◌≡◌, ◌+◌, ◌<◌, ◌≤◌, ◌↔◌, ℕ, true, false, drop, length, IsTrue};
ghost use Prim.Native.Nat.{min};
ghost use Rattle.std.specs.List.{prefix_len};
ghost use Rattle.rustc_demangle.specs.Cut.{size};
ghost use Rattle.demangle_value.specs.Filtered.{is_run_byte, starts_run};
ghost use Rattle.rustc_demangle.specs.Rewritten.{rewritten_in, stays, IsPlainLen};
ghost use Rattle.rustc_demangle.specs.declared.byte_before.ByteBefore.TheVariants.{Outside};
ghost use Rattle.rustc_demangle.specs.Slice.{overlay};
ghost use Rattle.demangle_c_string.specs.CString.{IsRustSymbol, path_in_text, c_string, texts};

#[cfg(test)]
mod tests;

use demangle_c_string::{
    MAX_SIZE, symbol_of, write_folded_path_in_text, write_folded_text, write_path_in_text,
    write_text,
};
use rustc_demangle::{plain_len, run_len, run_start, stays};

/// Returns `true` if the bytes are a Rust symbol, after a suffix of ThinLTO is removed.
///
/// A symbol may be legacy or v0 (Rust RFC 2603). The call prints nothing and does not allocate, so
/// a program that lists symbols can call it for each.
#[unsafe(no_mangle)]
pub extern "C" fn kodliwe_is_symbol(symbol: &[u8]) -> bool
    ensures { IsTrue result ↔ IsRustSymbol symbol.now }
{
    symbol_of(symbol).is_some()
}

/// Writes the path of a Rust symbol to memory, with a 0 after it. Returns the number of bytes of
/// the path and the 0.
///
/// The path is cut at `limit` bytes, and at 1,000,000 at most. It is also cut where the references of
/// the symbol would make a print read more than 384 bytes again for each of its own, or more than
/// 384,000,000. `{size limit reached}` and the symbol's suffix follow a cut path.
///
/// If the bytes are not a symbol, the call returns 0 and leaves the memory unchanged. Otherwise the
/// result does not depend on the size of the memory. The memory receives the path and its 0 if the
/// result is at most that size. If it is more, the memory receives as much of the path as fits
/// before a 0. No byte after the 0 is changed, and memory of size 0 stays unchanged. The call does
/// not allocate.
#[unsafe(no_mangle)]
pub extern "C" fn kodliwe_demangle_limited(
    symbol: &[u8],
    out: &mut [u8],
    include_hash: bool,
    limit: usize,
) -> usize
    ensures none { (IsRustSymbol symbol.now → ⊥) → (result ≡ 0) × (out.new ≡ out.old) }
    ensures size { IsRustSymbol symbol.now →
        result ≡ length (path_in_text symbol.now include_hash false (min limit MAX_SIZE)) + 1 }
    ensures text { IsRustSymbol symbol.now →
        let path = path_in_text symbol.now include_hash false (min limit MAX_SIZE) in
        out.new ≡ overlay out.old (c_string (length out.old) path) }
{
    write_path_in_text(symbol, out, include_hash, limit)
}

/// Writes a path as `kodliwe_demangle_limited` does, with `_` for each list of generic arguments.
///
/// So all instances of a generic function have one name. A legacy symbol prints completely, because
/// its arguments are parts of names.
#[unsafe(no_mangle)]
pub extern "C" fn kodliwe_demangle_folded(
    symbol: &[u8],
    out: &mut [u8],
    include_hash: bool,
    limit: usize,
) -> usize
    ensures none { (IsRustSymbol symbol.now → ⊥) → (result ≡ 0) × (out.new ≡ out.old) }
    ensures size { IsRustSymbol symbol.now →
        result ≡ length (path_in_text symbol.now include_hash true (min limit MAX_SIZE)) + 1 }
    ensures text { IsRustSymbol symbol.now →
        let path = path_in_text symbol.now include_hash true (min limit MAX_SIZE) in
        out.new ≡ overlay out.old (c_string (length out.old) path) }
{
    write_folded_path_in_text(symbol, out, include_hash, limit)
}

/// Writes bytes to memory with each Rust symbol replaced by its path, and a 0 after them. Returns
/// the number of bytes of that text and the 0.
///
/// A candidate symbol starts at `_ZN` or `_R`. It ends before the next byte that is not an ASCII
/// letter, a digit, `$`, `.` or `_`. It stays if it begins with `_RC`. A path also replaces a single
/// `_` before its symbol, if that `_` is the first byte or follows a byte that no symbol may have.
/// All other bytes stay unchanged.
///
/// Each path is cut at `limit` bytes, and at 1,000,000 at most. If `limit` is `usize::MAX`, none is
/// given: then a symbol of n bytes is cut at 999 n - 20 bytes, and at 1,000,000 at most. So the text
/// has at most 1,000 bytes for each of its own. A path is also cut where the references of its
/// symbol would make a print read more than 384 bytes again for each of its own, or more than
/// 384,000,000. The marker `{size limit reached}` and the suffix follow a cut path.
///
/// The result does not depend on the size of the memory. The memory receives as much of the text as
/// fits before a 0, and no byte after the 0 is changed. The result is `usize::MAX` if the number is
/// not smaller than that. The contents of the memory are then unspecified. The call does not
/// allocate.
#[unsafe(no_mangle)]
pub extern "C" fn kodliwe_demangle_text(
    text: &[u8],
    out: &mut [u8],
    include_hash: bool,
    limit: usize,
) -> usize
    ensures size { let rewritten = rewritten_in (texts include_hash false limit) text.now in
        length rewritten < usize.MAX → result ≡ length rewritten + 1 }
    ensures text { let rewritten = rewritten_in (texts include_hash false limit) text.now in
        length rewritten < usize.MAX →
        out.new ≡ overlay out.old (c_string (length out.old) rewritten) }
    ensures past { usize.MAX ≤ length (rewritten_in (texts include_hash false limit) text.now) →
        result ≡ usize.MAX }
{
    write_text(text, out, include_hash, limit)
}

/// Writes a text as `kodliwe_demangle_text` does, with `_` for each list of generic arguments.
#[unsafe(no_mangle)]
pub extern "C" fn kodliwe_demangle_text_folded(
    text: &[u8],
    out: &mut [u8],
    include_hash: bool,
    limit: usize,
) -> usize
    ensures size { let rewritten = rewritten_in (texts include_hash true limit) text.now in
        length rewritten < usize.MAX → result ≡ length rewritten + 1 }
    ensures text { let rewritten = rewritten_in (texts include_hash true limit) text.now in
        length rewritten < usize.MAX →
        out.new ≡ overlay out.old (c_string (length out.old) rewritten) }
    ensures past { usize.MAX ≤ length (rewritten_in (texts include_hash true limit) text.now) →
        result ≡ usize.MAX }
{
    write_folded_text(text, out, include_hash, limit)
}

/// Returns the index of the next `_ZN` or `_R` in a text, or the size of the text if it has
/// neither.
#[unsafe(no_mangle)]
pub extern "C" fn kodliwe_run_start(text: &[u8]) -> usize
    ensures within { result ≤ length text.now }
    ensures before { (k : ℕ) → k < result → starts_run (drop k text.now) ≡ false }
    ensures at { result < length text.now → starts_run (drop result text.now) ≡ true }
{
    match run_start(text) {
        Some(start) => start,
        None => text.len(),
    }
}

/// Returns the number of bytes at the start of a text that a symbol may contain. These are ASCII
/// letters and digits, `$`, `.` and `_`.
#[unsafe(no_mangle)]
pub extern "C" fn kodliwe_run_len(text: &[u8]) -> usize
    ensures { result ≡ prefix_len is_run_byte text.now }
{
    run_len(text)
}

/// Returns the length of the plain text before a run, without a single `_` at its end, which the
/// path of the run replaces too.
///
/// The plain text starts where the whole text does, or after the run before it.
#[unsafe(no_mangle)]
pub extern "C" fn kodliwe_plain_len(plain: &[u8]) -> usize
    ensures { IsPlainLen Outside plain.now result }
{
    plain_len(plain)
}

/// Returns `true` if a candidate stays because its run begins with `_RC`. A candidate is a run, or a
/// run with the single `_` before it.
#[unsafe(no_mangle)]
pub extern "C" fn kodliwe_stays(candidate: &[u8]) -> bool
    ensures { result ≡ stays candidate.now }
{
    stays(candidate)
}
