//! Finds the runs of a text. A run is a candidate symbol.
ghost use Rattle.std.specs.Prelude.{◌≡◌, ◌∷◌, ℕ, List, ◌+◌, ◌<◌, ◌≤◌, ◌-◌, ◌==◌, true, false, length, take, drop, codes, IsTrue, IfSome, IfNone};
ghost use Rattle.std.specs.List.{prefix_len, list_all};
ghost use Rattle.demangle_value.specs.Filtered.{is_run_byte, starts_run};
ghost use Rattle.demangle_v0_grammar.specs.Table.{is_among};
ghost use Rattle.demangle_value.specs.declared.format.Format.{Format};
ghost use Rattle.rustc_demangle.specs.Rewritten.{stays, replacement_of};

use memchr::memchr;
use std::str;

/// Returns whether the text starts with a run's prefix.
pub(crate) fn starts_run(text: &[u8]) -> bool
    ensures { result ≡ starts_run text.now }
{
    text.starts_with(b"_ZN") || text.starts_with(b"_R")
}

/// Returns whether these two bytes may start a run.
#[inline(always)]
fn may_start_run(first: u8, second: u8) -> bool
    ensures { result ≡ false → (more : List ℕ) → starts_run (first ∷ second ∷ more) ≡ false }
{
    (first == b'_') & ((second == b'R') | (second == b'Z'))
}

/// Returns whether a run may start in the group of bytes at `from`.
#[inline(always)]
fn group_may_start_run<const N: usize>(text: &[u8], from: usize) -> bool
    requires { from + N < length text.now }
    ensures { result ≡ false → (k : ℕ) → from ≤ k → k < from + N →
        starts_run (drop k text.now) ≡ false }
{
    // Arrays need no bounds check in the loop, so the compiler vectorizes it.
    let Some(firsts) = text[from..].first_chunk::<N>() else {
        return true;
    };
    let Some(seconds) = text[from + 1..].first_chunk::<N>() else {
        return true;
    };
    let mut any = false;
    for k in 0..N {
        any |= may_start_run(firsts[k], seconds[k]);
    }
    any
}

/// Returns the end of the complete groups after `from` in which no run starts.
#[inline(always)]
fn skip_groups<const N: usize>(text: &[u8], from: usize) -> usize
    requires size { 0 < N }
    requires within { from ≤ length text.now }
    ensures forward { from ≤ result }
    ensures within { result ≤ length text.now }
    ensures none { (k : ℕ) → from ≤ k → k < result → starts_run (drop k text.now) ≡ false }
{
    let mut at = from;
    while text.len() - at > N && !group_may_start_run::<N>(text, at) {
        at += N;
    }
    at
}

/// Returns the offset of the next run: the first `_ZN` or `_R`. Returns `None` if the text contains
/// neither.
pub fn run_start(text: &[u8]) -> Option<usize>
    ensures some { IfSome result (λ n. (n < length text.now) × (starts_run (drop n text.now) ≡ true)
        × ((k : ℕ) → k < n → starts_run (drop k text.now) ≡ false)) }
    ensures none { IfNone result
        ((k : ℕ) → k < length text.now → starts_run (drop k text.now) ≡ false) }
{
    let mut from = 0;
    // A run starts with `_`, and a search for a single byte is fast.
    while let Some(offset) = memchr(b'_', &text[from..]) {
        let at = from + offset;
        if starts_run(&text[at..]) {
            return Some(at);
        }
        // A text with many `_` is skipped in complete groups with vector instructions, and not one
        // `_` at a time.
        from = skip_groups::<32>(text, at + 1);
    }
    None
}

/// Returns whether this is a run byte.
#[inline(always)]
pub(crate) fn is_run_byte(byte: u8) -> bool
    ensures { result ≡ is_run_byte byte }
{
    (byte == b'$') | (byte == b'.') | (byte == b'_') | byte.is_ascii_alphanumeric()
}

/// Returns 0 for a run byte, and another number for any other byte.
// Vector instructions have the minimum, and the subtraction that stops at 0. They have no comparison
// of a byte with a range.
#[inline(always)]
fn run_byte_distance(byte: u8) -> u8
    ensures { (result == 0) ≡ is_run_byte byte }
{
    // A letter differs from the other case in one bit, and a digit from `0` in the lowest four.
    let letter = (byte | 0x20).wrapping_sub(b'a').saturating_sub(25);
    let digit = (byte ^ b'0').saturating_sub(9);
    if (byte == b'_') | (byte == b'.') | (byte == b'$') {
        0
    } else {
        letter.min(digit)
    }
}

/// Returns how many run bytes a group of 16 bytes begins with.
#[inline(always)]
fn run_bytes_of(group: &[u8; 16]) -> usize
    ensures within { result ≤ 16 }
    ensures value { result ≡ prefix_len is_run_byte group.now }
{
    // The compiler vectorizes the loop. The distance of the first byte is the lowest byte of the
    // word. So eight trailing zeros are one run byte.
    let mut distances = [0; 16];
    for k in 0..16 {
        distances[k] = run_byte_distance(group[k]);
    }
    let word = u128::from_le_bytes(distances);
    if word == 0 {
        16
    } else {
        (word.trailing_zeros() / 8) as usize
    }
}

/// Returns the length of the run at the start of a text of at least 16 bytes, given its last group.
#[inline(always)]
fn run_len_by_groups(text: &[u8], last: &[u8; 16]) -> usize
    requires long { 16 ≤ length text.now }
    requires last { last.now ≡ drop (length text.now - 16) text.now }
    ensures { result ≡ prefix_len is_run_byte text.now }
{
    let mut at = 0;
    while let Some(group) = text[at..].first_chunk::<16>() {
        let count = run_bytes_of(group);
        if count < 16 {
            return at + count;
        }
        at += 16;
    }
    // Fewer than 16 bytes remain, so the last group begins among the run bytes before them.
    text.len() - 16 + run_bytes_of(last)
}

/// Returns the length of the run at the start of a text of 8 to 16 bytes, given its ends.
#[inline(always)]
fn run_len_by_ends(text: &[u8], first: &[u8; 8], last: &[u8; 8]) -> usize
    requires size { (8 ≤ length text.now) × (length text.now ≤ 16) }
    requires first { first.now ≡ take 8 text.now }
    requires last { last.now ≡ drop (length text.now - 8) text.now }
    ensures { result ≡ prefix_len is_run_byte text.now }
{
    // Both ends are one group. Bytes in the middle may be in it twice.
    let mut group = [0; 16];
    group[..8].copy_from_slice(first);
    group[8..].copy_from_slice(last);
    let count = run_bytes_of(&group);
    if count < 8 {
        count
    } else {
        text.len() - 8 + (count - 8)
    }
}

/// Returns the length of the run at the start of the text. It ends before the first byte that is
/// not an ASCII letter, a digit, `$`, `.` or `_`.
pub fn run_len(text: &[u8]) -> usize
    ensures { result ≡ prefix_len is_run_byte text.now }
{
    if let Some(last) = text.last_chunk::<16>() {
        return run_len_by_groups(text, last);
    }
    if let (Some(first), Some(last)) = (text.first_chunk::<8>(), text.last_chunk::<8>()) {
        return run_len_by_ends(text, first, last);
    }
    let mut at = 0;
    while at < text.len() && is_run_byte(text[at]) {
        at += 1;
    }
    at
}

/// Returns whether a filter of bytes keeps this candidate because its run begins with `_RC`. A
/// candidate is a run, or a run with the single `_` before it.
///
/// A symbol that begins so is a crate alone. Compilers make none, and names such as `v1.0_RC0` are
/// spelled so.
#[inline(always)]
pub fn stays(candidate: &[u8]) -> bool
    ensures { result ≡ stays candidate.now }
{
    candidate.starts_with(b"_RC") || candidate.starts_with(b"__RC")
}

/// Returns whether this byte is the tag of a path of the v0 scheme that is more than a crate.
#[inline(always)]
fn begins_longer_path(tag: u8) -> bool
    ensures { result ≡ is_among tag (codes "NMXYIB") }
{
    matches!(tag, b'N' | b'M' | b'X' | b'Y' | b'I' | b'B')
}

/// Returns whether a filter of bytes may replace this candidate. Returns `false` if its run begins
/// with `_RC`, or with `_R` and a byte that is no tag of a path, as in `config_Release`.
#[inline(always)]
pub(crate) fn may_be_replaced(candidate: &[u8]) -> bool
    ensures kept { result ≡ false → (format : Format) →
        replacement_of format candidate.now ≡ candidate.now }
    ensures read { IsTrue result → stays candidate.now ≡ false }
{
    if candidate.len() < 3 {
        return true;
    }
    // Most symbols begin with `_RN` or `_ZN`.
    if candidate[2] == b'N' {
        return true;
    }
    if candidate[1] == b'R' {
        return begins_longer_path(candidate[2]);
    }
    if candidate.len() > 3 && ((candidate[1] == b'_') & (candidate[2] == b'R')) {
        return begins_longer_path(candidate[3]);
    }
    true
}

/// Returns the text of a run, which is ASCII.
pub(crate) fn run_text(run: &[u8]) -> &str
    requires { list_all is_run_byte run.now ≡ true }
    ensures { result.now ≡ run.now }
{
    // SAFETY: a run is ASCII.
    unsafe { str::from_utf8_unchecked(run) }
}
