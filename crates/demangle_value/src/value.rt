//! A demangled symbol, and how it is read.
ghost use Rattle.std.specs.Prelude.{◌≡◌, ◌+◌, ◌-◌, ◌*◌, ◌≤◌, length, true, false, IsTrue, IsAscii, IfSome, IfNone, None};
ghost use Rattle.std.specs.List.{list_all};
ghost use Rattle.demangle_legacy.specs.Legacy.{legacy_of};
ghost use Rattle.demangle_sink.specs.Limit.{PrintsUpTo, Ready, unused};
ghost use Rattle.demangle_value.specs.Filtered.{is_run_byte};
ghost use Rattle.demangle_value.specs.PathEnds.{path_len_of};
ghost use Rattle.demangle_value.specs.Shape.{limited};
ghost use Rattle.demangle_value.specs.Stripped.{is_allowed, is_graphic, stripped};
ghost use Rattle.demangle_value.specs.Style.{style_texts, is_style_all, style_len, style_looks, style_looks_again, style_least, IsReadAs, HasNoStyle, HasStyle};
ghost use Rattle.demangle_value.specs.Symbols.{IsSymbol};
ghost use Rattle.demangle_v0_grammar.specs.V0.{v0_of};

pub mod printing;

use crate::format::TextFormat;
use crate::strip::without_thin_lto;
use demangle_sink::{SinkRefused, SizeLimitedFmtAdapter, TextSink};
use demangle_symbol::cursor::{Looks, Symbol};
use std::marker::Model;

/// The scheme of a symbol, and its parsed form.
#[derive(Drop)]
pub(crate) enum DemangleStyle<'a> {
    Legacy(demangle_legacy::Demangle<'a>),
    V0(demangle_v0::Demangle<'a>),
}

impl DemangleStyle<'_> {
    /// Prints the symbol without its suffix. The limit is that of the adapter. Fails if the sink or
    /// the limit rejects a piece.
    fn write_to<S: TextSink>(
        &self,
        out: &mut SizeLimitedFmtAdapter<'_, S>,
        format: TextFormat,
        looks: &mut Looks,
    ) -> Result<(), SinkRefused>
        requires ready { Ready S.TextSink out.old }
        requires same { out.old.reread ≡ unused format.reread }
        ensures prints { PrintsUpTo S.TextSink out.old (style_texts (limited format) self.now)
            (is_style_all (limited format) self.now) result out.new }
        ensures grows { looks.old ≤ looks.new }
        ensures most { looks.new ≤ looks.old
            + style_looks (limited format) out.old.remaining self.now }
        ensures again { looks.new ≤ looks.old + style_looks_again (limited format) self.now }
        ensures few { IfSome format.reread (λ k. looks.new ≤ looks.old
            + 20 * (style_len self.now + 1 + k)) }
        ensures least { looks.old + style_least self.now ≤ looks.new }
    {
        match self {
            DemangleStyle::Legacy(symbol) => symbol.write_to(out, format.form, looks),
            DemangleStyle::V0(symbol) => symbol.write_to(out, format.form, looks),
        }
    }
}

/// A text that is demangled if it is a Rust symbol. It prints the path that the symbol names. A
/// text that is not a symbol prints unchanged.
#[derive(Drop)]
pub struct Demangle<'a> {
    style: Option<DemangleStyle<'a>>,
    original: &'a str,
    suffix: &'a str,
}

impl<'a> Model for Demangle<'a> {
    ghost use Rattle.std.specs.Prelude.{ℕ, List};

    ghost Value = { List ℕ };

    ghost use Rattle.demangle_value.specs.Style.{IsStyled};

    ghost view = { λ d. d.original.now };

    ghost invariant = { λ d. IsStyled d.style d.original.now d.suffix.now };
}

impl<'a> Demangle<'a> {
    /// Returns the original symbol without the suffix that ThinLTO appends.
    pub fn as_str(&self) -> &'a str
        ensures { result.now ≡ self.now }
    {
        self.original
    }

    /// Returns the number of bytes before the symbol's suffix, or 0 if the text is not a symbol.
    ///
    /// `write_with_path_len` uses it to print the symbol without parsing the end of its path again.
    pub fn path_len(&self) -> usize
        ensures { result ≡ path_len_of self.now }
    {
        match &self.style {
            Some(_) => self.original.len() - self.suffix.len(),
            None => 0,
        }
    }
}

/// Returns whether a byte is a printable ASCII character other than a space.
fn is_graphic(byte: u8) -> bool
    ensures { result ≡ is_graphic byte }
{
    matches!(byte, 0x21..=0x7E)
}

/// Returns whether a suffix is allowed: empty, or `.` followed only by graphic characters. It makes
/// at most one look for each byte.
#[tactic(auto, using(crate::proofs::SuffixLemmas::suffix_steps))]
pub(crate) fn is_allowed(suffix: &str, looks: &mut Looks) -> bool
    ensures allowed { result ≡ is_allowed suffix.now }
    ensures grows { looks.old ≤ looks.new }
    ensures most { looks.new ≤ looks.old + length suffix.now }
{
    let symbol = Symbol::new(suffix);
    if symbol.len() == 0 {
        return true;
    }
    if !symbol.is_at(b'.', 0, looks) {
        return false;
    }
    for at in 1..symbol.len() {
        let Some(byte) = symbol.byte(at, looks) else {
            return false;
        };
        if !is_graphic(byte) {
            return false;
        }
    }
    true
}

/// Parses a text in one of the schemes, and returns the symbol and the rest of the text. Returns
/// `None` if neither scheme accepts it. `is_ascii` says that the text is known to be ASCII.
fn read_style<'a>(
    text: &'a str,
    is_ascii: bool,
    looks: &mut Looks,
) -> Option<(DemangleStyle<'a>, &'a str)>
    requires { IsTrue is_ascii → IsAscii text.now }
    ensures some { IfSome result (λ r. IsReadAs text.now r.0 r.1.now) }
    ensures inner { IfSome result (λ r. style_len r.0 ≤ length text.now) }
    ensures none { IfNone result ((legacy_of text.now ≡ None) × (v0_of text.now ≡ None)) }
    ensures grows { looks.old ≤ looks.new }
    ensures most { looks.new ≤ looks.old + 60 * (length text.now + 1) }
    ensures least { is_ascii ≡ false →
        IfSome result (λ _. looks.old + (length text.now - 4) ≤ looks.new) }
{
    // No text has a prefix of both schemes, so the order does not change what is printed. The
    // prefixes of v0 are recognized from fewer bytes.
    if let Ok((symbol, suffix)) = demangle_v0::demangle(text, is_ascii, looks) {
        return Some((DemangleStyle::V0(symbol), suffix));
    }
    match demangle_legacy::demangle(text, is_ascii, looks) {
        Ok((symbol, suffix)) => Some((DemangleStyle::Legacy(symbol), suffix)),
        Err(()) => None,
    }
}

impl<'a> Demangle<'a> {
    /// Returns a text that is not a symbol.
    pub(crate) fn without_style(text: &'a str) -> Demangle<'a>
        requires { HasNoStyle text.now }
        ensures { result ≡ text.now }
    {
        Demangle {
            style: None,
            original: text,
            suffix: "",
        }
    }

    /// Returns the symbol that a scheme parses a text to, or the text as it is if the suffix is not
    /// allowed.
    pub(crate) fn with_style(
        text: &'a str,
        style: DemangleStyle<'a>,
        suffix: &'a str,
        allowed: bool,
    ) -> Demangle<'a>
        requires read { IsReadAs text.now style suffix.now }
        requires inner { style_len style ≤ length text.now }
        requires allowed { allowed ≡ is_allowed suffix.now }
        ensures { result ≡ text.now }
    {
        if !allowed {
            return Demangle::without_style(text);
        }
        Demangle {
            style: Some(style),
            original: text,
            suffix,
        }
    }

    /// Parses a text as a symbol, and keeps it as it is if it is not one. `is_ascii` says that it
    /// is known to be ASCII.
    pub(crate) fn read(text: &'a str, is_ascii: bool, looks: &mut Looks) -> Demangle<'a>
        requires { IsTrue is_ascii → IsAscii text.now }
        ensures text { result ≡ text.now }
        ensures grows { looks.old ≤ looks.new }
        ensures most { looks.new ≤ looks.old + 61 * (length text.now + 1) }
        ensures least { is_ascii ≡ false → IsSymbol text.now →
            looks.old + (length text.now - 4) ≤ looks.new }
    {
        let Some((style, suffix)) = read_style(text, is_ascii, looks) else {
            return Demangle::without_style(text);
        };
        let allowed = is_allowed(suffix, looks);
        Demangle::with_style(text, style, suffix, allowed)
    }
}

// Free functions for the crate above, which does not export them. A method would be public there too.

/// Parses a run as a symbol, and counts its looks. Keeps it as it is if it is not one. A run is
/// ASCII.
pub fn read_run<'a>(run: &'a str, looks: &mut Looks) -> Demangle<'a>
    requires { list_all is_run_byte run.now ≡ true }
    ensures text { result ≡ stripped run.now }
    ensures grows { looks.old ≤ looks.new }
    ensures most { looks.new ≤ looks.old + 61 * (length run.now + 1) }
{
    Demangle::read(without_thin_lto(run), true, looks)
}

/// Returns whether a text is a symbol.
pub fn has_style(text: &Demangle<'_>) -> bool
    ensures yes { IsTrue result → IsSymbol text.now }
    ensures no { result ≡ false → IsSymbol text.now → ⊥ }
{
    text.style.is_some()
}
