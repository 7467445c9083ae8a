//! The texts of targets that a sink holds. A reference to such a target need not print it again.
ghost use Rattle.std.specs.Prelude.{◌≡◌, ◌≤◌, ◌<◌, true, false, Some, IfNone, IfSome};
ghost use Rattle.demangle_sink.specs.Limit.{Holds, Ready};
ghost use Rattle.demangle_sink.specs.Sink.{HasLength};
ghost use Rattle.demangle_v0.specs.Above.{IsNoted, PutsAgainTarget, RunsTarget, WasPrinted};
ghost use Rattle.demangle_v0.specs.HeldTexts.{kind_of, text_of, HoldsTexts, IsTextOf};
ghost use Rattle.demangle_v0_parser.specs.Parsers.{IsValid};
ghost use Rattle.demangle_v0_parser.specs.Targets.{is_target};

use demangle_sink::{HeldText, Reread, SizeLimitedFmtAdapter, TextSink};
use demangle_v0_parser::parse::Parser;
use demangle_v0_parser::targets::unit_of;
use demangle_v0_parser::{Continuation, State};

/// How many texts are remembered.
pub const MOST_TEXTS: usize = 32;

/// The greatest place that is stored.
const MOST_PLACE: usize = u32::MAX as usize;

/// The greatest count that is stored.
const MOST_COUNT: usize = u16::MAX as usize;

/// The text of a target, which the sink holds.
#[derive(Clone, Copy)]
pub struct TargetText {
    /// The number of lifetimes in scope.
    pub lifetimes: u128,
    /// The place of the target, and the place after it.
    pub place: usize,
    pub end: usize,
    pub text: HeldText,
    /// How many levels of depth are enough for the text.
    pub depth: u16,
    /// Whether the target is a path, a type or a constant.
    pub kind: u8,
    /// Whether it is in value position.
    pub in_value: bool,
}

/// The same as a `TargetText`, in 28 bytes.
#[derive(Clone, Copy)]
pub struct StoredText {
    pub place: u32,
    pub start: u32,
    pub len: u32,
    pub peak: u32,
    /// How many bytes the target has.
    pub size: u16,
    pub reread: u16,
    pub references: u16,
    pub depth: u16,
    pub lifetimes: u16,
    pub kind: u8,
    pub in_value: bool,
}

/// A target whose text is being printed: the parser, and the output before it.
#[derive(Clone, Copy)]
pub struct Note {
    pub continuation: Continuation,
    pub state: State,
    pub start: Option<usize>,
    pub reread: Reread,
}

/// Which frames a print is above, and what it does at the target of a reference.
#[derive(Clone, Copy)]
pub struct PrintScope<'t> {
    /// How many frames are below. The print ends when only these are left.
    pub base: usize,
    /// The texts that may be put again.
    pub texts: &'t [StoredText],
    /// Whether the print stops at a target whose text is not one of these, so that it is noted.
    pub notes: bool,
}

/// What is in an unused entry. No target has so many levels left.
pub const UNUSED_TEXT: StoredText = StoredText {
    place: 0,
    start: 0,
    len: 0,
    peak: 0,
    size: 0,
    reread: 0,
    references: 0,
    depth: u16::MAX,
    lifetimes: 0,
    kind: 0,
    in_value: false,
};

/// Returns the number that says whether a target is a path, a type or a constant.
#[inline(always)]
pub fn kind_of(continuation: Continuation) -> u8
    ensures { result ≡ kind_of continuation }
{
    match continuation {
        Continuation::TargetPath => 0,
        Continuation::TargetType => 1,
        _ => 2,
    }
}

/// Returns the entry for the target at a place.
#[inline(always)]
pub fn entry_of(place: usize) -> usize
    ensures { result < 32 }
{
    (place ^ (place >> 4)) % MOST_TEXTS
}

impl TargetText {
    /// Returns whether this is the text of the target that is next, and enough levels are left.
    #[inline(always)]
    pub fn is_of(&self, continuation: Continuation, state: &State) -> bool
        ensures { result ≡ true → IsTextOf self.now continuation state.now }
    {
        state.place == Some(self.place)
            && self.kind == kind_of(continuation)
            && self.lifetimes == state.lifetimes
            && self.in_value == state.in_value
            && self.depth <= state.depth_left
    }
}

impl StoredText {
    /// Returns the same as a text, or `None` if a number is too great.
    #[inline(always)]
    fn new(text: &TargetText) -> Option<Self>
        requires { text.now.place ≤ text.now.end }
        ensures { IfSome result (λ stored. text_of stored ≡ text.now) }
    {
        let size = text.end - text.place;
        let places_fit = text.place <= MOST_PLACE
            && text.text.start <= MOST_PLACE
            && text.text.len <= MOST_PLACE
            && text.text.peak <= MOST_PLACE;
        let counts_fit = size <= MOST_COUNT
            && text.text.reread <= MOST_COUNT
            && text.text.references <= MOST_COUNT
            && text.lifetimes <= MOST_COUNT as u128;
        if !places_fit || !counts_fit {
            return None;
        }
        Some(StoredText {
            place: text.place as u32,
            start: text.text.start as u32,
            len: text.text.len as u32,
            peak: text.text.peak as u32,
            size: size as u16,
            reread: text.text.reread as u16,
            references: text.text.references as u16,
            depth: text.depth,
            lifetimes: text.lifetimes as u16,
            kind: text.kind,
            in_value: text.in_value,
        })
    }

    /// Returns the text.
    #[inline(always)]
    fn text(&self) -> TargetText
        ensures { result ≡ text_of self.now }
    {
        TargetText {
            lifetimes: self.lifetimes as u128,
            place: self.place as usize,
            end: self.place as usize + self.size as usize,
            text: HeldText {
                start: self.start as usize,
                len: self.len as usize,
                reread: self.reread as usize,
                peak: self.peak as usize,
                references: self.references as usize,
            },
            depth: self.depth,
            kind: self.kind,
            in_value: self.in_value,
        }
    }
}

/// Puts the text of the target that is next again, if the sink holds it. Returns `false`, and
/// changes nothing, if it does not.
#[inline(always)]
fn put_target_again<S: TextSink>(
    parser: &mut Parser<'_, '_>,
    out: &mut SizeLimitedFmtAdapter<'_, S>,
    texts: &[StoredText],
) -> bool
    requires ready { Ready S.TextSink out.old }
    requires valid { IsValid parser.old }
    requires target { is_target parser.old.continuation ≡ true }
    requires held { HoldsTexts S.TextSink parser.old.source.symbol.now parser.old.source.form out.old texts.now }
    ensures ran { result ≡ true → PutsAgainTarget S.TextSink parser.old out.old parser.new out.new }
    ensures ready { Ready S.TextSink out.new }
    ensures same { result ≡ false → (parser.new ≡ parser.old) × (out.new ≡ out.old) }
{
    let Some(place) = parser.state.place else {
        return false;
    };
    let Some(stored) = texts.get(entry_of(place)) else {
        return false;
    };
    let held = stored.text();
    if !held.is_of(parser.continuation, &parser.state) || !out.put_again(held.text) {
        return false;
    }
    parser.state.place = Some(held.end);
    parser.state.is_bracket_open = false;
    true
}

/// Puts the text of the target that is next again, or continues with its production. Returns what
/// is next, or `None`, and changes nothing, if the text is to be noted.
// It is not inlined, so that the loop of printing stays small.
#[inline(never)]
pub fn run_target<S: TextSink>(
    parser: &mut Parser<'_, '_>,
    out: &mut SizeLimitedFmtAdapter<'_, S>,
    scope: PrintScope<'_>,
) -> Option<Continuation>
    requires ready { Ready S.TextSink out.old }
    requires valid { IsValid parser.old }
    requires target { is_target parser.old.continuation ≡ true }
    requires held { HoldsTexts S.TextSink parser.old.source.symbol.now parser.old.source.form out.old scope.texts.now }
    ensures ran { IfSome result (λ next. RunsTarget S.TextSink parser.old out.old next parser.new out.new) }
    ensures noted { IfNone result ((parser.new ≡ parser.old) × (out.new ≡ out.old) × (scope.entry.notes ≡ true)) }
    ensures ready { Ready S.TextSink out.new }
{
    if put_target_again(parser, out, scope.texts) {
        return Some(Continuation::End);
    }
    if scope.notes {
        return None;
    }
    Some(unit_of(parser.continuation))
}

/// Starts a note on the target that is next.
#[inline(always)]
pub fn start_note<S: TextSink>(parser: &Parser<'_, '_>, out: &SizeLimitedFmtAdapter<'_, S>) -> Note
    ensures target { (result.continuation ≡ parser.now.continuation) × (result.state ≡ parser.now.state) }
    ensures start { IfSome result.start (HasLength (S.held out.now.out.now)) }
    ensures laws { IfSome result.start (λ n. Holds S.TextSink) }
    ensures reread { result.reread ≡ out.now.reread }
{
    Note {
        continuation: parser.continuation,
        state: parser.state,
        start: out.held_len(),
        reread: out.reread(),
    }
}

/// Returns what a note says of its text, after the target was printed. Returns `None` if the sink
/// does not hold it, or a reference in it led to an error.
fn noted<S: TextSink>(
    parser: &Parser<'_, '_>,
    note: &Note,
    out: &SizeLimitedFmtAdapter<'_, S>,
) -> Option<TargetText>
    ensures { IfSome result (IsNoted S.TextSink parser.now.source.symbol.now note.now parser.now.state.place out.now) }
{
    let start = note.start?;
    let len = out.held_len()?.checked_sub(start)?;
    let place = note.state.place?;
    let end = parser.state.place?;
    let reread = out.reread();
    let used = reread.used.checked_sub(note.reread.used)?;
    let peak = reread.high.checked_sub(note.reread.used)?;
    let references = reread.references.checked_sub(note.reread.references)?;
    let most = end
        .checked_sub(place)?
        .checked_add(used)?
        .checked_add(references)?;
    // A count that is the greatest number may be more.
    let counted = reread.high.checked_add(1).is_some()
        && reread.references.checked_add(1).is_some();
    if !reread.is_known || !counted || most > 10_000 || end > parser.source.symbol.len() {
        return None;
    }
    let needed = 2 * (end - place) + 2 + 2 * used + 3 * references;
    Some(TargetText {
        lifetimes: note.state.lifetimes,
        place,
        end,
        text: HeldText {
            start,
            len,
            reread: used,
            peak,
            references,
        },
        depth: (note.state.depth_left as usize).min(needed) as u16,
        kind: kind_of(note.continuation),
        in_value: note.state.in_value,
    })
}

/// Ends a note after its target was printed.
pub fn end_note<S: TextSink>(
    parser: &Parser<'_, '_>,
    note: &Note,
    out: &SizeLimitedFmtAdapter<'_, S>,
    texts: &mut [StoredText; MOST_TEXTS],
)
    requires held { HoldsTexts S.TextSink parser.now.source.symbol.now parser.now.source.form out.now texts.old }
    requires printed { WasPrinted S.TextSink parser.now.source.symbol.now parser.now.source.form note.now parser.now.state.place out.now }
    ensures { HoldsTexts S.TextSink parser.now.source.symbol.now parser.now.source.form out.now texts.new }
{
    if let Some(text) = noted(parser, note, out) {
        if let Some(stored) = StoredText::new(&text) {
            texts[entry_of(text.place)] = stored;
        }
    }
}
