//! Prints names, with the texts before and after them.
ghost use Rattle.std.specs.Prelude.{◌≡◌, ◌+◌, ◌<◌, ◌≤◌, [], ◌∷◌, ◌++◌, IsAscii, codes, decimal};
ghost use Rattle.demangle_v0_tokens.specs.Tokens.{nested_texts, special_texts};
ghost use Rattle.demangle_symbol.specs.Idents.{IsIdentWithin, name_in, name_size};
ghost use Rattle.demangle_sink.specs.Limit.{Prints, Ready};
ghost use Rattle.demangle_symbol.specs.Names.{is_empty_name, name_pieces};
ghost use Rattle.demangle_v0_tokens.specs.Tokens.{crate_texts, kind_text, prefixed_name, disambiguator_texts};

use crate::render::numbers;
use crate::source::Source;
use demangle_sink::{SinkRefused, SizeLimitedFmtAdapter, TextSink, put_char};
use demangle_symbol::cursor::{Ident, Looks};
use demangle_symbol::form::Form;

/// A name in a namespace.
#[derive(Clone, Copy)]
pub(super) struct NamespacedName {
    /// The letter of the namespace, which is special if it is `A` to `Z`.
    pub(super) namespace: u8,
    /// The disambiguator.
    pub(super) number: u64,
    pub(super) ident: Ident,
}

/// Prints a disambiguator in brackets, if it is not 0. The alternate form omits it.
#[tactic(auto, using(demangle_sink::proofs::PrintsLemmas::prints_ready, demangle_sink::proofs::PrintsLemmas::prints_nothing))]
#[inline(never)]
fn put_disambiguator<S: TextSink>(
    number: u64,
    form: Form,
    out: &mut SizeLimitedFmtAdapter<'_, S>,
) -> Result<(), SinkRefused>
    requires { Ready S.TextSink out.old }
    ensures { Prints S.TextSink out.old (disambiguator_texts form number) result out.new }
{
    if !form.include_hash {
        return Ok(());
    }
    if number == 0 {
        return Ok(());
    }
    out.put("[")?;
    numbers::put_hexadecimal(number, out)?;
    out.put("]")
}

/// Prints the kind of a special namespace: `closure`, `shim`, or the letter of any other.
fn put_special_kind<S: TextSink>(
    namespace: u8,
    out: &mut SizeLimitedFmtAdapter<'_, S>,
) -> Result<(), SinkRefused>
    requires small { namespace < 128 }
    requires ready { Ready S.TextSink out.old }
    ensures { Prints S.TextSink out.old (kind_text namespace ∷ []) result out.new }
{
    match namespace {
        b'C' => out.put("closure"),
        b'S' => out.put("shim"),
        _ => put_char(char::from(namespace), out),
    }
}

/// Prints the disambiguator of a special name, in decimal digits.
fn put_index<S: TextSink>(
    number: u64,
    out: &mut SizeLimitedFmtAdapter<'_, S>,
) -> Result<(), SinkRefused>
    requires { Ready S.TextSink out.old }
    ensures { Prints S.TextSink out.old (decimal number ∷ []) result out.new }
{
    numbers::put_decimal(number as u128, out)
}

/// Prints the end of a special name: `#`, its disambiguator and `}`.
#[tactic(auto, using(demangle_sink::proofs::PrintsLemmas::prints_ready))]
fn put_special_suffix<S: TextSink>(
    number: u64,
    out: &mut SizeLimitedFmtAdapter<'_, S>,
) -> Result<(), SinkRefused>
    requires { Ready S.TextSink out.old }
    ensures { Prints S.TextSink out.old
        (codes "#" ∷ decimal number ∷ codes "}" ∷ []) result out.new }
{
    out.put("#")?;
    put_index(number, out)?;
    out.put("}")
}

impl Source<'_> {
    /// Prints the name of a crate, and its disambiguator after it.
    #[tactic(auto, using(demangle_sink::proofs::PrintsLemmas::prints_ready))]
    #[inline(always)]
    pub(super) fn put_crate_name<S: TextSink>(
        &self,
        name: &Ident,
        number: u64,
        out: &mut SizeLimitedFmtAdapter<'_, S>,
        looks: &mut Looks,
    ) -> Result<(), SinkRefused>
        requires parts { IsIdentWithin self.now.symbol.now name.now }
        requires ascii { IsAscii self.now.symbol.now }
        requires ready { Ready S.TextSink out.old }
        ensures prints { Prints S.TextSink out.old (crate_texts self.now.form (name_in
            self.now.symbol.now name.now) number) result out.new }
        ensures grows { looks.old ≤ looks.new }
        ensures most { looks.new ≤ looks.old + name_size name.now }
    {
        name.write_to(self.symbol, out, looks)?;
        put_disambiguator(number, self.form, out)
    }

    /// Returns `true` if both parts of a name are empty.
    #[tactic(auto, using(crate::proofs::TokenTexts::name_steps))]
    #[inline(always)]
    fn is_empty_name(&self, name: &Ident) -> bool
        requires parts { IsIdentWithin self.now.symbol.now name.now }
        requires ascii { IsAscii self.now.symbol.now }
        ensures { result ≡ is_empty_name (name_in self.now.symbol.now name.now) }
    {
        name.ascii.to <= name.ascii.from && name.punycode.to <= name.punycode.from
    }

    /// Prints a text, and a name after it. It prints nothing if the name is empty.
    #[tactic(auto, using(demangle_sink::proofs::PrintsLemmas::prints_ready, demangle_sink::proofs::PrintsLemmas::prints_nothing))]
    #[inline(always)]
    fn put_prefixed_name<S: TextSink>(
        &self,
        before: &str,
        name: &Ident,
        out: &mut SizeLimitedFmtAdapter<'_, S>,
        looks: &mut Looks,
    ) -> Result<(), SinkRefused>
        requires parts { IsIdentWithin self.now.symbol.now name.now }
        requires ascii { IsAscii self.now.symbol.now }
        requires ready { Ready S.TextSink out.old }
        ensures prints { Prints S.TextSink out.old (prefixed_name before.now (name_in
            self.now.symbol.now name.now)) result out.new }
        ensures grows { looks.old ≤ looks.new }
        ensures most { looks.new ≤ looks.old + name_size name.now }
    {
        // A name may be empty, as a closure's is. Then the text before it is omitted too.
        if self.is_empty_name(name) {
            return Ok(());
        }
        out.put(before)?;
        name.write_to(self.symbol, out, looks)
    }

    /// Prints a name in a special namespace, and its disambiguator.
    // It takes the name by value, so that its caller can keep the names that it reads in registers.
    #[tactic(auto, using(demangle_sink::proofs::PrintsLemmas::prints_ready))]
    #[inline(never)]
    fn put_special_name<S: TextSink>(
        &self,
        name: NamespacedName,
        out: &mut SizeLimitedFmtAdapter<'_, S>,
        looks: &mut Looks,
    ) -> Result<(), SinkRefused>
        requires small { name.namespace < 128 }
        requires parts { IsIdentWithin self.now.symbol.now name.ident }
        requires ascii { IsAscii self.now.symbol.now }
        requires ready { Ready S.TextSink out.old }
        ensures prints { Prints S.TextSink out.old (special_texts name.namespace name.number (name_in
            self.now.symbol.now name.ident)) result out.new }
        ensures grows { looks.old ≤ looks.new }
        ensures most { looks.new ≤ looks.old + name_size name.ident }
    {
        out.put("::{")?;
        put_special_kind(name.namespace, out)?;
        self.put_prefixed_name(":", &name.ident, out, looks)?;
        put_special_suffix(name.number, out)
    }

    /// Prints a name in a namespace, with `::` before it. An empty name prints nothing, unless the
    /// namespace is special.
    #[inline(always)]
    pub(super) fn put_nested_name<S: TextSink>(
        &self,
        name: NamespacedName,
        out: &mut SizeLimitedFmtAdapter<'_, S>,
        looks: &mut Looks,
    ) -> Result<(), SinkRefused>
        requires parts { IsIdentWithin self.now.symbol.now name.ident }
        requires ascii { IsAscii self.now.symbol.now }
        requires ready { Ready S.TextSink out.old }
        ensures prints { Prints S.TextSink out.old (nested_texts name.namespace name.number (name_in
            self.now.symbol.now name.ident)) result out.new }
        ensures grows { looks.old ≤ looks.new }
        ensures most { looks.new ≤ looks.old + name_size name.ident }
    {
        match name.namespace {
            b'A'..=b'Z' => self.put_special_name(name, out, looks),
            _ => self.put_prefixed_name("::", &name.ident, out, looks),
        }
    }

    /// Prints the name of an associated type that a trait's arguments bind, and ` = ` after it.
    #[tactic(auto, using(demangle_sink::proofs::PrintsLemmas::prints_ready))]
    #[inline(never)]
    pub(super) fn put_binding<S: TextSink>(
        &self,
        name: &Ident,
        out: &mut SizeLimitedFmtAdapter<'_, S>,
        looks: &mut Looks,
    ) -> Result<(), SinkRefused>
        requires parts { IsIdentWithin self.now.symbol.now name.now }
        requires ascii { IsAscii self.now.symbol.now }
        requires ready { Ready S.TextSink out.old }
        ensures prints { Prints S.TextSink out.old
            (name_pieces (name_in self.now.symbol.now name.now) ++ codes " = " ∷ []) result out.new }
        ensures grows { looks.old ≤ looks.new }
        ensures most { looks.new ≤ looks.old + name_size name.now }
    {
        name.write_to(self.symbol, out, looks)?;
        out.put(" = ")
    }
}
