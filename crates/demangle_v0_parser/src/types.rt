//! Continuations of types.
ghost use Rattle.std.specs.Prelude.{if◌then◌else◌, ◌≡◌, ◌<◌, Ok, length, true, false, ◌^◌, ◌++◌, ◌∷◌, [], IsOk};
ghost use Rattle.demangle_v0_parser.specs.Parsers.{Performed, PerformedRest, CanPerform, restacked};
ghost use Rattle.demangle_v0_parser.specs.Traces.{frame_at};
ghost use Rattle.demangle_v0_tokens.specs.Tags.{constructed_of, type_of};

use crate::parse::Parser;
use crate::{Continuation, StepError};
use demangle_v0_tokens::fixed_texts::{FixedText, basic_type_text};
use demangle_v0_tokens::output::Output;
use demangle_v0_tokens::tags::{ConstructedType, TypeKind, type_kind};

/// Returns `true` if the type begins here. Otherwise its `w` was read, and the rest follows.
#[inline(always)]
pub(super) fn may_have_splat(continuation: Continuation) -> bool
    ensures yes { continuation ≡ Continuation.«Type» → result ≡ true }
    ensures no { continuation ≡ Continuation.TaggedType → result ≡ false }
{
    match continuation {
        Continuation::TaggedType => false,
        _ => true,
    }
}

impl Parser<'_, '_> {
    /// Reads a type up to its first nested type or path.
    ///
    /// If the type begins here and has a `w`, only the `w` is read, and the rest is left for the
    /// next step. Fails after an error, at the end of the symbol, and if no depth is left.
    #[inline(always)]
    pub(super) fn type_<V: Output>(
        &mut self,
        may_have_splat: bool,
        output: &mut V,
    ) -> Result<Continuation, StepError>
        requires can_step { CanPerform V.Output Continuation.«Type» self.old output.old }
        ensures { Performed V.Output
            (if may_have_splat then Continuation.«Type» else Continuation.TaggedType)
            self.old output.old result self.new output.new }
    {
        let Some(at) = self.state.place else {
            return Err(StepError::Abort(FixedText::AfterError));
        };
        let Some(tag) = self.source.symbol.byte(at, &mut self.looks) else {
            return Err(StepError::Abort(FixedText::Invalid));
        };
        // A basic type does not raise the depth, so it can be read at the limit.
        if let Some(pending_text) = basic_type_text(tag) {
            self.state.place = Some(at + 1);
            return Ok(self.end_with(pending_text));
        }
        // References nest deepest, so their tag is tested before those of the other types.
        if tag == b'R' {
            self.enter()?;
            self.state.place = Some(at + 1);
            return Ok(self.reference_type(false));
        }
        let Some(kind) = type_kind(tag) else {
            // `w` does not raise the depth either.
            if may_have_splat && tag == b'w' {
                self.state.place = Some(at + 1);
                self.put(FixedText::Splat);
                return Ok(Continuation::TaggedType);
            }
            // Any other tag is a path's. The path is read again from that tag on, and raises the
            // depth once more.
            self.enter()?;
            self.state.in_value = false;
            return Ok(Continuation::Path);
        };
        self.enter()?;
        self.state.place = Some(at + 1);
        self.type_after_tag(kind, output)
    }

    /// Starts a type that is not basic, after its tag.
    // References and tuples nest deepest, and back references repeat them. So only these do not need a
    // call.
    #[inline(always)]
    fn type_after_tag<V: Output>(
        &mut self,
        kind: TypeKind,
        output: &mut V,
    ) -> Result<Continuation, StepError>
        requires can_step { CanPerform V.Output Continuation.DynBinder self.old output.old }
        ensures { PerformedRest V.Output (type_of kind) 5 50 9 self.old output.old result self.new
            output.new }
    {
        match kind {
            TypeKind::SharedReference => Ok(self.reference_type(false)),
            TypeKind::MutReference => Ok(self.reference_type(true)),
            // A copy, so that the other results need not be at the address to which the call
            // writes.
            TypeKind::Constructed(kind) => match kind {
                ConstructedType::Tuple => Ok(self.tuple_type()),
                ConstructedType::Backref => self.follow_backref(Continuation::Type, output),
                _ => Ok(self.constructed_type(kind, output)?),
            },
        }
    }

    /// Starts a type that consists of others and is not a reference, after its tag.
    #[inline(never)]
    fn constructed_type<V: Output>(
        &mut self,
        kind: ConstructedType,
        output: &mut V,
    ) -> Result<Continuation, StepError>
        requires can_step { CanPerform V.Output Continuation.DynBinder self.old output.old }
        ensures { PerformedRest V.Output (constructed_of kind) 5 50 9 self.old output.old result
            self.new output.new }
    {
        match kind {
            ConstructedType::ConstPointer => {
                self.put(FixedText::Star);
                Ok(Continuation::Const)
            }
            ConstructedType::MutPointer => {
                self.put(FixedText::Star);
                Ok(Continuation::Mut)
            }
            ConstructedType::Array => {
                self.push(Continuation::ArrayLength);
                self.put(FixedText::OpenBracket);
                Ok(Continuation::Type)
            }
            ConstructedType::Slice => {
                self.push_if_printing(Continuation::CloseBracket, output);
                self.put(FixedText::OpenBracket);
                Ok(Continuation::Type)
            }
            ConstructedType::Tuple => Ok(self.tuple_type()),
            ConstructedType::Backref => self.follow_backref(Continuation::Type, output),
            ConstructedType::Pattern => {
                self.push(Continuation::PatternIs);
                Ok(Continuation::Type)
            }
            ConstructedType::Function => self.function_binder(output),
            ConstructedType::Dyn => Ok(self.dyn_type()),
        }
    }

    /// Pushes a frame that does nothing but print, if `output` prints.
    #[inline(always)]
    pub(super) fn push_if_printing<V: Output>(&mut self, continuation: Continuation, output: &V)
        requires room { length self.old.stack.frames < self.old.stack.room }
        requires small { self.old.state.lifetimes < 2 ^ 80 }
        ensures parser { self.new ≡ restacked self.old self.new.stack.frames }
        ensures is_printed { V.is_printed ≡ true → self.new.stack.frames ≡ self.old.stack.frames ++ frame_at
            continuation self.old.state ∷ [] }
        ensures without_output { V.is_printed ≡ false → self.new.stack.frames ≡ self.old.stack.frames }
    {
        if output.is_printing() {
            self.push(continuation);
        }
    }

    /// Queues the `; ` after the element type of an array. Its length follows.
    #[inline(always)]
    pub(super) fn array_length<V: Output>(&mut self, output: &mut V) -> Continuation
        requires can_step { CanPerform V.Output Continuation.ArrayLength self.old output.old }
        ensures { Performed V.Output Continuation.ArrayLength self.old output.old (Ok result) self.new
            output.new }
    {
        self.push_if_printing(Continuation::CloseBracket, output);
        self.put(FixedText::Semicolon);
        self.state.in_value = true;
        Continuation::Constant
    }
}
