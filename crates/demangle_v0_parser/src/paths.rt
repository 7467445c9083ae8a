//! Continuations of paths.
ghost use Rattle.std.specs.Prelude.{◌≡◌, ◌+◌, ◌≤◌, IsOk, Ok};
ghost use Rattle.demangle_v0_parser.specs.Parsers.{PerformedLast, PerformedRest, CanPerform, CanAdvance, AdvancedRest, Same};
ghost use Rattle.demangle_v0_parser.specs.Steps.{step_looks_bound};
ghost use Rattle.demangle_v0_parser.specs.Loops.{first_looks};
ghost use Rattle.demangle_v0_grammar.specs.Table.{path};
ghost use Rattle.demangle_v0_tokens.specs.Tags.{path_of};

use crate::parse::Parser;
use crate::{Continuation, StepError};
use demangle_v0_tokens::fixed_texts::FixedText;
use demangle_v0_tokens::output::Output;
use demangle_v0_tokens::tags::{PathKind, path_kind};

impl Parser<'_, '_> {
    /// Starts the path that has generic arguments, after its `I`.
    #[inline(always)]
    fn generic_path(&mut self) -> Continuation
        requires can_step { CanAdvance Continuation.Generic self.old }
        ensures { AdvancedRest (path_of self.old.state.in_value PathKind.Generic) 6 8 9 self.old (Ok
            result) self.new }
    {
        self.push(Continuation::Generic);
        Continuation::Path
    }

    /// Starts a path after its tag, which is not that of a nested path. It fails if no path has this
    /// tag.
    #[inline(always)]
    fn tagged_path<V: Output>(&mut self, tag: u8, output: &mut V) -> Result<Continuation, StepError>
        requires can_step { CanPerform V.Output Continuation.Path self.old output.old }
        requires not_nested { tag ≡ 78 → ⊥ }
        ensures { PerformedRest V.Output (path self.old.state.in_value tag) 6 8 9 self.old output.old
            result self.new output.new }
    {
        let kind = path_kind(tag).ok_or(StepError::Abort(FixedText::Invalid))?;
        match kind {
            PathKind::CrateRoot => self.crate_name(output),
            // `path` reads nested paths itself.
            PathKind::NestedName => Ok(Continuation::Path),
            PathKind::Generic => Ok(self.generic_path()),
            PathKind::Backref => self.follow_backref(Continuation::Path, output),
            PathKind::InherentImpl => self.impl_disambiguator(false),
            PathKind::TraitImpl => self.impl_disambiguator(true),
            PathKind::TraitDefinition => Ok(self.self_type(true)),
        }
    }

    /// Reads the tag of a path, and starts the path one level deeper.
    ///
    /// The tags of paths that are nested in one another are read together, up to a namespace in upper
    /// case or until the stack is nearly full. If they end at a crate, the names are read and printed
    /// after its own, and without output also after a back reference. Otherwise a frame is pushed for
    /// each of them.
    ///
    /// Fails if a part that it reads has an error, if the depth is used up, or if the output rejects
    /// a piece.
    // Most paths are nested in two or three others, and their names need no steps of their own.
    #[inline(always)]
    pub(super) fn path<V: Output>(&mut self, output: &mut V) -> Result<Continuation, StepError>
        requires can_step { CanPerform V.Output Continuation.Path self.old output.old }
        ensures performs { PerformedLast V.Output Continuation.Path self.old output.old result self.new output.new }
        ensures same { Same self.old self.new }
        ensures grows { self.old.looks ≤ self.new.looks }
        ensures least { self.old.looks + first_looks Continuation.Path self.old.state ≤ self.new.looks }
        ensures own_looks { self.new.looks ≤ self.old.looks + step_looks_bound self.old.source.symbol.now
            self.old.state.place }
    {
        let mut at = self.state.place_or_abort()?;
        let outer = self.state.depth_left;
        let mut count: u16 = 0;
        // The depth is tested before the tag here, and after it for a type or a constant. The Rust
        // crate reports errors in this order.
        'paths: while count < outer {
            let left = outer - count - 1;
            let Ok((tag, next)) = self.source.symbol.tag(at, &mut self.looks) else {
                self.push_names(count, outer);
                return Err(StepError::Abort(FixedText::Invalid));
            };
            if tag != b'N' {
                self.state.depth_left = left;
                self.state.place = Some(next);
                if tag == b'C' {
                    let performed = self.crate_name(output);
                    if count == 0 {
                        return performed;
                    }
                    return self.names_after(performed, count, outer, output);
                }
                if (tag == b'B') & (count > 0) & !output.is_printing() {
                    let performed = self.follow_backref(Continuation::Path, output);
                    return self.names_after(performed, count, outer, output);
                }
                self.push_names(count, outer);
                return self.tagged_path(tag, output);
            }
            let Ok((letter, after)) = self.source.symbol.namespace(next, &mut self.looks) else {
                self.push_names(count, outer);
                return Err(StepError::Abort(FixedText::Invalid));
            };
            if letter.is_ascii_uppercase() | (self.stack.room_left() <= usize::from(count) + 1) {
                self.push_names(count, outer);
                self.state.depth_left = left;
                self.state.place = Some(after);
                self.push_lettered(Continuation::NestedName, letter);
                return Ok(Continuation::Path);
            }
            count += 1;
            at = after;
        }
        self.push_names(count, outer);
        Err(StepError::Abort(FixedText::Recursion))
    }
}
