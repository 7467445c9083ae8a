//! Calls the method of each continuation.
ghost use Rattle.std.specs.Prelude.{◌≡◌, ◌+◌, ◌≤◌, true, false, IsOk};
ghost use Rattle.demangle_v0_parser.specs.Skips.{is_skipped};
ghost use Rattle.demangle_v0_parser.specs.Parsers.{PerformedSteps, CanPerform};
ghost use Rattle.demangle_v0_parser.specs.Loops.{first_looks};

use crate::constant_lists::ConstantList;
use crate::out_of_line::OutOfLine;
use crate::parse::Parser;
use crate::targets::production_of;
use crate::types::may_have_splat;
use crate::{Continuation, StepError};
use demangle_v0_tokens::output::Output;

impl Parser<'_, '_> {
    /// Performs a continuation, and returns the one to run next. A path is performed with those that
    /// are nested in one another, and with their names.
    ///
    /// An impl path and folded arguments are only read here if nothing is printed.
    #[inline(always)]
    pub(super) fn dispatch<V: Output>(
        &mut self,
        continuation: Continuation,
        output: &mut V,
    ) -> Result<Continuation, StepError>
        requires can_step { CanPerform V.Output continuation self.old output.old }
        requires unskipped { V.is_printed ≡ true → is_skipped
            self.old.source.form continuation ≡ false }
        ensures performs { PerformedSteps V.Output continuation self.old output.old result
            self.new output.new }
        ensures least { continuation ≡ Continuation.Path → self.old.looks +
            first_looks Continuation.Path self.old.state ≤ self.new.looks }
    {
        match continuation {
            Continuation::Path => self.path(output),
            Continuation::NestedName => self.nested_name(output),
            Continuation::InherentImplPath => Ok(self.read_impl_path(false)),
            Continuation::TraitImplPath => Ok(self.read_impl_path(true)),
            Continuation::InherentSelfType => Ok(self.self_type(false)),
            Continuation::TraitSelfType => Ok(self.self_type(true)),
            Continuation::AsTrait => Ok(self.as_trait()),
            Continuation::Generic => Ok(self.generic()),
            Continuation::FirstArgument => Ok(self.arguments(true)),
            Continuation::NextArgument => Ok(self.arguments(false)),
            Continuation::Lifetime => self.out_of_line(OutOfLine::Lifetime, output),
            Continuation::Type | Continuation::TaggedType => {
                self.type_(may_have_splat(continuation), output)
            }
            Continuation::ArrayLength => Ok(self.array_length(output)),
            Continuation::FirstTupleType => Ok(self.first_tuple_type()),
            Continuation::SecondTupleType => Ok(self.second_tuple_type()),
            Continuation::NextTupleType => Ok(self.next_tuple_type()),
            Continuation::ReferenceLifetime => self.reference_lifetime(false, output),
            Continuation::MutReferenceLifetime => self.reference_lifetime(true, output),
            Continuation::FunctionQualifiers => {
                self.out_of_line(OutOfLine::FunctionQualifiers, output)
            }
            Continuation::FirstParameter => Ok(self.parameter(true)),
            Continuation::NextParameter => Ok(self.parameter(false)),
            Continuation::Returns => Ok(self.returns()),
            Continuation::DynBinder => { self.out_of_line(OutOfLine::DynBinder, output) }
            Continuation::FirstDynTrait => Ok(self.dyn_trait(true)),
            Continuation::NextDynTrait => Ok(self.dyn_trait(false)),
            Continuation::TraitPath => self.trait_path(output),
            Continuation::FirstTraitArgument => Ok(self.trait_argument(true)),
            Continuation::FoldedTraitArguments => Ok(self.folded_trait_arguments()),
            Continuation::NextTraitArgument => Ok(self.trait_argument(false)),
            Continuation::Bindings => Ok(self.bindings()),
            Continuation::FurtherBindings => Ok(self.further_bindings()),
            Continuation::BindingName => { self.out_of_line(OutOfLine::BindingName, output) }
            Continuation::BindingValue => Ok(self.bound_value()),
            Continuation::DynLifetime => { self.out_of_line(OutOfLine::DynLifetime, output) }
            Continuation::Pattern => self.pattern(),
            Continuation::NextPattern => self.next_pattern(),
            Continuation::Constant => { self.out_of_line(OutOfLine::Constant, output) }
            Continuation::Number => { self.out_of_line(OutOfLine::Number, output) }
            Continuation::StrLiteral => { self.out_of_line(OutOfLine::StrLiteral, output) }
            Continuation::FirstArrayConstant => Ok(self.first_list_constant(ConstantList::Array)),
            Continuation::NextArrayConstant => Ok(self.next_list_constant(ConstantList::Array)),
            Continuation::FirstTupleConstant => Ok(self.first_list_constant(ConstantList::Tuple)),
            Continuation::SecondTupleConstant => Ok(self.second_tuple_constant()),
            Continuation::NextTupleConstant => Ok(self.next_list_constant(ConstantList::Tuple)),
            Continuation::Variant => { self.out_of_line(OutOfLine::Variant, output) }
            Continuation::FirstVariantConstant => Ok(self.first_list_constant(
                ConstantList::TupleVariant,
            )),
            Continuation::NextVariantConstant => Ok(self.next_list_constant(
                ConstantList::TupleVariant,
            )),
            Continuation::FirstField => Ok(self.first_list_constant(ConstantList::Fields)),
            Continuation::NextField => Ok(self.next_list_constant(ConstantList::Fields)),
            Continuation::Field => { self.out_of_line(OutOfLine::Field, output) }
            Continuation::AfterBackref => Ok(self.after_backref(output)),
            Continuation::CloseParen
            | Continuation::CloseAngle
            | Continuation::Mut
            | Continuation::StrConstant
            | Continuation::ReferenceConstant
            | Continuation::OpenArguments
            | Continuation::FoldedArguments
            | Continuation::Const
            | Continuation::PatternIs
            | Continuation::OpenParameters
            | Continuation::OpenTraitArguments
            | Continuation::CloseBracket
            | Continuation::RangeEnd
            | Continuation::MutReferenceConstant
            | Continuation::MutableConstant
            | Continuation::ArrayConstant
            | Continuation::TupleConstant
            | Continuation::FieldColon
            | Continuation::CloseBrace => Ok(self.queue_text(continuation)),
            Continuation::End => Ok(Continuation::End),
            Continuation::TargetPath | Continuation::TargetType | Continuation::TargetConstant => {
                Ok(production_of(continuation))
            }
        }
    }
}
