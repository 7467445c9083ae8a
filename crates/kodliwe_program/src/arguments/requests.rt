//! Adds what the arguments say to a request.
ghost use Rattle.std.specs.Prelude.{◌≡◌, ◌++◌, ◌∷◌, [], codes, false};
ghost use Rattle.std.specs.Prelude.{None, OnOk, IfErr, IfSome};
ghost use Rattle.kodliwe_program.specs.CommandLine.{Sets, IsInvalidValue, symbol};
ghost use Rattle.kodliwe_program.specs.CommandLine.{options_of, rejection_of};

use crate::arguments::{InputSource, Request, Target, UsageError, ValuedOption};
use std::alloc::{AllocError, Global};

impl<'a> Request<'a> {
    /// Returns a request with the default options and nothing to filter.
    pub(super) fn new(alloc: Global) -> Request<'a>
        ensures sources { result.sources.items ≡ [] }
        ensures output { result.output ≡ None }
        ensures hash { result.include_hash ≡ false }
        ensures fold { result.fold_arguments ≡ false }
        ensures limit { result.limit ≡ None }
    {
        Request {
            sources: Vec::new(alloc),
            output: None,
            include_hash: false,
            fold_arguments: false,
            limit: None,
        }
    }

    /// Adds a SYMBOL. Fails if memory can't be allocated.
    pub(super) fn add_symbol(&mut self, argument: &'a str) -> Result<(), AllocError>
        ensures { OnOk result (options_of self.new ≡ record (options_of self.old) {
          parts = symbol argument.now ∷ (options_of self.old).parts;
        }) }
    {
        self.sources.push(InputSource::Symbol(argument))?;
        Ok(())
    }

    /// Adds a file, or standard input if its name is `-`. Fails if memory can't be allocated.
    pub(super) fn add_file(&mut self, file: &'a str) -> Result<(), AllocError>
        ensures sets { OnOk result (Sets ValuedOption.Input file.now
            (options_of self.old) (options_of self.new)) }
        ensures stdin { file.now ≡ codes "-" → OnOk result (self.new.sources.items
            ≡ self.old.sources.items ++ InputSource.Stdin ∷ []) }
        ensures hash { self.new.include_hash ≡ self.old.include_hash }
        ensures fold { self.new.fold_arguments ≡ self.old.fold_arguments }
        ensures limit { self.new.limit ≡ self.old.limit }
        ensures output { self.new.output ≡ self.old.output }
    {
        let source = if file == "-" {
            InputSource::Stdin
        } else {
            InputSource::File(file)
        };
        self.sources.push(source)?;
        Ok(())
    }

    /// Sets the output. Fails if the output was set before; `argument` is the option's argument.
    fn set_output(&mut self, argument: &'a str, value: &'a str) -> Result<(), UsageError<'a>>
        ensures sets { OnOk result (Sets ValuedOption.Output value.now
            (options_of self.old) (options_of self.new)) }
        ensures refused { IfErr result (λ fault. IfSome (rejection_of fault) (λ answer.
            IsInvalidValue (options_of self.old) ValuedOption.Output argument.now value.now answer)) }
    {
        if self.output.is_some() {
            return Err(UsageError::SecondOutput(argument));
        }
        self.output = Some(if value == "-" {
            Target::Stdout
        } else {
            Target::File(value)
        });
        Ok(())
    }

    /// Applies the value of an option; `argument` is the option's argument. Fails if the value is
    /// not valid, if the output was set before, or if memory can't be allocated.
    pub(super) fn set_value(
        &mut self,
        option: ValuedOption,
        argument: &'a str,
        value: &'a str,
    ) -> Result<(), UsageError<'a>>
        ensures sets { OnOk result (Sets option value.now
            (options_of self.old) (options_of self.new)) }
        ensures refused { IfErr result (λ fault. IfSome (rejection_of fault) (λ answer.
            IsInvalidValue (options_of self.old) option argument.now value.now answer)) }
    {
        match option {
            ValuedOption::Input => self.add_file(value)?,
            ValuedOption::Output => return self.set_output(argument, value),
            ValuedOption::Limit => {
                let Ok(limit) = value.parse::<usize>() else {
                    return Err(UsageError::BadNumber(argument, value));
                };
                self.limit = Some(limit);
            }
        }
        Ok(())
    }
}
