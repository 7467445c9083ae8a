//! The symbol that is printed, and the form of its text.
use demangle_symbol::cursor::Symbol;
use demangle_symbol::form::Form;

/// A symbol, and the form in which it is printed.
///
/// Its methods print the tokens that are read from the symbol.
#[derive(Clone, Copy)]
pub struct Source<'s> {
    /// The symbol's bytes after its prefix.
    pub symbol: &'s Symbol<'s>,
    pub form: Form,
}
