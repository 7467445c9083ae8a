//! The lines of a corpus.
use crate::column::unescape;
use std::alloc::{AllocError, Global};

/// Printed text in both forms.
#[derive(Drop)]
pub struct Forms<T> {
    /// With the hash.
    pub plain: T,
    /// Without the hash.
    pub alt: T,
}

/// The results for a symbol, as the columns of a line spell them.
#[derive(Drop)]
pub struct Results<T> {
    /// `OK` if the text is a symbol, otherwise `ERR`.
    pub status: T,
    /// The result of `as_str`, or `=` if that is the whole text.
    pub as_str: T,
    /// The path.
    pub printed: Forms<T>,
}

/// The expectation that a line states for its text.
#[derive(Drop)]
pub enum Expected<'l> {
    /// The results of all calls.
    Results(Results<&'l [u8]>),
    /// The text printed under a limit of this many bytes.
    Limited(usize, Forms<&'l [u8]>),
    /// The nonempty pieces that are printed.
    Pieces(Forms<&'l [u8]>),
}

/// A text with the results of the Rust crate for it.
#[derive(Drop)]
pub struct Case<'l> {
    pub text: String,
    pub expected: Expected<'l>,
}

impl<'l> Case<'l> {
    /// Parses a line. Returns `None` if the line has another form, its text has an unknown escape,
    /// or its limit is not a number.
    ///
    /// # Errors
    ///
    /// Returns `AllocError` if an allocation fails.
    pub fn parse(alloc: Global, line: &'l str) -> Result<Option<Case<'l>>, AllocError> {
        let columns: Vec<&'l str> = line.split('\t').collect(alloc)?;
        let (text, expected) = match columns.as_slice() {
            ["\\limit", text, limit, plain, alt] => {
                let Ok(limit) = limit.parse::<usize>() else {
                    return Ok(None);
                };
                (*text, Expected::Limited(limit, both_forms(plain, alt)))
            }
            ["\\pieces", text, plain, alt] => (*text, Expected::Pieces(both_forms(plain, alt))),
            [text, status, as_str, plain, alt] => {
                let answers = Results {
                    status: status.as_bytes(),
                    as_str: as_str.as_bytes(),
                    printed: both_forms(plain, alt),
                };
                (*text, Expected::Results(answers))
            }
            _ => return Ok(None),
        };
        let Some(text) = unescape(alloc, text)? else {
            return Ok(None);
        };
        Ok(Some(Case { text, expected }))
    }
}

/// Returns the columns of both forms as bytes.
fn both_forms<'l>(plain: &'l str, alt: &'l str) -> Forms<&'l [u8]> {
    Forms {
        plain: plain.as_bytes(),
        alt: alt.as_bytes(),
    }
}
