//! Calls the library and formats its results as columns of a corpus.
use crate::case::{Forms, Results};
use crate::column::{escape, join_pieces, shorten};
use crate::pieces_sink::PiecesSink;
use rustc_demangle::sink::WriteSink;
use rustc_demangle::{Demangle, demangle, try_demangle};
use std::alloc::{AllocError, Global};

/// Returns the column of a symbol's printed text, under a limit if there is one.
fn printed_text(
    alloc: Global,
    symbol: &Demangle<'_>,
    include_hash: bool,
    limit: Option<usize>,
) -> Result<Vec<u8>, AllocError> {
    let mut text = Vec::new(alloc);
    let mut sink = WriteSink::new(&mut text);
    let _ = match limit {
        Some(limit) => symbol.write_limited(&mut sink, include_hash, limit),
        None => symbol.write_to(&mut sink, include_hash),
    };
    // A writer to memory fails only if an allocation fails.
    match sink.into_fault() {
        Some(_) => Err(AllocError),
        None => shorten(alloc, text.as_slice()),
    }
}

/// Returns the columns of both forms of a symbol's printed text, under a limit if there is one.
fn printed_forms(
    alloc: Global,
    symbol: &Demangle<'_>,
    limit: Option<usize>,
) -> Result<Forms<Vec<u8>>, AllocError> {
    Ok(Forms {
        plain: printed_text(alloc, symbol, true, limit)?,
        alt: printed_text(alloc, symbol, false, limit)?,
    })
}

/// Returns the columns of the library's results for a text.
pub fn results_of(alloc: Global, text: &str) -> Result<Results<Vec<u8>>, AllocError> {
    let symbol = demangle(text);
    let status: &[u8] = if try_demangle(text).is_ok() {
        b"OK"
    } else {
        b"ERR"
    };
    let as_str = if symbol.as_str() == text {
        "="
    } else {
        symbol.as_str()
    };
    Ok(Results {
        status: Vec::from_slice(alloc, status)?,
        as_str: escape(alloc, as_str.as_bytes())?,
        printed: printed_forms(alloc, &symbol, None)?,
    })
}

/// Returns the columns of a text printed under a limit of `limit` bytes, in both forms.
pub fn limited_forms(
    alloc: Global,
    text: &str,
    limit: usize,
) -> Result<Forms<Vec<u8>>, AllocError> {
    printed_forms(alloc, &demangle(text), Some(limit))
}

/// Returns the column of the pieces of a symbol, in one form.
fn pieces(alloc: Global, symbol: &Demangle<'_>, include_hash: bool) -> Result<Vec<u8>, AllocError> {
    let mut sink = PiecesSink::new(alloc);
    match symbol.write_to(&mut sink, include_hash) {
        Ok(()) => join_pieces(alloc, sink.pieces()),
        // The sink rejects a piece only if an allocation fails.
        Err(_) => Err(AllocError),
    }
}

/// Returns the columns of the pieces of a text, in both forms.
pub fn pieces_forms(alloc: Global, text: &str) -> Result<Forms<Vec<u8>>, AllocError> {
    let symbol = demangle(text);
    Ok(Forms {
        plain: pieces(alloc, &symbol, true)?,
        alt: pieces(alloc, &symbol, false)?,
    })
}
