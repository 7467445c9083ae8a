//! Escapes and shortens texts for the columns of a corpus.
use hex;
use sha2::{Digest, Sha256};
use std::alloc::{AllocError, Global};

/// The length of the longest text that a column spells out. A longer one is given by its length and
/// digest.
const LONGEST: usize = 2000;

/// Returns the letter that follows a backslash for a byte, if the byte is escaped.
fn escape_letter(byte: u8) -> Option<u8> {
    match byte {
        b'\n' => Some(b'n'),
        b'\t' => Some(b't'),
        b'\r' => Some(b'r'),
        b'\0' => Some(b'0'),
        b'\\' => Some(b'\\'),
        _ => None,
    }
}

/// Returns the character that a letter after a backslash represents.
fn escaped_char(letter: char) -> Option<char> {
    match letter {
        'n' => Some('\n'),
        't' => Some('\t'),
        'r' => Some('\r'),
        '0' => Some('\0'),
        '\\' => Some('\\'),
        _ => None,
    }
}

/// Returns a text with its line feeds, tabs, carriage returns, zeros and backslashes escaped.
pub fn escape(alloc: Global, text: &[u8]) -> Result<Vec<u8>, AllocError> {
    let mut column = Vec::new(alloc);
    for byte in text {
        match escape_letter(*byte) {
            Some(letter) => column.extend_from_slice(&[b'\\', letter])?,
            None => column.push(*byte)?,
        }
    }
    Ok(column)
}

/// Returns the text that has this escaped form, or `None` if a backslash precedes any other
/// character.
pub fn unescape(alloc: Global, column: &str) -> Result<Option<String>, AllocError> {
    let mut text = String::new(alloc);
    let mut is_escape = false;
    for c in column.chars() {
        if is_escape {
            let Some(meant) = escaped_char(c) else {
                return Ok(None);
            };
            text.push(meant)?;
            is_escape = false;
        } else if c == '\\' {
            is_escape = true;
        } else {
            text.push(c)?;
        }
    }
    Ok(if is_escape { None } else { Some(text) })
}

/// Returns the escaped text, or the length and the SHA-256 if it has more than 2,000 bytes.
pub fn shorten(alloc: Global, text: &[u8]) -> Result<Vec<u8>, AllocError> {
    if text.len() <= LONGEST {
        return escape(alloc, text);
    }
    let len = text.len();
    let digest = hex::encode(alloc, Sha256::digest(text))?;
    Ok(format!(in alloc; "#len={len} sha256={digest}")?.into_bytes())
}

/// Returns the escaped pieces with `\|` between them.
pub fn join_pieces(alloc: Global, pieces: &[String]) -> Result<Vec<u8>, AllocError> {
    let mut column = Vec::new(alloc);
    for (number, piece) in pieces.iter().enumerate() {
        if number > 0 {
            column.extend_from_slice(b"\\|")?;
        }
        let piece = escape(alloc, piece.as_str().as_bytes())?;
        column.extend_from_slice(piece.as_slice())?;
    }
    Ok(column)
}
