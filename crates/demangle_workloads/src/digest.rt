//! A digest of texts.
use std::fmt;

/// Bits that are spread over a word. It is 2^64 divided by the golden ratio.
const SPREAD: u64 = 0x9E37_79B9_7F4A_7C15;

/// The number of all bytes, and a number that changes with each of them.
#[derive(Drop)]
pub struct Digest {
    bytes: u64,
    state: u64,
}

impl Digest {
    /// Returns the digest of no text.
    pub fn new() -> Self {
        Digest { bytes: 0, state: 0 }
    }

    /// Adds a text, by words of eight bytes.
    pub fn add(&mut self, text: &[u8]) {
        self.bytes = self.bytes.wrapping_add(text.len() as u64);
        for word in text.chunks(8) {
            match word.first_chunk::<8>() {
                Some(word) => self.add_word(u64::from_le_bytes(*word)),
                None => self.add_end(word),
            }
        }
    }

    /// Adds the bytes after the last whole word.
    fn add_end(&mut self, end: &[u8]) {
        for byte in end {
            self.add_word(u64::from(*byte));
        }
    }

    #[inline(always)]
    fn add_word(&mut self, word: u64) {
        self.state = (self.state ^ word).wrapping_mul(SPREAD).rotate_left(29);
    }
}

impl fmt::Display for Digest {
    fn fmt<W: fmt::Write>(&self, f: &mut fmt::Formatter<W>) -> fmt::Result {
        let bytes = self.bytes;
        let state = self.state;
        write!(f, "{bytes} bytes, digest {state:016x}")
    }
}
