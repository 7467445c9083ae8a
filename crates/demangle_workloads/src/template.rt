//! A text with digits that change.
use std::alloc::{AllocError, Global};

/// A run of digits in a template.
#[derive(Clone, Copy)]
struct Mark {
    start: usize,
    len: usize,
    /// Whether all such runs have the same digits.
    is_shared: bool,
}

/// A sequence of numbers, by the method SplitMix64.
#[derive(Drop)]
struct Numbers {
    state: u64,
}

impl Numbers {
    /// Returns the next number.
    fn next(&mut self) -> u64 {
        self.state = self.state.wrapping_add(0x9E37_79B9_7F4A_7C15);
        let mixed = (self.state ^ (self.state >> 30)).wrapping_mul(0xBF58_476D_1CE4_E5B9);
        let mixed = (mixed ^ (mixed >> 27)).wrapping_mul(0x94D0_49BB_1331_11EB);
        mixed ^ (mixed >> 31)
    }
}

/// A text whose runs of `?` and of `~` are filled with hexadecimal digits. Each run of `?` gets
/// digits of its own. All runs of `~` get the same digits.
#[derive(Drop)]
pub struct Template {
    text: Vec<u8>,
    marks: Vec<Mark>,
    numbers: Numbers,
}

/// Returns the length of the run of equal bytes at the start.
fn equal_len(text: &[u8], byte: u8) -> usize {
    text.iter()
        .position(|other| *other != byte)
        .unwrap_or(text.len())
}

impl Template {
    /// Returns the template of a text. The seed chooses all digits. Fails if memory can't be
    /// allocated.
    pub fn new(alloc: Global, text: Vec<u8>, seed: u32) -> Result<Self, AllocError> {
        let mut marks = Vec::new(alloc);
        let mut end = 0;
        for (start, byte) in text.as_slice().iter().enumerate() {
            if start < end || (*byte != b'?' && *byte != b'~') {
                continue;
            }
            let len = equal_len(&text.as_slice()[start..], *byte);
            end = start.saturating_add(len);
            marks.push(Mark {
                start,
                len,
                is_shared: *byte == b'~',
            })?;
        }
        Ok(Template {
            text,
            marks,
            numbers: Numbers {
                state: u64::from(seed),
            },
        })
    }

    /// Fills the runs that share their digits with others.
    pub fn fill_shared(&mut self) {
        let number = self.numbers.next();
        for mark in self.marks.as_slice() {
            if mark.is_shared
                && let Some(run) = self.text.as_mut_slice().get_mut(mark.start..)
            {
                write_digits(run, mark.len, number);
            }
        }
    }

    /// Fills the runs that have digits of their own, and returns the text.
    pub fn fill(&mut self) -> &[u8] {
        for mark in self.marks.as_slice() {
            if mark.is_shared {
                continue;
            }
            let number = self.numbers.next();
            if let Some(run) = self.text.as_mut_slice().get_mut(mark.start..) {
                write_digits(run, mark.len, number);
            }
        }
        self.text.as_slice()
    }
}

/// Writes the last digits of a number over the first `len` bytes.
fn write_digits(run: &mut [u8], len: usize, number: u64) {
    let mut rest = number;
    for byte in run.iter_mut().take(len) {
        *byte = hexadecimal_digit(rest);
        rest /= 16;
    }
}

/// Returns the last digit of a number.
#[inline(always)]
fn hexadecimal_digit(number: u64) -> u8 {
    match number % 16 {
        low @ 0..10 => b'0' + low as u8,
        high => b'a' + (high - 10) as u8,
    }
}
