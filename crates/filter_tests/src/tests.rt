//! Tests of the calls that write a text with its symbols replaced.

mod bytes;
mod bytes_before;
mod stream;
mod texts;
