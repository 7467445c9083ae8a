//! Test doubles: readers and writers in memory that fail on demand or record their calls, and a
//! sink that rejects a piece.
#![tactic(auto)]

mod refusing_sink;
pub mod streams;

pub use refusing_sink::RefusingSink;
