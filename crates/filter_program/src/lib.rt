//! What the program `demangle_filter` does, over any streams.
#![tactic(auto)]

pub mod filter;
pub mod flushing;
