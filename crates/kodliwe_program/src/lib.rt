//! What the program `kodliwe` does, over any files and streams.
#![tactic(auto)]

pub mod about;
pub mod arguments;
pub mod coalescing;
pub mod descriptors;
pub mod embedded;
pub mod error;
pub mod filtering;
pub mod help;
mod inputs;
mod noting;
pub mod program;
mod replacement;
mod same_file;
pub mod version;
