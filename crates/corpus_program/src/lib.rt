//! What the program `demangle_corpus` does, over any streams.
#![tactic(auto)]

mod case;
mod column;
pub mod corpus;
mod pieces_sink;
mod results;
