//! Tests of the calls that write a text with its symbols replaced: into memory, to a sink, and from
//! a reader to a writer.
#![tactic(auto)]

#[cfg(test)]
mod tests;
