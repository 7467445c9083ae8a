//! Tests of the calls that write a text with its symbols replaced, with readers, writers and heaps
//! that fail.
#![tactic(auto)]

#[cfg(test)]
mod tests;
