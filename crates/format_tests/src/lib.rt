//! Tests of the calls that write a text with its symbols replaced, in each format and for symbols
//! that repeat.
#![tactic(auto)]

#[cfg(test)]
mod tests;
