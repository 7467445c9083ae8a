//! Tests of each call for one symbol, of sinks, and of legacy symbols.
#![tactic(auto)]

#[cfg(test)]
mod tests;
