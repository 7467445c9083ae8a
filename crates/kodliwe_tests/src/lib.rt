//! Tests of what the program `kodliwe` does.
#![tactic(auto)]

#[cfg(test)]
mod tests;
