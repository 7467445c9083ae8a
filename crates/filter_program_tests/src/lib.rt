//! Tests of what the program `demangle_filter` does.
#![tactic(auto)]

#[cfg(test)]
mod tests;
