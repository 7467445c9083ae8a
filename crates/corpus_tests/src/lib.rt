//! Tests of what the program `demangle_corpus` does.
#![tactic(auto)]

#[cfg(test)]
mod tests;
