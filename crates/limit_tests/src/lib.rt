//! Tests of limits, and of references and fuel.
#![tactic(auto)]

#[cfg(test)]
mod tests;
