//! Reads the bytes of a symbol: one accessor, the primitives that they spell, and the characters of
//! names and literals.
#![tactic(auto)]

pub mod cursor;
pub mod form;
pub mod literal;
pub mod punycode;
