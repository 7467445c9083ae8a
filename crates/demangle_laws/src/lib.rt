//! Laws about the definitions that the contracts name. Each law is the contract of a function that
//! does nothing.
#![tactic(auto)]

pub mod filtering;
pub mod legacy;
pub mod names;
pub mod printing;
pub mod symbols;
pub mod v0_grammar;
pub mod v0_looks;
pub mod v0_primitives;
