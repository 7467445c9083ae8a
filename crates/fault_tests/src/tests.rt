//! Tests of readers, writers and heaps that fail.

mod faults;
mod memory;
