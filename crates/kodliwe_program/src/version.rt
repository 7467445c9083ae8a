//! The version, and how the program was built.
//!
//! The build by rustc has another text in its place.

pub const VERSION: &str = "\
kodliwe 0.1.0
Proved with Rattle, logic dac8208d650f15bf
Licence: MIT
";
