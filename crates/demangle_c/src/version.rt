//! The text of `kodliwe_version`.

/// The name and the version of the library, and that it is proved.
pub const VERSION: &str = "kodliwe 0.1.0, proved with Rattle";
