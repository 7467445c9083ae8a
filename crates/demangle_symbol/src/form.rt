//! The form in which symbols are printed.

/// The form in which a symbol is printed, apart from a limit.
#[derive(Clone, Copy, Debug, PartialEq, Eq)]
pub struct Form {
    /// Whether the hash of a legacy symbol, and the hashes and the types of numbers of a v0 symbol,
    /// are printed.
    pub include_hash: bool,
    /// Whether `_` is printed for each list of generic arguments of a v0 symbol. The arguments of a
    /// legacy symbol are parts of names, and are always printed.
    pub fold_arguments: bool,
}
