//! Counts looks at the bytes of a symbol. The count occupies no memory.
ghost use Rattle.std.specs.Prelude.{◌≡◌, ◌+◌};

use std::marker::Model;
use std::mem;
use std::snapshot::Snapshot;

/// A natural number as the number of steps from zero. No value exists at run time.
#[derive(Drop)]
enum Unary {
    Zero,
    More(Snapshot<Unary>),
}

/// The number of looks made. It occupies no bytes, and only `tick` raises it.
#[derive(Drop)]
pub struct Looks {
    count: Snapshot<Unary>,
}

impl Model for Looks {
    ghost use Rattle.std.specs.Prelude.{ℕ};

    ghost Value = { ℕ };

    ghost use Rattle.demangle_symbol.specs.Looks.{height};

    ghost view = { λ s. height s.count.value };
}

impl Looks {
    /// Returns a count of zero looks.
    pub fn new() -> Looks
        ensures { result ≡ 0 }
    {
        Looks {
            count: Snapshot::of(&Unary::Zero),
        }
    }

    /// Adds one look.
    pub(super) fn tick(&mut self)
        ensures { self.new ≡ self.old + 1 }
    {
        let before = mem::replace(&mut self.count, Snapshot::of(&Unary::Zero));
        self.count = Snapshot::of(&Unary::More(before));
    }
}

const _: () = prove!(mem::size_of::<Looks>() == 0);

/// The looks at runs: those that decide whether they are symbols, and those of printing. They occupy
/// no bytes.
#[derive(Drop)]
pub struct RunLooks {
    /// Those that decide whether it is a symbol, and those of what is printed up to then.
    pub accepting_looks: Looks,
    /// Those of what is printed after that.
    pub printing_looks: Looks,
}

impl RunLooks {
    /// Returns counts of zero looks.
    pub fn new() -> RunLooks
        ensures accepting { result.accepting_looks ≡ 0 }
        ensures printing { result.printing_looks ≡ 0 }
    {
        RunLooks {
            accepting_looks: Looks::new(),
            printing_looks: Looks::new(),
        }
    }
}

const _: () = prove!(mem::size_of::<RunLooks>() == 0);
