//! Counts the keys that a memo compares. The count occupies no memory.
ghost use Rattle.std.specs.Prelude.{◌≡◌, ◌+◌, ◌↔◌, IsTrue};

use std::marker::Model;
use std::mem;
use std::snapshot::Snapshot;

/// A natural number as the number of steps from zero. No value exists at run time.
#[derive(Drop)]
enum Unary {
    Zero,
    More(Snapshot<Unary>),
}

/// The number of comparisons. It occupies no bytes, and only `are_equal` raises it.
#[derive(Drop)]
pub struct Comparisons {
    count: Snapshot<Unary>,
}

impl Model for Comparisons {
    ghost use Rattle.std.specs.Prelude.{ℕ};

    ghost Value = { ℕ };

    ghost use Rattle.text_memo.specs.Comparisons.{height};

    ghost view = { λ s. height s.count.value };
}

impl Comparisons {
    /// Returns a count of zero comparisons.
    pub fn new() -> Comparisons
        ensures { result ≡ 0 }
    {
        Comparisons {
            count: Snapshot::of(&Unary::Zero),
        }
    }

    /// Adds one comparison.
    fn tick(&mut self)
        ensures { self.new ≡ self.old + 1 }
    {
        let before = mem::replace(&mut self.count, Snapshot::of(&Unary::Zero));
        self.count = Snapshot::of(&Unary::More(before));
    }
}

/// Returns whether two texts are the same, and counts one comparison.
#[inline(always)]
pub(super) fn are_equal(one: &[u8], other: &[u8], comparisons: &mut Comparisons) -> bool
    ensures same { IsTrue result ↔ (one.now ≡ other.now) }
    ensures counted { comparisons.new ≡ comparisons.old + 1 }
{
    comparisons.tick();
    one == other
}

const _: () = prove!(mem::size_of::<Comparisons>() == 0);
