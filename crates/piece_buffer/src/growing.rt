//! A buffer on the heap, which grows.
ghost use Rattle.std.specs.Prelude.{◌≡◌, ◌+◌, ◌<◌, ◌≤◌, [], ◌++◌, take, length, vec_capacity, IsTrue, IsFalse};
ghost use Rattle.std.specs.List.{slice_range};

use crate::copy;
use std::alloc::Global;
use std::marker::Model;

/// The most bytes that a buffer which grows holds, and allocates.
pub const MOST_GROWN: usize = 1_024_000;

/// The number of bytes that are allocated first. They double when they are full.
const FIRST_GROWN: usize = 1024;

/// The most bytes of memory that can grow. If more are needed, `MOST_GROWN` are allocated.
const HALF_GROWN: usize = 512_000;

/// Returns how many bytes to allocate if the memory has `len` and needs `needed`.
fn grown_len(len: usize, needed: usize) -> usize
    requires { needed ≤ MOST_GROWN }
    ensures enough { needed ≤ result }
    ensures most { result ≤ MOST_GROWN }
    ensures halves { result < MOST_GROWN → result ≤ HALF_GROWN }
{
    let doubled = len.saturating_mul(2).max(FIRST_GROWN).max(needed);
    if doubled > HALF_GROWN {
        MOST_GROWN
    } else {
        doubled
    }
}

/// Allocates longer memory for `more` bytes after the first `len`, which are copied to it. Returns
/// `false` if memory can't be allocated, or if there would be more bytes than `MOST_GROWN`. Then the
/// memory is unchanged.
///
/// The memory before is freed after its bytes are copied. Until then, both are allocated.
#[inline(never)]
fn grow(memory: &mut Vec<u8>, len: usize, more: usize, alloc: Global) -> bool
    requires used { len ≤ length memory.old.items }
    requires full { length memory.old.items < len + more }
    requires small { vec_capacity memory.old ≤ MOST_GROWN }
    requires halves { length memory.old.items < MOST_GROWN → vec_capacity memory.old ≤ HALF_GROWN }
    ensures same { take len memory.new.items ≡ take len memory.old.items }
    ensures used { len ≤ length memory.new.items }
    ensures small { vec_capacity memory.new ≤ MOST_GROWN }
    ensures halves { length memory.new.items < MOST_GROWN → vec_capacity memory.new ≤ HALF_GROWN }
    ensures both { IsTrue result → vec_capacity memory.old + vec_capacity memory.new
        ≤ MOST_GROWN + HALF_GROWN }
    ensures room { IsTrue result → len + more ≤ length memory.new.items }
{
    if len > MOST_GROWN || more > MOST_GROWN - len {
        return false;
    }
    let longer_len = grown_len(memory.len(), len + more);
    let most = if longer_len < MOST_GROWN {
        HALF_GROWN
    } else {
        MOST_GROWN
    };
    let mut longer = Vec::new(alloc);
    if longer.resize(longer_len, 0).is_err() || longer.capacity() > most {
        return false;
    }
    copy(&memory[..len], &mut longer);
    *memory = longer;
    true
}

/// Returns whether the memory has `more` bytes after the first `len`, as `grow` does. It grows only if
/// they are not there.
#[inline(always)]
fn make_room(memory: &mut Vec<u8>, len: usize, more: usize, alloc: Global) -> bool
    requires used { len ≤ length memory.old.items }
    requires small { vec_capacity memory.old ≤ MOST_GROWN }
    requires halves { length memory.old.items < MOST_GROWN → vec_capacity memory.old ≤ HALF_GROWN }
    ensures same { take len memory.new.items ≡ take len memory.old.items }
    ensures used { len ≤ length memory.new.items }
    ensures small { vec_capacity memory.new ≤ MOST_GROWN }
    ensures halves { length memory.new.items < MOST_GROWN → vec_capacity memory.new ≤ HALF_GROWN }
    ensures enough { len + more ≤ length memory.old.items → IsTrue result }
    ensures room { IsTrue result → len + more ≤ length memory.new.items }
{
    more <= memory.len() - len || grow(memory, len, more, alloc)
}

/// At most `MOST_GROWN` bytes, in the order in which they were pushed. They are on the heap. Nothing
/// is allocated before the first byte is pushed.
#[derive(Drop)]
pub struct GrowingBuffer {
    alloc: Global,
    memory: Vec<u8>,
    /// The number of bytes that are in use, from the start.
    len: usize,
}

impl Model for GrowingBuffer {
    ghost use Rattle.std.specs.Prelude.{◌<◌, ◌≤◌, ℕ, List, length, take, vec_capacity};
    ghost use Rattle.piece_buffer.specs.declared.growing.TheConstants.{MOST_GROWN, HALF_GROWN};

    ghost Value = { List ℕ };

    ghost view = { λ held. take held.len held.memory.items };

    ghost invariant = { λ held. (held.len ≤ length held.memory.items)
        × (vec_capacity held.memory ≤ MOST_GROWN)
        × (length held.memory.items < MOST_GROWN → vec_capacity held.memory ≤ HALF_GROWN) };
}

impl GrowingBuffer {
    /// Returns an empty buffer.
    pub fn new(alloc: Global) -> Self
        ensures { result ≡ [] }
    {
        GrowingBuffer {
            alloc,
            memory: Vec::new(alloc),
            len: 0,
        }
    }

    /// Returns the buffered bytes.
    pub fn as_slice(&self) -> &[u8]
        ensures { result.now ≡ self.now }
    {
        &self.memory[..self.len]
    }

    /// Returns the number of buffered bytes.
    pub fn len(&self) -> usize
        ensures { result ≡ length self.now }
    {
        self.len
    }

    /// Returns the number of bytes of memory that the buffer has allocated. While it grows, the memory
    /// before is allocated too: together at most `MOST_GROWN + HALF_GROWN` (`both` of `grow`).
    pub fn allocated(&self) -> usize
        ensures { result ≤ MOST_GROWN }
    {
        self.memory.capacity()
    }

    /// Appends all of the piece. If memory can't be allocated, or if there would be more bytes than
    /// `MOST_GROWN`, it returns `false` and changes no byte. It always appends an empty piece.
    #[inline(always)]
    pub fn push(&mut self, piece: &[u8]) -> bool
        ensures empty { length piece.now ≡ 0 → IsTrue result }
        ensures held { IsTrue result → self.new ≡ self.old ++ piece.now }
        ensures kept { IsFalse result → self.new ≡ self.old }
    {
        if !make_room(&mut self.memory, self.len, piece.len(), self.alloc) {
            return false;
        }
        copy(piece, &mut self.memory[self.len..]);
        self.len += piece.len();
        true
    }

    /// Appends `len` of the buffered bytes again, from the byte `start` on. If there is no memory for
    /// them, as for `push`, it returns `false` and changes no byte.
    pub fn push_again(&mut self, start: usize, len: usize) -> bool
        requires { start + len ≤ length self.old }
        ensures held { IsTrue result → self.new ≡ self.old ++ slice_range self.old start (start + len) }
        ensures kept { IsFalse result → self.new ≡ self.old }
    {
        if !make_room(&mut self.memory, self.len, len, self.alloc) {
            return false;
        }
        self.memory.copy_within(start..start + len, self.len);
        self.len += len;
        true
    }

    /// Removes all bytes. The memory stays allocated.
    pub fn clear(&mut self)
        ensures { self.new ≡ [] }
    {
        self.len = 0;
    }
}
