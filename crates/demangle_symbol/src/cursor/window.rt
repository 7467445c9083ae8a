//! Reads sixteen bytes of a symbol at once.
ghost use Rattle.std.specs.Prelude.{◌≡◌, ◌+◌, ◌<◌, ◌≤◌, length, slice_range, IfSome, IfNone};

use crate::cursor::{Looks, Symbol};

/// The number of bytes of a window.
pub const WINDOW: usize = 16;

impl<'s> Symbol<'s> {
    /// Returns the sixteen bytes at a place, or `None` if fewer are there. It makes a look for each
    /// of them.
    #[inline(always)]
    pub fn window(&self, place: usize, looks: &mut Looks) -> Option<&'s [u8; WINDOW]>
        ensures bytes { IfSome result (λ bytes.
            bytes.now ≡ slice_range self.now place (place + WINDOW)) }
        ensures within { IfSome result (λ _. place + WINDOW ≤ length self.now) }
        ensures none { IfNone result (length self.now < place + WINDOW) }
        ensures looks { looks.new ≡ looks.old + WINDOW }
    {
        for _ in 0..WINDOW {
            looks.tick();
        }
        self.inner.as_bytes().get(place..)?.first_chunk::<WINDOW>()
    }
}
