//! Physical lines: the text between line feeds.

ghost use Rattle.std.specs.Prelude.{◌≡◌, ◌+◌, ◌-◌, ◌<◌, ◌^◌, false, true, ◌∷◌, length, IfSome, IfNone};
ghost use Rattle.blif_read.specs.blif_lines.Lines.{physical_left};

use crate::blif_lines::bytes::place_of;

/// The physical lines that are left of a text, and the number of the next.
#[derive(Clone, Copy)]
pub(crate) struct Pieces<'a> {
    pub(crate) rest: &'a [u8],
    pub(crate) is_done: bool,
    pub(crate) number: u32,
    ghost bounded: { is_done ≡ false → number + length rest.now < 2 ^ 32 - 1 },
}

impl<'a> Pieces<'a> {
    /// The next physical line. Numbers go on by one.
    pub(crate) fn next_piece(&mut self) -> Option<&'a [u8]>
        ensures some { IfSome result
            (λ piece. physical_left self.old.is_done self.old.rest.now ≡ piece.now ∷ physical_left self.new.is_done self.new.rest.now) }
        ensures number { IfSome result (λ piece. self.new.number ≡ self.old.number + 1) }
        ensures none { IfNone result (self.old.is_done ≡ true) }
        ensures same { IfNone result (self.new.is_done ≡ true) }
    {
        if self.is_done {
            return None;
        }
        self.number += 1;
        let place = place_of(b'\n', self.rest);
        if place == self.rest.len() {
            self.is_done = true;
            return Some(self.rest);
        }
        let piece = &self.rest[..place];
        self.rest = &self.rest[place + 1..];
        Some(piece)
    }
}
