//! The pieces of a text between separators.

ghost use Rattle.std.specs.Prelude.{◌≡◌, ◌==◌, ◌<◌, ◌≤◌, [], ◌∷◌, length, MatchOption};
ghost use Rattle.std.specs.List.{slice_split, position_or_len};

use std::marker::Model;

/// The pieces that are left of a text, which a byte parts. A contract sees them as a list.
#[derive(Drop)]
pub(crate) struct Pieces<'a> {
    rest: &'a [u8],
    separator: u8,
    is_done: bool,
}

impl<'a> Model for Pieces<'a> {
    ghost use Rattle.std.specs.Prelude.{ℕ, List, [], ◌==◌, if◌then◌else◌};
    ghost use Rattle.std.specs.List.{slice_split};

    ghost Value = { List (List ℕ) };

    ghost view = { λ p. if p.is_done then [] else slice_split (λ b. b == p.separator) p.rest.now };
}

impl<'a> Pieces<'a> {
    /// All pieces of a text.
    pub(crate) fn new(text: &'a [u8], separator: u8) -> Self
        ensures { result ≡ slice_split (λ b. b == separator) text.now }
    {
        Pieces {
            rest: text,
            separator,
            is_done: false,
        }
    }

    /// Takes the next piece, or none after the last.
    pub(crate) fn next_piece(&mut self) -> Option<&'a [u8]>
        ensures { MatchOption result ((self.old ≡ []) × (self.new ≡ [])) (λ piece. self.old ≡ piece.now ∷ self.new) }
    {
        if self.is_done {
            return None;
        }
        let text = self.rest;
        let place = place_of(self.separator, text);
        if place == text.len() {
            self.is_done = true;
            return Some(text);
        }
        self.rest = &text[place + 1..];
        Some(&text[..place])
    }
}

/// The place at which the byte stands first, or the length where it doesn't stand.
fn place_of(byte: u8, bytes: &[u8]) -> usize
    ensures place { result ≡ position_or_len (λ b. b == byte) bytes.now }
    ensures within { result ≤ length bytes.now }
{
    for (place, b) in bytes.iter().enumerate() {
        if *b == byte {
            return place;
        }
    }
    bytes.len()
}
