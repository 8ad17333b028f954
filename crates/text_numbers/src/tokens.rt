//! The tokens of a line: what stands between blanks and tabs.

ghost use Rattle.std.specs.Prelude.{◌≡◌, ◌<◌, ◌≤◌, [], ◌∷◌, length, MatchOption};
ghost use Rattle.std.specs.List.{position_or_len};
ghost use Rattle.text_numbers.specs.Lines.{is_blank, tokens_of, put_token, begins_with, is_passed_over};

use std::marker::Model;

/// The tokens that are left of a line. A contract sees them as a list.
#[derive(Drop)]
pub struct Tokens<'a> {
    rest: &'a [u8],
}

impl<'a> Model for Tokens<'a> {
    ghost use Rattle.std.specs.Prelude.{ℕ, List};
    ghost use Rattle.text_numbers.specs.Lines.{tokens_of};

    ghost Value = { List (List ℕ) };

    ghost view = { λ t. tokens_of t.rest.now };
}

impl<'a> Tokens<'a> {
    /// All tokens of a line.
    pub fn new(line: &'a [u8]) -> Self
        ensures { result ≡ tokens_of line.now }
    {
        Tokens { rest: line }
    }

    /// Takes the next token, or none after the last.
    pub fn next_token(&mut self) -> Option<&'a [u8]>
        ensures { MatchOption result ((self.old ≡ []) × (self.new ≡ [])) (λ token. self.old ≡ token.now ∷ self.new) }
    {
        match first_token(self.rest) {
            Some(first) => {
                self.rest = first.after;
                Some(first.word)
            }
            None => {
                self.rest = &[];
                None
            }
        }
    }
}

/// Whether a line is passed over: it has no token, or its first begins with `c`.
pub fn is_passed_over(line: &[u8]) -> bool
    ensures { result ≡ is_passed_over (tokens_of line.now) }
{
    match first_token(line) {
        Some(first) => begins_with(b'c', first.word),
        None => true,
    }
}

/// Whether the byte stands first.
pub(crate) fn begins_with(byte: u8, token: &[u8]) -> bool
    ensures { result ≡ begins_with byte token.now }
{
    token.len() > 0 && token[0] == byte
}

/// A word of a line, and what stands after the blank that ends it.
#[derive(Drop)]
struct Front<'a> {
    word: &'a [u8],
    after: &'a [u8],
}

/// The first token of a line, if it has one.
fn first_token(line: &[u8]) -> Option<Front<'_>>
    ensures { MatchOption result (tokens_of line.now ≡ []) (λ front. tokens_of line.now ≡ front.word.now ∷ tokens_of front.after.now) }
{
    let mut rest = line;
    while rest.len() > 0 {
        let front = first_word(rest);
        if front.word.len() > 0 {
            return Some(front);
        }
        rest = front.after;
    }
    None
}

/// Parts a line at its first blank. The word may be empty.
fn first_word(line: &[u8]) -> Front<'_>
    ensures tokens { tokens_of line.now ≡ put_token result.word.now (tokens_of result.after.now) }
    ensures shorter { 0 < length line.now → length result.after.now < length line.now }
{
    let place = blank_place(line);
    if place == line.len() {
        return Front {
            word: line,
            after: &[],
        };
    }
    Front {
        word: &line[..place],
        after: &line[place + 1..],
    }
}

/// The place of the first blank, or the length where there is none.
fn blank_place(line: &[u8]) -> usize
    ensures place { result ≡ position_or_len is_blank line.now }
    ensures within { result ≤ length line.now }
{
    for (place, byte) in line.iter().enumerate() {
        if is_blank(*byte) {
            return place;
        }
    }
    line.len()
}

/// Whether the byte is a blank or a tab.
fn is_blank(byte: u8) -> bool
    ensures { result ≡ is_blank byte }
{
    byte == b' ' || byte == b'\t'
}
