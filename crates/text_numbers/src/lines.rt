//! The lines of a text.

ghost use Rattle.std.specs.Prelude.{◌≡◌, ◌+◌, ◌^◌, ◌<◌, ◌≤◌, [], ◌∷◌, length, MatchOption};
ghost use Rattle.std.specs.List.{position_or_len};
ghost use Rattle.std.specs.Io.BufRead.{strip_last};
ghost use Rattle.text_numbers.specs.Lines.{is_line_feed, lines_of};

use sec_base::MAX_FILE_BYTES;
use std::marker::Model;

/// The lines that are left of a text. A contract sees them as a list.
#[derive(Drop)]
pub struct Lines<'a> {
    rest: &'a [u8],
    is_done: bool,
}

impl<'a> Model for Lines<'a> {
    ghost use Rattle.std.specs.Prelude.{ℕ, List};
    ghost use Rattle.text_numbers.specs.Lines.{lines_left};

    ghost Value = { List (List ℕ) };

    ghost view = { λ l. lines_left l.is_done l.rest.now };
}

impl<'a> Lines<'a> {
    /// All lines of a text.
    pub fn new(text: &'a [u8]) -> Self
        ensures { result ≡ lines_of text.now }
    {
        Lines {
            rest: text,
            is_done: false,
        }
    }

    /// Takes the next line, or none after the last.
    pub fn next_line(&mut self) -> Option<&'a [u8]>
        ensures { MatchOption result ((self.old ≡ []) × (self.new ≡ [])) (λ line. self.old ≡ line.now ∷ self.new) }
    {
        if self.is_done {
            return None;
        }
        let text = self.rest;
        let place = line_end(text);
        if place == text.len() {
            self.is_done = true;
            return Some(text);
        }
        self.rest = &text[place + 1..];
        Some(without_return(&text[..place]))
    }
}

/// The lines that are left of a text, and the number of the line that was taken last, 0 before the first.
#[derive(Drop)]
pub struct NumberedLines<'a> {
    pub left: Lines<'a>,
    pub number: u32,
    pub ghost few: { number + length left < 2 ^ 32 },
}

impl<'a> NumberedLines<'a> {
    /// All lines of a text of at most 16,777,216 bytes.
    #[tactic(auto, using(crate::proofs::Pieces::few_lines))]
    pub fn new(text: &'a [u8]) -> Self
        requires { length text.now ≤ MAX_FILE_BYTES }
        ensures left { result.left ≡ lines_of text.now }
        ensures number { result.number ≡ 0 }
    {
        NumberedLines {
            left: Lines::new(text),
            number: 0,
        }
    }

    /// Takes the next line, which then has the number, or none after the last.
    pub fn next_line(&mut self) -> Option<&'a [u8]>
        ensures { MatchOption result (self.old.left ≡ []) (λ line. (self.old.left ≡ line.now ∷ self.new.left) × (self.new.number ≡ self.old.number + 1)) }
    {
        let Some(line) = self.left.next_line() else {
            return None;
        };
        self.number += 1;
        Some(line)
    }
}

/// The place of the first line feed, or the length where there is none.
fn line_end(text: &[u8]) -> usize
    ensures place { result ≡ position_or_len is_line_feed text.now }
    ensures within { result ≤ length text.now }
{
    for (place, byte) in text.iter().enumerate() {
        if is_line_feed(*byte) {
            return place;
        }
    }
    text.len()
}

fn is_line_feed(byte: u8) -> bool
    ensures { result ≡ is_line_feed byte }
{
    byte == b'\n'
}

/// A line without the carriage return at its end.
fn without_return(line: &[u8]) -> &[u8]
    ensures { result.now ≡ strip_last 13 line.now }
{
    if line.len() > 0 && line[line.len() - 1] == b'\r' {
        return &line[..line.len() - 1];
    }
    line
}
