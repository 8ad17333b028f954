//! Logical lines: physical lines that are cut and joined.

ghost use Rattle.std.specs.Prelude.{◌≡◌, ◌-◌, ◌<◌, ◌^◌, false, [], ◌∷◌, length, IfOk, OnErr, MatchOption};
ghost use Rattle.blif_read.specs.blif_lines.Lines.{raw_line, raw_lines, left_lines, before_line};

use crate::blif_lines::bytes::{cut_line, ends_with, without_last};
use crate::blif_lines::line::RawLine;
use crate::blif_lines::physical::Pieces;
use sec_base::{NoMemory, Seq};
use std::alloc::Global;
use std::marker::Model;

/// The lines of a text that are left to read. A contract sees them as a list.
#[derive(Drop)]
pub struct Lines<'a> {
    pieces: Pieces<'a>,
}

impl<'a> Model for Lines<'a> {
    ghost use Rattle.std.specs.Prelude.{List};
    ghost use Rattle.blif_read.specs.declared.blif_lines.line.RawLine.{RawLine};
    ghost use Rattle.blif_read.specs.blif_lines.Lines.{left_lines};

    ghost Value = { List RawLine };

    ghost view = { λ l. left_lines l.pieces.is_done l.pieces.number l.pieces.rest.now };
}

impl<'a> Lines<'a> {
    /// The lines of a text, from the first.
    pub fn new(text: &'a [u8]) -> Self
        requires { length text.now < 2 ^ 32 - 2 }
        ensures { result ≡ raw_lines text.now }
    {
        Lines {
            pieces: Pieces {
                rest: text,
                is_done: false,
                number: 1,
            },
        }
    }

    /// Takes the next line, or none after the last. Lines without tokens are lines too. After
    /// `NoMemory` nothing has changed.
    pub fn next_line(&mut self, alloc: Global) -> Result<Option<RawLine>, NoMemory>
        ensures ok { IfOk result (λ next. MatchOption next ((self.old ≡ []) × (self.new ≡ [])) (λ line. self.old ≡ line ∷ self.new)) }
        ensures err { OnErr result (self.new ≡ self.old) }
    {
        if self.pieces.is_done {
            return Ok(None);
        }
        let Joined { line, after } = join_from(self.pieces, self.pieces.number, Vec::new(alloc))?;
        self.pieces = after;
        Ok(Some(line))
    }
}

/// A line, and the physical lines after it.
#[derive(Drop)]
struct Joined<'a> {
    line: RawLine,
    after: Pieces<'a>,
}

/// The line that was begun on the numbered line with these bytes, and goes on in the pieces.
fn join_from(pieces: Pieces<'_>, number: u32, begun: Vec<u8>) -> Result<Joined<'_>, NoMemory>
    ensures { IfOk result
        (λ joined. before_line number begun.items (left_lines pieces.entry.is_done pieces.entry.number pieces.entry.rest.now) ≡ joined.line ∷ left_lines joined.after.is_done joined.after.number joined.after.rest.now) }
{
    let mut after = pieces;
    let mut bytes = begun;
    while let Some(piece) = after.next_piece() {
        let body = cut_line(piece);
        if ends_with(b'\\', body) {
            bytes.extend_from_slice(without_last(body))?;
            bytes.push(b' ')?;
        } else {
            bytes.extend_from_slice(body)?;
            return Ok(join_end(number, bytes, after));
        }
    }
    Ok(join_end(number, bytes, after))
}

/// The line of these bytes, before the pieces.
fn join_end(number: u32, bytes: Vec<u8>, after: Pieces<'_>) -> Joined<'_>
    ensures line { result.line ≡ raw_line number bytes.items }
    ensures after { result.after ≡ after.entry }
{
    Joined {
        line: RawLine {
            number,
            bytes: Seq::from_vec(bytes),
        },
        after,
    }
}
