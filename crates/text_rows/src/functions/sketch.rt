//! Small graphs that rows define.

ghost use Rattle.std.specs.Prelude.{◌≡◌, ◌≤◌, [], ◌∷◌, ◌++◌, length, IfOk, OnOk, IsTrue};
ghost use Rattle.sec_base.specs.Cover.{IsCube, IsPlace};

use crate::row_text::{number_of, split_at};
use aig::{Aig, Lit};
use sec_base::{Cover, Cubes, NoMemory, Seq};
use std::alloc::Global;

/// The most nodes of a graph that a row defines.
pub(crate) const NODES: u64 = 10_000;

/// The most variables that a word defines, or takes the and of.
const VARIABLES: u64 = 100;

/// A number of no literal, past those of each graph. So is its complement.
const NONE: u64 = u64::MAX;

/// A graph, and the number of the literal that each definition but those of variables gave. It isn't whole where one gave none.
pub(crate) struct Sketch {
    pub(crate) graph: Aig,
    pub(crate) made: Vec<u64>,
    pub(crate) is_whole: bool,
}

/// It is let go by one call: an owner isn't taken apart field by field at each way out.
impl Drop for Sketch {
    fn drop(self) {
        let Sketch {
            graph: _,
            made: _,
            is_whole: _,
        } = self;
    }
}

impl Sketch {
    /// The number of the literal that a word names: a number, or `@k` for what definition k gave; with `~` before it, the complement.
    pub(crate) fn literal(&self, word: &[u8]) -> u64 {
        let (plain, turn) = match word {
            [b'~', plain @ ..] => (plain, 1),
            plain => (plain, 0),
        };
        let number = match plain {
            [b'@', digits @ ..] => {
                let place = number_of(digits).unwrap_or(NONE);
                match self.made.get(place as usize) {
                    Some(made) => *made,
                    None => NONE,
                }
            }
            digits => number_of(digits).unwrap_or(NONE),
        };
        number ^ turn
    }

    /// Adds what a word defines: `vN` the first N variables; `upN`, `downN` or `noneN` the and of these, from the first on, from
    /// the last on, or of their complements; `L&R` and `L|R` an and and an or; `on-ROW,ROW` and `off-ROW,ROW` a cover of the
    /// first two variables.
    fn define(&mut self, alloc: Global, word: &[u8]) {
        let number = match word {
            [b'v', digits @ ..] => return self.define_variables(digits),
            [b'u', _, digits @ ..] => self.and_all(digits, false, 2),
            [b'd', _, _, _, digits @ ..] => self.and_all(digits, true, 2),
            [b'n', _, _, _, digits @ ..] => self.and_all(digits, false, 3),
            [b'o', b'n', _, rows @ ..] => self.cover_of(alloc, rows, true),
            [b'o', _, _, _, rows @ ..] => self.cover_of(alloc, rows, false),
            _ => self.gate(word),
        };
        if number >= 2 * self.graph.size() as u64 || self.made.push(number).is_err() {
            self.is_whole = false;
        }
    }

    fn define_variables(&mut self, digits: &[u8]) {
        for variable in 0..number_of(digits).unwrap_or(0).min(VARIABLES) {
            if self.graph.size() as u64 >= NODES || self.graph.input(variable as u32).is_err() {
                self.is_whole = false;
            }
        }
    }

    /// The and or the or that a word spells.
    fn gate(&mut self, word: &[u8]) -> u64 {
        let (first, second) = split_at(b'&', word);
        if !second.is_empty() {
            return self.and_of(self.literal(first), self.literal(second));
        }
        let (first, second) = split_at(b'|', word);
        self.and_of(self.literal(first) ^ 1, self.literal(second) ^ 1) ^ 1
    }

    /// The and, or none where the graph has no room or isn't the literals'.
    fn and_of(&mut self, l: u64, r: u64) -> u64 {
        let size = self.graph.size() as u64;
        if size >= NODES || l >= 2 * size || r >= 2 * size {
            return NONE;
        }
        match self.graph.and(Lit(l as u32), Lit(r as u32)) {
            Ok(lit) => lit.0 as u64,
            Err(_) => NONE,
        }
    }

    /// The and of so many literals, each that of a variable, the first of which is 2 or its complement 3; down from the last one, or up
    /// from the first.
    fn and_all(&mut self, digits: &[u8], is_down: bool, first: u64) -> u64
        requires { first ≤ 3 }
    {
        let count = number_of(digits).unwrap_or(0).min(VARIABLES);
        let mut all = 1;
        for place in 0..count {
            let number = if is_down {
                2 * (count - place)
            } else {
                2 * place + first
            };
            all = self.and_of(all, number);
        }
        all
    }

    /// The literal of the cover of the first two variables that has the two rows that a comma parts.
    fn cover_of(&mut self, alloc: Global, rows: &[u8], on: bool) -> u64 {
        if rows.len() != 5 || !is_row(&rows[..2]) || !is_row(&rows[3..]) {
            return NONE;
        }
        let size = self.graph.size() as u64;
        if size < 3 || size > NODES {
            return NONE;
        }
        let Ok(cover) = cover_by(alloc, &rows[..2], &rows[3..], on) else {
            return NONE;
        };
        match self.graph.cover(&cover, &[Lit(2), Lit(4)]) {
            Ok(lit) => lit.0 as u64,
            Err(_) => NONE,
        }
    }
}

/// The graph of the definitions, which isn't whole where one isn't of its graph.
pub(crate) fn sketched(alloc: Global, definitions: &[u8]) -> Result<Sketch, NoMemory> {
    let mut sketch = Sketch {
        graph: Aig::new(alloc)?,
        made: Vec::new(alloc),
        is_whole: true,
    };
    let mut rest = definitions;
    for _ in 0..definitions.len() {
        let (word, later) = split_at(b' ', rest);
        rest = later;
        if !word.is_empty() {
            sketch.define(alloc, word);
        }
    }
    Ok(sketch)
}

fn cover_by(alloc: Global, first: &[u8], second: &[u8], on: bool) -> Result<Cover, NoMemory>
    requires first { IsCube 2 first.now }
    requires second { IsCube 2 second.now }
    ensures width { IfOk result (λ cover. cover.width ≡ 2) }
    ensures rows { IfOk result (λ cover. length cover.rows ≡ 2) }
{
    let mut rows = Seq::new(alloc);
    add_row(alloc, &mut rows, first)?;
    add_row(alloc, &mut rows, second)?;
    Ok(Cover::from_rows(2, rows, on))
}

/// Puts a copy of the row last.
fn add_row(alloc: Global, rows: &mut Cubes, row: &[u8]) -> Result<(), NoMemory>
    ensures { OnOk result (rows.new ≡ rows.old ++ row.now ∷ []) }
{
    rows.push(Seq::from_vec(row.to_vec(alloc)?))
}

/// Whether it is a row of a cover of two columns.
fn is_row(row: &[u8]) -> bool
    ensures { IsTrue result → IsCube 2 row.now }
{
    row.len() == 2 && is_place(row[0]) && is_place(row[1])
}

fn is_place(byte: u8) -> bool
    ensures { IsTrue result → IsPlace byte }
{
    byte == b'0' || byte == b'1' || byte == b'-'
}
