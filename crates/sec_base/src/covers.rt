//! Covers: a gate's function as rows over its fan-ins (BLIF manual, `.names`).

ghost use Rattle.std.specs.Prelude.{◌≡◌, true, [], ◌∷◌, ◌++◌, length, All, OnOk, OnErr, IfOk};
ghost use Rattle.circuit_theory.specs.Cover.{cover_value, row_matches, place_matches};
ghost use Rattle.std.specs.List.{list_any};
ghost use Rattle.sec_base.specs.Cover.{IsCube, IsCoverSound};

use base_lists::{Cubes, Duplicate, NoMemory, Seq, Word};
use std::alloc::Global;
use std::marker::Model;

/// Rows of one byte for each fan-in, each byte `0`, `1` or `-`. With `on` the rows list where the value is 1,
/// without it where the value is 0; a cover without rows has `on` true, so its value is 0 everywhere.
#[derive(Drop)]
pub struct Cover {
    width: u32,
    rows: Cubes,
    on: bool,
}

impl Model for Cover {
    ghost use Rattle.circuit_theory.specs.Cover as theory;
    ghost use Rattle.sec_base.specs.Cover.{IsCoverSound};

    ghost Value = { theory.Cover };

    ghost view = { λ c. record { width = c.width; rows = c.rows; on = c.on } };

    ghost invariant = { λ c. IsCoverSound (record { width = c.width; rows = c.rows; on = c.on }) };
}

impl Cover {
    /// The cover without rows: the constant 0. It takes no memory.
    pub fn new(alloc: Global, width: u32) -> Cover
        ensures { result ≡ record { width = width; rows = []; on = true } }
    {
        Cover {
            width,
            rows: Seq::new(alloc),
            on: true,
        }
    }

    /// The cover of these rows. It takes no memory.
    pub fn from_rows(width: u32, rows: Cubes, on: bool) -> Cover
        requires cubes { All (IsCube width) rows }
        requires empty_is_on { rows ≡ [] → on ≡ true }
        ensures { result ≡ record { width = width; rows = rows; on = on } }
    {
        Cover { width, rows, on }
    }

    /// Puts a row behind the others. After `NoMemory` nothing has changed.
    pub fn push_row(&mut self, row: Word) -> Result<(), NoMemory>
        requires { IsCube self.old.width row }
        ensures ok { OnOk result (self.new ≡ record self.old { rows = self.old.rows ++ row ∷ [] }) }
        ensures err { OnErr result (self.new ≡ self.old) }
    {
        self.rows.push(row)
    }

    /// Tells a proof what each cover keeps. It does nothing.
    pub fn keeps(&self)
        ensures { IsCoverSound self.now }
    {
        let _ = &self.rows;
    }

    /// The number of fan-ins.
    pub fn width(&self) -> u32
        ensures { result ≡ self.now.width }
    {
        self.width
    }

    /// The rows, in their order.
    pub fn rows(&self) -> &[Word]
        ensures { result.now ≡ self.now.rows }
    {
        self.rows.as_slice()
    }

    /// Whether the rows list where the value is 1.
    pub fn on(&self) -> bool
        ensures { result ≡ self.now.on }
    {
        self.on
    }

    /// The value at these bits of the fan-ins. It takes no memory.
    #[tactic(auto, unfolding(circuit_theory::specs::Cover::cover_value))]
    pub fn value(&self, bits: &[bool]) -> bool
        requires { length bits.now ≡ self.now.width }
        ensures { result ≡ cover_value self.now bits.now }
    {
        let found = any_matches(self.rows.as_slice(), bits);
        if self.on { found } else { !found }
    }

    /// An equal cover.
    pub fn copy(&self) -> Result<Cover, NoMemory>
        ensures { IfOk result (λ made. made ≡ self.now) }
    {
        Ok(Cover {
            width: self.width,
            rows: self.rows.copy()?,
            on: self.on,
        })
    }
}

impl Duplicate for Cover {
    fn duplicate(&self, _alloc: Global) -> Result<Cover, NoMemory> {
        self.copy()
    }
}

/// Whether a byte of a row matches the bit of its fan-in: `-` matches both.
pub fn place_matches(place: u8, bit: bool) -> bool
    ensures { result ≡ place_matches place bit }
{
    place == b'-' || place == (if bit { b'1' } else { b'0' })
}

#[tactic(auto, using(crate::proofs::Rows::row_next, crate::proofs::Rows::row_end))]
fn row_matches(row: &[u8], bits: &[bool]) -> bool
    requires { length row.now ≡ length bits.now }
    ensures { result ≡ row_matches row.now bits.now }
{
    for i in 0..row.len() {
        if !place_matches(row[i], bits[i]) {
            return false;
        }
    }
    true
}

fn any_matches(rows: &[Word], bits: &[bool]) -> bool
    requires { All (λ row. length row ≡ length bits.now) rows.now }
    ensures { result ≡ list_any (λ row. row_matches row bits.now) rows.now }
{
    for row in rows {
        if row_matches(row.as_slice(), bits) {
            return true;
        }
    }
    false
}
