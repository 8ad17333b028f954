//! Kinds of gates, and their rows.

ghost use Rattle.std.specs.Prelude.{◌≡◌, Bool, false, true, ◌∷◌, [], length, codes, ◌++◌, IfOk, OnOk};
ghost use Rattle.std.specs.List.{All};
ghost use Rattle.circuit_theory.specs.Cover.{cover_value};
ghost use Rattle.sec_base.specs.Cover.{IsPlace};
ghost use Rattle.job_gen.specs.pair_gen.Kinds.{kind_of, rows_of, RowsSpellFunctions};

use sec_base::{Cover, Cubes, NoMemory, Seq, Side};
use std::alloc::Global;

/// What a gate of two fan-ins computes.
#[derive(Clone, Copy)]
pub enum Kind {
    /// Both.
    And,
    /// One of them or both.
    Or,
    /// One of them alone.
    Xor,
    /// The first without the second.
    AndNot,
}

/// A law: the rows of each kind, in both circuits, spell the kind's function. It does nothing.
pub fn rows_spell_functions()
    ensures { RowsSpellFunctions }
{}

/// The kind that a word decides.
pub(crate) fn kind_of(word: u64) -> Kind
    ensures { result ≡ kind_of word }
{
    match word % 4 {
        0 => Kind::And,
        1 => Kind::Or,
        2 => Kind::Xor,
        _ => Kind::AndNot,
    }
}

/// The rows of a kind in a circuit of a pair; regrouped or not.
pub(crate) fn rows_of(
    alloc: Global,
    circuit: Side,
    regrouped: bool,
    kind: Kind,
) -> Result<Cover, NoMemory>
    ensures { IfOk result (λ cover. cover ≡ rows_of circuit regrouped kind) }
{
    match circuit {
        Side::A => match kind {
            Kind::And => one_row(alloc, b"11", true),
            Kind::Or => two_rows(alloc, b"1-", b"-1", true),
            Kind::Xor => two_rows(alloc, b"10", b"01", true),
            Kind::AndNot => one_row(alloc, b"10", true),
        },
        Side::B => match kind {
            Kind::And => two_rows(alloc, b"0-", b"-0", false),
            Kind::Or => one_row(alloc, b"00", false),
            Kind::Xor if regrouped => two_rows(alloc, b"11", b"00", false),
            Kind::Xor => two_rows(alloc, b"10", b"01", true),
            Kind::AndNot => two_rows(alloc, b"0-", b"-1", false),
        },
    }
}

/// The cover of one row of two places.
fn one_row(alloc: Global, row: &[u8], on: bool) -> Result<Cover, NoMemory>
    requires width { length row.now ≡ 2 }
    requires places { All IsPlace row.now }
    ensures { IfOk result (λ cover. cover ≡ record { width = 2; rows = row.now ∷ []; on = on }) }
{
    let mut rows = Cubes::new(alloc);
    put_row(alloc, &mut rows, row)?;
    Ok(Cover::from_rows(2, rows, on))
}

/// The cover of two rows of two places.
fn two_rows(alloc: Global, first: &[u8], second: &[u8], on: bool) -> Result<Cover, NoMemory>
    requires first_width { length first.now ≡ 2 }
    requires first_places { All IsPlace first.now }
    requires second_width { length second.now ≡ 2 }
    requires second_places { All IsPlace second.now }
    ensures { IfOk result (λ cover. cover ≡ record { width = 2; rows = first.now ∷ second.now ∷ []; on = on }) }
{
    let mut rows = Cubes::new(alloc);
    put_row(alloc, &mut rows, first)?;
    put_row(alloc, &mut rows, second)?;
    Ok(Cover::from_rows(2, rows, on))
}

/// Puts a row behind the others.
fn put_row(alloc: Global, rows: &mut Cubes, row: &[u8]) -> Result<(), NoMemory>
    ensures { OnOk result (rows.new ≡ rows.old ++ row.now ∷ []) }
{
    let row = row.to_vec(alloc)?;
    rows.push(Seq::from_vec(row))
}
