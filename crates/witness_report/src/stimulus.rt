//! Values of named inputs.

ghost use Rattle.std.specs.Prelude.{◌≡◌, length, All};
ghost use Rattle.base_tables.specs.Table.{AreDistinct};

use sec_base::{BitRows, Words};

/// Values of named inputs, cycle by cycle.
#[derive(Drop)]
pub struct Stimulus {
    /// The names of the inputs, all distinct.
    pub names: Words,
    /// For each cycle from 0 on, one bit for each name.
    pub rows: BitRows,
    pub ghost distinct: { AreDistinct names },
    pub ghost fit: { All (λ row. length row ≡ length names) rows },
}
