//! Flat statements over numbered flat names.

ghost use Rattle.std.specs.Prelude.{◌≡◌, ◌<◌, ◌≤◌, length, slice_get, true, Some, All};
ghost use Rattle.std.specs.List.{list_all, sum_by};
ghost use Rattle.blif_read.specs.sec_base.TheConstants.{MAX_PLACES, MAX_STATEMENTS};
ghost use Rattle.base_tables.specs.Table.{AreDistinct};
ghost use Rattle.elaborate.specs.Within.{is_within, reads_as_kind, written_places};

use blif_read::{Edge, Ids, Init, NameTable, Seq};

/// What a flat statement is.
#[derive(Clone, Copy)]
pub enum FlatKind {
    /// A gate: its cover is that of a statement of a model, by their places in the design.
    Gate {
        model: u32,
        statement: u32,
    },
    /// A latch: the edge and the clock that are written, and the initial value.
    Latch {
        edge: Option<Edge>,
        control: Option<u32>,
        init: Init,
    },
    /// A pair of an instance.
    Port,
}

/// A flat statement: the signal that it drives, and the signals that it reads in their order, by the numbers of their
/// flat names. A gate reads its fan-ins, a latch its data alone (its clock stands in its kind), a port the other side.
#[derive(Drop)]
pub struct FlatStatement {
    pub out: u32,
    pub reads: Ids,
    pub kind: FlatKind,
}

/// Flat statements.
pub type FlatStatements = Seq<FlatStatement>;

/// The flat statements of a design in the order of the walk, the main model's ports, and the flat names by number.
pub struct Flat {
    pub names: NameTable,
    pub inputs: Ids,
    pub clocks: Ids,
    pub outputs: Ids,
    pub statements: FlatStatements,
    /// No name has two numbers.
    ghost distinct: { AreDistinct names },
    /// Each number is one of a name.
    ghost inputs_within: { All (λ n. n < length names) inputs },
    ghost clocks_within: { All (λ n. n < length names) clocks },
    ghost outputs_within: { All (λ n. n < length names) outputs },
    ghost within: { list_all (is_within (length names)) statements ≡ true },
    /// A latch reads one signal, and so does a port.
    ghost shaped: { list_all reads_as_kind statements ≡ true },
    /// There are at most 400,000 statements, and they write 4,000,000 names at most.
    ghost few: { length statements ≤ MAX_STATEMENTS },
    ghost few_places: { sum_by written_places statements ≤ MAX_PLACES },
}

/// It is let go by one call: an owner isn't taken apart field by field at each way out.
impl Drop for Flat {
    fn drop(self) {
        let Flat {
            names: _,
            inputs: _,
            clocks: _,
            outputs: _,
            statements: _,
        } = self;
    }
}

impl Flat {
    /// The flat name with this number.
    pub fn name(&self, number: u32) -> &[u8]
        requires { number < length self.now.names }
        ensures { slice_get self.now.names number ≡ Some result.now }
    {
        self.names.name(number)
    }
}
