//! Slow programs over small circuits that compute what the definitions say. They are there to be read and tried: the product's own
//! crates compute the same over nets.

ghost use Rattle.std.specs.Prelude.{◌≡◌, ◌<◌, ◌≤◌, ◌↔◌, ℕ, Bool, IsTrue, length};
ghost use Rattle.call_rows.specs.circuit_samples.Cells.{ReadsBefore, ReadEarlier, circuit_of, numbers_of};
ghost use Rattle.circuit_theory.specs.Depth.{IsDepth};
ghost use Rattle.circuit_theory.specs.Run.{NoneEnabled};
ghost use Rattle.circuit_theory.specs.Tree.{Tree, Unfolds};
ghost use Rattle.circuit_theory.specs.Agree.{IsSettled};
ghost use Rattle.circuit_theory.specs.declared.Mode.TheVariants.{Plain};

/// One signal of a small circuit, which its place in a list numbers.
#[derive(Clone, Copy)]
pub enum Cell {
    /// An input.
    Input,
    /// A latch that takes over an earlier signal.
    Delay(u32),
    /// The NAND of two earlier signals.
    Nand(u32, u32),
}

/// Whether the cell with a number reads lower numbers alone.
fn reads_before(number: usize, cell: Cell) -> bool
    ensures { IsTrue result ↔ ReadsBefore number cell }
{
    match cell {
        Cell::Input => true,
        Cell::Delay(from) => (from as usize) < number,
        Cell::Nand(left, right) => (left as usize) < number && (right as usize) < number,
    }
}

/// Whether each cell reads earlier ones alone, so that there is no feedback.
pub fn read_earlier(cells: &[Cell]) -> bool
    ensures { IsTrue result ↔ ReadEarlier cells.now }
{
    for number in 0..cells.len() {
        if !reads_before(number, cells[number]) {
            return false;
        }
    }
    true
}

/// The sequential depth of a signal, in latches.
pub fn depth(cells: &[Cell], signal: u32) -> u32
    requires earlier { ReadEarlier cells.now }
    requires in_range { signal < length cells.now }
    ensures unfolds { (k : ℕ) → (tree : Tree ℕ) × Unfolds (circuit_of cells.now) (numbers_of cells.now) signal k result tree }
    ensures depth { IsDepth (circuit_of cells.now) NoneEnabled signal result }
    ensures low { result ≤ signal }
{
    match cells[signal as usize] {
        Cell::Input => 0,
        Cell::Delay(from) => depth(cells, from) + 1,
        Cell::Nand(left, right) => {
            let left_depth = depth(cells, left);
            let right_depth = depth(cells, right);
            if left_depth < right_depth {
                right_depth
            } else {
                left_depth
            }
        }
    }
}

/// Whether a signal is settled in a cycle of each run, in the plain mode.
pub fn is_settled(cells: &[Cell], signal: u32, cycle: u32) -> bool
    requires earlier { ReadEarlier cells.now }
    requires in_range { signal < length cells.now }
    ensures { (run : ℕ → ℕ → Bool) → IsTrue result ↔ IsSettled Plain (circuit_of cells.now) run cycle signal }
{
    match cells[signal as usize] {
        Cell::Input => true,
        Cell::Delay(from) => cycle > 0 && is_settled(cells, from, cycle - 1),
        Cell::Nand(left, right) => is_settled(cells, left, cycle)
            && is_settled(cells, right, cycle),
    }
}
