//! The numbers of the latches' variables.

ghost use Rattle.std.specs.Prelude.{◌≡◌, ◌<◌, max, All, IfOk};
ghost use Rattle.reset_form.specs.reset_functions.Bases.{AreBases};

use sec_base::NoMemory;
use sec_setup::Setup;

/// The numbers of the first latches' variables: A's are above all inputs of both circuits, and B's above A's.
#[derive(Clone, Copy)]
pub struct Bases {
    pub left: u32,
    pub right: u32,
}

/// The numbers of the latches' variables of two circuits. `NoMemory` comes where there are too many inputs and latches for numbers
/// below 2^31, as many as no memory has.
pub fn bases_of(setup: &Setup<'_>) -> Result<Bases, NoMemory>
    ensures { IfOk result (AreBases setup.now) }
{
    setup.left.keeps();
    setup.right.keeps();
    let left = above(setup.orders.left.as_slice());
    let right = above(setup.orders.right.as_slice());
    let inputs = greater(left, right);
    let left = greater(inputs, setup.columns.len() as u64);
    let right = left.saturating_add(setup.left.latches().len() as u64);
    if right.saturating_add(setup.right.latches().len() as u64) >= LATCH_NUMBERS {
        return Err(NoMemory);
    }
    Ok(Bases {
        left: left as u32,
        right: right as u32,
    })
}

/// The numbers of latches' variables are below this one.
const LATCH_NUMBERS: u64 = 1 << 31;

/// A number above all of these.
fn above(numbers: &[u32]) -> u64
    ensures { All (λ i. i < result) numbers.now }
{
    let mut above = 0;
    for number in numbers {
        above = greater(above, u64::from(*number) + 1);
    }
    above
}

/// The greater of two numbers.
fn greater(a: u64, b: u64) -> u64
    ensures { result ≡ max a b }
{
    if a < b { b } else { a }
}
