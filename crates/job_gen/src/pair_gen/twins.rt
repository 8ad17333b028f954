//! The pair of a seed.

ghost use Rattle.std.specs.Prelude.{◌≡◌, false, length, IfOk};
ghost use Rattle.flat_net.specs.Comparable.{IsComparable};
ghost use Rattle.job_gen.specs.pair_gen.Twins.{IsTwin};
ghost use Rattle.job_gen.specs.pair_gen.Words.{words_of};

use crate::pair_gen::sketch::{Plan, add_cells, add_outputs, set_nexts};
use crate::pair_gen::words::words_of;
use flat_net::{Net, NetMaker};
use sec_base::{NoMemory, Side};
use std::alloc::Global;

/// Two circuits of one function, of 5,040 gates and 120 latches each.
#[derive(Drop)]
pub struct Twins {
    pub a: Net,
    pub b: Net,
}

/// The pair of a seed. Both have the inputs `x0` to `x39`, the outputs `y0` to `y39`, and three stages of 42 layers of 40 gates. One word
/// of xoshiro256++ (Blackman and Vigna), seeded by SplitMix64, decides the kind and the second fan-in of a gate in both. In A the forty
/// latches of a stage take over its last layer, in B the layer before the last. A lists where a gate is 1, and B where it is 0, but for
/// exclusive ors; with `regroup` B does so also for those of the first layer.
pub fn generate(alloc: Global, seed: u64, regroup: bool) -> Result<Twins, NoMemory>
    ensures a { IfOk result (λ twins. IsTwin Side.A false (words_of seed) twins.a) }
    ensures b { IfOk result (λ twins. IsTwin Side.B regroup (words_of seed) twins.b) }
    ensures comparable_a { IfOk result (λ twins. IsComparable twins.a) }
    ensures comparable_b { IfOk result (λ twins. IsComparable twins.b) }
{
    let words = words_of(alloc, seed)?;
    let a = draw(alloc, Side::A, false, words.as_slice())?;
    let b = draw(alloc, Side::B, regroup, words.as_slice())?;
    Ok(Twins { a, b })
}

/// A circuit of the pair that these words decide.
fn draw(alloc: Global, circuit: Side, regroup: bool, words: &[u64]) -> Result<Net, NoMemory>
    requires { length words.now ≡ 5040 }
    ensures twin { IfOk result (IsTwin circuit regroup words.now) }
    ensures comparable { IfOk result IsComparable }
{
    let plan = Plan {
        circuit,
        regroup,
        words,
    };
    let mut maker = NetMaker::new(alloc);
    add_cells(alloc, &plan, &mut maker)?;
    set_nexts(&plan, &mut maker);
    add_outputs(alloc, &plan, &mut maker)?;
    Ok(maker.finish())
}
