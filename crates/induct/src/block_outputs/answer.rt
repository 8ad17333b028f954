//! What the query of two signals says of them.

ghost use Rattle.std.specs.Prelude.{◌≡◌, ◌≢◌, ◌*◌, ◌<◌, ◌≤◌, [], ◌∷◌, length, IfOk};
ghost use Rattle.std.specs.List.{AllPairs};
ghost use Rattle.aig.specs.Values.{value};
ghost use Rattle.aig.specs.lane_eval.Tables.{Covers, assigned_to};
ghost use Rattle.block_refine.specs.block_graph.Graph.{IsBlockGraph, IsSignalOf, number_of};
ghost use Rattle.induct.specs.block_outputs.Answers.{IsAnswer};

use aig::{Aig, Lit};
use block_refine::block_graph::{BlockGraph, BlockNets, Comparison, NetSignal};
use class_search::class_separations::cone_values::value_in_cone;
use pair_decide::{Decision, Proof};
use sec_base::{Bits, Ids, MAX_CONFLICTS, NoMemory};
use std::alloc::Global;

/// Values that are constant on the blocks and tell two signals apart.
#[derive(Drop)]
pub struct Shown {
    /// The value of A's signal.
    pub left: bool,
    /// The value of B's signal.
    pub right: bool,
    /// The graph's variables that the two signals are reached from, increasing.
    pub vars: Ids,
    /// A bit for each of the variables. For at most 16 variables they are the least that tell the two apart, the first variable's bit
    /// being the lowest.
    pub bits: Bits,
}

/// The answer to the query of two signals.
#[derive(Drop)]
pub enum OutputAnswer {
    /// They have one value for all values that are constant on the blocks.
    Equal,
    NotShown(Shown),
    Limit(Proof),
}

/// Whether the two signals have one value for all values that are constant on the blocks, with at most so many conflicts.
pub(crate) fn answer(
    alloc: Global,
    nets: &BlockNets<'_>,
    graph: &BlockGraph,
    left: NetSignal,
    right: NetSignal,
    conflicts: u32,
) -> Result<OutputAnswer, NoMemory>
    requires graph { IsBlockGraph nets.now graph.now }
    requires left { IsSignalOf nets.now left }
    requires right { IsSignalOf nets.now right }
    requires conflicts { conflicts ≤ MAX_CONFLICTS }
    ensures { IfOk result (IsAnswer nets.now graph.now conflicts (number_of left) (number_of right)) }
{
    nets.left.keeps();
    nets.right.keeps();
    graph.aig.keeps();
    let compared = graph.compare(alloc, nets, left, right, conflicts)?;
    let Comparison { vars, decision } = compared;
    match decision {
        Decision::Same(_) => Ok(OutputAnswer::Equal),
        Decision::Limit(proof) => Ok(OutputAnswer::Limit(proof)),
        Decision::Differs(bits) => {
            let lit = graph.lit(nets, left);
            let shown = values_shown(alloc, &graph.aig, lit, vars, bits)?;
            Ok(OutputAnswer::NotShown(shown))
        }
    }
}

/// These bits, and the literal's value under them as A's; B's is the other one.
fn values_shown(alloc: Global, aig: &Aig, l: Lit, vars: Ids, bits: Bits) -> Result<Shown, NoMemory>
    requires literal { l.0 < 2 * length aig.now }
    requires each { length bits ≡ length vars }
    requires distinct { AllPairs (λ u v. u ≢ v) vars }
    requires covers { Covers aig.now (l.0 ∷ []) vars }
    ensures vars { IfOk result (λ made. made.vars ≡ vars) }
    ensures bits { IfOk result (λ made. made.bits ≡ bits) }
    ensures left { IfOk result (λ made. made.left ≡ value aig.now (assigned_to vars bits) l.0) }
    ensures right { IfOk result (λ made. made.right ≢ made.left) }
{
    let left = value_in_cone(alloc, aig, l, vars.as_slice(), bits.as_slice())?;
    Ok(Shown {
        left,
        right: !left,
        vars,
        bits,
    })
}
