//! The comparison.

ghost use Rattle.std.specs.Prelude.{◌≡◌, ◌≤◌, None, IfOk, IfErr};
ghost use Rattle.circuit_theory.specs.Interface.{first_mismatch, AreOrders};
ghost use Rattle.circuit_laws.specs.reset_laws.Reset.{AgreeFromReset};
ghost use Rattle.flat_net.specs.Comparable.{IsComparable};
ghost use Rattle.flat_net.specs.View.{circuit_of, ports_of};
ghost use Rattle.block_refine.specs.latch_blocks.Signals.{net_weight};
ghost use Rattle.induct.specs.declared.induction.InductVerdict.TheVariants as verdict;
ghost use Rattle.block_refine.specs.Refining.{AreCoarsest, IsSplitLimit};
ghost use Rattle.induct.specs.Inductions.{AreOwnNumbers, IsOver, IsSplitLimitOf, IsInduction, IsRefusal};

use crate::block_outputs::{Refined, SplitLimit, compare_outputs, refine};
use crate::members::{members, tag_at};
use crate::numbers::own_numbers;
use crate::verdict::judge;
use block_refine::block_graph::{BlockGraph, BlockNets};
use block_refine::latch_blocks::is_light;
use flat_net::Net;
use pair_decide::Proof;
use sec_base::{
    Bits, Ids, MAX_CONFLICTS, MAX_WEIGHT, NoMemory, Orders, PairAnswer, Seq, Side, Tag, Word,
};
use sec_setup::ports::inputs_beside;
use std::alloc::Global;

/// The latches of one block: A's before B's, each circuit's in its order.
pub type Block = Seq<Tag>;

/// Blocks in the order of their first members.
pub type Blocks = Seq<Block>;

/// An output of both circuits.
#[derive(Drop)]
pub struct InductPair {
    pub name: Word,
    /// `Equal`, `NotShown` or `Limit`.
    pub answer: PairAnswer,
    /// There exactly where the answer is `Limit`.
    pub proof: Option<Proof>,
}

/// Pairs in the order of A's outputs.
pub type InductPairs = Seq<InductPair>;

/// What is said of both circuits.
#[derive(Drop)]
pub enum InductVerdict {
    /// Each output agrees in every cycle of all runs from the initial values with equal inputs.
    Equal,
    /// The first output that isn't shown equal, the values of A's and B's, and the bits of these variables that give them: an input
    /// has its number, and the block with the number K, counted from 1, has `N + K - 1`, where N is the number of shared inputs. It
    /// claims nothing about the circuits.
    NotShown {
        pair: Word,
        left: bool,
        right: bool,
        vars: Ids,
        bits: Bits,
    },
    /// The first output whose query met the limit.
    Limit {
        pair: Word,
    },
    /// Two latches of one block, and the proof of the query of their data, which met the limit while blocks were split.
    SplitLimit {
        left: Tag,
        right: Tag,
        proof: Proof,
    },
}

/// The blocks, the outputs and the verdict.
#[derive(Drop)]
pub struct Induction {
    /// The coarsest inductive partition; after `SplitLimit` the partition of that moment, which the coarsest one refines.
    pub blocks: Blocks,
    /// Empty after `SplitLimit`.
    pub pairs: InductPairs,
    pub verdict: InductVerdict,
}

/// Why two circuits aren't compared.
#[derive(Drop)]
pub enum InductError {
    /// All inputs, latches and gates of this circuit weigh more than 2,000,000 together, each once; A comes first.
    TooLarge(Side),
    /// Memory was wanted and couldn't be had.
    NoMemory,
}

impl From<NoMemory> for InductError {
    ghost use Rattle.std.specs.Prelude.{◌≡◌};
    ghost use Rattle.induct.specs.declared.induction.InductError.TheVariants.{NoMemory};

    ghost from_gives = { λ _ e. e ≡ NoMemory };

    fn from(_error: NoMemory) -> InductError {
        InductError::NoMemory
    }
}

/// Whether all outputs of one name agree from the initial values on, with at most so many conflicts for each query.
pub fn induct(
    alloc: Global,
    a: &Net,
    b: &Net,
    orders: &Orders,
    conflicts: u32,
) -> Result<Induction, InductError>
    requires matches { first_mismatch (ports_of a.now) (ports_of b.now) ≡ None }
    requires right { IsComparable b.now }
    requires orders { AreOrders (ports_of a.now) (ports_of b.now) orders.now.left orders.now.right }
    requires conflicts { conflicts ≤ MAX_CONFLICTS }
    ensures light { IfOk result (λ _. (net_weight a.now ≤ MAX_WEIGHT) × (net_weight b.now ≤ MAX_WEIGHT)) }
    ensures made { IfOk result (IsInduction a.now b.now conflicts) }
    ensures agree { IfOk result (λ made. made.verdict ≡ verdict.Equal → AgreeFromReset (circuit_of a.now) (circuit_of b.now)) }
    ensures refused { IfErr result (IsRefusal a.now b.now) }
{
    if !is_light(a) {
        return Err(InductError::TooLarge(Side::A));
    }
    if !is_light(b) {
        return Err(InductError::TooLarge(Side::B));
    }
    let made = induct_light(alloc, a, b, orders, conflicts)?;
    Ok(made)
}

/// The same of two light nets.
fn induct_light(
    alloc: Global,
    a: &Net,
    b: &Net,
    orders: &Orders,
    conflicts: u32,
) -> Result<Induction, NoMemory>
    requires matches { first_mismatch (ports_of a.now) (ports_of b.now) ≡ None }
    requires right { IsComparable b.now }
    requires orders { AreOrders (ports_of a.now) (ports_of b.now) orders.now.left orders.now.right }
    requires light { (net_weight a.now ≤ MAX_WEIGHT) × (net_weight b.now ≤ MAX_WEIGHT) }
    requires conflicts { conflicts ≤ MAX_CONFLICTS }
    ensures made { IfOk result (IsInduction a.now b.now conflicts) }
    ensures agree { IfOk result (λ made. made.verdict ≡ verdict.Equal → AgreeFromReset (circuit_of a.now) (circuit_of b.now)) }
{
    let own = own_numbers(alloc, a, b, orders)?;
    match refine(alloc, a, b, &own, conflicts)? {
        Refined::Limit(limit) => {
            let made = split_limit(alloc, a, b, &own, limit, conflicts)?;
            Ok(made)
        }
        Refined::Inductive(blocks) => {
            let nets = BlockNets {
                left: a,
                right: b,
                orders: &own,
                blocks: blocks.as_slice(),
            };
            let made = over_blocks(alloc, &nets, conflicts)?;
            Ok(made)
        }
    }
}

/// The partition of the moment at which a query met the limit.
fn split_limit(
    alloc: Global,
    a: &Net,
    b: &Net,
    own: &Orders,
    limit: SplitLimit,
    conflicts: u32,
) -> Result<Induction, NoMemory>
    requires light { (net_weight a.now ≤ MAX_WEIGHT) × (net_weight b.now ≤ MAX_WEIGHT) }
    requires limit { IsSplitLimit a.now b.now own.now conflicts limit }
    ensures { IfOk result (IsSplitLimitOf a.now b.now own.now conflicts) }
{
    a.keeps();
    b.keeps();
    let count = a.latches().len();
    let SplitLimit {
        blocks,
        left,
        right,
        proof,
    } = limit;
    let listed = members(alloc, count, blocks.as_slice())?;
    Ok(Induction {
        blocks: listed,
        pairs: InductPairs::new(alloc),
        verdict: InductVerdict::SplitLimit {
            left: tag_at(count, left),
            right: tag_at(count, right),
            proof,
        },
    })
}

/// The outputs over the coarsest inductive partition.
fn over_blocks(alloc: Global, nets: &BlockNets<'_>, conflicts: u32) -> Result<Induction, NoMemory>
    requires matches { first_mismatch (ports_of nets.now.left.now) (ports_of nets.now.right.now) ≡ None }
    requires right { IsComparable nets.now.right.now }
    requires light { (net_weight nets.now.left.now ≤ MAX_WEIGHT) × (net_weight nets.now.right.now ≤ MAX_WEIGHT) }
    requires numbers { AreOwnNumbers nets.now.left.now nets.now.right.now nets.now.orders.now }
    requires coarsest { AreCoarsest nets.now.left.now nets.now.right.now nets.now.orders.now nets.now.blocks.now }
    requires conflicts { conflicts ≤ MAX_CONFLICTS }
    ensures made { IfOk result (IsOver nets.now.left.now nets.now.right.now nets.now.orders.now conflicts) }
    ensures agree { IfOk result (λ made. made.verdict ≡ verdict.Equal → AgreeFromReset (circuit_of nets.now.left.now) (circuit_of nets.now.right.now)) }
{
    nets.left.keeps();
    nets.right.keeps();
    let count = inputs_beside(alloc, nets.left, nets.right)?.len();
    let blocks = members(alloc, nets.left.latches().len(), nets.blocks)?;
    let graph = BlockGraph::new(alloc, nets)?;
    let outputs = compare_outputs(alloc, nets, &graph, conflicts)?;
    let first = graph.limit - nets.blocks.len() as u32;
    let made = judge(alloc, first, count, outputs, blocks)?;
    Ok(made)
}
