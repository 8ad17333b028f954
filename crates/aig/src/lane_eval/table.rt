//! All assignments of at most 24 variables, 512 at a time, over the cones of three literals alone.

ghost use Rattle.std.specs.Prelude.{◌≡◌, ◌≢◌, ℕ, ◌*◌, ◌^◌, ◌<◌, ◌≤◌, [], ◌∷◌, length, Option, All, IfOk};
ghost use Rattle.std.specs.List.{AllPairs};
ghost use Rattle.aig.specs.lane_eval.Blocks.{block_bit, lane, IsBlock};
ghost use Rattle.aig.specs.lane_eval.Tables.{Covers, IsTable};
ghost use Rattle.aig.specs.lane_eval.Renaming.{IsSound, IsLeastOf, IsFirstOfBlock, tells_apart};

use crate::lane_eval::blocks::{and_block, first_bit};
use crate::lane_eval::evaluation::{and_lits, node_blocks};
use crate::lane_eval::places::renamed;
use crate::lane_eval::variables::{LANES, put_variables};
use crate::{Aig, Ids, Lit, NoMemory, Node, cones_of};
use std::alloc::Global;
use std::simd::u64x8;

/// Three literals of a graph whose variables are 0, 1 and so on.
#[derive(Drop)]
pub(crate) struct Table {
    pub(crate) nodes: Vec<Node>,
    pub(crate) left: Lit,
    pub(crate) right: Lit,
    pub(crate) care: Lit,
}

/// The least assignment under which the care holds and `l` and `r` differ, if there is one: its bits are the variables'
/// bits, the first variable's the lowest.
pub fn table_differs(
    alloc: Global,
    aig: &Aig,
    l: Lit,
    r: Lit,
    care: Lit,
    vars: &Ids,
) -> Result<Option<u32>, NoMemory>
    requires left { l.0 < 2 * length aig.now }
    requires right { r.0 < 2 * length aig.now }
    requires care { care.0 < 2 * length aig.now }
    requires few { length vars.now ≤ 24 }
    requires distinct { AllPairs (λ u v. u ≢ v) vars.now }
    requires covers { Covers aig.now (l.0 ∷ r.0 ∷ care.0 ∷ []) vars.now }
    ensures { IfOk result (IsTable aig.now l.0 r.0 care.0 vars.now) }
{
    let table = table_of(alloc, aig, l, r, care, vars)?;
    let mut blocks = vec![in alloc; u64x8::splat(0); table.nodes.len()]?;
    let mut inputs = vec![in alloc; u64x8::splat(0); vars.len()]?;
    Ok(least(&table, inputs.as_mut_slice(), blocks.as_mut_slice()))
}

/// The cones of the three literals over the places of the variables.
fn table_of(
    alloc: Global,
    aig: &Aig,
    l: Lit,
    r: Lit,
    care: Lit,
    vars: &Ids,
) -> Result<Table, NoMemory>
    requires left { l.0 < 2 * length aig.now }
    requires right { r.0 < 2 * length aig.now }
    requires care { care.0 < 2 * length aig.now }
    requires few { length vars.now ≤ 24 }
    requires distinct { AllPairs (λ u v. u ≢ v) vars.now }
    requires covers { Covers aig.now (l.0 ∷ r.0 ∷ care.0 ∷ []) vars.now }
    ensures sound { IfOk result (λ table. IsSound table (length vars.now)) }
    ensures answers { IfOk result (λ table. (found : Option ℕ) → IsLeastOf table (length vars.now) found → IsTable aig.now l.0 r.0 care.0 vars.now found) }
{
    let cones = cones_of(alloc, aig, l, r, care)?;
    let nodes = renamed(alloc, cones.part.as_slice(), vars.as_slice())?;
    Ok(Table {
        nodes,
        left: cones.left,
        right: cones.right,
        care: cones.care,
    })
}

/// The least number whose low bits tell the sides apart. It tries each number of so many bits.
fn least(table: &Table, inputs: &mut [u64x8], blocks: &mut [u64x8]) -> Option<u32>
    requires sound { IsSound table.now (length inputs.old) }
    requires few { length inputs.old ≤ 24 }
    requires places { length blocks.old ≡ length table.now.nodes.items }
    ensures { IsLeastOf table.now (length inputs.old) result }
{
    let total = 1u32 << (inputs.len() as u32);
    for number in 0..(total + LANES - 1) / LANES {
        if let Some(lane) = first_of_block(table, number, inputs, blocks) {
            let assignment = LANES * number + lane;
            if assignment < total {
                return Some(assignment);
            }
        }
    }
    None
}

/// The first of the 512 numbers from 512 times the block's on whose low bits tell the sides apart.
fn first_of_block(
    table: &Table,
    number: u32,
    inputs: &mut [u64x8],
    blocks: &mut [u64x8],
) -> Option<u32>
    requires sound { IsSound table.now (length inputs.old) }
    requires few { length inputs.old ≤ 24 }
    requires places { length blocks.old ≡ length table.now.nodes.items }
    requires number { number < 2 ^ 15 }
    ensures inputs { length inputs.new ≡ length inputs.old }
    ensures blocks { length blocks.new ≡ length blocks.old }
    ensures first { IsFirstOfBlock table.now (length inputs.old) number result }
{
    put_variables(inputs, number);
    node_blocks(table.nodes.as_slice(), inputs, blocks);
    first_bit(difference(table, blocks))
}

/// The lanes where the care holds and the sides differ.
fn difference(table: &Table, blocks: &[u64x8]) -> u64x8
    requires left { table.now.left.0 < 2 * length blocks.now }
    requires right { table.now.right.0 < 2 * length blocks.now }
    requires care { table.now.care.0 < 2 * length blocks.now }
    requires blocks { All IsBlock blocks.now }
    ensures block { IsBlock result }
    ensures bits { (k : ℕ) → k < 512 → block_bit result k ≡ tells_apart table.now (lane k blocks.now) }
{
    let (left, right) = (table.left, table.right);
    let care = table.care;
    let left_only = and_lits(blocks, left, Aig::not(right));
    let right_only = and_lits(blocks, Aig::not(left), right);
    let same = and_block(left_only, right_only, true, true);
    and_block(same, blocks[(care.0 / 2) as usize], true, care.0 % 2 == 1)
}
