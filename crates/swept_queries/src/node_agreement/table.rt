//! Whether two literals of a small graph agree, by a table of up to 24 variables.

ghost use Rattle.std.specs.Prelude.{◌≡◌, ℕ, ◌*◌, ◌<◌, List, Some, length, IfOk};
ghost use Rattle.circuit_theory.specs.Query.{bits_of};
ghost use Rattle.aig.specs.declared.node.Node.{Node};
ghost use Rattle.aig.specs.lane_eval.root_classes.Inputs.{inputs_of};
ghost use Rattle.swept_queries.specs.node_agreement.Answers.{IsAnswer, IsFound};

use crate::node_agreement::question::{Cost, Tried};
use aig::lane_eval::root_classes::{
    Aig, Bits, Ids, Lit, MAX_TABLE_VARIABLES, NoMemory, table_differs, variables,
};
use std::alloc::Global;

/// The most variables of a table.
pub(crate) const WIDE: usize = 24;

/// Whether a table over so many nodes and variables, too many for a query without a search, takes no longer than so many conflicts, roughly.
pub(crate) fn is_light(nodes: u32, vars: usize, conflicts: u32) -> bool {
    MAX_TABLE_VARIABLES < vars && vars <= WIDE && table_worth(nodes, vars) <= conflicts
}

/// How many conflicts take the time of a table over so many nodes and variables, roughly.
fn table_worth(nodes: u32, vars: usize) -> u32 {
    let assignments = 1u64 << (vars.min(WIDE) as u32);
    (u64::from(nodes).saturating_mul(assignments) >> 23).min(200_000) as u32
}

/// Tries all assignments of the graph's variables where the care holds, if these are at most 24.
pub(crate) fn ask_table(
    alloc: Global,
    graph: &Aig,
    left: Lit,
    right: Lit,
    care: Lit,
) -> Result<Tried, NoMemory>
    requires left { left.0 < 2 * length graph.now }
    requires right { right.0 < 2 * length graph.now }
    requires care { care.0 < 2 * length graph.now }
    ensures { IfOk result (IsAnswer graph.now left.0 right.0 care.0) }
{
    let vars = variables(alloc, graph)?;
    if vars.len() > WIDE {
        return Ok(Tried::Open);
    }
    graph.keeps();
    let found = table_differs(alloc, graph, left, right, care, &vars)?;
    match found {
        None => Ok(Tried::Same(Cost {
            conflicts: 0,
            table: table_worth(graph.size(), vars.len()),
        })),
        Some(number) => differing_by(alloc, vars, number),
    }
}

/// That the literals differ where the variables have the number's low bits.
fn differing_by(alloc: Global, vars: Ids, number: u32) -> Result<Tried, NoMemory>
    ensures { IfOk result (λ t. (g : List Node) (x y c : ℕ) → vars ≡ inputs_of g → IsFound g x y c vars (Some number) → IsAnswer g x y c t) }
{
    let bits = low_bits(alloc, vars.len(), number)?;
    Ok(Tried::Differs(vars, bits))
}

/// So many of the number's low bits, the lowest first.
fn low_bits(alloc: Global, count: usize, number: u32) -> Result<Bits, NoMemory>
    ensures { IfOk result (λ bits. bits ≡ bits_of number count) }
{
    let mut bits = vec![in alloc; false; count]?;
    put_bits(bits.as_mut_slice(), number);
    Ok(Bits::from_vec(bits))
}

/// Puts the number's low bits, the lowest first.
fn put_bits(bits: &mut [bool], number: u32)
    ensures { bits.new ≡ bits_of number (length bits.old) }
{
    let mut rest = number;
    for bit in bits.iter_mut() {
        *bit = rest % 2 == 1;
        rest /= 2;
    }
}
