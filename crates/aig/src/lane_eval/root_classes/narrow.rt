//! Roots of a graph of few variables that agree, by all assignments.

ghost use Rattle.std.specs.Prelude.{◌≡◌, ◌≢◌, ℕ, ◌*◌, ◌^◌, ◌<◌, ◌≤◌, Bool, false, length, slice_get, slice_index_or, Some, All, IfOk};
ghost use Rattle.std.specs.List.{AllPairs};
ghost use Rattle.circuit_theory.specs.Query.{bits_of};
ghost use Rattle.aig.specs.Graph.{IsOrdered, vars_of};
ghost use Rattle.aig.specs.Values as meaning;
ghost use Rattle.aig.specs.lane_eval.root_classes.Inputs.{inputs_of};
ghost use Rattle.aig.specs.lane_eval.root_classes.Splits.{AgreeSoFar};
ghost use Rattle.aig.specs.lane_eval.root_classes.Rows.{row_of, HasBits};
ghost use Rattle.aig.specs.lane_eval.root_classes.Leads.{AreLeads};

use crate::lane_eval::root_classes::partition::refine;
use crate::{Aig, Lit, NoMemory, Node, node_bits};
use std::alloc::Global;

/// For each root the first one that agrees with it.
pub(crate) fn narrow_leads(
    alloc: Global,
    aig: &Aig,
    vars: &[u32],
    roots: &[Lit],
) -> Result<Vec<Lit>, NoMemory>
    requires roots { All (λ l. l.0 < 2 * length aig.now) roots.now }
    requires vars { vars.now ≡ inputs_of aig.now }
    requires few { length vars.now ≤ 16 }
    ensures { IfOk result (λ leads. AreLeads aig.now roots.now leads.items) }
{
    aig.keeps();
    let firsts = firsts_of(alloc, aig, vars, roots)?;
    let mut leads = Vec::new(alloc);
    for i in 0..firsts.len() {
        leads.push(roots[firsts[i]])?;
    }
    Ok(leads)
}

/// For each root the place of the first one that has its value under each assignment of the variables.
fn firsts_of(alloc: Global, aig: &Aig, vars: &[u32], roots: &[Lit]) -> Result<Vec<usize>, NoMemory>
    requires roots { All (λ l. l.0 < 2 * length aig.now) roots.now }
    requires vars { vars.now ≡ inputs_of aig.now }
    requires few { length vars.now ≤ 16 }
    ensures { IfOk result (λ firsts. AgreeSoFar (row_of aig.now vars.now roots.now) (length roots.now) (2 ^ length vars.now) firsts.items) }
{
    aig.keeps();
    let mut bits = vec![in alloc; false; roots.len()]?;
    let mut assignment = vec![in alloc; false; aig.vars() as usize]?;
    let mut scratch = vec![in alloc; false; aig.size() as usize]?;
    classes(
        alloc,
        aig,
        vars,
        roots,
        assignment.as_mut_slice(),
        scratch.as_mut_slice(),
        bits.as_mut_slice(),
    )
}

/// The same with room for the bits of the variables, the nodes and the roots.
fn classes(
    alloc: Global,
    aig: &Aig,
    vars: &[u32],
    roots: &[Lit],
    assignment: &mut [bool],
    scratch: &mut [bool],
    bits: &mut [bool],
) -> Result<Vec<usize>, NoMemory>
    requires roots { All (λ l. l.0 < 2 * length aig.now) roots.now }
    requires vars { vars.now ≡ inputs_of aig.now }
    requires few { length vars.now ≤ 16 }
    requires covers { length assignment.old ≡ vars_of aig.now }
    requires places { length scratch.old ≡ length aig.now }
    requires each { length bits.old ≡ length roots.now }
    ensures { IfOk result (λ firsts. AgreeSoFar (row_of aig.now vars.now roots.now) (length roots.now) (2 ^ length vars.now) firsts.items) }
{
    let mut firsts = vec![in alloc; 0usize; roots.len()]?;
    let count = vars.len() as u32;
    for number in 0..(1u32 << count) {
        row_bits(aig, vars, roots, number, assignment, scratch, bits);
        refine(alloc, bits, &mut firsts)?;
    }
    Ok(firsts)
}

/// Fills in the roots' bits under the assignment of this number.
fn row_bits(
    aig: &Aig,
    vars: &[u32],
    roots: &[Lit],
    number: u32,
    assignment: &mut [bool],
    scratch: &mut [bool],
    bits: &mut [bool],
)
    requires roots { All (λ l. l.0 < 2 * length aig.now) roots.now }
    requires vars { vars.now ≡ inputs_of aig.now }
    requires covers { length assignment.old ≡ vars_of aig.now }
    requires places { length scratch.old ≡ length aig.now }
    requires each { length bits.old ≡ length roots.now }
    ensures { (i : ℕ) (b : Bool) → slice_get bits.new i ≡ Some b → b ≡ row_of aig.now vars.now roots.now number i }
{
    aig.keeps();
    assign(assignment, vars, number);
    node_bits(aig.nodes(), assignment, scratch);
    for i in 0..roots.len() {
        bits[i] = lit_bit(scratch, roots[i]);
    }
}

/// Gives the variables the number's low bits, the first variable the lowest.
fn assign(assignment: &mut [bool], vars: &[u32], number: u32)
    requires within { All (λ v. v < length assignment.old) vars.now }
    requires distinct { AllPairs (λ u v. u ≢ v) vars.now }
    ensures { HasBits vars.now (bits_of number (length vars.now)) (length vars.now) assignment.new }
{
    let mut rest = number;
    for k in 0..vars.len() {
        assignment[vars[k] as usize] = rest % 2 == 1;
        rest /= 2;
    }
}

#[tactic(auto, unfolding(crate::specs::Values::lit_bit))]
fn lit_bit(bits: &[bool], l: Lit) -> bool
    requires { l.0 < 2 * length bits.now }
    ensures { result ≡ meaning.lit_bit bits.now l.0 }
{
    let bit = bits[l.node() as usize];
    if l.is_complement() { !bit } else { bit }
}
