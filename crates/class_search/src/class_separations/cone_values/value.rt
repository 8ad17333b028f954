//! Values over cones.

ghost use Rattle.std.specs.Prelude.{◌≡◌, ◌≢◌, ◌*◌, ◌<◌, ◌≤◌, [], ◌∷◌, length, IfOk};
ghost use Rattle.std.specs.List.{AllPairs};
ghost use Rattle.aig.specs.Graph.{IsOrdered, vars_of};
ghost use Rattle.aig.specs.Values as meaning;
ghost use Rattle.aig.specs.lane_eval.Tables.{Covers, assigned_to};
ghost use Rattle.class_search.specs.class_separations.cone_values.Bits.{HasBits};

use aig::{Aig, Lit, NoMemory, Node, cones_of, node_bits};
use std::alloc::Global;

/// The literal's value where the variables have these bits, in order. The variables are all that the literal reads, and maybe more. It
/// walks the literal's cone, and no other node.
pub fn value_in_cone(
    alloc: Global,
    aig: &Aig,
    l: Lit,
    vars: &[u32],
    bits: &[bool],
) -> Result<bool, NoMemory>
    requires literal { l.0 < 2 * length aig.now }
    requires each { length bits.now ≡ length vars.now }
    requires distinct { AllPairs (λ u v. u ≢ v) vars.now }
    requires covers { Covers aig.now (l.0 ∷ []) vars.now }
    ensures { IfOk result (λ bit. bit ≡ meaning.value aig.now (assigned_to vars.now bits.now) l.0) }
{
    aig.keeps();
    let assignment = assignment_of(alloc, aig.vars() as usize, vars, bits)?;
    let cones = cones_of(alloc, aig, l, l, l)?;
    let mut scratch = vec![in alloc; false; cones.part.len()]?;
    Ok(bit_in(
        cones.part.as_slice(),
        assignment.as_slice(),
        scratch.as_mut_slice(),
        cones.left,
    ))
}

/// The literal's value where the variables have the bits of the assignment. The scratch has a place for each node.
#[tactic(auto, unfolding(aig::specs::Values::lit_bit))]
fn bit_in(nodes: &[Node], assignment: &[bool], scratch: &mut [bool], l: Lit) -> bool
    requires ordered { IsOrdered nodes.now }
    requires covers { vars_of nodes.now ≤ length assignment.now }
    requires places { length scratch.old ≡ length nodes.now }
    requires literal { l.0 < 2 * length nodes.now }
    ensures { result ≡ meaning.lit_bit (meaning.node_bits nodes.now (meaning.assigned assignment.now)) l.0 }
{
    node_bits(nodes, assignment, scratch);
    let bit = scratch[l.node() as usize];
    if l.is_complement() { !bit } else { bit }
}

/// So many bits: those of the variables, as far as there is room, and 0 at all other places.
fn assignment_of(
    alloc: Global,
    size: usize,
    vars: &[u32],
    bits: &[bool],
) -> Result<Vec<bool>, NoMemory>
    requires each { length bits.now ≡ length vars.now }
    requires distinct { AllPairs (λ u v. u ≢ v) vars.now }
    ensures size { IfOk result (λ made. length made.items ≡ size) }
    ensures bits { IfOk result (λ made. HasBits vars.now bits.now (length vars.now) made.items) }
{
    let mut made = vec![in alloc; false; size]?;
    assign(made.as_mut_slice(), vars, bits);
    Ok(made)
}

/// Gives each variable for which there is room its bit.
fn assign(assignment: &mut [bool], vars: &[u32], bits: &[bool])
    requires each { length bits.now ≡ length vars.now }
    requires distinct { AllPairs (λ u v. u ≢ v) vars.now }
    ensures size { length assignment.new ≡ length assignment.old }
    ensures bits { HasBits vars.now bits.now (length vars.now) assignment.new }
{
    for k in 0..vars.len() {
        let place = vars[k] as usize;
        if place < assignment.len() {
            assignment[place] = bits[k];
        }
    }
}
