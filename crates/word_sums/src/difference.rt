//! An assignment under which two words differ: a guess from what is left of their difference, which is looked over.

ghost use Rattle.std.specs.Prelude.{◌≡◌, ◌*◌, ◌<◌, ◌≤◌, length, All, IfOk, IsTrue};
ghost use Rattle.aig.specs.Graph.{vars_of};
ghost use Rattle.aig.specs.Values as meaning;
ghost use Rattle.word_sums.specs.Words.{IsTold, DifferAt};

use crate::answer::Words;
use aig::{Aig, Bits, Lit, NoMemory, Node, node_bits};
use std::alloc::Global;

/// Tries for each of the nodes the assignment that gives 1 to the inputs of its cone, and 0 to all others.
pub(crate) fn difference(
    alloc: Global,
    graph: &Aig,
    left: &[Lit],
    right: &[Lit],
    rewritten: &Aig,
    nodes: &[u32],
) -> Result<Words, NoMemory>
    requires left { All (λ l. l.0 < 2 * length graph.now) left.now }
    requires right { All (λ l. l.0 < 2 * length graph.now) right.now }
    requires lengths { length left.now ≡ length right.now }
    ensures { IfOk result (IsTold graph.now left.now right.now) }
{
    for i in 0..nodes.len() {
        let bits = inputs_below(alloc, rewritten, nodes[i], graph.vars())?;
        if differ(alloc, graph, left, right, bits.as_slice())? {
            return Ok(Words::Differ(Bits::from_vec(bits)));
        }
    }
    Ok(Words::Open)
}

/// Whether the literals at some place differ under the assignment.
fn differ(
    alloc: Global,
    graph: &Aig,
    left: &[Lit],
    right: &[Lit],
    bits: &[bool],
) -> Result<bool, NoMemory>
    requires left { All (λ l. l.0 < 2 * length graph.now) left.now }
    requires right { All (λ l. l.0 < 2 * length graph.now) right.now }
    requires lengths { length left.now ≡ length right.now }
    requires covers { vars_of graph.now ≤ length bits.now }
    ensures { IfOk result (λ told. IsTrue told → DifferAt graph.now left.now right.now bits.now) }
{
    let mut values = vec![in alloc; false; graph.size() as usize]?;
    Ok(differ_by(graph, left, right, bits, values.as_mut_slice()))
}

/// The same with room for the bits of the nodes.
fn differ_by(graph: &Aig, left: &[Lit], right: &[Lit], bits: &[bool], values: &mut [bool]) -> bool
    requires left { All (λ l. l.0 < 2 * length graph.now) left.now }
    requires right { All (λ l. l.0 < 2 * length graph.now) right.now }
    requires lengths { length left.now ≡ length right.now }
    requires covers { vars_of graph.now ≤ length bits.now }
    requires places { length values.old ≡ length graph.now }
    ensures { IsTrue result → DifferAt graph.now left.now right.now bits.now }
{
    graph.keeps();
    node_bits(graph.nodes(), bits, values);
    for i in 0..left.len() {
        let x = lit_bit(values, left[i]);
        let y = lit_bit(values, right[i]);
        if x != y {
            return true;
        }
    }
    false
}

/// The literal's bit, by those of the nodes.
#[tactic(auto, unfolding(aig::specs::Values::lit_bit))]
fn lit_bit(bits: &[bool], l: Lit) -> bool
    requires { l.0 < 2 * length bits.now }
    ensures { result ≡ meaning.lit_bit bits.now l.0 }
{
    let bit = bits[l.node() as usize];
    if l.is_complement() { !bit } else { bit }
}

/// So many bits, of which those of the inputs of the node's cone are 1.
fn inputs_below(alloc: Global, graph: &Aig, n: u32, vars: u32) -> Result<Vec<bool>, NoMemory>
    ensures { IfOk result (λ bits. length bits.items ≡ vars) }
{
    let mut seen = vec![in alloc; false; graph.size() as usize]?;
    let mut bits = vec![in alloc; false; vars as usize]?;
    put_inputs(graph, n, seen.as_mut_slice(), bits.as_mut_slice());
    Ok(bits)
}

/// Sets the bits of the inputs of the node's cone. It sees nodes from the last down.
fn put_inputs(graph: &Aig, n: u32, seen: &mut [bool], bits: &mut [bool])
    ensures { length bits.new ≡ length bits.old }
{
    put(seen, n);
    for k in 0..graph.size() {
        let m = graph.size() - 1 - k;
        if seen.get(m as usize).copied().unwrap_or(false) {
            put_node(graph.node(m), seen, bits);
        }
    }
}

/// What the node reads is seen, or its variable is set.
fn put_node(node: Node, seen: &mut [bool], bits: &mut [bool])
    ensures { length bits.new ≡ length bits.old }
{
    match node {
        Node::Constant => {}
        Node::Input(v) => put(bits, v),
        Node::And(l, r) => {
            put(seen, l.node());
            put(seen, r.node());
        }
    }
}

/// Sets the bit, if there is one.
fn put(bits: &mut [bool], place: u32)
    ensures { length bits.new ≡ length bits.old }
{
    if (place as usize) < bits.len() {
        bits[place as usize] = true;
    }
}
