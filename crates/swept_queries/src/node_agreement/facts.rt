//! What is known beside a part of a graph as a care over its small graph.

ghost use Rattle.std.specs.Prelude.{◌≡◌, ℕ, ◌+◌, ◌*◌, ◌^◌, ◌<◌, ◌≤◌, Bool, not, ◌&&◌, length, IfOk, OnOk};
ghost use Rattle.aig.specs.Graph.{Grows};
ghost use Rattle.aig.specs.Values.{value};
ghost use Rattle.swept_queries.specs.node_agreement.Standing.{StandsFor, AreChosen, AreLocal, by_nodes};

use crate::node_agreement::small::{MOST, Small, find};
use aig::lane_eval::root_classes::{Aig, Lit, NoMemory};
use sweep_candidates::Part;

/// A literal that holds under each assignment of the graph: it says that the facts' nodes have the values of the literals that were chosen for them.
pub(crate) fn care_of(
    small: &mut Small,
    graph: &Aig,
    part: &Part,
    chosen: &[Lit],
) -> Result<Lit, NoMemory>
    requires chosen { AreChosen graph.now chosen.now }
    requires local { AreLocal graph.now part.now.numbers.items small.old.graph small.old.lits.items }
    ensures local { OnOk result (AreLocal graph.now part.now.numbers.items small.new.graph small.new.lits.items) }
    ensures lits { OnOk result (small.new.lits.items ≡ small.old.lits.items) }
    ensures care { IfOk result (λ y. StandsFor (by_nodes graph.now) graph.now small.new.graph 1 y.0) }
{
    graph.keeps();
    small.graph.keeps();
    let mut care = Lit::TRUE;
    for i in 0..part.facts.len() {
        if small.graph.size() >= MOST {
            break;
        }
        care = small.with_fact(graph, part.numbers.as_slice(), chosen, part.facts[i], care)?;
    }
    Ok(care)
}

impl Small {
    /// The care with what is known of one node, if the part has both it and the literal that was chosen for it.
    fn with_fact(
        &mut self,
        graph: &Aig,
        numbers: &[u32],
        chosen: &[Lit],
        n: u32,
        care: Lit,
    ) -> Result<Lit, NoMemory>
        requires chosen { AreChosen graph.now chosen.now }
        requires local { AreLocal graph.now numbers.now self.old.graph self.old.lits.items }
        requires care { StandsFor (by_nodes graph.now) graph.now self.old.graph 1 care.0 }
        requires room { length self.old.graph ≤ 2 ^ 29 }
        ensures local { OnOk result (AreLocal graph.now numbers.now self.new.graph self.new.lits.items) }
        ensures lits { OnOk result (self.new.lits.items ≡ self.old.lits.items) }
        ensures care { IfOk result (λ y. StandsFor (by_nodes graph.now) graph.now self.new.graph 1 y.0) }
    {
        graph.keeps();
        if n as usize >= chosen.len() || n >= MOST {
            return Ok(care);
        }
        let k = chosen[n as usize];
        let lits = self.lits.as_slice();
        let (Some(y), Some(z)) = (find(numbers, lits, Lit(2 * n)), find(numbers, lits, k)) else {
            return Ok(care);
        };
        let once = with_implied(&mut self.graph, care, y, z)?;
        let twice = with_implied(&mut self.graph, once, z, y)?;
        Ok(twice)
    }
}

/// The care, where the first literal implies the second one.
fn with_implied(small: &mut Aig, care: Lit, y: Lit, z: Lit) -> Result<Lit, NoMemory>
    requires care { care.0 < 2 * length small.old }
    requires left { y.0 < 2 * length small.old }
    requires right { z.0 < 2 * length small.old }
    requires room { length small.old + 2 < 2 ^ 30 }
    ensures within { IfOk result (λ x. x.0 < 2 * length small.new) }
    ensures value { IfOk result (λ x. (a : ℕ → Bool) → value small.new a x.0 ≡ (value small.old a care.0 && not (value small.old a y.0 && not (value small.old a z.0)))) }
    ensures grows { OnOk result (Grows small.old small.new) }
    ensures few { OnOk result (length small.new ≤ length small.old + 2) }
{
    let apart = small.and(y, Aig::not(z))?;
    let known = small.and(care, Aig::not(apart))?;
    Ok(known)
}
