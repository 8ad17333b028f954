//! Bits that say which latches count as enabled.

ghost use Rattle.std.specs.Prelude.{◌≡◌, false, length, replicate, IfOk};
ghost use Rattle.flat_net.specs.circuit_theory.Mode.TheVariants.{Plain};
ghost use Rattle.signal_graph.specs.inner_cone.latch_cone.Cones.{MarksEnabled};

use flat_net::{Bits, Net, NoMemory, Seq};
use std::alloc::Global;

/// A bit for each latch, none of them set: in the plain mode no latch counts as enabled.
pub fn none_enabled(alloc: Global, net: &Net) -> Result<Bits, NoMemory>
    ensures unset { IfOk result (λ bits. bits ≡ replicate (length net.now.latches) false) }
    ensures each { IfOk result (λ bits. length bits ≡ length net.now.latches) }
    ensures marks { IfOk result (MarksEnabled Plain net.now) }
{
    let count = net.latches().len();
    Ok(Seq::from_vec(vec![in alloc; false; count]?))
}
