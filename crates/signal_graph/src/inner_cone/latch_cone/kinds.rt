//! What is known of each latch: whether it has a load enable.

ghost use Rattle.std.specs.Prelude.{◌≡◌, length, map, IfOk};
ghost use Rattle.flat_net.specs.circuit_theory.Mode.{Mode};
ghost use Rattle.flat_net.specs.circuit_theory.Mode.TheVariants.{Plain};
ghost use Rattle.flat_net.specs.View.{NetView};
ghost use Rattle.signal_graph.specs.inner_cone.latch_cone.Cones.{MarksEnabled};
ghost use Rattle.signal_graph.specs.inner_cone.latch_cone.Kinds.{AreKindsIn, is_enabled};

use flat_net::{Bits, Net, NoMemory, Seq};
use std::alloc::Global;

/// What a latch is, by the cone of what it takes over.
#[derive(Clone, Copy)]
pub enum LatchKind {
    /// The latch isn't in the cone. In the plain mode each latch counts as one of these.
    Plain,
    /// It is, and it has a load enable.
    Enabled,
    /// It is, and it has none.
    NotUnate,
}

/// In the plain mode no latch counts as enabled.
pub fn all_plain(alloc: Global, net: &Net) -> Result<Vec<LatchKind>, NoMemory>
    ensures { IfOk result (λ kinds. AreKindsIn Plain net.now kinds.items) }
{
    Ok(vec![in alloc; LatchKind::Plain; net.latches().len()]?)
}

fn is_enabled(kind: LatchKind) -> bool
    ensures { result ≡ is_enabled kind }
{
    match kind {
        LatchKind::Enabled => true,
        LatchKind::Plain | LatchKind::NotUnate => false,
    }
}

/// A bit for each latch: it is set where the latch has a load enable.
pub fn enabled_among(alloc: Global, kinds: &[LatchKind]) -> Result<Bits, NoMemory>
    ensures each { IfOk result (λ bits. length bits ≡ length kinds.now) }
    ensures bits { IfOk result (λ bits. bits ≡ map is_enabled kinds.now) }
    ensures marks { (mode : Mode) (n : NetView) → AreKindsIn mode n kinds.now → IfOk result (MarksEnabled mode n) }
{
    let mut bits = Vec::with_capacity(alloc, kinds.len())?;
    for kind in kinds {
        bits.push(is_enabled(*kind))?;
    }
    Ok(Seq::from_vec(bits))
}
