//! The values that the gates that lead back to a latch have with the latch turned over, for a while.

ghost use Rattle.std.specs.Prelude.{◌≡◌, ◌<◌, ◌⊎◌, ℕ, Bool, false, length, map, slice_get, slice_set, slice_index_or, Some};
ghost use Rattle.circuit_theory.specs.Circuit.{Meets};
ghost use Rattle.circuit_theory.specs.Cover.{cover_value};
ghost use Rattle.flat_net.specs.declared.parts.Gate.{Gate};
ghost use Rattle.flat_net.specs.declared.parts.LatchAt.{LatchAt};
ghost use Rattle.flat_net.specs.View.{circuit_of, cover_of};
ghost use Rattle.signal_graph.specs.inner_cone.Gates.{AreInnerGates};
ghost use Rattle.cycle_sim.specs.Steps.{AreInputsRight, AreLatchesRight, AreAsideRight};
ghost use Rattle.cycle_sim.specs.Turning.{ArePlaces, AreSomeRight, IsOutOfSome};

use flat_net::Net;

/// Puts the values of these gates, one after the other.
pub(crate) fn put_some(net: &Net, gates: &[u32], values: &mut [bool])
    requires places { ArePlaces net.now gates.now }
    requires values { length values.old ≡ length net.now.drivers }
    ensures size { length values.new ≡ length values.old }
    ensures put { (l : LatchAt) (v : ℕ → Bool) → AreInnerGates net.now l gates.now → Meets (circuit_of net.now) v → AreInputsRight net.now v values.old → AreLatchesRight net.now v values.old →
        AreAsideRight net.now l.out.0 v values.old → AreSomeRight net.now l.out.0 gates.now v values.new }
    ensures others { (p : ℕ) → IsOutOfSome net.now gates.now p ⊎ (slice_get values.new p ≡ slice_get values.old p) }
{
    net.keeps();
    for j in gates {
        put_gate(net, *j, values);
    }
}

/// Puts the value of a gate.
fn put_gate(net: &Net, place: u32, values: &mut [bool])
    requires place { place < length net.now.gates }
    requires values { length values.old ≡ length net.now.drivers }
    ensures { (g : Gate) → slice_get net.now.gates place ≡ Some g →
        values.new ≡ slice_set values.old g.out.0 (cover_value (cover_of net.now.covers g) (map (λ f. slice_index_or values.old f.0 false) g.fanins)) }
{
    net.keeps();
    let gate = &net.gates()[place as usize];
    let value = net.eval_gate(place, values);
    values[gate.out.0 as usize] = value;
}

/// Takes over the values of these gates from the first list.
pub(crate) fn put_back(net: &Net, gates: &[u32], values: &[bool], tried: &mut [bool])
    requires places { ArePlaces net.now gates.now }
    requires values { length values.now ≡ length net.now.drivers }
    requires tried { length tried.old ≡ length net.now.drivers }
    ensures size { length tried.new ≡ length tried.old }
    ensures back { ((p : ℕ) → IsOutOfSome net.now gates.now p ⊎ (slice_get tried.old p ≡ slice_get values.now p)) → tried.new ≡ values.now }
{
    net.keeps();
    for j in gates {
        take_back(net, *j, values, tried);
    }
}

/// Takes over the value of a gate.
fn take_back(net: &Net, place: u32, values: &[bool], tried: &mut [bool])
    requires place { place < length net.now.gates }
    requires values { length values.now ≡ length net.now.drivers }
    requires tried { length tried.old ≡ length net.now.drivers }
    ensures { (g : Gate) → slice_get net.now.gates place ≡ Some g → tried.new ≡ slice_set tried.old g.out.0 (slice_index_or values.now g.out.0 false) }
{
    net.keeps();
    let gate = &net.gates()[place as usize];
    let out = gate.out.0 as usize;
    tried[out] = values[out];
}
