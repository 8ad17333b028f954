//! Whether a latch loads.

ghost use Rattle.std.specs.Prelude.{◌≡◌, ◌<◌, ◌↔◌, ℕ, suc, Bool, true, not, ◌&&◌, ◌||◌, List, length, slice_get, Some, All};
ghost use Rattle.circuit_theory.specs.Circuit.{Meets};
ghost use Rattle.circuit_theory.specs.Run.{Loads};
ghost use Rattle.flat_net.specs.declared.parts.LatchAt.{LatchAt};
ghost use Rattle.flat_net.specs.View.{circuit_of};
ghost use Rattle.cycle_sim.specs.View.{IsMark};
ghost use Rattle.cycle_sim.specs.Steps.{HasValues, AreMarks};
ghost use Rattle.cycle_sim.specs.Turning.{ArePlaces};
ghost use Rattle.signal_graph.specs.inner_cone.Sides.{AreSides};
ghost use Rattle.signal_graph.specs.inner_cone.Gates.{AreInnerGates};

use crate::cycle_marks::are_marked;
use crate::flip::{put_back, put_some};
use flat_net::Net;
use signal_graph::inner_cone::InnerParts;

/// Whether a latch loads in the cycle of these values: what it takes over is one value with the latch at 0 and at 1. It looks at
/// no gates but those of its cone that lead back to it. The second list holds the values too, before and after.
pub(crate) fn loads(
    net: &Net,
    gates: &[u32],
    values: &[bool],
    latch: u32,
    tried: &mut [bool],
) -> bool
    requires latch { latch < length net.now.latches }
    requires places { ArePlaces net.now gates.now }
    requires gates { (l : LatchAt) → slice_get net.now.latches latch ≡ Some l → AreInnerGates net.now l gates.now }
    requires values { length values.now ≡ length net.now.drivers }
    requires tried { tried.old ≡ values.now }
    ensures same { tried.new ≡ tried.old }
    ensures loads { (v : ℕ → Bool) (l : LatchAt) → Meets (circuit_of net.now) v → HasValues net.now v values.now → slice_get net.now.latches latch ≡ Some l →
        (result ≡ true) ↔ Loads (circuit_of net.now) v l.out.0 l.next.0 }
{
    net.keeps();
    let taker = &net.latches()[latch as usize];
    let own = taker.out.0 as usize;
    let next = taker.next.0 as usize;
    tried[own] = !values[own];
    put_some(net, gates, tried);
    let loading = tried[next] == values[next];
    tried[own] = values[own];
    put_back(net, gates, values, tried);
    loading
}

/// Whether the latch loads, where that is asked.
fn loads_where(
    asked: bool,
    net: &Net,
    gates: &[u32],
    values: &[bool],
    latch: u32,
    tried: &mut [bool],
) -> bool
    requires latch { latch < length net.now.latches }
    requires places { ArePlaces net.now gates.now }
    requires gates { (l : LatchAt) → slice_get net.now.latches latch ≡ Some l → AreInnerGates net.now l gates.now }
    requires values { length values.now ≡ length net.now.drivers }
    requires tried { tried.old ≡ values.now }
    ensures same { tried.new ≡ tried.old }
    ensures loads { asked ≡ true → (v : ℕ → Bool) (l : LatchAt) → Meets (circuit_of net.now) v → HasValues net.now v values.now → slice_get net.now.latches latch ≡ Some l →
        (result ≡ true) ↔ Loads (circuit_of net.now) v l.out.0 l.next.0 }
{
    if asked {
        loads(net, gates, values, latch, tried)
    } else {
        false
    }
}

fn is_asked(rest: bool, own: bool) -> bool
    ensures { result ≡ (rest && not own) }
{
    rest && !own
}

fn is_held(rest: bool, own: bool, loading: bool) -> bool
    ensures { result ≡ (rest && (own || loading)) }
{
    rest && (own || loading)
}

/// The mark in the next cycle of a latch that counts as enabled, by the parts of its cone: all other latches are marked now, and the
/// latch is marked or loads.
pub(crate) fn held_next(
    net: &Net,
    cone: &InnerParts,
    values: &[bool],
    marks: &[bool],
    latch: u32,
    tried: &mut [bool],
) -> bool
    requires latch { latch < length net.now.latches }
    requires sides { (l : LatchAt) → slice_get net.now.latches latch ≡ Some l → AreSides net.now l.next.0 l.out.0 cone.now.sides }
    requires gates { (l : LatchAt) → slice_get net.now.latches latch ≡ Some l → AreInnerGates net.now l cone.now.gates }
    requires values { length values.now ≡ length net.now.drivers }
    requires marks { length marks.now ≡ length net.now.drivers }
    requires tried { tried.old ≡ values.now }
    ensures same { tried.new ≡ tried.old }
    ensures mark { (enabled : List Bool) (run : ℕ → ℕ → Bool) (t : ℕ) (l : LatchAt) → slice_get net.now.latches latch ≡ Some l → slice_get enabled latch ≡ Some true →
        Meets (circuit_of net.now) (run t) → HasValues net.now (run t) values.now → AreMarks net.now enabled run t marks.now → IsMark net.now enabled run (suc t) l.out.0 result }
{
    net.keeps();
    let taker = &net.latches()[latch as usize];
    let own = taker.out.0 as usize;
    let rest = are_marked(cone.sides.as_slice(), marks);
    let kept = marks[own];
    let loading = loads_where(
        is_asked(rest, kept),
        net,
        cone.gates.as_slice(),
        values,
        latch,
        tried,
    );
    is_held(rest, kept, loading)
}
