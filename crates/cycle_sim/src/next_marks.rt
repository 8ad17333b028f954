//! The marks of the latches in the next cycle.

ghost use Rattle.std.specs.Prelude.{◌≡◌, ◌+◌, ◌<◌, ℕ, Bool, length, slice_get, Some};
ghost use Rattle.circuit_theory.specs.Circuit.{Meets};
ghost use Rattle.flat_net.specs.declared.parts.LatchAt.{LatchAt};
ghost use Rattle.flat_net.specs.View.{circuit_of};
ghost use Rattle.cycle_sim.specs.View.{IsMark};
ghost use Rattle.cycle_sim.specs.Steps.{HasValues, AreMarks, AreMarksAhead, AreConesKept};

use crate::load::held_next;
use flat_net::Net;
use signal_graph::inner_cone::InnerParts;

/// Puts each latch's mark in the next cycle, by the values and the marks of this one. The list `tried` is written over.
pub(crate) fn mark_ahead(
    net: &Net,
    enabled: &[bool],
    cones: &[InnerParts],
    values: &[bool],
    marks: &[bool],
    tried: &mut [bool],
    latches: &mut [bool],
)
    requires enabled { length enabled.now ≡ length net.now.latches }
    requires cones { AreConesKept net.now enabled.now cones.now }
    requires values { length values.now ≡ length net.now.drivers }
    requires marks { length marks.now ≡ length net.now.drivers }
    requires tried { length tried.old ≡ length net.now.drivers }
    requires latches { length latches.old ≡ length net.now.latches }
    ensures room { length tried.new ≡ length tried.old }
    ensures size { length latches.new ≡ length latches.old }
    ensures ahead { (run : ℕ → ℕ → Bool) (t : ℕ) → Meets (circuit_of net.now) (run t) → HasValues net.now (run t) values.now → AreMarks net.now enabled.now run t marks.now →
        AreMarksAhead net.now enabled.now run (t + 1) latches.new }
{
    net.keeps();
    tried.copy_from_slice(values);
    for j in 0..latches.len() {
        latches[j] = next_mark(net, enabled, cones, values, marks, j as u32, tried);
    }
}

/// The latch's mark in the next cycle: that of its data, or for a latch that counts as enabled what `held_next` says. The last list
/// holds the values too, before and after.
fn next_mark(
    net: &Net,
    enabled: &[bool],
    cones: &[InnerParts],
    values: &[bool],
    marks: &[bool],
    latch: u32,
    tried: &mut [bool],
) -> bool
    requires latch { latch < length net.now.latches }
    requires enabled { length enabled.now ≡ length net.now.latches }
    requires cones { AreConesKept net.now enabled.now cones.now }
    requires values { length values.now ≡ length net.now.drivers }
    requires marks { length marks.now ≡ length net.now.drivers }
    requires tried { tried.old ≡ values.now }
    ensures same { tried.new ≡ tried.old }
    ensures mark { (run : ℕ → ℕ → Bool) (t : ℕ) (l : LatchAt) → slice_get net.now.latches latch ≡ Some l → Meets (circuit_of net.now) (run t) → HasValues net.now (run t) values.now →
        AreMarks net.now enabled.now run t marks.now → IsMark net.now enabled.now run (t + 1) l.out.0 result }
{
    net.keeps();
    if enabled[latch as usize] {
        held_next(net, &cones[latch as usize], values, marks, latch, tried)
    } else {
        data_mark(net, marks, latch)
    }
}

/// The mark of what the latch takes over.
fn data_mark(net: &Net, marks: &[bool], latch: u32) -> bool
    requires latch { latch < length net.now.latches }
    requires marks { length marks.now ≡ length net.now.drivers }
    ensures { (l : LatchAt) → slice_get net.now.latches latch ≡ Some l → slice_get marks.now l.next.0 ≡ Some result }
{
    net.keeps();
    let taker = &net.latches()[latch as usize];
    marks[taker.next.0 as usize]
}
