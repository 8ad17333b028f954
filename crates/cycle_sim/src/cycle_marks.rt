//! The marks of one cycle.

ghost use Rattle.std.specs.Prelude.{◌≡◌, ◌<◌, ℕ, Bool, false, List, length, slice_index_or, All};
ghost use Rattle.std.specs.List.{list_all};
ghost use Rattle.cycle_sim.specs.Steps.{KeepsMarks, AreInputsMarked, AreLatchesMarked, AreMarksAhead, AreMarks};

use flat_net::{Net, Signal};

/// Puts the marks of one cycle, by those of its latches.
pub(crate) fn mark(net: &Net, latches: &[bool], marks: &mut [bool])
    requires latches { length latches.now ≡ length net.now.latches }
    requires marks { length marks.old ≡ length net.now.drivers }
    ensures size { length marks.new ≡ length marks.old }
    ensures marks { (enabled : List Bool) (run : ℕ → ℕ → Bool) (t : ℕ) → AreMarksAhead net.now enabled run t latches.now → AreMarks net.now enabled run t marks.new }
{
    net.keeps();
    mark_inputs(net, marks);
    mark_latches(net, latches, marks);
    mark_gates(net, marks);
}

fn mark_inputs(net: &Net, marks: &mut [bool])
    requires marks { length marks.old ≡ length net.now.drivers }
    ensures size { length marks.new ≡ length marks.old }
    ensures put { (enabled : List Bool) (run : ℕ → ℕ → Bool) (t : ℕ) → AreInputsMarked net.now enabled run t marks.new }
{
    net.keeps();
    for port in net.inputs().iter() {
        marks[port.signal.0 as usize] = true;
    }
}

fn mark_latches(net: &Net, latches: &[bool], marks: &mut [bool])
    requires latches { length latches.now ≡ length net.now.latches }
    requires marks { length marks.old ≡ length net.now.drivers }
    ensures size { length marks.new ≡ length marks.old }
    ensures keeps { (enabled : List Bool) (run : ℕ → ℕ → Bool) (t : ℕ) → AreMarksAhead net.now enabled run t latches.now → KeepsMarks net.now enabled run t marks.old marks.new }
    ensures put { (enabled : List Bool) (run : ℕ → ℕ → Bool) (t : ℕ) → AreMarksAhead net.now enabled run t latches.now → AreLatchesMarked net.now enabled run t marks.new }
{
    net.keeps();
    for (j, latch) in net.latches().iter().enumerate() {
        marks[latch.out.0 as usize] = latches[j];
    }
}

fn mark_gates(net: &Net, marks: &mut [bool])
    requires marks { length marks.old ≡ length net.now.drivers }
    ensures size { length marks.new ≡ length marks.old }
    ensures put { (enabled : List Bool) (run : ℕ → ℕ → Bool) (t : ℕ) → AreInputsMarked net.now enabled run t marks.old → AreLatchesMarked net.now enabled run t marks.old → AreMarks net.now enabled run t marks.new }
{
    net.keeps();
    for gate in net.gates().iter() {
        let settled = are_marked(gate.fanins.as_slice(), marks);
        marks[gate.out.0 as usize] = settled;
    }
}

/// Whether all fan-ins are marked.
pub(crate) fn are_marked(fanins: &[Signal], marks: &[bool]) -> bool
    requires { All (λ f. f.0 < length marks.now) fanins.now }
    ensures { result ≡ list_all (λ f. slice_index_or marks.now f.0 false) fanins.now }
{
    for fanin in fanins.iter() {
        if !marks[fanin.0 as usize] {
            return false;
        }
    }
    true
}
