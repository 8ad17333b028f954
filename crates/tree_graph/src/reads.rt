//! What places read.

ghost use Rattle.std.specs.Prelude.{◌≡◌, ◌+◌, ◌^◌, ◌<◌, [], ◌∷◌, ◌++◌, map, length, All, IsTrue, OnOk};
ghost use Rattle.tree_graph.specs.Walking.{IsMet, reads_of};

use aig::NoMemory;
use aig::graph_copy::memo::{Memo, Place};
use flat_net::{Driver, Net, Signal, gate_of, latch_of};

/// Whether all places that this one reads have been met.
pub(crate) fn are_met(net: &Net, memo: &Memo, place: Place) -> bool
    requires signal { place.1 < length net.now.drivers }
    requires early { place.0 + 1 < 2 ^ 32 }
    ensures { IsTrue result → All (IsMet memo.now) (reads_of net.now place) }
{
    net.keeps();
    match net.driver(Signal(place.1)) {
        Driver::Input(_) => true,
        Driver::Gate(j) => all_met(memo, place.0, gate_of(net, j).fanins.as_slice()),
        Driver::Latch(j) => is_met(memo, (place.0 + 1, latch_of(net, j).next.0)),
    }
}

/// Whether all of these signals have been met at this shift.
fn all_met(memo: &Memo, shift: u32, signals: &[Signal]) -> bool
    ensures { IsTrue result → All (λ f. IsMet memo.now (shift, f.0)) signals.now }
{
    for signal in signals {
        if !is_met(memo, (shift, signal.0)) {
            return false;
        }
    }
    true
}

/// Whether the place has been met.
fn is_met(memo: &Memo, place: Place) -> bool
    ensures { IsTrue result → IsMet memo.now place }
{
    match memo.get(place) {
        Some(_) => true,
        None => false,
    }
}

/// Puts the places that this one reads onto the stack.
pub(crate) fn push_reads(net: &Net, stack: &mut Vec<Place>, place: Place) -> Result<(), NoMemory>
    requires signal { place.1 < length net.now.drivers }
    requires early { place.0 + 1 < 2 ^ 32 }
    ensures { OnOk result (stack.new.items ≡ stack.old.items ++ reads_of net.now place) }
{
    net.keeps();
    match net.driver(Signal(place.1)) {
        Driver::Input(_) => Ok(()),
        Driver::Gate(j) => push_all(stack, place.0, gate_of(net, j).fanins.as_slice()),
        Driver::Latch(j) => push(stack, (place.0 + 1, latch_of(net, j).next.0)),
    }
}

/// Puts these signals at this shift onto the stack.
fn push_all(stack: &mut Vec<Place>, shift: u32, signals: &[Signal]) -> Result<(), NoMemory>
    ensures { OnOk result (stack.new.items ≡ stack.old.items ++ map (λ f. (shift, f.0)) signals.now) }
{
    for signal in signals {
        push(stack, (shift, signal.0))?;
    }
    Ok(())
}

/// Puts the place onto the stack.
pub(crate) fn push(stack: &mut Vec<Place>, place: Place) -> Result<(), NoMemory>
    ensures { OnOk result (stack.new.items ≡ stack.old.items ++ place ∷ []) }
{
    stack.push(place)?;
    Ok(())
}
