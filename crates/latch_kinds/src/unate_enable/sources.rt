//! The inputs and latches among signals.

ghost use Rattle.std.specs.Prelude.{◌≡◌, ◌<◌, ◌↔◌, ℕ, length, All, Contains, IfOk, IfSome, IfNone};
ghost use Rattle.std.specs.List.Sorted.{IsStrictlyIncreasing};
ghost use Rattle.flat_net.specs.View.{circuit_of};
ghost use Rattle.latch_kinds.specs.unate_enable.Walks.{AreReached};
ghost use Rattle.latch_kinds.specs.unate_enable.Cones.{IsConeOfLatch, data_of_latch, input_at, places_of};
ghost use Rattle.latch_kinds.specs.unate_enable.Among.{AreNumbersAmong, IsInputAt, IsOtherLatchAt};

use crate::unate_enable::support::LatchCone;
use flat_net::{Driver, Net, Port, Signal, latch_of};
use sec_base::{Ids, NoMemory};
use std::alloc::Global;

/// The inputs, and the latches but for one, among the signals of its cone.
pub(crate) fn cone_among(
    alloc: Global,
    net: &Net,
    latch: u32,
    signals: &[u32],
) -> Result<LatchCone, NoMemory>
    requires { AreReached (circuit_of net.now) (length net.now.drivers) (data_of_latch net.now latch) signals.now }
    ensures { IfOk result (IsConeOfLatch net.now latch) }
{
    net.keeps();
    let inputs = inputs_among(alloc, net, signals)?;
    let latches = latches_among(alloc, net, latch, signals)?;
    Ok(LatchCone { inputs, latches })
}

/// The numbers of the inputs among the signals, increasing.
fn inputs_among(alloc: Global, net: &Net, signals: &[u32]) -> Result<Ids, NoMemory>
    requires within { All (λ s. s < length net.now.drivers) signals.now }
    ensures { IfOk result (AreNumbersAmong (IsInputAt net.now) signals.now) }
{
    let mut inputs = Vec::new(alloc);
    for s in signals {
        if let Some(i) = input_at(net, Signal(*s)) {
            inputs.push(i)?;
        }
    }
    in_order(inputs)
}

/// The same numbers, each once, increasing.
fn in_order(numbers: Vec<u32>) -> Result<Ids, NoMemory>
    ensures { IfOk result (λ made. IsStrictlyIncreasing made × ((x : ℕ) → Contains numbers.items x ↔ Contains made x)) }
{
    let mut sorted = numbers;
    sorted.sort()?;
    sorted.dedup();
    Ok(Ids::from_vec(sorted))
}

/// The number of the input that drives the signal, if one does.
fn input_at(net: &Net, s: Signal) -> Option<u32>
    requires { s.0 < length net.now.drivers }
    ensures here { IfSome result (IsInputAt net.now s.0) }
    ensures none { IfNone result ((i : ℕ) → IsInputAt net.now s.0 i → ⊥) }
{
    match net.driver(s) {
        Driver::Input(i) => Some(i),
        _ => None,
    }
}

/// The number of the latch that drives the signal, if one does that is another than this.
fn other_latch_at(net: &Net, latch: u32, s: Signal) -> Option<u32>
    requires { s.0 < length net.now.drivers }
    ensures here { IfSome result (IsOtherLatchAt net.now latch s.0) }
    ensures none { IfNone result ((j : ℕ) → IsOtherLatchAt net.now latch s.0 j → ⊥) }
{
    match net.driver(s) {
        Driver::Latch(j) if j != latch => Some(j),
        _ => None,
    }
}

/// The numbers of the latches but for one among the signals, increasing.
fn latches_among(alloc: Global, net: &Net, latch: u32, signals: &[u32]) -> Result<Ids, NoMemory>
    requires within { All (λ s. s < length net.now.drivers) signals.now }
    ensures { IfOk result (AreNumbersAmong (IsOtherLatchAt net.now latch) signals.now) }
{
    let mut latches = Vec::new(alloc);
    for s in signals {
        if let Some(j) = other_latch_at(net, latch, Signal(*s)) {
            latches.push(j)?;
        }
    }
    in_order(latches)
}

/// The signals of the cone's inputs, and then of its latches.
pub(crate) fn places(alloc: Global, net: &Net, cone: &LatchCone) -> Result<Ids, NoMemory>
    requires inputs { All (λ i. i < length net.now.inputs) cone.now.inputs }
    requires latches { All (λ j. j < length net.now.latches) cone.now.latches }
    ensures { IfOk result (λ places. places ≡ places_of net.now cone.now) }
{
    let mut places = Ids::new(alloc);
    for i in cone.inputs.as_slice() {
        places.push(input_of(net, *i).signal.0)?;
    }
    for j in cone.latches.as_slice() {
        places.push(latch_of(net, *j).out.0)?;
    }
    Ok(places)
}

/// The input with this number.
fn input_of(net: &Net, i: u32) -> &Port
    requires { i < length net.now.inputs }
    ensures { result.now ≡ input_at net.now i }
{
    &net.inputs()[i as usize]
}
