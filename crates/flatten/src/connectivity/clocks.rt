//! The clock net, and what is wrong with it.

ghost use Rattle.std.specs.Prelude.{◌≡◌, ℕ, ◌<◌, ◌++◌, length, Some, None, All, IfOk, IfSome, MatchOption, MatchResult, IsTrue, ◌↔◌, [], map, OnOk};
ghost use Rattle.elaborate.specs.Flat.{kind_of};
ghost use Rattle.flatten.specs.connectivity.Wiring.{wires_of, control_by};
ghost use Rattle.flatten.specs.connectivity.Events.{IsFirst, IsNever, IsAt};
ghost use Rattle.flatten.specs.connectivity.Faults.{clock_signals, OtherEdge, readers, output_cell};
ghost use Rattle.flatten.specs.connectivity.Clocks.{AreOneNet, OtherNet, ReadsNet};

use crate::connectivity::kept::keeps;
use crate::connectivity::kinds::{control_of, differ, edge_of, is_port};
use elaborate::{Flat, FlatKind};
use sec_base::{Edge, NoMemory};
use std::alloc::Global;

/// Puts the clock of a latch last, where one is written.
fn push_control(signals: &mut Vec<u32>, kind: FlatKind) -> Result<(), NoMemory>
    ensures { OnOk result (signals.new.items ≡ signals.old.items ++ control_by (kind_of [] kind)) }
{
    if let Some(control) = control_of(kind) {
        signals.push(control)?;
    }
    Ok(())
}

/// The main model's clocks, and then the clocks of latches in the order of the walk.
pub(crate) fn clock_signals(alloc: Global, flat: &Flat) -> Result<Vec<u32>, NoMemory>
    ensures { IfOk result (λ signals. signals.items ≡ clock_signals (wires_of flat.now)) }
{
    let mut signals = flat.clocks.as_slice().to_vec(alloc)?;
    for statement in flat.statements.as_slice() {
        push_control(&mut signals, statement.kind)?;
    }
    Ok(signals)
}

/// The one net of the signals that have one, if there is any; or else the first net that differs from one before.
pub(crate) fn one_net(signals: &[u32], nets: &[Option<u32>]) -> Result<Option<u32>, u32>
    requires { All (λ n. n < length nets.now) signals.now }
    ensures { MatchResult result (AreOneNet nets.now signals.now) (IsFirst (OtherNet nets.now signals.now)) }
{
    let mut clock: Option<u32> = None;
    for signal in signals {
        let Some(net) = nets[*signal as usize] else {
            continue;
        };
        if clock.unwrap_or(net) != net {
            return Err(net);
        }
        clock = Some(net);
    }
    Ok(clock)
}

/// The first latch whose edge differs from that of the first latch with an edge, by its output.
pub(crate) fn other_edge(flat: &Flat) -> Option<u32>
    ensures edge { let w = wires_of flat.now in MatchOption result (IsNever (OtherEdge w)) (IsFirst (OtherEdge w)) }
    ensures within { IfSome result (λ n. n < length flat.now.names) }
{
    keeps(flat);
    let mut first: Option<Edge> = None;
    for statement in flat.statements.as_slice() {
        let Some(edge) = edge_of(statement.kind) else {
            continue;
        };
        if differ(first.unwrap_or(edge), edge) {
            return Some(statement.out);
        }
        first = Some(edge);
    }
    None
}

/// Whether one of the signals is of the net.
fn reads_net(nets: &[Option<u32>], reads: &[u32], net: u32) -> bool
    requires { All (λ n. n < length nets.now) reads.now }
    ensures { IsTrue result ↔ ReadsNet nets.now net reads.now }
{
    for signal in reads {
        let Some(found) = nets[*signal as usize] else {
            continue;
        };
        if found == net {
            return true;
        }
    }
    false
}

/// The first gate or latch that reads the net, by its output, or else the first output of the main model that is of it.
pub(crate) fn net_reader(flat: &Flat, nets: &[Option<u32>], net: u32) -> Option<u32>
    requires { length nets.now ≡ length flat.now.names }
    ensures reader { let read = IsAt (readers (wires_of flat.now)) (λ c. c.out) (λ c. ReadsNet nets.now net c.reads) in MatchOption result (IsNever read) (IsFirst read) }
    ensures within { IfSome result (λ n. n < length flat.now.names) }
{
    keeps(flat);
    for statement in flat.statements.as_slice() {
        if is_port(statement.kind) {
            continue;
        }
        if reads_net(nets, statement.reads.as_slice(), net) {
            return Some(statement.out);
        }
    }
    output_of(flat.outputs.as_slice(), nets, net)
}

/// The first output that is of the net.
fn output_of(outputs: &[u32], nets: &[Option<u32>], net: u32) -> Option<u32>
    requires { All (λ n. n < length nets.now) outputs.now }
    ensures { let read = IsAt (map output_cell outputs.now) (λ c. c.out) (λ c. ReadsNet nets.now net c.reads) in MatchOption result (IsNever read) (IsFirst read) }
{
    for output in outputs {
        if reads_net(nets, &[*output], net) {
            return Some(*output);
        }
    }
    None
}
