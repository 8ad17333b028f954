//! The replay of a stimulus on two circuits, in a mode.

ghost use Rattle.std.specs.Prelude.{◌≡◌, ◌^◌, ◌<◌, length};
ghost use Rattle.flat_net.specs.Comparable.{IsComparable};
ghost use Rattle.sec_setup.specs.Matching.{InterfacesMatch};
ghost use Rattle.job_circuit.specs.job_replay.Modes.{Matches, KnowsEnabled, ReplaysMatching, ReplaysIn};

use crate::job_replay::fault::ReplayFault;
use crate::replay::{Replayed, replay};
use circuit_theory::Mode;
use flat_net::Net;
use latch_kinds::{KindsError, kinds_in};
use sec_base::{Bits, DEFAULT_CONFLICTS, Side};
use sec_setup::{SetupError, shared_names};
use signal_graph::inner_cone::latch_cone::enabled_among;
use std::alloc::Global;
use witness_report::Stimulus;

/// Refuses circuits whose interfaces don't match.
fn match_interfaces(alloc: Global, a: &Net, b: &Net) -> Result<(), ReplayFault>
    requires left { IsComparable a.now }
    requires right { IsComparable b.now }
    ensures { Matches a.now b.now result }
{
    match shared_names(alloc, a, b) {
        Ok(_) => Ok(()),
        Err(SetupError::Interface(name)) => Err(ReplayFault::Interface(name)),
        Err(SetupError::Cyclic(_, _)) => unreachable!(),
        Err(SetupError::Unpaired(_, _)) => unreachable!(),
        Err(SetupError::NoMemory) => Err(ReplayFault::NoMemory),
    }
}

/// The bits of the circuit's latches that count as enabled in the mode.
fn enabled_in(alloc: Global, net: &Net, side: Side, mode: Mode) -> Result<Bits, ReplayFault>
    ensures { KnowsEnabled mode side net.now result }
{
    match kinds_in(alloc, net, mode, DEFAULT_CONFLICTS) {
        Ok(kinds) => Ok(enabled_among(alloc, kinds.as_slice())?),
        Err(KindsError::TooLarge) => Err(ReplayFault::TooLarge(side)),
        Err(KindsError::Limit(name, proof)) => Err(ReplayFault::Limit(side, name, proof)),
        Err(KindsError::NoMemory) => Err(ReplayFault::NoMemory),
    }
}

/// What both circuits show on the stimulus in the mode, where their interfaces match.
fn replay_matching(
    alloc: Global,
    a: &Net,
    b: &Net,
    stimulus: &Stimulus,
    mode: Mode,
) -> Result<Replayed, ReplayFault>
    requires right { IsComparable b.now }
    requires matches { InterfacesMatch a.now b.now }
    requires few { length stimulus.now.rows < 2 ^ 32 }
    ensures { ReplaysMatching mode a.now b.now stimulus.now.names stimulus.now.rows result }
{
    let left = enabled_in(alloc, a, Side::A, mode)?;
    let right = enabled_in(alloc, b, Side::B, mode)?;
    Ok(replay(alloc, a, b, &left, &right, stimulus)?)
}

/// The differences of both circuits on the stimulus in the mode, where both power up with zeros: by cycle and then by pair; and since
/// when each pair is settled in both. It refuses, in this order: interfaces that don't match; a latch of A of which it isn't known whether it has a load enable, then one of B; a name
/// of the stimulus that is unknown, then a shared input that it lacks.
pub fn replay_in(
    alloc: Global,
    a: &Net,
    b: &Net,
    stimulus: &Stimulus,
    mode: Mode,
) -> Result<Replayed, ReplayFault>
    requires left { IsComparable a.now }
    requires right { IsComparable b.now }
    requires few { length stimulus.now.rows < 2 ^ 32 }
    ensures { ReplaysIn mode a.now b.now stimulus.now.names stimulus.now.rows result }
{
    match_interfaces(alloc, a, b)?;
    replay_matching(alloc, a, b, stimulus, mode)
}
