//! The drivers, nets and clock of a flat design, or the first fault of them.

ghost use Rattle.std.specs.Prelude.{◌≡◌, ◌++◌, ◌<◌, length, slice_get, Some, IfOk, IfErr, OnOk};
ghost use Rattle.flatten.specs.connectivity.Wiring.{wires_of};
ghost use Rattle.flatten.specs.connectivity.Events.{IsNever};
ghost use Rattle.flatten.specs.connectivity.Faults.{DrivesAgain, ReadsUndriven, OtherClock, OtherEdge, IsGatedClock, ClockRead, HasNoWireFault};
ghost use Rattle.flatten.specs.connectivity.Tables.{AreSources, AreNets, HasTables};
ghost use Rattle.flatten.specs.connectivity.Wired.{IsWired, IsClockOf, IsTold, IsFaultless};

use crate::connectivity::clocks::{clock_signals, net_reader, one_net, other_edge};
use crate::connectivity::drivers::{driven_again, undriven};
use crate::connectivity::kept::keeps;
use crate::connectivity::source::{Source, Wired};
use crate::connectivity::sources::{ends, ports};
use elaborate::{Flat, FlatError};
use sec_base::{NoMemory, Seq, Word};
use std::alloc::Global;

/// The flat name of the signal, as a word of its own.
fn name_of(alloc: Global, flat: &Flat, signal: u32) -> Result<Word, NoMemory>
    requires { signal < length flat.now.names }
    ensures { IfOk result (λ name. slice_get flat.now.names signal ≡ Some name) }
{
    Ok(Seq::from_vec(flat.name(signal).to_vec(alloc)?))
}

/// What drives each signal, or the first fault of drivers.
fn sources(alloc: Global, flat: &Flat) -> Result<Vec<Source>, FlatError>
    ensures ok { let w = wires_of flat.now in IfOk result (λ sources. (length sources.items ≡ length flat.now.names) × AreSources (w.inputs ++ w.clocks) w.outs sources.items × IsNever (DrivesAgain w) × IsNever (ReadsUndriven w)) }
    ensures err { IfErr result (IsTold flat.now) }
{
    keeps(flat);
    let mut sources = vec![in alloc; Source::Open; flat.names.len() as usize]?;
    if let Some(signal) = driven_again(&mut sources, flat) {
        return Err(FlatError::TwoDrivers(name_of(alloc, flat, signal)?));
    }
    if let Some(signal) = undriven(flat, &sources) {
        return Err(FlatError::Undriven(name_of(alloc, flat, signal)?));
    }
    Ok(sources)
}

/// For each signal its net; None where ports lead back from it for ever.
fn nets(alloc: Global, flat: &Flat, sources: &[Source]) -> Result<Vec<Option<u32>>, NoMemory>
    requires len { length sources.now ≡ length flat.now.names }
    requires sources { let w = wires_of flat.now in AreSources (w.inputs ++ w.clocks) w.outs sources.now }
    requires single { IsNever (DrivesAgain (wires_of flat.now)) }
    ensures { IfOk result (λ nets. AreNets (wires_of flat.now) (length flat.now.names) nets.items) }
{
    keeps(flat);
    let froms = ports(alloc, flat, sources)?;
    ends(alloc, &froms)
}

/// The faults of a clock net: a gate or a latch drives it, or it is read.
fn check_clock(
    alloc: Global,
    flat: &Flat,
    sources: &[Source],
    nets: &[Option<u32>],
    clock: u32,
) -> Result<(), FlatError>
    requires tables { HasTables (wires_of flat.now) (length flat.now.names) sources.now nets.now }
    requires single { IsNever (DrivesAgain (wires_of flat.now)) }
    requires driven { IsNever (ReadsUndriven (wires_of flat.now)) }
    requires one_clock { IsNever (OtherClock (wires_of flat.now)) }
    requires one_edge { IsNever (OtherEdge (wires_of flat.now)) }
    requires clock { IsClockOf (wires_of flat.now) (Some clock) }
    ensures ok { OnOk result (HasNoWireFault (wires_of flat.now)) }
    ensures err { IfErr result (IsTold flat.now) }
{
    keeps(flat);
    if let Source::Statement(_) = sources[clock as usize] {
        return Err(FlatError::GatedClock(name_of(alloc, flat, clock)?));
    }
    if let Some(reader) = net_reader(flat, nets, clock) {
        return Err(FlatError::ClockRead(name_of(alloc, flat, reader)?));
    }
    Ok(())
}

/// The same, where there may be no clock net.
fn check_clocked(
    alloc: Global,
    flat: &Flat,
    sources: &[Source],
    nets: &[Option<u32>],
    clock: Option<u32>,
) -> Result<(), FlatError>
    requires tables { HasTables (wires_of flat.now) (length flat.now.names) sources.now nets.now }
    requires single { IsNever (DrivesAgain (wires_of flat.now)) }
    requires driven { IsNever (ReadsUndriven (wires_of flat.now)) }
    requires one_clock { IsNever (OtherClock (wires_of flat.now)) }
    requires one_edge { IsNever (OtherEdge (wires_of flat.now)) }
    requires clock { IsClockOf (wires_of flat.now) clock }
    ensures ok { OnOk result (HasNoWireFault (wires_of flat.now)) }
    ensures err { IfErr result (IsTold flat.now) }
{
    keeps(flat);
    match clock {
        Some(net) => check_clock(alloc, flat, sources, nets, net),
        None => Ok(()),
    }
}

/// The clock net, if there is one, or the first fault of clocks.
fn clock_net(
    alloc: Global,
    flat: &Flat,
    sources: &[Source],
    nets: &[Option<u32>],
) -> Result<Option<u32>, FlatError>
    requires tables { HasTables (wires_of flat.now) (length flat.now.names) sources.now nets.now }
    requires single { IsNever (DrivesAgain (wires_of flat.now)) }
    requires driven { IsNever (ReadsUndriven (wires_of flat.now)) }
    ensures ok { IfOk result (λ clock. HasNoWireFault (wires_of flat.now) × IsClockOf (wires_of flat.now) clock) }
    ensures err { IfErr result (IsTold flat.now) }
{
    keeps(flat);
    let found = {
        let signals = clock_signals(alloc, flat)?;
        one_net(&signals, nets)
    };
    let clock = match found {
        Ok(clock) => clock,
        Err(other) => return Err(FlatError::TwoClocks(name_of(alloc, flat, other)?)),
    };
    if let Some(latch) = other_edge(flat) {
        return Err(FlatError::TwoEdges(name_of(alloc, flat, latch)?));
    }
    check_clocked(alloc, flat, sources, nets, clock)?;
    Ok(clock)
}

/// What drives each signal of a flat design and its net, and the clock net; or the first fault of drivers and clocks.
///
/// The faults are looked for in this order. `TwoDrivers`: the first signal that is driven again, where the main model's
/// inputs and clocks drive first. `Undriven`: the first that is read without a driver, where a latch reads its data and
/// then its clock, and the main outputs are read last. `TwoClocks`: the first net of the main clocks and then of the
/// latches' clocks that differs from one before, by the signal at its driver. `TwoEdges`: the first latch whose edge
/// differs from that of the first latch with an edge. `GatedClock`: the clock net, where a gate or a latch drives it.
/// `ClockRead`: the first gate or latch, by its output, or else the first main output, that reads the clock net through
/// ports or at once. A signal from which ports lead back for ever has no net, so it is neither a clock nor reads one.
/// `NoMemory` comes where memory was wanted. No other error comes.
pub fn wire(alloc: Global, flat: &Flat) -> Result<Wired, FlatError>
    ensures ok { IfOk result (IsWired (wires_of flat.now) (length flat.now.names)) }
    ensures faultless { OnOk result (IsFaultless flat.now) }
    ensures err { IfErr result (IsTold flat.now) }
{
    keeps(flat);
    let sources = sources(alloc, flat)?;
    let nets = nets(alloc, flat, &sources)?;
    let clock = clock_net(alloc, flat, &sources, &nets)?;
    Ok(Wired {
        sources,
        nets,
        clock,
    })
}
