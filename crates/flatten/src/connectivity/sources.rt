//! Where following ports back ends.

ghost use Rattle.std.specs.Prelude.{◌≡◌, ◌^◌, ◌<◌, length, map, slice_get, slice_index, Some, None, All, IfOk};
ghost use Rattle.std.specs.List.{count_by};
ghost use Rattle.flatten.specs.connectivity.Wiring.{wires_of};
ghost use Rattle.flatten.specs.connectivity.Events.{IsNever};
ghost use Rattle.flatten.specs.connectivity.Faults.{DrivesAgain};
ghost use Rattle.flatten.specs.connectivity.Tables.{AreSources, ArePorts, AreNets};
ghost use Rattle.flatten.specs.connectivity.Steps.{source_port, IsStatementWithin, ArePortsWithin, is_open, IsBackBy, net_at, AreEnds};

use crate::connectivity::kept::keeps;
use crate::connectivity::source::Source;
use elaborate::{Flat, FlatKind};
use sec_base::NoMemory;
use std::alloc::Global;

/// From where a port drives a signal with this source; None where no port does.
fn port_from(flat: &Flat, source: Source) -> Option<u32>
    requires { IsStatementWithin (length flat.now.statements) source }
    ensures { result ≡ source_port flat.now.statements source }
{
    let Source::Statement(place) = source else {
        return None;
    };
    keeps(flat);
    let statement = &flat.statements.as_slice()[place as usize];
    match statement.kind {
        FlatKind::Port => Some(statement.reads.as_slice()[0]),
        _ => None,
    }
}

/// For each signal from where a port drives it.
pub(crate) fn ports(
    alloc: Global,
    flat: &Flat,
    sources: &[Source],
) -> Result<Vec<Option<u32>>, NoMemory>
    requires { All (IsStatementWithin (length flat.now.statements)) sources.now }
    ensures { IfOk result (λ froms. froms.items ≡ map (source_port flat.now.statements) sources.now) }
{
    let mut froms = Vec::new(alloc);
    for source in sources {
        froms.push(port_from(flat, *source))?;
    }
    Ok(froms)
}

/// For each signal where one port leads back to; where no port drives it, the signal itself.
fn one_back(alloc: Global, froms: &[Option<u32>]) -> Result<Vec<u32>, NoMemory>
    requires few { length froms.now < 2 ^ 32 }
    requires within { ArePortsWithin froms.now }
    ensures { IfOk result (λ at. IsBackBy froms.now 1 at.items) }
{
    let mut at = Vec::new(alloc);
    for (signal, from) in froms.iter().enumerate() {
        at.push(match from {
            Some(from) => *from,
            None => signal as u32,
        })?;
    }
    Ok(at)
}

/// For each signal where twice as many ports lead back to.
fn twice(alloc: Global, at: &[u32]) -> Result<Vec<u32>, NoMemory>
    requires { All (λ m. m < length at.now) at.now }
    ensures { IfOk result (λ further. further.items ≡ map (slice_index at.now) at.now) }
{
    let mut further = Vec::new(alloc);
    for place in at {
        further.push(at[*place as usize])?;
    }
    Ok(further)
}

/// How many of the places are driven by a port.
fn still_open(froms: &[Option<u32>], at: &[u32]) -> usize
    requires { All (λ m. m < length froms.now) at.now }
    ensures { result ≡ count_by (is_open froms.now) at.now }
{
    at.iter()
        .filter(|place| froms[**place as usize].is_some())
        .count()
}

/// The places that no port drives.
fn ended(alloc: Global, froms: &[Option<u32>], at: &[u32]) -> Result<Vec<Option<u32>>, NoMemory>
    requires { All (λ m. m < length froms.now) at.now }
    ensures { IfOk result (λ nets. nets.items ≡ map (net_at froms.now) at.now) }
{
    let mut nets = Vec::new(alloc);
    for place in at {
        nets.push(if froms[*place as usize].is_some() {
            None
        } else {
            Some(*place)
        })?;
    }
    Ok(nets)
}

/// For each signal where following ports back from it ends, or None where it never does. Each round looks twice as far
/// as the one before; where a round comes to no new end, the signals left lead to a ring.
pub(crate) fn ends(alloc: Global, froms: &[Option<u32>]) -> Result<Vec<Option<u32>>, NoMemory>
    requires few { length froms.now < 2 ^ 32 }
    requires within { ArePortsWithin froms.now }
    ensures { IfOk result (λ nets. AreEnds froms.now nets.items) }
{
    let mut at = one_back(alloc, froms)?;
    let mut open = still_open(froms, &at);
    loop {
        let further = twice(alloc, &at)?;
        let left = still_open(froms, &further);
        if left >= open {
            return ended(alloc, froms, &further);
        }
        at = further;
        open = left;
    }
}
