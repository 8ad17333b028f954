//! Which latches of two circuits are enabled.

ghost use Rattle.std.specs.Prelude.{◌≤◌};
ghost use Rattle.event_setup.specs.Recovered.{Recovers, RecoversBoth};

use crate::error::RecoveryError;
use circuit_theory::Mode;
use flat_net::Net;
use latch_kinds::{KindsError, kinds_in};
use sec_base::{Bits, MAX_CONFLICTS, Side};
use signal_graph::inner_cone::latch_cone::enabled_among;
use std::alloc::Global;

/// Which latches of two circuits are enabled: a bit for each latch.
#[derive(Drop)]
pub struct EnabledLatches {
    pub left: Bits,
    pub right: Bits,
}

/// Which latches of both circuits are enabled, with at most so many conflicts for each latch that is in its own cone. The latches of A are
/// taken in their order, then those of B, and the first of which it isn't known ends the work.
pub fn recover_both(
    alloc: Global,
    a: &Net,
    b: &Net,
    conflicts: u32,
) -> Result<EnabledLatches, RecoveryError>
    requires { conflicts ≤ MAX_CONFLICTS }
    ensures { RecoversBoth a.now b.now conflicts result }
{
    let left = enabled_in(alloc, a, Side::A, conflicts)?;
    let right = enabled_in(alloc, b, Side::B, conflicts)?;
    Ok(EnabledLatches { left, right })
}

/// Which latches of one of both circuits are enabled.
fn enabled_in(alloc: Global, net: &Net, side: Side, conflicts: u32) -> Result<Bits, RecoveryError>
    requires { conflicts ≤ MAX_CONFLICTS }
    ensures { Recovers side net.now conflicts result }
{
    match kinds_in(alloc, net, Mode::Event, conflicts) {
        Ok(kinds) => Ok(enabled_among(alloc, kinds.as_slice())?),
        Err(KindsError::TooLarge) => Err(RecoveryError::TooLarge(side)),
        Err(KindsError::Limit(name, proof)) => Err(RecoveryError::Limit(side, name, proof)),
        Err(KindsError::NoMemory) => Err(RecoveryError::NoMemory),
    }
}
