//! A circuit in which latches are cut open.

ghost use Rattle.std.specs.Prelude.{◌≡◌, length, IfOk};
ghost use Rattle.job_circuit.specs.replay.cut_sides.Opening.{AreNamesOf, IsCutSide};

use crate::replay::cut_sides::opened_latches::{bits_left, positions_of};
use base_tables::NameTable;
use cycle_sim::pair_runs::Side;
use flat_net::Net;
use sec_base::{Bits, NoMemory};
use std::alloc::Global;

/// A circuit in which latches are cut open.
pub struct CutSide {
    pub net: Net,
    /// One bit for each latch that is left, which is set where the latch counts as enabled.
    pub enabled: Bits,
}

/// It is let go by one call: an owner isn't taken apart field by field at each way out.
impl Drop for CutSide {
    fn drop(self) {
        let CutSide { net: _, enabled: _ } = self;
    }
}

impl CutSide {
    /// The circuit and its bits, as they are run.
    pub fn side(&self) -> Side<'_>
        ensures net { result.net.now ≡ self.now.net }
        ensures bits { result.enabled.now ≡ self.now.enabled }
    {
        Side {
            net: &self.net,
            enabled: &self.enabled,
        }
    }
}

/// The circuit in which the latches of these names are cut open: each becomes an input, and what it takes over an output, behind the
/// circuit's own, in the order of the names. Each latch that is left keeps its bit.
pub fn cut_side(alloc: Global, side: &Side<'_>, names: &NameTable) -> Result<CutSide, NoMemory>
    requires bits { length side.now.enabled.now ≡ length side.now.net.now.latches }
    requires names { AreNamesOf side.now.net.now names.now }
    ensures { IfOk result (λ c. IsCutSide side.now.net.now side.now.enabled.now names.now c.net c.enabled) }
{
    side.net.keeps();
    let positions = positions_of(alloc, side.net, names)?;
    let net = side.net.cut(alloc, &positions)?;
    let enabled = bits_left(alloc, side.net, side.enabled, &net)?;
    Ok(CutSide { net, enabled })
}
