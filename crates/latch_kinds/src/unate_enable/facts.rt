//! What is found out about a net once, before its latches are looked at.

ghost use Rattle.std.specs.Prelude.{IfOk};
ghost use Rattle.latch_kinds.specs.unate_enable.Recovery.{AreFactsOf};

use crate::unate_enable::reads::are_cones_light;
use flat_net::Net;
use sec_base::{Ids, NoMemory};
use signal_graph::inner_cone::ranks;
use std::alloc::Global;

/// What is known of a net.
#[derive(Drop)]
pub struct NetFacts {
    /// Numbers of its signals: none reads one with a greater number.
    pub ranks: Ids,
    /// Whether it is known that no latch has a cone that weighs more than 2,000,000.
    pub light: bool,
}

/// Finds out about the net what `recover_by` looks at.
pub fn facts_of(alloc: Global, net: &Net) -> Result<NetFacts, NoMemory>
    ensures { IfOk result (AreFactsOf net.now) }
{
    let ranks = ranks(alloc, net)?;
    let light = are_cones_light(net);
    Ok(NetFacts { ranks, light })
}
