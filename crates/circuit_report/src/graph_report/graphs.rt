//! The report of a circuit's latch graph.

ghost use Rattle.circuit_report.specs.graph_report.Jobs.{Tells};

use crate::graph_report::report::graph_report;
use circuit_theory::Mode;
use flat_net::Net;
use latch_kinds::{KindsError, kinds_in};
use sec_base::{DEFAULT_CONFLICTS, Text};
use std::alloc::Global;

/// The report of the net's latch graph in the mode, or why it isn't known what a latch is.
pub fn tell(alloc: Global, net: &Net, mode: Mode) -> Result<Text, KindsError>
    ensures { Tells mode net.now result }
{
    let kinds = kinds_in(alloc, net, mode, DEFAULT_CONFLICTS)?;
    Ok(graph_report(alloc, net, kinds.as_slice())?)
}
