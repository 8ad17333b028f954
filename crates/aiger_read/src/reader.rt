//! A text as a net.

ghost use Rattle.std.specs.Prelude.{◌≤◌, length};
ghost use Rattle.aiger_read.specs.Nets.{ReadsNet};

use crate::aiger_file::aiger_graph::order_literals;
use crate::aiger_file::{AigerError, AigerKind, read_file};
use crate::finish::make;
use crate::plan::Plan;
use flat_net::Net;
use std::alloc::Global;

/// Reads a text of the AIGER formats `aag` and `aig` as a net. A refusal names the first record with a fault, counted from
/// 0, and the first kind that holds of it; what is wrong with the whole file is told with record 0. A text has at most
/// 16,777,216 bytes. Where memory was wanted and could not be had, the answer is `NoMemory`.
#[tactic(auto, using(crate::proofs::Answered::reads_fault))]
pub fn read_aiger(alloc: Global, bytes: &[u8]) -> Result<Net, AigerError>
    requires { length bytes.now ≤ 16777216 }
    ensures { ReadsNet bytes.now result }
{
    let file = read_file(alloc, bytes)?;
    let Some(ordered) = order_literals(alloc, &file)? else {
        return Err(AigerError::At {
            place: 0,
            kind: AigerKind::Loop,
        });
    };
    let plan = Plan {
        file: &file,
        graph: &ordered.graph,
        order: ordered.order.as_slice(),
    };
    let net = make(alloc, &plan)?;
    Ok(net)
}
