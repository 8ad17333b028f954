//! What latches take over, and the finished net.

ghost use Rattle.std.specs.Prelude.{◌≡◌, true, [], All, IfOk};
ghost use Rattle.aiger_read.specs.aiger_file.aiger_graph.net_assembly.Shown.{with_nexts};
ghost use Rattle.aiger_read.specs.aiger_file.aiger_graph.Circuit.{latches_in, output_literals};
ghost use Rattle.aiger_read.specs.Made.{IsPlan, IsMade, HasOutputs, nexts_of};
ghost use Rattle.aiger_read.specs.Nets.{IsNetOf};

use crate::aiger_records::Record;
use crate::assembly::Assembly;
use crate::plan::Plan;
use flat_net::{Net, NetMaker};
use sec_base::NoMemory;
use std::alloc::Global;
use std::mem;

impl Assembly {
    /// Each latch takes over the signal of its next literal.
    fn set_nexts(&mut self, plan: &Plan<'_>)
        requires plan { IsPlan plan.now.file.now plan.now.graph.now plan.now.order.now }
        requires made { HasOutputs plan.now.file.now plan.now.order.now (output_literals plan.now.file.now.records) self.old.maker.net self.old.signals.items }
        ensures net { self.new.maker.net ≡ record self.old.maker.net { latches = with_nexts self.old.maker.net.latches (nexts_of self.old.signals.items (latches_in plan.now.file.now.records)) } }
        ensures set { All (λ set. set ≡ true) self.new.maker.set }
    {
        self.maker.keeps();
        for found in plan.file.records.as_slice() {
            let Record::Latch {
                literal,
                next,
                reset: _,
            } = *found
            else {
                continue;
            };
            let latch = self.signals[literal as usize];
            let source = self.signals[next as usize];
            self.maker.set_next(latch, source);
        }
    }

    /// The whole net, where the net so far has no signals. It is moved out.
    fn complete(&mut self, alloc: Global, plan: &Plan<'_>) -> Result<Net, NoMemory>
        requires plan { IsPlan plan.now.file.now plan.now.graph.now plan.now.order.now }
        requires made { IsMade plan.now.file.now plan.now.order.now [] [] [] [] self.old.maker.net self.old.signals.items }
        ensures { IfOk result (λ net. IsNetOf plan.now.file.now net) }
    {
        self.add_inputs(alloc, plan)?;
        self.add_latches(alloc, plan)?;
        self.add_gates(alloc, plan)?;
        self.add_outputs(alloc, plan)?;
        self.maker.keeps();
        self.set_nexts(plan);
        let net = mem::replace(&mut self.maker, NetMaker::new(alloc)).finish();
        net.keeps();
        Ok(net)
    }
}

/// The net of a file.
pub(crate) fn make(alloc: Global, plan: &Plan<'_>) -> Result<Net, NoMemory>
    requires { IsPlan plan.now.file.now plan.now.graph.now plan.now.order.now }
    ensures { IfOk result (λ net. IsNetOf plan.now.file.now net) }
{
    let mut assembly = Assembly::new(alloc, 2 * plan.file.header.greatest as usize + 2)?;
    assembly.complete(alloc, plan)
}
