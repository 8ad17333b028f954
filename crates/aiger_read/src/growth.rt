//! The signals of a file: its inputs, its latches, its gates; and its outputs.

ghost use Rattle.std.specs.Prelude.{◌≡◌, ◌+◌, ◌*◌, ◌<◌, true, [], length, map, take, slice_get, Some, All, OnOk};
ghost use Rattle.std.specs.List.{filter};
ghost use Rattle.aiger_read.specs.aiger_file.aiger_graph.Circuit.{input_literals, latches_in, output_literals};
ghost use Rattle.aiger_read.specs.Signals.{is_gate};
ghost use Rattle.aiger_read.specs.SignalNames.{init_of};
ghost use Rattle.aiger_read.specs.Made.{IsPlan, IsMade, HasGates, HasOutputs};

use crate::aiger_records::Record;
use crate::assembly::{Assembly, gate_name};
use crate::covers::cover_number;
use crate::plan::Plan;
use sec_base::{Init, NoMemory};
use std::alloc::Global;

/// The initial value of a latch with this reset.
fn init_of(reset: u64) -> Init
    ensures { result ≡ init_of reset }
{
    match reset {
        0 => Init::Zero,
        1 => Init::One,
        _ => Init::Unknown,
    }
}

impl Assembly {
    /// The inputs, in their order.
    pub(crate) fn add_inputs(&mut self, alloc: Global, plan: &Plan<'_>) -> Result<(), NoMemory>
        requires plan { IsPlan plan.now.file.now plan.now.graph.now plan.now.order.now }
        requires made { IsMade plan.now.file.now plan.now.order.now [] [] [] [] self.old.maker.net self.old.signals.items }
        ensures { OnOk result (IsMade plan.now.file.now plan.now.order.now (input_literals plan.now.file.now.records) [] [] [] self.new.maker.net self.new.signals.items) }
    {
        let mut number = 0;
        for found in plan.file.records.as_slice() {
            let Record::Input { literal } = *found else {
                continue;
            };
            let name = plan.file.symbols.name_of(alloc, b'i', number)?;
            self.add_input(name.as_slice(), literal as usize)?;
            number += 1;
        }
        Ok(())
    }

    /// The latches, in their order. Each takes over itself until its next is set.
    pub(crate) fn add_latches(&mut self, alloc: Global, plan: &Plan<'_>) -> Result<(), NoMemory>
        requires plan { IsPlan plan.now.file.now plan.now.graph.now plan.now.order.now }
        requires made { IsMade plan.now.file.now plan.now.order.now (input_literals plan.now.file.now.records) [] [] [] self.old.maker.net self.old.signals.items }
        ensures { OnOk result (HasGates plan.now.file.now plan.now.order.now [] [] self.new.maker.net self.new.signals.items) }
    {
        let mut number = 0;
        for found in plan.file.records.as_slice() {
            let Record::Latch {
                literal,
                next: _,
                reset,
            } = *found
            else {
                continue;
            };
            let name = plan.file.symbols.name_of(alloc, b'l', number)?;
            self.add_latch(name.as_slice(), literal as usize, init_of(reset))?;
            number += 1;
        }
        Ok(())
    }

    /// The gate of the literal at this place of the order, if a gate drives it.
    fn add_gate_at(&mut self, alloc: Global, plan: &Plan<'_>, place: usize) -> Result<(), NoMemory>
        requires plan { IsPlan plan.now.file.now plan.now.graph.now plan.now.order.now }
        requires place { place < length plan.now.order.now }
        requires made { HasGates plan.now.file.now plan.now.order.now (filter (is_gate plan.now.file.now.records) (take place plan.now.order.now)) [] self.old.maker.net self.old.signals.items }
        ensures { OnOk result (HasGates plan.now.file.now plan.now.order.now (filter (is_gate plan.now.file.now.records) (take (place + 1) plan.now.order.now)) [] self.new.maker.net self.new.signals.items) }
    {
        let literal = plan.order[place];
        if !plan.has_gate(literal) {
            return Ok(());
        }
        let reads = plan.reads_of(literal);
        let name = gate_name(alloc, literal)?;
        let fanins = self.signals_of(alloc, reads)?;
        self.add_gate(
            name.as_slice(),
            literal as usize,
            fanins,
            cover_number(literal, reads),
        )
    }

    /// The gates, in the order.
    pub(crate) fn add_gates(&mut self, alloc: Global, plan: &Plan<'_>) -> Result<(), NoMemory>
        requires plan { IsPlan plan.now.file.now plan.now.graph.now plan.now.order.now }
        requires made { HasGates plan.now.file.now plan.now.order.now [] [] self.old.maker.net self.old.signals.items }
        ensures { OnOk result (HasOutputs plan.now.file.now plan.now.order.now [] self.new.maker.net self.new.signals.items) }
    {
        for place in 0..plan.order.len() {
            self.add_gate_at(alloc, plan, place)?;
        }
        Ok(())
    }

    /// The outputs, in their order.
    pub(crate) fn add_outputs(&mut self, alloc: Global, plan: &Plan<'_>) -> Result<(), NoMemory>
        requires plan { IsPlan plan.now.file.now plan.now.graph.now plan.now.order.now }
        requires made { HasOutputs plan.now.file.now plan.now.order.now [] self.old.maker.net self.old.signals.items }
        ensures { OnOk result (HasOutputs plan.now.file.now plan.now.order.now (output_literals plan.now.file.now.records) self.new.maker.net self.new.signals.items) }
    {
        let mut number = 0;
        for found in plan.file.records.as_slice() {
            let Record::Output { literal } = *found else {
                continue;
            };
            let name = plan.file.symbols.name_of(alloc, b'o', number)?;
            let signal = self.signals[literal as usize];
            self.maker.output(name.as_slice(), signal)?;
            number += 1;
        }
        Ok(())
    }
}
