//! The gates of the net of a sound flat design.

ghost use Rattle.std.specs.Prelude.{true, ◌≡◌, ◌^◌, ◌+◌, ◌<◌, ◌≤◌, [], length, map, slice_get, slice_index_or, Some, All, IfOk, OnOk};
ghost use Rattle.elaborate.specs.Flat.{cover_at, view_of, IsShaped};
ghost use Rattle.net_assembly.specs.Built.{IsBuilt, AreCovers};
ghost use Rattle.flatten.specs.Gated.{IsLaid, HasGates, IsRest, IsGrown, first_made};
ghost use Rattle.net_assembly.specs.Shown.{with_outputs, latch_signals, latch_nexts, with_nexts};

use crate::assemble::{Assembly, cover_copy};
use crate::connectivity::{Source, Wired};
use blif_read::BlifModel;
use elaborate::{Flat, FlatKind, FlatStatement};
use flat_net::{Signal, Signals};
use sec_base::NoMemory;
use std::alloc::Global;

/// The first number that a statement reads.
fn first_read(statement: &FlatStatement) -> u32
    requires { 0 < length statement.now.reads }
    ensures { slice_get statement.now.reads 0 ≡ Some result }
{
    statement.reads.as_slice()[0]
}

impl Assembly {
    /// The number of the cover of a statement. A cover that the net does not have yet goes last.
    fn cover_number(
        &mut self,
        alloc: Global,
        models: &[BlifModel],
        model: u32,
        statement: u32,
    ) -> Result<u32, NoMemory>
        requires covers { AreCovers models.now self.old.covers self.old.maker.net.covers }
        requires room { length self.old.covers + 1 < 2 ^ 32 }
        ensures covers { OnOk result (AreCovers models.now self.new.covers self.new.maker.net.covers) }
        ensures cover { IfOk result (λ id. slice_get self.new.maker.net.covers id ≡ Some (cover_at models.now model statement)) }
        ensures grown { OnOk result (IsGrown self.old.maker.net.covers self.new.maker.net.covers) }
        ensures few { OnOk result (length self.new.covers ≤ length self.old.covers + 1) }
        ensures net { OnOk result (self.new.maker ≡ record self.old.maker { net = record self.old.maker.net { covers = self.new.maker.net.covers } }) }
        ensures signals { OnOk result (self.new.signals.items ≡ self.old.signals.items) }
    {
        let count = self.covers.len();
        let number = self.covers.intern(model, statement)?;
        if self.covers.len() > count {
            self.maker
                .cover(cover_copy(alloc, models, model, statement)?)?;
        }
        Ok(number)
    }

    /// The signals of the numbers.
    fn signals_of(&self, alloc: Global, numbers: &[u32]) -> Result<Signals, NoMemory>
        requires { All (λ n. n < length self.now.signals.items) numbers.now }
        ensures { IfOk result (λ signals. signals ≡ map (λ n. slice_index_or self.now.signals.items n (record { 0 = 0 })) numbers.now) }
    {
        let mut signals = Signals::new(alloc);
        for number in numbers {
            signals.push(self.signals[*number as usize])?;
        }
        Ok(signals)
    }

    /// The number at this place of the order gets its signal: that of what its port reads, or of a new gate. Inputs and
    /// latches have theirs.
    fn place_number(
        &mut self,
        alloc: Global,
        models: &[BlifModel],
        flat: &Flat,
        wired: &Wired,
        order: &[u32],
        place: usize,
    ) -> Result<(), NoMemory>
        requires place { place < length order.now }
        requires numbers { All (λ n. n < length flat.now.names) order.now }
        requires laid { IsLaid flat.now wired.now order.now }
        requires shaped { All IsShaped (view_of models.now flat.now).statements }
        requires has { HasGates models.now flat.now wired.now order.now self.old.maker.net self.old.signals.items self.old.covers place }
        ensures has { OnOk result (HasGates models.now flat.now wired.now order.now self.new.maker.net self.new.signals.items self.new.covers (place + 1)) }
        ensures rest { OnOk result (IsRest self.old.maker self.new.maker) }
    {
        let _size = flat.names.len();
        let number = order[place];
        let Source::Statement(at) = wired.source(number) else {
            return Ok(());
        };
        let statement = &flat.statements.as_slice()[at as usize];
        match statement.kind {
            FlatKind::Latch { .. } => Ok(()),
            FlatKind::Port => {
                self.join(number, first_read(statement));
                Ok(())
            }
            FlatKind::Gate {
                model,
                statement: at,
            } => {
                let cover = self.cover_number(alloc, models, model, at)?;
                let fanins = self.signals_of(alloc, statement.reads.as_slice())?;
                self.add_gate(flat.name(number), number, fanins, cover)
            }
        }
    }

    /// The gates in the order, and the signals of ports.
    pub(crate) fn add_gates(
        &mut self,
        alloc: Global,
        models: &[BlifModel],
        flat: &Flat,
        wired: &Wired,
        order: &[u32],
    ) -> Result<(), NoMemory>
        requires numbers { All (λ n. n < length flat.now.names) order.now }
        requires laid { IsLaid flat.now wired.now order.now }
        requires shaped { All IsShaped (view_of models.now flat.now).statements }
        requires built { IsBuilt flat.now.names (first_made flat.now wired.now) self.old.maker.net self.old.signals.items }
        requires gates { self.old.maker.net.gates ≡ [] }
        requires no_covers { self.old.maker.net.covers ≡ [] }
        requires covers { self.old.covers ≡ [] }
        ensures has { OnOk result (HasGates models.now flat.now wired.now order.now self.new.maker.net self.new.signals.items self.new.covers (length order.now)) }
        ensures rest { OnOk result (IsRest self.old.maker self.new.maker) }
    {
        for place in 0..order.len() {
            self.place_number(alloc, models, flat, wired, order, place)?;
        }
        Ok(())
    }

    /// The main model's outputs in their order, each on the signal of its number.
    pub(crate) fn add_outputs(&mut self, flat: &Flat) -> Result<(), NoMemory>
        requires size { length self.old.signals.items ≡ length flat.now.names }
        requires within { All (λ n. (slice_index_or self.old.signals.items n (record { 0 = 0 })).0 < length self.old.maker.net.drivers) flat.now.outputs }
        ensures net { OnOk result (self.new.maker ≡ record self.old.maker { net = with_outputs flat.now.names self.old.signals.items flat.now.outputs self.old.maker.net }) }
        ensures signals { OnOk result (self.new.signals.items ≡ self.old.signals.items) }
    {
        for output in flat.outputs.as_slice() {
            let signal = self.signals[*output as usize];
            self.maker.output(flat.name(*output), signal)?;
        }
        Ok(())
    }

    /// Each latch takes over the signal of its data.
    pub(crate) fn set_nexts(&mut self, flat: &Flat)
        requires size { length self.old.signals.items ≡ length flat.now.names }
        requires outs { map (λ l. l.out) self.old.maker.net.latches ≡ latch_signals self.old.signals.items flat.now.statements }
        requires within { All (λ s. s.0 < length self.old.maker.net.drivers) (latch_nexts self.old.signals.items flat.now.statements) }
        ensures net { self.new.maker.net ≡ record self.old.maker.net { latches = with_nexts self.old.maker.net.latches (latch_nexts self.old.signals.items flat.now.statements) } }
        ensures set { All (λ set. set ≡ true) self.new.maker.set }
        ensures signals { self.new.signals.items ≡ self.old.signals.items }
    {
        self.maker.keeps();
        for statement in flat.statements.as_slice() {
            let FlatKind::Latch { .. } = statement.kind else {
                continue;
            };
            let latch = self.signals[statement.out as usize];
            let next = self.signals[first_read(statement) as usize];
            self.maker.set_next(latch, next);
        }
    }
}
