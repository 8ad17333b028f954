//! The net of a sound flat design.

ghost use Rattle.std.specs.Prelude.{◌≡◌, ◌^◌, ◌+◌, ◌<◌, ℕ, List, [], ◌∷◌, ◌++◌, false, true, length, replicate, slice_get, slice_set, slice_index_or, option_map, Some, None, All, IfOk, IfSome, OnOk, IsSomeAnd};
ghost use Rattle.base_tables.specs.Table.{is_among, AreDistinct};
ghost use Rattle.elaborate.specs.Flat.{cover_at, is_number, name_at};
ghost use Rattle.net_assembly.specs.Built.{IsBuilt, CanTakeLatches, unclocked, with_inputs, latch_outs, with_latches};
ghost use Rattle.flat_net.specs.Makes.{empty_net, new_signal, with_input, with_latch, with_gate, with_output, with_next};

use base_tables::PlaceTable;
use blif_read::{BlifModel, Statement};
use elaborate::{Flat, FlatKind};
use flat_net::{Net, NetMaker, Signal, Signals};
use sec_base::{Cover, Init, NoMemory, Seq};
use std::alloc::Global;
use std::mem;

/// The net so far, the signal of each number that has one, and which covers the net has.
pub(crate) struct Assembly {
    pub(crate) maker: NetMaker,
    pub(crate) signals: Vec<Signal>,
    pub(crate) covers: PlaceTable,
}

/// It is let go by one call: an owner isn't taken apart field by field at each way out.
impl Drop for Assembly {
    fn drop(self) {
        let Assembly {
            maker: _,
            signals: _,
            covers: _,
        } = self;
    }
}

impl Assembly {
    /// An empty net over so many numbers.
    pub(crate) fn new(alloc: Global, size: usize) -> Result<Assembly, NoMemory>
        ensures net { IfOk result (λ a. a.maker ≡ record { net = empty_net; set = [] }) }
        ensures signals { IfOk result (λ a. a.signals.items ≡ replicate size (record { 0 = 0 })) }
        ensures covers { IfOk result (λ a. a.covers ≡ []) }
    {
        let signals = vec![in alloc; Signal(0); size]?;
        Ok(Assembly {
            maker: NetMaker::new(alloc),
            signals,
            covers: PlaceTable::new(alloc),
        })
    }

    /// The number is an input of this name.
    pub(crate) fn add_input(&mut self, name: &[u8], number: u32) -> Result<(), NoMemory>
        requires room { length self.old.maker.net.drivers + 1 < 2 ^ 32 }
        requires new { is_among self.old.maker.net.names name.now ≡ false }
        requires number { number < length self.old.signals.items }
        ensures net { OnOk result (self.new.maker ≡ record self.old.maker { net = with_input self.old.maker.net name.now }) }
        ensures signals { OnOk result (self.new.signals.items ≡ slice_set self.old.signals.items number (new_signal self.old.maker.net)) }
        ensures covers { OnOk result (self.new.covers ≡ self.old.covers) }
    {
        let signal = self.maker.input(name)?;
        self.signals[number as usize] = signal;
        Ok(())
    }

    /// The main model's inputs but the clock, in their order.
    pub(crate) fn add_inputs(&mut self, flat: &Flat, clock: Option<u32>) -> Result<(), NoMemory>
        requires built { IsBuilt flat.now.names [] self.old.maker.net self.old.signals.items }
        requires distinct { AreDistinct (unclocked clock flat.now.inputs) }
        ensures built { OnOk result (IsBuilt flat.now.names (unclocked clock flat.now.inputs) self.new.maker.net self.new.signals.items) }
        ensures net { OnOk result (self.new.maker ≡ record self.old.maker { net = with_inputs flat.now.names (unclocked clock flat.now.inputs) self.old.maker.net }) }
        ensures covers { OnOk result (self.new.covers ≡ self.old.covers) }
    {
        let _size = flat.names.len();
        for input in flat.inputs.as_slice() {
            if is_clock(clock, *input) {
                continue;
            }
            self.add_input(flat.name(*input), *input)?;
        }
        Ok(())
    }

    /// The number is what a latch of this name drives.
    pub(crate) fn add_latch(&mut self, name: &[u8], number: u32, init: Init) -> Result<(), NoMemory>
        requires room { length self.old.maker.net.drivers + 1 < 2 ^ 32 }
        requires new { is_among self.old.maker.net.names name.now ≡ false }
        requires number { number < length self.old.signals.items }
        ensures net { OnOk result (self.new.maker ≡ record { net = with_latch self.old.maker.net name.now init; set = self.old.maker.set ++ false ∷ [] }) }
        ensures signals { OnOk result (self.new.signals.items ≡ slice_set self.old.signals.items number (new_signal self.old.maker.net)) }
        ensures covers { OnOk result (self.new.covers ≡ self.old.covers) }
    {
        let signal = self.maker.latch(name, init)?;
        self.signals[number as usize] = signal;
        Ok(())
    }

    /// The latches, in their order. Each takes over itself until its next is set.
    pub(crate) fn add_latches(&mut self, flat: &Flat) -> Result<(), NoMemory>
        requires { (made : List ℕ) × CanTakeLatches flat.now made self.old.maker.net self.old.signals.items }
        ensures built { OnOk result ((made : List ℕ) → CanTakeLatches flat.now made self.old.maker.net self.old.signals.items → IsBuilt flat.now.names (made ++ latch_outs flat.now.statements) self.new.maker.net self.new.signals.items) }
        ensures net { OnOk result (self.new.maker.net ≡ with_latches flat.now.names flat.now.statements self.old.maker.net) }
        ensures covers { OnOk result (self.new.covers ≡ self.old.covers) }
    {
        let _size = flat.names.len();
        for statement in flat.statements.as_slice() {
            let FlatKind::Latch { init, .. } = statement.kind else {
                continue;
            };
            self.add_latch(flat.name(statement.out), statement.out, init)?;
        }
        Ok(())
    }

    /// The main model's inputs but the clock, and then the latches.
    fn add_sources(&mut self, flat: &Flat, clock: Option<u32>) -> Result<(), NoMemory>
        requires built { IsBuilt flat.now.names [] self.old.maker.net self.old.signals.items }
        requires distinct { AreDistinct (unclocked clock flat.now.inputs ++ latch_outs flat.now.statements) }
        ensures built { OnOk result (IsBuilt flat.now.names (unclocked clock flat.now.inputs ++ latch_outs flat.now.statements) self.new.maker.net self.new.signals.items) }
        ensures net { OnOk result (self.new.maker.net ≡ with_latches flat.now.names flat.now.statements (with_inputs flat.now.names (unclocked clock flat.now.inputs) self.old.maker.net)) }
        ensures covers { OnOk result (self.new.covers ≡ self.old.covers) }
    {
        self.add_inputs(flat, clock)?;
        self.add_latches(flat)
    }

    /// The net of the inputs, without the clock, and of the latches, each of which takes over itself until its next is set.
    pub(crate) fn begin(
        alloc: Global,
        flat: &Flat,
        clock: Option<u32>,
    ) -> Result<Assembly, NoMemory>
        requires { AreDistinct (unclocked clock flat.now.inputs ++ latch_outs flat.now.statements) }
        ensures built { IfOk result (λ a. IsBuilt flat.now.names (unclocked clock flat.now.inputs ++ latch_outs flat.now.statements) a.maker.net a.signals.items) }
        ensures net { IfOk result (λ a. a.maker.net ≡ with_latches flat.now.names flat.now.statements (with_inputs flat.now.names (unclocked clock flat.now.inputs) empty_net)) }
        ensures covers { IfOk result (λ a. a.covers ≡ []) }
    {
        let mut assembly = Assembly::new(alloc, flat.names.len() as usize)?;
        assembly.add_sources(flat, clock)?;
        Ok(assembly)
    }

    /// The finished net, with the clock of this number, if there is one. It is moved out.
    pub(crate) fn finish(
        &mut self,
        alloc: Global,
        flat: &Flat,
        clock: Option<u32>,
    ) -> Result<Net, NoMemory>
        requires set { All (λ set. set ≡ true) self.old.maker.set }
        requires no_clock { self.old.maker.net.clock ≡ None }
        requires clock { IfSome clock (λ c. c < length flat.now.names) }
        ensures { IfOk result (λ net. net ≡ record self.old.maker.net { clock = option_map (name_at flat.now.names) clock }) }
    {
        if let Some(clock) = clock {
            self.maker
                .set_clock(Seq::from_vec(flat.name(clock).to_vec(alloc)?));
        }
        Ok(mem::replace(&mut self.maker, NetMaker::new(alloc)).finish())
    }

    /// The number is what a gate of this name drives.
    pub(crate) fn add_gate(
        &mut self,
        name: &[u8],
        number: u32,
        fanins: Signals,
        cover: u32,
    ) -> Result<(), NoMemory>
        requires room { length self.old.maker.net.drivers + 1 < 2 ^ 32 }
        requires new { is_among self.old.maker.net.names name.now ≡ false }
        requires within { All (λ f. f.0 < length self.old.maker.net.drivers) fanins }
        requires fits { IsSomeAnd (slice_get self.old.maker.net.covers cover) (λ c. c.width ≡ length fanins) }
        requires number { number < length self.old.signals.items }
        ensures net { OnOk result (self.new.maker ≡ record self.old.maker { net = with_gate self.old.maker.net name.now fanins cover }) }
        ensures signals { OnOk result (self.new.signals.items ≡ slice_set self.old.signals.items number (new_signal self.old.maker.net)) }
        ensures covers { OnOk result (self.new.covers ≡ self.old.covers) }
    {
        let signal = self.maker.gate(name, fanins, cover)?;
        self.signals[number as usize] = signal;
        Ok(())
    }

    /// The number is driven by a port from another: both have one signal.
    pub(crate) fn join(&mut self, number: u32, from: u32)
        requires number { number < length self.old.signals.items }
        requires from { from < length self.old.signals.items }
        ensures net { self.new.maker ≡ self.old.maker }
        ensures signals { IsSomeAnd (slice_get self.old.signals.items from) (λ s. self.new.signals.items ≡ slice_set self.old.signals.items number s) }
        ensures covers { self.new.covers ≡ self.old.covers }
    {
        let signal = self.signals[from as usize];
        self.signals[number as usize] = signal;
    }
}

/// Whether the number is that of the clock.
fn is_clock(clock: Option<u32>, number: u32) -> bool
    ensures { result ≡ is_number clock number }
{
    match clock {
        Some(clock) => clock == number,
        None => false,
    }
}

/// A copy of the cover of a statement; of no such statement, the constant 0.
pub(crate) fn cover_copy(
    alloc: Global,
    models: &[BlifModel],
    model: u32,
    statement: u32,
) -> Result<Cover, NoMemory>
    ensures { IfOk result (λ cover. cover ≡ cover_at models.now model statement) }
{
    let Some(model) = models.get(model as usize) else {
        return Ok(Cover::new(alloc, 0));
    };
    match model.statements.as_slice().get(statement as usize) {
        Some(Statement::Names { cover, .. }) => cover.copy(),
        _ => Ok(Cover::new(alloc, 0)),
    }
}
