//! A net under construction, and the signals of literals.

ghost use Rattle.std.specs.Prelude.{◌≡◌, ◌+◌, ◌^◌, ◌<◌, ◌++◌, ◌∷◌, [], false, length, replicate, map, slice_get, slice_set, All, IfOk, OnOk, IsSomeAnd};
ghost use Rattle.base_tables.specs.Table.{is_among};
ghost use Rattle.flat_net.specs.Makes.{empty_net, new_signal, with_input, with_latch, with_gate};
ghost use Rattle.aiger_read.specs.SignalNames.{gate_name};
ghost use Rattle.aiger_read.specs.Signals.{all_covers};
ghost use Rattle.aiger_read.specs.Made.{signal_at};

use crate::covers::add_covers;
use flat_net::{NetMaker, Signal, Signals};
use sec_base::{Init, NoMemory, put_number};
use std::alloc::Global;

/// The net so far, and the signal of each literal that has one.
#[derive(Drop)]
pub(crate) struct Assembly {
    pub(crate) maker: NetMaker,
    pub(crate) signals: Vec<Signal>,
}

/// The name of the gate of a literal: `#v` for variable v, `#v!` for its negation.
pub(crate) fn gate_name(alloc: Global, literal: u32) -> Result<Vec<u8>, NoMemory>
    ensures { IfOk result (λ name. name.items ≡ gate_name literal) }
{
    let mut name = Vec::new(alloc);
    name.push(b'#')?;
    put_number(alloc, &mut name, u64::from(literal / 2))?;
    if literal % 2 == 1 {
        name.push(b'!')?;
    }
    Ok(name)
}

impl Assembly {
    /// A net without signals, over so many literals.
    pub(crate) fn new(alloc: Global, size: usize) -> Result<Assembly, NoMemory>
        ensures net { IfOk result (λ a. a.maker ≡ record { net = record empty_net { covers = all_covers }; set = [] }) }
        ensures signals { IfOk result (λ a. a.signals.items ≡ replicate size (record { 0 = 0 })) }
    {
        let mut maker = NetMaker::new(alloc);
        add_covers(alloc, &mut maker)?;
        Ok(Assembly {
            maker,
            signals: vec![in alloc; Signal(0); size]?,
        })
    }

    /// The literal is an input of this name.
    pub(crate) fn add_input(&mut self, name: &[u8], literal: usize) -> Result<(), NoMemory>
        requires room { length self.old.maker.net.drivers + 1 < 2 ^ 32 }
        requires new { is_among self.old.maker.net.names name.now ≡ false }
        requires literal { literal < length self.old.signals.items }
        ensures net { OnOk result (self.new.maker ≡ record self.old.maker { net = with_input self.old.maker.net name.now }) }
        ensures signals { OnOk result (self.new.signals.items ≡ slice_set self.old.signals.items literal (new_signal self.old.maker.net)) }
    {
        let signal = self.maker.input(name)?;
        self.signals[literal] = signal;
        Ok(())
    }

    /// The literal is that of a latch of this name.
    pub(crate) fn add_latch(
        &mut self,
        name: &[u8],
        literal: usize,
        init: Init,
    ) -> Result<(), NoMemory>
        requires room { length self.old.maker.net.drivers + 1 < 2 ^ 32 }
        requires new { is_among self.old.maker.net.names name.now ≡ false }
        requires literal { literal < length self.old.signals.items }
        ensures net { OnOk result (self.new.maker ≡ record { net = with_latch self.old.maker.net name.now init; set = self.old.maker.set ++ false ∷ [] }) }
        ensures signals { OnOk result (self.new.signals.items ≡ slice_set self.old.signals.items literal (new_signal self.old.maker.net)) }
    {
        let signal = self.maker.latch(name, init)?;
        self.signals[literal] = signal;
        Ok(())
    }

    /// The literal is that of a gate.
    pub(crate) fn add_gate(
        &mut self,
        name: &[u8],
        literal: usize,
        fanins: Signals,
        cover: u32,
    ) -> Result<(), NoMemory>
        requires room { length self.old.maker.net.drivers + 1 < 2 ^ 32 }
        requires new { is_among self.old.maker.net.names name.now ≡ false }
        requires literal { literal < length self.old.signals.items }
        requires within { All (λ f. f.0 < length self.old.maker.net.drivers) fanins }
        requires fits { IsSomeAnd (slice_get self.old.maker.net.covers cover) (λ c. c.width ≡ length fanins) }
        ensures net { OnOk result (self.new.maker ≡ record self.old.maker { net = with_gate self.old.maker.net name.now fanins cover }) }
        ensures signals { OnOk result (self.new.signals.items ≡ slice_set self.old.signals.items literal (new_signal self.old.maker.net)) }
    {
        let signal = self.maker.gate(name, fanins, cover)?;
        self.signals[literal] = signal;
        Ok(())
    }

    /// The signals of the literals.
    pub(crate) fn signals_of(&self, alloc: Global, literals: &[u32]) -> Result<Signals, NoMemory>
        requires { All (λ l. l < length self.now.signals.items) literals.now }
        ensures { IfOk result (λ signals. signals ≡ map (signal_at self.now.signals.items) literals.now) }
    {
        let mut signals = Signals::new(alloc);
        for literal in literals {
            signals.push(self.signals[*literal as usize])?;
        }
        Ok(signals)
    }
}
