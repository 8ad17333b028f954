//! The flat circuit.

ghost use Rattle.std.specs.Prelude.{◌≡◌, ◌<◌, length, map, slice_get, slice_index_or, false, Some, All, IfSome, IfNone, is_some, option_map, ◌==◌, ◌≢◌, IsSomeAnd, Contains};
ghost use Rattle.std.specs.List.{list_any};
ghost use Rattle.circuit_theory.specs.Cover.{cover_value, row_matches};
ghost use Rattle.sec_base.specs.Cover.{IsCoverSound};
ghost use Rattle.base_tables.specs.Table.{is_among};
ghost use Rattle.circuit_theory.specs.Net.{IsNet, HasDistinctNames};
ghost use Rattle.flat_net.specs.View.{NetView, cover_of, circuit_of, is_read};
ghost use Rattle.flat_net.specs.Sound.{IsSound, IsInOrder};

mod cut;
mod growth;

use crate::parts::{Driver, Gate, LatchAt, Port};
use crate::signals::Signal;
use base_tables::NameTable;
pub(crate) use growth::push_within;
use sec_base::{Cover, Word, place_matches};
use std::marker::Model;

/// A flat circuit. Each signal has one driver and a name of its own, and each gate stands behind the gates that it
/// reads. A contract sees the record of its lists.
pub struct Net {
    inputs: Vec<Port>,
    outputs: Vec<Port>,
    gates: Vec<Gate>,
    latches: Vec<LatchAt>,
    covers: Vec<Cover>,
    drivers: Vec<Driver>,
    names: NameTable,
    clock: Option<Word>,
}

/// It is let go by one call: an owner isn't taken apart field by field at each way out.
impl Drop for Net {
    fn drop(self) {
        let Net {
            inputs: _,
            outputs: _,
            gates: _,
            latches: _,
            covers: _,
            drivers: _,
            names: _,
            clock: _,
        } = self;
    }
}

impl Model for Net {
    ghost use Rattle.flat_net.specs.View.{NetView};
    ghost use Rattle.flat_net.specs.Sound.{IsSound};

    ghost Value = { NetView };

    ghost view = { λ n. record { inputs = n.inputs.items; outputs = n.outputs.items; gates = n.gates.items; latches = n.latches.items; covers = n.covers.items; drivers = n.drivers.items; names = n.names; clock = n.clock } };

    ghost invariant = { λ n. IsSound (record { inputs = n.inputs.items; outputs = n.outputs.items; gates = n.gates.items; latches = n.latches.items; covers = n.covers.items; drivers = n.drivers.items; names = n.names; clock = n.clock }) };
}

impl Net {
    /// Tells a proof what each net keeps: its circuit is a flat net, whose names tell inputs and latches apart, and
    /// its gates stand in an order of evaluation. It does nothing.
    pub fn keeps(&self)
        ensures sound { IsSound self.now }
        ensures net { IsNet (circuit_of self.now) (length self.now.drivers) }
        ensures names { HasDistinctNames (circuit_of self.now) }
        ensures order { IsInOrder self.now }
    {
        let _ = &self.drivers;
    }

    /// The inputs, without the clock.
    pub fn inputs(&self) -> &[Port]
        ensures { result.now ≡ self.now.inputs }
    {
        self.inputs.as_slice()
    }

    /// The outputs.
    pub fn outputs(&self) -> &[Port]
        ensures { result.now ≡ self.now.outputs }
    {
        self.outputs.as_slice()
    }

    /// The gates, each behind the gates that it reads.
    pub fn gates(&self) -> &[Gate]
        ensures { result.now ≡ self.now.gates }
    {
        self.gates.as_slice()
    }

    /// The latches.
    pub fn latches(&self) -> &[LatchAt]
        ensures { result.now ≡ self.now.latches }
    {
        self.latches.as_slice()
    }

    /// The name of the clock, if there is one.
    pub fn clock(&self) -> Option<&[u8]>
        ensures { option_map (λ name. name.now) result ≡ self.now.clock }
    {
        match &self.clock {
            Some(name) => Some(name.as_slice()),
            None => None,
        }
    }

    /// The number of signals.
    pub fn size(&self) -> u32
        ensures { result ≡ length self.now.drivers }
    {
        self.drivers.len() as u32
    }

    /// The cover with this number.
    pub fn cover(&self, id: u32) -> &Cover
        requires { id < length self.now.covers }
        ensures { slice_get self.now.covers id ≡ Some result.now }
    {
        &self.covers[id as usize]
    }

    /// What drives the signal.
    pub fn driver(&self, s: Signal) -> Driver
        requires { s.0 < length self.now.drivers }
        ensures { slice_get self.now.drivers s.0 ≡ Some result }
    {
        self.drivers[s.0 as usize]
    }

    /// The signal's name.
    pub fn name(&self, s: Signal) -> &[u8]
        requires { s.0 < length self.now.drivers }
        ensures { slice_get self.now.names s.0 ≡ Some result.now }
    {
        self.names.name(s.0)
    }

    /// Whether some gate, latch or output reads input i. It looks through the whole net.
    pub fn input_read(&self, i: u32) -> bool
        requires { i < length self.now.inputs }
        ensures { IfSome (slice_get self.now.inputs i) (λ port. result ≡ is_read self.now port.signal) }
    {
        let port = self.input_at(i);
        gates_read(self.gates(), port.signal)
            || latches_read(self.latches(), port.signal)
            || ports_show(self.outputs(), port.signal)
    }

    /// The latch with this name; None exactly where no latch has it.
    pub fn latch_named(&self, name: &[u8]) -> Option<u32>
        ensures here { IfSome result (λ j. IsSomeAnd (slice_get self.now.latches j) (λ l. l.name ≡ name.now)) }
        ensures absent { IfNone result (All (λ l. l.name ≢ name.now) self.now.latches) }
    {
        self.keeps();
        let Some(signal) = self.signal_named(name) else {
            return None;
        };
        match self.driver(Signal(signal)) {
            Driver::Latch(j) => Some(j),
            _ => None,
        }
    }

    pub(crate) fn signal_named(&self, name: &[u8]) -> Option<u32>
        ensures here { IfSome result (λ s. slice_get self.now.names s ≡ Some name.now) }
        ensures absent { IfNone result (Contains self.now.names name.now → ⊥) }
        ensures found { is_some result ≡ is_among self.now.names name.now }
    {
        self.names.find(name)
    }

    fn input_at(&self, i: u32) -> &Port
        requires { i < length self.now.inputs }
        ensures { slice_get self.now.inputs i ≡ Some result.now }
    {
        &self.inputs[i as usize]
    }

    /// The value of a gate's cover, where the signals have these values. It takes no memory.
    pub fn eval_gate(&self, gate: u32, values: &[bool]) -> bool
        requires gate { gate < length self.now.gates }
        requires values { length values.now ≡ length self.now.drivers }
        ensures { IfSome (slice_get self.now.gates gate) (λ g. result ≡ cover_value (cover_of self.now.covers g) (map (λ f. slice_index_or values.now f.0 false) g.fanins)) }
    {
        self.keeps();
        let gate = self.gate_at(gate);
        let cover = self.cover(gate.cover);
        cover_at(cover, gate.fanins.as_slice(), values)
    }

    fn gate_at(&self, gate: u32) -> &Gate
        requires { gate < length self.now.gates }
        ensures { slice_get self.now.gates gate ≡ Some result.now }
    {
        &self.gates[gate as usize]
    }
}

/// The cover's value of the fan-ins' values.
#[tactic(auto, unfolding(circuit_theory::specs::Cover::cover_value))]
fn cover_at(cover: &Cover, fanins: &[Signal], values: &[bool]) -> bool
    requires width { cover.now.width ≡ length fanins.now }
    requires sound { IsCoverSound cover.now }
    requires within { All (λ f. f.0 < length values.now) fanins.now }
    ensures { result ≡ cover_value cover.now (map (λ f. slice_index_or values.now f.0 false) fanins.now) }
{
    let found = any_matches(cover.rows(), fanins, values);
    if cover.on() { found } else { !found }
}

fn any_matches(rows: &[Word], fanins: &[Signal], values: &[bool]) -> bool
    requires width { All (λ row. length row ≡ length fanins.now) rows.now }
    requires within { All (λ f. f.0 < length values.now) fanins.now }
    ensures { result ≡ list_any (λ row. row_matches row (map (λ f. slice_index_or values.now f.0 false) fanins.now)) rows.now }
{
    for row in rows {
        if row_matches(row.as_slice(), fanins, values) {
            return true;
        }
    }
    false
}

fn row_matches(row: &[u8], fanins: &[Signal], values: &[bool]) -> bool
    requires width { length row.now ≡ length fanins.now }
    requires within { All (λ f. f.0 < length values.now) fanins.now }
    ensures { result ≡ row_matches row.now (map (λ f. slice_index_or values.now f.0 false) fanins.now) }
{
    for (i, place) in row.iter().enumerate() {
        if !place_matches(*place, values[fanins[i].0 as usize]) {
            return false;
        }
    }
    true
}

fn gates_read(gates: &[Gate], signal: Signal) -> bool
    ensures { result ≡ list_any (λ g. list_any (λ f. f.0 == signal.0) g.fanins) gates.now }
{
    for gate in gates {
        if is_fanin(gate.fanins.as_slice(), signal) {
            return true;
        }
    }
    false
}

fn is_fanin(fanins: &[Signal], signal: Signal) -> bool
    ensures { result ≡ list_any (λ f. f.0 == signal.0) fanins.now }
{
    for fanin in fanins {
        if fanin.0 == signal.0 {
            return true;
        }
    }
    false
}

fn latches_read(latches: &[LatchAt], signal: Signal) -> bool
    ensures { result ≡ list_any (λ l. l.next.0 == signal.0) latches.now }
{
    for latch in latches {
        if latch.next.0 == signal.0 {
            return true;
        }
    }
    false
}

fn ports_show(ports: &[Port], signal: Signal) -> bool
    ensures { result ≡ list_any (λ port. port.signal.0 == signal.0) ports.now }
{
    for port in ports {
        if port.signal.0 == signal.0 {
            return true;
        }
    }
    false
}
