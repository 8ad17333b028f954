//! How a net grows, signal by signal.

ghost use Rattle.std.specs.Prelude.{◌≡◌, ◌+◌, ◌^◌, ◌<◌, ℕ, false, [], ◌∷◌, ◌++◌, length, slice_get, vec_len, vec_capacity, Some, All, IfOk, IsSomeAnd, OnOk, OnErr};
ghost use Rattle.base_tables.specs.Table.{AreDistinct, is_among};
ghost use Rattle.flat_net.specs.Makes.{empty_net, with_input, with_latch, with_gate, with_cover, with_output, with_next, with_init, with_clock};

use super::Net;
use crate::parts::{Driver, Gate, LatchAt, Port};
use crate::signals::{Signal, Signals};
use base_tables::NameTable;
use sec_base::{Cover, Init, NoMemory, Seq, Word};
use std::alloc::{AllocError, Global};

impl Net {
    pub(crate) fn empty(alloc: Global) -> Net
        ensures { result ≡ empty_net }
    {
        Net {
            inputs: Vec::new(alloc),
            outputs: Vec::new(alloc),
            gates: Vec::new(alloc),
            latches: Vec::new(alloc),
            covers: Vec::new(alloc),
            drivers: Vec::new(alloc),
            names: NameTable::new(alloc),
            clock: None,
        }
    }

    pub(crate) fn has_name(&self, name: &[u8]) -> bool
        ensures { result ≡ is_among self.now.names name.now }
    {
        self.names.has(name)
    }

    pub(crate) fn add_input(
        &mut self,
        alloc: Global,
        name: &[u8],
        name_kept: Word,
    ) -> Result<Signal, NoMemory>
        requires kept { name_kept ≡ name.now }
        requires room { length self.old.drivers + 1 < 2 ^ 32 }
        requires new { is_among self.old.names name.now ≡ false }
        ensures signal { IfOk result (λ s. s.0 ≡ length self.old.drivers) }
        ensures ok { OnOk result (self.new ≡ with_input self.old name.now) }
        ensures err { OnErr result (self.new ≡ self.old) }
    {
        let signal = Signal(self.drivers.len() as u32);
        let number = self.inputs.len() as u32;
        let port = Port {
            name: name_kept,
            signal,
        };
        let driver = Driver::Input(number);
        enter(
            alloc,
            &mut self.names,
            &mut self.drivers,
            &mut self.inputs,
            name,
            port,
            driver,
        )
    }

    pub(crate) fn add_latch(
        &mut self,
        alloc: Global,
        name: &[u8],
        name_kept: Word,
        init: Init,
    ) -> Result<Signal, NoMemory>
        requires kept { name_kept ≡ name.now }
        requires room { length self.old.drivers + 1 < 2 ^ 32 }
        requires new { is_among self.old.names name.now ≡ false }
        ensures signal { IfOk result (λ s. s.0 ≡ length self.old.drivers) }
        ensures ok { OnOk result (self.new ≡ with_latch self.old name.now init) }
        ensures err { OnErr result (self.new ≡ self.old) }
    {
        let signal = Signal(self.drivers.len() as u32);
        let number = self.latches.len() as u32;
        let latch = LatchAt {
            name: name_kept,
            next: signal,
            out: signal,
            init,
        };
        let driver = Driver::Latch(number);
        enter(
            alloc,
            &mut self.names,
            &mut self.drivers,
            &mut self.latches,
            name,
            latch,
            driver,
        )
    }

    pub(crate) fn add_gate(
        &mut self,
        alloc: Global,
        name: &[u8],
        fanins: Signals,
        cover: u32,
    ) -> Result<Signal, NoMemory>
        requires room { length self.old.drivers + 1 < 2 ^ 32 }
        requires new { is_among self.old.names name.now ≡ false }
        requires within { All (λ f. f.0 < length self.old.drivers) fanins }
        requires fits { IsSomeAnd (slice_get self.old.covers cover) (λ c. c.width ≡ length fanins) }
        ensures signal { IfOk result (λ s. s.0 ≡ length self.old.drivers) }
        ensures ok { OnOk result (self.new ≡ with_gate self.old name.now fanins cover) }
        ensures err { OnErr result (self.new ≡ self.old) }
    {
        let out = Signal(self.drivers.len() as u32);
        let number = self.gates.len() as u32;
        let gate = Gate { fanins, cover, out };
        let driver = Driver::Gate(number);
        enter(
            alloc,
            &mut self.names,
            &mut self.drivers,
            &mut self.gates,
            name,
            gate,
            driver,
        )
    }

    pub(crate) fn add_cover(&mut self, cover: Cover) -> Result<u32, NoMemory>
        requires { length self.old.covers + 1 < 2 ^ 32 }
        ensures number { IfOk result (λ id. id ≡ length self.old.covers) }
        ensures ok { OnOk result (self.new ≡ with_cover self.old cover) }
        ensures err { OnErr result (self.new ≡ self.old) }
    {
        cover.keeps();
        let number = self.covers.len() as u32;
        self.covers.push(cover)?;
        Ok(number)
    }

    pub(crate) fn add_output(
        &mut self,
        alloc: Global,
        name: &[u8],
        s: Signal,
    ) -> Result<(), NoMemory>
        requires { s.0 < length self.old.drivers }
        ensures ok { OnOk result (self.new ≡ with_output self.old name.now s) }
        ensures err { OnErr result (self.new ≡ self.old) }
    {
        put_port(&mut self.outputs, alloc, name, s)
    }

    pub(crate) fn put_next(&mut self, latch: Signal, next: Signal) -> u32
        requires latch { (j : ℕ) × (slice_get self.old.drivers latch.0 ≡ Some (Driver.Latch j)) }
        requires within { next.0 < length self.old.drivers }
        ensures number { slice_get self.old.drivers latch.0 ≡ Some (Driver.Latch result) }
        ensures within { result < length self.old.latches }
        ensures set { self.new ≡ with_next self.old result next }
    {
        match self.driver(latch) {
            Driver::Latch(j) => {
                self.latches[j as usize].next = next;
                j
            }
            _ => unreachable!(),
        }
    }

    /// Gives the latch with this number another initial value. All else stays.
    pub fn set_init(&mut self, j: u32, init: Init)
        requires { j < length self.old.latches }
        ensures { self.new ≡ with_init self.old j init }
    {
        self.latches[j as usize].init = init;
    }

    pub(crate) fn put_clock(&mut self, name: Word)
        ensures { self.new ≡ with_clock self.old name }
    {
        self.clock = Some(name);
    }
}

/// Puts a port of this name last. After `NoMemory` nothing has changed.
pub(crate) fn put_port(
    ports: &mut Vec<Port>,
    alloc: Global,
    name: &[u8],
    signal: Signal,
) -> Result<(), NoMemory>
    ensures ok { OnOk result (ports.new.items ≡ ports.old.items ++ (record { name = name.now; signal = signal }) ∷ []) }
    ensures err { OnErr result (ports.new.items ≡ ports.old.items) }
{
    let name = Seq::from_vec(name.to_vec(alloc)?);
    ports.push(Port { name, signal })?;
    Ok(())
}

/// Puts a new signal last: its name, its driver and what stands for it among the items. After `NoMemory` nothing has changed.
fn enter<T: Drop>(
    alloc: Global,
    names: &mut NameTable,
    drivers: &mut Vec<Driver>,
    items: &mut Vec<T>,
    name: &[u8],
    item: T,
    driver: Driver,
) -> Result<Signal, NoMemory>
    requires room { length names.old + 1 < 2 ^ 32 }
    requires new { is_among names.old name.now ≡ false }
    requires number { length drivers.old.items < 2 ^ 32 }
    ensures signal { IfOk result (λ s. s.0 ≡ length drivers.old.items) }
    ensures names { OnOk result (names.new ≡ names.old ++ name.now ∷ []) }
    ensures names_err { OnErr result (names.new ≡ names.old) }
    ensures distinct { OnOk result (AreDistinct names.new) }
    ensures drivers { OnOk result (drivers.new.items ≡ drivers.old.items ++ driver ∷ []) }
    ensures drivers_err { OnErr result (drivers.new.items ≡ drivers.old.items) }
    ensures items { OnOk result (items.new.items ≡ items.old.items ++ item ∷ []) }
    ensures items_err { OnErr result (items.new.items ≡ items.old.items) }
{
    let signal = Signal(drivers.len() as u32);
    make_room(items, drivers)?;
    names.intern(alloc, name)?;
    names.keeps();
    push_within(items, item);
    push_within(drivers, driver);
    Ok(signal)
}

/// Room for one more of each. After an error no item has changed either.
fn make_room<T>(items: &mut Vec<T>, drivers: &mut Vec<Driver>) -> Result<(), AllocError>
    ensures items { items.new.items ≡ items.old.items }
    ensures drivers { drivers.new.items ≡ drivers.old.items }
    ensures item_room { OnOk result (vec_len items.new < vec_capacity items.new) }
    ensures driver_room { OnOk result (vec_len drivers.new < vec_capacity drivers.new) }
{
    items.reserve(1)?;
    drivers.reserve(1)
}

/// Puts the item last, where there is room for it.
pub(crate) fn push_within<T: Drop>(items: &mut Vec<T>, item: T)
    requires { vec_len items.old < vec_capacity items.old }
    ensures { items.new.items ≡ items.old.items ++ item ∷ [] }
{
    if items.push(item).is_err() {
        unreachable!();
    }
}
