//! Nets with latches cut out.

ghost use Rattle.std.specs.Prelude.{◌≡◌, ◌+◌, ◌^◌, ◌<◌, ◌++◌, length, map, slice_get, Some, All, IfOk, if◌then◌else◌};
ghost use Rattle.std.specs.List.{filter};
ghost use Rattle.base_tables.specs.Table.{AreDistinct};
ghost use Rattle.flat_net.specs.View.{circuit_of};
ghost use Rattle.flat_net.specs.Cut.{latch_at, exposed_names, as_input, as_output, stays, moved_to, IsCut, IsCutCircuit, ArePlaces, AreMoved};

use super::Net;
use super::growth::put_port;
use crate::parts::{Driver, Gate, LatchAt, Port};
use base_tables::NameTable;
use sec_base::{Cover, Duplicate, Ids, NoMemory, Word};
use std::alloc::Global;

impl Net {
    /// The net without the exposed latches, which are named by their positions: they become inputs behind the inputs,
    /// and what they take over becomes outputs behind the outputs, in the order given. The other latches keep their
    /// order, and all else stays.
    pub fn cut(&self, alloc: Global, exposed: &Ids) -> Result<Net, NoMemory>
        requires within { All (λ j. j < length self.now.latches) exposed.now }
        requires distinct { AreDistinct exposed.now }
        ensures parts { IfOk result (λ net. IsCut self.now net exposed.now) }
        ensures circuit { IfOk result (λ net. IsCutCircuit (exposed_names self.now exposed.now) (circuit_of self.now) (circuit_of net)) }
    {
        self.cut_at(alloc, exposed.as_slice())
    }

    fn cut_at(&self, alloc: Global, exposed: &[u32]) -> Result<Net, NoMemory>
        requires within { All (λ j. j < length self.now.latches) exposed.now }
        requires distinct { AreDistinct exposed.now }
        ensures parts { IfOk result (λ net. IsCut self.now net exposed.now) }
        ensures circuit { IfOk result (λ net. IsCutCircuit (exposed_names self.now exposed.now) (circuit_of self.now) (circuit_of net)) }
    {
        self.keeps();
        let (inputs, outputs) = self.ports_after(alloc, exposed)?;
        let (latches, drivers) = self.latches_after(alloc, exposed)?;
        let (gates, covers) = self.gates_copied(alloc)?;
        let (names, clock) = self.names_copied(alloc)?;
        Ok(Net {
            inputs,
            outputs,
            gates,
            latches,
            covers,
            drivers,
            names,
            clock,
        })
    }

    /// The inputs and the outputs, each with what is exposed behind.
    fn ports_after(
        &self,
        alloc: Global,
        exposed: &[u32],
    ) -> Result<(Vec<Port>, Vec<Port>), NoMemory>
        requires { All (λ j. j < length self.now.latches) exposed.now }
        ensures inputs { IfOk result (λ p. p.0.items ≡ self.now.inputs ++ map (λ j. as_input (latch_at self.now j)) exposed.now) }
        ensures outputs { IfOk result (λ p. p.1.items ≡ self.now.outputs ++ map (λ j. as_output (latch_at self.now j)) exposed.now) }
    {
        let inputs = self.ports_behind(alloc, self.inputs(), exposed, false)?;
        let outputs = self.ports_behind(alloc, self.outputs(), exposed, true)?;
        Ok((inputs, outputs))
    }

    /// The latches that stay, and what drives each signal then.
    fn latches_after(
        &self,
        alloc: Global,
        exposed: &[u32],
    ) -> Result<(Vec<LatchAt>, Vec<Driver>), NoMemory>
        requires within { All (λ j. j < length self.now.latches) exposed.now }
        requires distinct { AreDistinct exposed.now }
        ensures latches { IfOk result (λ p. p.0.items ≡ filter (stays (exposed_names self.now exposed.now)) self.now.latches) }
        ensures drivers { IfOk result (λ p. AreMoved self.now (exposed_names self.now exposed.now) p.1.items) }
    {
        self.keeps();
        let names = self.exposed_names(alloc, exposed)?;
        let drivers = self.drivers_after(alloc, &names)?;
        let latches = self.latches_left(alloc, &names)?;
        Ok((latches, drivers))
    }

    fn drivers_after(&self, alloc: Global, names: &NameTable) -> Result<Vec<Driver>, NoMemory>
        requires { length self.now.inputs + length names.now < 2 ^ 32 }
        ensures { IfOk result (λ drivers. AreMoved self.now names.now drivers.items) }
    {
        let places = self.places(alloc, names)?;
        moved_drivers(alloc, self.drivers.as_slice(), places.as_slice())
    }

    fn gates_copied(&self, alloc: Global) -> Result<(Vec<Gate>, Vec<Cover>), NoMemory>
        ensures gates { IfOk result (λ p. p.0.items ≡ self.now.gates) }
        ensures covers { IfOk result (λ p. p.1.items ≡ self.now.covers) }
    {
        let gates = copy_all(alloc, self.gates())?;
        let covers = copy_all(alloc, self.covers.as_slice())?;
        Ok((gates, covers))
    }

    fn names_copied(&self, alloc: Global) -> Result<(NameTable, Option<Word>), NoMemory>
        ensures names { IfOk result (λ p. p.0 ≡ self.now.names) }
        ensures clock { IfOk result (λ p. p.1 ≡ self.now.clock) }
    {
        let names = self.names.copy(alloc)?;
        let clock = self.clock.duplicate(alloc)?;
        Ok((names, clock))
    }

    fn latch_at(&self, j: u32) -> &LatchAt
        requires { j < length self.now.latches }
        ensures here { slice_get self.now.latches j ≡ Some result.now }
        ensures is { result.now ≡ latch_at self.now j }
    {
        &self.latches[j as usize]
    }

    fn exposed_names(&self, alloc: Global, exposed: &[u32]) -> Result<NameTable, NoMemory>
        requires within { All (λ j. j < length self.now.latches) exposed.now }
        requires distinct { AreDistinct exposed.now }
        ensures { IfOk result (λ names. names ≡ exposed_names self.now exposed.now) }
    {
        self.keeps();
        let mut names = NameTable::new(alloc);
        for j in exposed {
            let latch = self.latch_at(*j);
            names.add(alloc, latch.name.as_slice())?;
        }
        Ok(names)
    }

    /// The ports, and behind them one for each exposed latch, which stands for what the latch takes over or for its
    /// signal.
    fn ports_behind(
        &self,
        alloc: Global,
        ports: &[Port],
        exposed: &[u32],
        takes_over: bool,
    ) -> Result<Vec<Port>, NoMemory>
        requires { All (λ j. j < length self.now.latches) exposed.now }
        ensures { IfOk result (λ made. made.items ≡ ports.now ++ map (λ j. if takes_over then as_output (latch_at self.now j) else as_input (latch_at self.now j)) exposed.now) }
    {
        let mut made = copy_all(alloc, ports)?;
        for j in exposed {
            let latch = self.latch_at(*j);
            let signal = if takes_over { latch.next } else { latch.out };
            put_port(&mut made, alloc, latch.name.as_slice(), signal)?;
        }
        Ok(made)
    }

    fn latches_left(&self, alloc: Global, names: &NameTable) -> Result<Vec<LatchAt>, NoMemory>
        ensures { IfOk result (λ left. left.items ≡ filter (stays names.now) self.now.latches) }
    {
        let mut left = Vec::new(alloc);
        for latch in self.latches() {
            if !names.has(latch.name.as_slice()) {
                left.push(latch.duplicate(alloc)?)?;
            }
        }
        Ok(left)
    }

    fn places(&self, alloc: Global, names: &NameTable) -> Result<Vec<Driver>, NoMemory>
        requires { length self.now.inputs + length names.now < 2 ^ 32 }
        ensures { IfOk result (λ places. ArePlaces self.now names.now places.items) }
    {
        self.keeps();
        let first = self.inputs().len() as u32;
        let mut left: u32 = 0;
        let mut places = Vec::new(alloc);
        for latch in self.latches() {
            let place = match names.find(latch.name.as_slice()) {
                Some(k) => Driver::Input(first + k),
                None => {
                    let number = left;
                    left += 1;
                    Driver::Latch(number)
                }
            };
            places.push(place)?;
        }
        Ok(places)
    }
}

/// The drivers with each latch's replaced by the one at its place.
fn moved_drivers(
    alloc: Global,
    drivers: &[Driver],
    places: &[Driver],
) -> Result<Vec<Driver>, NoMemory>
    ensures { IfOk result (λ moved. moved.items ≡ map (moved_to places.now) drivers.now) }
{
    let mut moved = Vec::new(alloc);
    for driver in drivers {
        moved.push(moved_to(*driver, places))?;
    }
    Ok(moved)
}

fn moved_to(driver: Driver, places: &[Driver]) -> Driver
    ensures { result ≡ moved_to places.now driver }
{
    match driver {
        Driver::Latch(j) => places.get(j as usize).copied().unwrap_or(driver),
        _ => driver,
    }
}

/// Equal items.
fn copy_all<T: Duplicate>(alloc: Global, items: &[T]) -> Result<Vec<T>, NoMemory>
    ensures { IfOk result (λ copies. copies.items ≡ items.now) }
{
    let mut copies = Vec::new(alloc);
    for item in items {
        copies.push(item.duplicate(alloc)?)?;
    }
    Ok(copies)
}
