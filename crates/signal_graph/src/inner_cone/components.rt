//! The strongly connected components of signals that read one another, as in a net, where a gate reads its fan-ins and a latch what
//! it takes over (R. Tarjan, "Depth-first search and linear graph algorithms", SIAM Journal on Computing 1, 1972). No clause speaks
//! of them: who uses the numbers looks whether they are right.

use crate::inner_cone::latch_cone::{Driver, Net, NoMemory, Signal};
use crate::inner_cone::numbers::number_at;
use std::alloc::Global;

/// Signals that read one another.
pub trait Readings {
    /// How many signals there are.
    fn count(&self) -> u32;

    /// The signal that this one reads at the place, if it reads so many.
    fn read_at(&self, signal: u32, place: usize) -> Option<u32>;
}

impl Readings for Net {
    fn count(&self) -> u32 {
        self.size()
    }

    fn read_at(&self, signal: u32, place: usize) -> Option<u32> {
        if signal >= self.size() {
            return None;
        }
        match self.driver(Signal(signal)) {
            Driver::Input(_) => None,
            Driver::Gate(j) => fanin_at(self, j, place),
            Driver::Latch(j) => {
                if place > 0 {
                    return None;
                }
                match self.latches().get(j as usize) {
                    Some(latch) => Some(latch.next.0),
                    None => None,
                }
            }
        }
    }
}

/// A signal on the way, with how many of those that it reads were looked at.
#[derive(Clone, Copy)]
struct Step {
    signal: u32,
    read: usize,
}

/// A walk in depth. A number of a signal is 0 as long as there is none.
#[derive(Drop)]
struct Walk {
    /// In which order the signals were met.
    met: Vec<u32>,
    /// The least such number that the signal leads back to, as far as is known.
    low: Vec<u32>,
    /// The number of each signal's component.
    components: Vec<u32>,
    /// The signals whose components aren't known, in the order in which they were met.
    pending: Vec<u32>,
    way: Vec<Step>,
    /// How many signals were met.
    count: u32,
    /// How many components are known.
    known: u32,
}

/// The number of each signal's component. A signal reads none whose component has a greater number.
pub fn components_of<R: Readings>(alloc: Global, readings: &R) -> Result<Vec<u32>, NoMemory> {
    let mut walk = Walk::new(alloc, readings.count() as usize)?;
    for root in 0..readings.count() {
        walk.go_from(readings, root)?;
    }
    let Walk {
        met: _,
        low: _,
        components,
        pending: _,
        way: _,
        count: _,
        known: _,
    } = walk;
    Ok(components)
}

impl Walk {
    fn new(alloc: Global, count: usize) -> Result<Walk, NoMemory> {
        Ok(Walk {
            met: vec![in alloc; 0u32; count]?,
            low: vec![in alloc; 0u32; count]?,
            components: vec![in alloc; 0u32; count]?,
            pending: Vec::new(alloc),
            way: Vec::new(alloc),
            count: 0,
            known: 0,
        })
    }

    /// Walks from the signal, if it wasn't met before.
    fn go_from<R: Readings>(&mut self, readings: &R, root: u32) -> Result<(), NoMemory> {
        if number_at(self.met.as_slice(), root) > 0 {
            return Ok(());
        }
        self.way.push(Step {
            signal: root,
            read: 0,
        })?;
        for _ in 0..u64::MAX {
            let Some(step) = self.way.pop() else {
                return Ok(());
            };
            self.take(readings, step)?;
        }
        Ok(())
    }

    /// Goes on from the signal of the step: to one that it reads and that wasn't met, or back from it.
    fn take<R: Readings>(&mut self, readings: &R, step: Step) -> Result<(), NoMemory> {
        if step.read == 0 {
            self.meet(step.signal)?;
        }
        match self.next_new(readings, step) {
            Some((read, signal)) => {
                self.way.push(Step {
                    signal: step.signal,
                    read: read.saturating_add(1),
                })?;
                self.way.push(Step { signal, read: 0 })?;
            }
            None => self.leave(step.signal),
        }
        Ok(())
    }

    /// The next signal that is read and wasn't met, with its place. What was met before it counts for how low the signal leads back.
    fn next_new<R: Readings>(&mut self, readings: &R, step: Step) -> Option<(usize, u32)> {
        for read in step.read.saturating_sub(1)..usize::MAX {
            let Some(signal) = readings.read_at(step.signal, read) else {
                return None;
            };
            if number_at(self.met.as_slice(), signal) == 0 {
                return Some((read, signal));
            }
            if number_at(self.components.as_slice(), signal) == 0 {
                let low = number_at(self.low.as_slice(), step.signal).min(number_at(
                    self.low.as_slice(),
                    signal,
                ));
                put_at(self.low.as_mut_slice(), step.signal, low);
            }
        }
        None
    }

    /// Meets the signal.
    fn meet(&mut self, signal: u32) -> Result<(), NoMemory> {
        self.count = self.count.saturating_add(1);
        put_at(self.met.as_mut_slice(), signal, self.count);
        put_at(self.low.as_mut_slice(), signal, self.count);
        self.pending.push(signal)?;
        Ok(())
    }

    /// Goes back from the signal. Where it leads back to nothing that was met before it, it and the pending ones behind it are a component.
    fn leave(&mut self, signal: u32) {
        if number_at(self.low.as_slice(), signal) != number_at(self.met.as_slice(), signal) {
            return;
        }
        self.known = self.known.saturating_add(1);
        for _ in 0..self.pending.len() {
            let Some(last) = self.pending.pop() else {
                return;
            };
            put_at(self.components.as_mut_slice(), last, self.known);
            if last == signal {
                return;
            }
        }
    }
}

/// The fan-in at this place of the gate with this number.
fn fanin_at(net: &Net, j: u32, place: usize) -> Option<u32> {
    let Some(gate) = net.gates().get(j as usize) else {
        return None;
    };
    match gate.fanins.as_slice().get(place) {
        Some(fanin) => Some(fanin.0),
        None => None,
    }
}

fn put_at(numbers: &mut [u32], signal: u32, number: u32) {
    let place = signal as usize;
    if place < numbers.len() {
        numbers[place] = number;
    }
}
