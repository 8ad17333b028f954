//! What a net is made of.

use crate::signals::{Signal, Signals};
use sec_base::{Duplicate, Init, NoMemory, Word};
use std::alloc::Global;

/// An input or an output, with the signal that it drives or shows.
#[derive(Drop)]
pub struct Port {
    pub name: Word,
    pub signal: Signal,
}

/// A gate: its signal has the value of a cover of the fan-ins. The cover is named by its number in the net.
#[derive(Drop)]
pub struct Gate {
    pub fanins: Signals,
    pub cover: u32,
    pub out: Signal,
}

/// A latch: its signal has in the next cycle the value that `next` has now.
#[derive(Drop)]
pub struct LatchAt {
    pub name: Word,
    pub next: Signal,
    pub out: Signal,
    pub init: Init,
}

/// What drives a signal, by its number among the inputs, gates or latches.
#[derive(Clone, Copy)]
pub enum Driver {
    Input(u32),
    Gate(u32),
    Latch(u32),
}

impl Duplicate for Port {
    fn duplicate(&self, _alloc: Global) -> Result<Port, NoMemory> {
        Ok(Port {
            name: self.name.copy()?,
            signal: self.signal,
        })
    }
}

impl Duplicate for Gate {
    fn duplicate(&self, _alloc: Global) -> Result<Gate, NoMemory> {
        Ok(Gate {
            fanins: self.fanins.copy()?,
            cover: self.cover,
            out: self.out,
        })
    }
}

impl Duplicate for LatchAt {
    fn duplicate(&self, _alloc: Global) -> Result<LatchAt, NoMemory> {
        Ok(LatchAt {
            name: self.name.copy()?,
            next: self.next,
            out: self.out,
            init: self.init,
        })
    }
}
