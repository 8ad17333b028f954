//! What drives the signals of a flat design, and their nets.

ghost use Rattle.std.specs.Prelude.{◌≡◌, ◌<◌, length, slice_get, Some};
ghost use Rattle.flatten.specs.connectivity.Wired.{WiredView};

use std::marker::Model;

/// What drives a signal.
#[derive(Clone, Copy)]
pub enum Source {
    /// Nothing does, and nothing reads it.
    Open,
    /// An input or a clock of the main model.
    Input,
    /// The flat statement at this place of the walk, from 0.
    Statement(u32),
}

/// For each signal of a flat design what drives it and its net, and the clock net.
#[derive(Drop)]
pub struct Wired {
    pub(crate) sources: Vec<Source>,
    pub(crate) nets: Vec<Option<u32>>,
    pub(crate) clock: Option<u32>,
}

impl Model for Wired {
    ghost use Rattle.flatten.specs.connectivity.Wired.{WiredView};

    ghost Value = { WiredView };

    ghost view = { λ w. record { sources = w.sources.items; nets = w.nets.items; clock = w.clock } };
}

impl Wired {
    /// What drives the signal with this number.
    pub fn source(&self, signal: u32) -> Source
        requires { signal < length self.now.sources }
        ensures { slice_get self.now.sources signal ≡ Some result }
    {
        self.sources[signal as usize]
    }

    /// The net of the signal with this number, by the number of the signal at which it is driven. None where ports lead
    /// back from it for ever.
    pub fn net(&self, signal: u32) -> Option<u32>
        requires { signal < length self.now.nets }
        ensures { slice_get self.now.nets signal ≡ Some result }
    {
        self.nets[signal as usize]
    }

    /// The number of the clock net, which is an input or a clock of the main model; None where nothing is clocked.
    pub fn clock(&self) -> Option<u32>
        ensures { result ≡ self.now.clock }
    {
        self.clock
    }
}
