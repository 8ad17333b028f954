//! The classes of a circuit's latches are given one after the other.

ghost use Rattle.std.specs.Prelude.{◌≡◌, ◌<◌, length, slice_set};

use super::EventCircuit;

impl EventCircuit {
    /// Gives the latch with this position its class.
    pub fn set_class(&mut self, j: u32, class: u32)
        requires { j < length self.old.net.latches }
        ensures { self.new ≡ record self.old { classes = slice_set self.old.classes j class } }
    {
        self.classes[j as usize] = class;
    }
}
