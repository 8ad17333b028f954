//! Two nets whose signals have places, A's first.

ghost use Rattle.std.specs.Prelude.{◌≡◌, ◌<◌};
ghost use Rattle.signal_refine.specs.Places.{places_of, IsSpot};

use flat_net::{Net, Signal};
use sec_base::{Ids, Orders};

/// Two nets, A's and B's, with the numbers of their inputs.
#[derive(Clone, Copy)]
pub struct SignalNets<'a> {
    pub left: &'a Net,
    pub right: &'a Net,
    pub orders: &'a Orders,
}

/// The signal at a place: its net with the numbers of the net's inputs, and the place of the net's first signal.
#[derive(Clone, Copy)]
pub(crate) struct Spot<'a> {
    pub net: &'a Net,
    pub numbers: &'a Ids,
    pub offset: usize,
    pub signal: Signal,
}

impl<'a> SignalNets<'a> {
    /// How many signals both nets have.
    pub fn places(&self) -> usize
        ensures { result ≡ places_of self.now }
    {
        self.left.size() as usize + self.right.size() as usize
    }

    /// The signal at the place.
    pub(crate) fn spot(&self, place: usize) -> Spot<'a>
        requires { place < places_of self.now }
        ensures { IsSpot self.now place result }
    {
        self.right.keeps();
        let size = self.left.size() as usize;
        if place < size {
            return Spot {
                net: self.left,
                numbers: &self.orders.left,
                offset: 0,
                signal: Signal(place as u32),
            };
        }
        Spot {
            net: self.right,
            numbers: &self.orders.right,
            offset: size,
            signal: Signal((place - size) as u32),
        }
    }
}
