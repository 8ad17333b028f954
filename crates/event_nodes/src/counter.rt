//! What the unfoldings of one circuit weigh together.

ghost use Rattle.std.specs.Prelude.{◌≡◌, ◌<◌, [], length, slice_get, Some, Contains, OnOk, Err};
ghost use Rattle.flat_net.specs.Sound.{IsSound};
ghost use Rattle.flat_net.specs.Table.{AreDistinct};
ghost use Rattle.event_nodes.specs.declared.error.EventUnfoldError.TheVariants as unfold_error;
ghost use Rattle.aig.specs.Adds.{Adds};
ghost use Rattle.event_nodes.specs.Visited.{IsWeighed, places_weight};

use crate::error::EventUnfoldError;
use flat_net::{Net, PlaceTable, Signal, weigh};
use sec_base::MAX_WEIGHT;
use std::alloc::Global;
use std::marker::Model;

/// The places that the unfoldings of one circuit have visited, each an event node and a signal, and what they weigh together. Each
/// place counts once.
#[derive(Drop)]
pub struct Counter {
    places: PlaceTable,
    weight: u32,
}

impl Model for Counter {
    ghost use Rattle.event_nodes.specs.Visited.{CounterView};

    ghost Value = { CounterView };

    ghost view = { λ c. record { places = c.places; weight = c.weight } };
}

impl Counter {
    /// Nothing is counted. It takes no memory.
    pub fn new(alloc: Global) -> Counter
        ensures { result ≡ record { places = []; weight = 0 } }
    {
        Counter {
            places: PlaceTable::new(alloc),
            weight: 0,
        }
    }

    /// Tells a proof that no place stands twice. It does nothing.
    pub fn keeps(&self)
        ensures { AreDistinct self.now.places }
    {
        self.places.keeps();
    }

    /// How many places are counted.
    pub fn len(&self) -> u32
        ensures { result ≡ length self.now.places }
    {
        self.places.len()
    }

    /// The place with this number: an event node and a signal.
    pub fn place(&self, number: u32) -> (u32, u32)
        requires { number < length self.now.places }
        ensures { slice_get self.now.places number ≡ Some result }
    {
        self.places.pair(number)
    }

    /// Counts the signal at the node. `TooLarge` comes where all places then weigh more than 2,000,000.
    pub fn count(&mut self, net: &Net, node: u32, s: Signal) -> Result<(), EventUnfoldError>
        requires signal { s.0 < length net.now.drivers }
        requires weighed { IsWeighed net.now self.old }
        ensures adds { Adds (λ q. q ≡ (node, s.0)) self.old.places self.new.places }
        ensures here { OnOk result (Contains self.new.places (node, s.0)) }
        ensures weighed { OnOk result (IsWeighed net.now self.new) }
        ensures many { result ≡ Err unfold_error.TooManyEvents → ⊥ }
        ensures large { result ≡ Err unfold_error.TooLarge → 2000000 < places_weight net.now self.new.places }
    {
        net.keeps();
        let before = self.places.len();
        self.places.intern(node, s.0)?;
        let after = self.places.len();
        if after == before {
            return Ok(());
        }
        let Some(more) = weigh(net, s, MAX_WEIGHT - self.weight) else {
            return Err(EventUnfoldError::TooLarge);
        };
        self.weight += more;
        Ok(())
    }
}
