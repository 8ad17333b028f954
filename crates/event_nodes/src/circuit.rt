//! A net whose latches have classes.

ghost use Rattle.std.specs.Prelude.{◌≡◌, ℕ, List, ◌<◌, true, false, length, slice_get, slice_index_or, Some};
ghost use Rattle.circuit_theory.specs.Circuit.{IsLatch, Reaches};
ghost use Rattle.circuit_theory.specs.Depth.{LatchesHaveDepths};
ghost use Rattle.flat_net.specs.declared.parts.LatchAt.{LatchAt};
ghost use Rattle.flat_net.specs.Sound.{IsSound};
ghost use Rattle.flat_net.specs.View.{circuit_of};
ghost use Rattle.event_nodes.specs.Depths.{AreDepths};
ghost use Rattle.event_nodes.specs.View.{IsEventCircuit, side_of, Enabled};

mod classes;

use flat_net::{Bits, Ids, Net};
use std::marker::Model;

/// A net, with a bit for each latch that marks the enabled ones, a number for each input, a class for each latch and a depth for each
/// signal.
pub struct EventCircuit {
    net: Net,
    enabled: Bits,
    order: Ids,
    classes: Vec<u32>,
    depths: Ids,
}

/// It is let go by one call: an owner isn't taken apart field by field at each way out.
impl Drop for EventCircuit {
    fn drop(self) {
        let EventCircuit {
            net: _,
            enabled: _,
            order: _,
            classes: _,
            depths: _,
        } = self;
    }
}

impl Model for EventCircuit {
    ghost use Rattle.event_nodes.specs.View.{EventCircuitView, IsEventCircuit};
    ghost use Rattle.event_nodes.specs.Depths.{AreDepths};

    ghost Value = { EventCircuitView };

    ghost view = { λ e. record { net = e.net; enabled = e.enabled; order = e.order; classes = e.classes.items } };

    ghost invariant = { λ e. IsEventCircuit (record { net = e.net; enabled = e.enabled; order = e.order; classes = e.classes.items }) × AreDepths e.net e.depths };
}

impl EventCircuit {
    /// The net with these lists. The depths are those of its signals, where self-edges of enabled latches don't count.
    pub fn new(net: Net, enabled: Bits, order: Ids, classes: Ids, depths: Ids) -> EventCircuit
        requires circuit { IsEventCircuit (record { net = net; enabled = enabled; order = order; classes = classes }) }
        requires depths { AreDepths net depths }
        ensures { result ≡ record { net = net; enabled = enabled; order = order; classes = classes } }
    {
        EventCircuit {
            net,
            enabled,
            order,
            classes: classes.into_vec(),
            depths,
        }
    }

    /// Whether the signal's depth is lower than the latch's, so that it doesn't read the latch at the second signal within the cycle. In
    /// the cone of what the latch takes over each other signal reads it, since no other latch there is as deep.
    pub fn is_apart(&self, signal: u32, latch: u32) -> bool
        ensures apart { result ≡ true → Reaches (circuit_of self.now.net) signal latch → ⊥ }
        ensures reads { result ≡ false → (name : List ℕ) (next : ℕ) → IsLatch (circuit_of self.now.net) name latch next → Reaches (circuit_of self.now.net) next signal → Reaches (circuit_of self.now.net) signal latch }
    {
        self.net.keeps();
        let depths = self.depths.as_slice();
        depth_in(depths, signal) < depth_in(depths, latch)
    }

    /// Tells a proof what each such circuit keeps. It does nothing.
    pub fn keeps(&self)
        ensures circuit { IsEventCircuit self.now }
        ensures sound { IsSound self.now.net }
        ensures depths { LatchesHaveDepths (circuit_of self.now.net) (Enabled self.now) }
    {
        self.net.keeps();
    }

    /// The net.
    pub fn net(&self) -> &Net
        ensures { result.now ≡ self.now.net }
    {
        &self.net
    }

    /// For each latch whether it is enabled.
    pub fn enabled(&self) -> &Bits
        ensures { result.now ≡ self.now.enabled }
    {
        &self.enabled
    }

    /// The number of the input with this position.
    pub fn number(&self, i: u32) -> u32
        requires { i < length self.now.order }
        ensures { slice_get self.now.order i ≡ Some result }
    {
        self.order.as_slice()[i as usize]
    }

    /// The class of the latch with this position.
    pub fn class(&self, j: u32) -> u32
        requires { j < length self.now.net.latches }
        ensures { (l : LatchAt) → slice_get self.now.net.latches j ≡ Some l → (side_of self.now).class l.out.0 ≡ result }
    {
        self.net.keeps();
        self.classes.as_slice()[j as usize]
    }

    /// Whether the latch with this position is enabled.
    pub fn is_enabled(&self, j: u32) -> bool
        requires { j < length self.now.net.latches }
        ensures yes { (l : LatchAt) → slice_get self.now.net.latches j ≡ Some l → result ≡ true → Enabled self.now l.out.0 }
        ensures no { (l : LatchAt) → slice_get self.now.net.latches j ≡ Some l → result ≡ false → Enabled self.now l.out.0 → ⊥ }
    {
        self.enabled.as_slice()[j as usize]
    }
}

/// The number in the list with this position; 0 where it has none.
fn depth_in(depths: &[u32], at: u32) -> u32
    ensures { result ≡ slice_index_or depths.now at 0 }
{
    let at = at as usize;
    if at < depths.len() { depths[at] } else { 0 }
}
