//! What an unfolding reaches.

ghost use Rattle.std.specs.Prelude.{◌≡◌, ℕ, ◌<◌, true, false, length, slice_get, Some, IfSome, IfNone, IfOk, OnOk};
ghost use Rattle.edbf_unfold.specs.event_literals.Driver.TheVariants as driver;
ghost use Rattle.event_nodes.specs.View.{side_of};
ghost use Rattle.edbf_unfold.specs.declared.event_literals.event_walk.frames.Frame.{Frame};
ghost use Rattle.edbf_unfold.specs.declared.event_literals.event_walk.frames.Ways.{Ways};
ghost use Rattle.edbf_unfold.specs.Reached.{IsOpenPlace, IsOnwardAt, IsNodePut, AreNodesOf};

use super::EventUnfolder;
use crate::event_literals::{
    Driver, Ids, NoMemory, Place, PlaceTable, Seq, Signal, Ways, constant,
};
use std::alloc::Global;

impl<'a> EventUnfolder<'a> {
    /// The position of the latch that drives the place's signal, if one does that isn't read as a constant in the frame.
    fn open_latch(&self, place: Place) -> Option<u32>
        requires framed { (f : Frame) × (slice_get self.now.frames place.0 ≡ Some f) }
        requires signal { place.1 < length self.now.circuit.net.drivers }
        ensures here { IfSome result (λ j. (slice_get self.now.circuit.net.drivers place.1 ≡ Some (driver.Latch j)) × IsOpenPlace self.now.circuit self.now.frames place) }
        ensures none { IfNone result (IsOpenPlace self.now.circuit self.now.frames place → ⊥) }
    {
        let circuit = self.circuit();
        circuit.keeps();
        match circuit.net().driver(Signal(place.1)) {
            Driver::Latch(j) => self.open_at(place, j),
            _ => None,
        }
    }

    /// The position, if the latch isn't read as a constant in the frame.
    fn open_at(&self, place: Place, j: u32) -> Option<u32>
        requires framed { (f : Frame) × (slice_get self.now.frames place.0 ≡ Some f) }
        requires latch { slice_get self.now.circuit.net.drivers place.1 ≡ Some (driver.Latch j) }
        ensures here { IfSome result (λ k. (slice_get self.now.circuit.net.drivers place.1 ≡ Some (driver.Latch k)) × IsOpenPlace self.now.circuit self.now.frames place) }
        ensures none { IfNone result (IsOpenPlace self.now.circuit self.now.frames place → ⊥) }
    {
        let circuit = self.circuit();
        circuit.keeps();
        let frame = self.frame(place.0);
        match constant(frame.put, place.1) {
            Some(_) => None,
            None => Some(j),
        }
    }

    /// Whether the place's latch, if there is an open one, is of class 0.
    fn is_always(&self, place: Place) -> bool
        requires framed { (f : Frame) × (slice_get self.now.frames place.0 ≡ Some f) }
        requires signal { place.1 < length self.now.circuit.net.drivers }
        ensures yes { result ≡ true → IsOpenPlace self.now.circuit self.now.frames place → (side_of self.now.circuit).class place.1 ≡ 0 }
        ensures no { result ≡ false → IsOpenPlace self.now.circuit self.now.frames place × ((side_of self.now.circuit).class place.1 ≡ 0 → ⊥) }
    {
        let circuit = self.circuit();
        circuit.keeps();
        match self.open_latch(place) {
            Some(j) => circuit.class(j) == 0,
            None => true,
        }
    }

    /// Whether each latch of these places is of class 0.
    pub(super) fn only_always(&self, table: &PlaceTable) -> bool
        requires { (i : ℕ) (p : ℕ × ℕ) → slice_get table.now i ≡ Some p → ((f : Frame) × (slice_get self.now.frames p.0 ≡ Some f)) × (p.1 < length self.now.circuit.net.drivers) }
        ensures yes { result ≡ true → (i : ℕ) (p : ℕ × ℕ) → slice_get table.now i ≡ Some p → IsOpenPlace self.now.circuit self.now.frames p → (side_of self.now.circuit).class p.1 ≡ 0 }
        ensures no { result ≡ false → (i : ℕ) × (p : ℕ × ℕ) × (slice_get table.now i ≡ Some p) × IsOpenPlace self.now.circuit self.now.frames p × ((side_of self.now.circuit).class p.1 ≡ 0 → ⊥) }
    {
        for number in 0..table.len() {
            let place = table.pair(number);
            if !self.is_always(place) {
                return false;
            }
        }
        true
    }

    /// The numbers of the event nodes where these places' latches take over their data, and the root's, in order.
    pub(super) fn nodes_of(
        &self,
        alloc: Global,
        table: &PlaceTable,
        ways: &[Ways],
    ) -> Result<Ids, NoMemory>
        requires each { length ways.now ≡ length table.now }
        requires on { (i : ℕ) (p : ℕ × ℕ) (g : Ways) → slice_get table.now i ≡ Some p → slice_get ways.now i ≡ Some g → IsOnwardAt self.now.circuit self.now.frames p g }
        ensures { IfOk result (λ nodes. AreNodesOf self.now.circuit self.now.frames table.now ways.now nodes) }
    {
        let mut nodes = Vec::new(alloc);
        nodes.push(0)?;
        for number in 0..table.len() {
            self.put_node(&mut nodes, table.pair(number), ways[number as usize])?;
        }
        nodes.sort()?;
        nodes.dedup();
        Ok(Seq::from_vec(nodes))
    }

    /// Puts the node where the place's latch takes over its data behind the others, if the latch is open.
    fn put_node(&self, nodes: &mut Vec<u32>, place: Place, ways: Ways) -> Result<(), NoMemory>
        requires { IsOnwardAt self.now.circuit self.now.frames place ways }
        ensures { OnOk result (IsNodePut self.now.circuit self.now.frames place ways nodes.old.items nodes.new.items) }
    {
        match self.open_latch(place) {
            Some(_) => {
                nodes.push(self.frame(ways.onward).node)?;
                Ok(())
            }
            None => Ok(()),
        }
    }
}
