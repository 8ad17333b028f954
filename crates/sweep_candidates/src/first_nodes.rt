//! The first nodes by the keys of their values. No clause sees it.

use aig::NoMemory;
use std::alloc::Global;

/// An open table of nodes, each by its key. A place has a node's number plus one, or 0.
#[derive(Drop)]
pub(crate) struct FirstNodes {
    places: Vec<u32>,
    count: usize,
}

impl FirstNodes {
    pub(crate) fn new(alloc: Global) -> FirstNodes {
        FirstNodes {
            places: Vec::new(alloc),
            count: 0,
        }
    }

    /// The node with the key, if there is one.
    pub(crate) fn find(&self, keys: &[u64], key: u64) -> Option<u32> {
        let at = probe(self.places.as_slice(), keys, key);
        let place = self.places.get(at).copied().unwrap_or(0);
        if place == 0 { None } else { Some(place - 1) }
    }

    /// Puts the node, if there is none with its key.
    pub(crate) fn put(&mut self, alloc: Global, keys: &[u64], n: u32) -> Result<(), NoMemory> {
        if self.places.len() / 2 <= self.count {
            self.grow(alloc, keys)?;
        }
        self.place(keys, n);
        Ok(())
    }

    /// Doubles the room.
    fn grow(&mut self, alloc: Global, keys: &[u64]) -> Result<(), NoMemory> {
        let room = self.places.len().max(32).saturating_mul(2);
        let wider = vec![in alloc; 0u32; room]?;
        let old = std::mem::replace(&mut self.places, wider);
        self.count = 0;
        for i in 0..old.len() {
            if old[i] > 0 {
                self.place(keys, old[i] - 1);
            }
        }
        Ok(())
    }

    /// Puts the node where there is room.
    fn place(&mut self, keys: &[u64], n: u32) {
        let key = keys.get(n as usize).copied().unwrap_or(0);
        let at = probe(self.places.as_slice(), keys, key);
        if at < self.places.len() && self.places[at] == 0 {
            self.places[at] = n.saturating_add(1);
            self.count = self.count.saturating_add(1);
        }
    }

    /// Forgets all nodes.
    pub(crate) fn clear(&mut self) {
        for i in 0..self.places.len() {
            self.places[i] = 0;
        }
        self.count = 0;
    }
}

/// The place of the node with this key, or else the first empty one behind where it should be.
fn probe(places: &[u32], keys: &[u64], key: u64) -> usize {
    let len = places.len();
    let mask = len.wrapping_sub(1);
    let mut at = (key >> 17) as usize & mask;
    for _step in 0..len {
        let place = places.get(at).copied().unwrap_or(0);
        if place == 0 || keys.get(place as usize - 1) == Some(&key) {
            return at;
        }
        at = at.wrapping_add(1) & mask;
    }
    at
}
