//! The leaves of a signal's unfoldings, cycle by cycle.

ghost use Rattle.std.specs.Prelude.{◌≡◌, ℕ, ◌+◌, ◌^◌, ◌<◌, ◌≤◌, [], length, All, IfOk, OnOk};
ghost use Rattle.std.specs.List.{AllPairs};
ghost use Rattle.cbf_unfold.specs.unfold_places.Places.{PlaceBefore};
ghost use Rattle.cbf_unfold.specs.unfold_places.InputOrder.{IsOrderOf};
ghost use Rattle.reset_form.specs.reset_unfold.Cone.{HasLater, IsBlock, IsCone, IsStart};

use crate::reset_unfold::leaves::leaves_of;
use cbf_unfold::unfold_places::memo::Place;
use flat_net::Net;
use sec_base::NoMemory;
use std::alloc::Global;
use std::marker::Model;

/// What the unfoldings of a signal in the cycles from 0 to a last one visit, by one walk. It goes from cycle to cycle, and has the
/// leaves in each.
#[derive(Drop)]
pub struct Cone {
    signal: u32,
    last: u32,
    next: u64,
    visited: Vec<Place>,
    front: usize,
    found: Vec<(u32, u32)>,
}

impl Model for Cone {
    ghost use Rattle.std.specs.Prelude.{◌^◌, ◌<◌};
    ghost use Rattle.reset_form.specs.reset_unfold.Cone.{ConeView};

    ghost Value = { ConeView };

    ghost view = { λ k. record { signal = k.signal; last = k.last; next = k.next; visited = k.visited.items; front = k.front; found = k.found.items } };

    ghost invariant = { λ k. k.last < 2 ^ 32 };
}

impl Cone {
    /// The cone of a signal up to its cycle, whose unfolding visits these places.
    pub(crate) fn new(alloc: Global, start: Place, visited: Vec<Place>) -> Cone
        ensures { result ≡ record { signal = start.1; last = start.0; next = 0; visited = visited.items; front = length visited.items; found = [] } }
    {
        let front = visited.len();
        Cone {
            signal: start.1,
            last: start.0,
            next: 0,
            visited,
            front,
            found: Vec::new(alloc),
        }
    }

    /// The signal in the next cycle.
    pub(crate) fn start(&self) -> Place
        requires { self.now.next ≤ self.now.last }
        ensures { result ≡ (self.now.next, self.now.signal) }
    {
        (self.next as u32, self.signal)
    }

    /// The leaves in the cycle before the next, each as its cycle and its variable's number, in order.
    pub(crate) fn found(&self) -> &[(u32, u32)]
        ensures { result.now ≡ self.now.found }
    {
        self.found.as_slice()
    }

    /// Goes on to the next cycle. Its leaves are those of the inputs in the cycle before, one cycle later, and those in cycle 0.
    pub(crate) fn advance(
        &mut self,
        alloc: Global,
        net: &Net,
        order: &[u32],
        base: u32,
    ) -> Result<(), NoMemory>
        requires cone { IsCone net.now order.now base self.old }
        requires next { self.old.next ≤ self.old.last }
        requires order { IsOrderOf net.now order.now }
        requires base { All (λ i. i < base) order.now }
        requires room { base + length net.now.latches < 2 ^ 31 }
        ensures cone { OnOk result (IsCone net.now order.now base self.new) }
        ensures next { OnOk result (self.new.next ≡ self.old.next + 1) }
        ensures same { (self.new.signal ≡ self.old.signal) × (self.new.last ≡ self.old.last) }
    {
        let cycle = self.last - self.next as u32;
        let block = block_of(alloc, self.visited.as_slice(), self.front, cycle)?;
        let mut found = leaves_of(alloc, net, order, base, block.as_slice())?;
        add_later(&mut found, self.found.as_slice(), base)?;
        self.front -= block.len();
        self.next += 1;
        self.found = found;
        Ok(())
    }
}

/// The places of a cycle that end at a place, moved to cycle 0.
fn block_of(
    alloc: Global,
    visited: &[Place],
    end: usize,
    cycle: u32,
) -> Result<Vec<Place>, NoMemory>
    requires { end ≤ length visited.now }
    ensures { IfOk result (λ block. IsBlock visited.now end cycle block.items) }
{
    let from = start_of(visited, end, cycle);
    let mut block = Vec::with_capacity(alloc, end - from)?;
    for i in from..end {
        block.push((0, visited[i].1))?;
    }
    Ok(block)
}

/// Where the places of a cycle begin that end at a place.
fn start_of(visited: &[Place], end: usize, cycle: u32) -> usize
    requires { end ≤ length visited.now }
    ensures { IsStart visited.now end cycle result }
{
    let mut from = end;
    while from > 0 && visited[from - 1].0 == cycle {
        from -= 1;
    }
    from
}

/// Adds the leaves of inputs, each one cycle later. Numbers from `base` on are those of latches, which have no leaf later than cycle 0.
fn add_later(found: &mut Vec<(u32, u32)>, before: &[(u32, u32)], base: u32) -> Result<(), NoMemory>
    requires first { All (λ x. x.0 ≡ 0) found.old.items }
    requires ordered { AllPairs PlaceBefore found.old.items }
    requires before { AllPairs PlaceBefore before.now }
    requires small { All (λ y. y.0 + 1 < 2 ^ 32) before.now }
    ensures later { OnOk result (HasLater before.now base found.old.items found.new.items) }
    ensures ordered { OnOk result (AllPairs PlaceBefore found.new.items) }
{
    for leaf in before {
        if leaf.1 >= base {
            continue;
        }
        found.push((leaf.0 + 1, leaf.1))?;
    }
    Ok(())
}
