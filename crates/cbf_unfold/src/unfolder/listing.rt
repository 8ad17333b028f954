//! The variables of signals that were unfolded.

ghost use Rattle.std.specs.Prelude.{◌≡◌, ℕ, List, ◌+◌, ◌^◌, ◌<◌, ◌≤◌, take, length, slice_get, Some, All, Contains, IfOk, OnOk};
ghost use Rattle.std.specs.List.{AllZip};
ghost use Rattle.flat_net.specs.declared.signals.Signal.{Signal};
ghost use Rattle.flat_net.specs.View.{circuit_of};
ghost use Rattle.aig.specs.declared.node.Node.{Node};
ghost use Rattle.cbf_unfold.specs.Unfolded.{Fits};
ghost use Rattle.cbf_unfold.specs.Building.{AreNumbered};
ghost use Rattle.cbf_unfold.specs.unfold_places.Visitors.{AreLinks, AreVisitors, AreInputNumbers, AreCandidates, ArePlacesAt, with_bits};
ghost use Rattle.cbf_unfold.specs.Found.{IsFound};

use super::Unfolder;
use crate::unfold_places::Unfolded;
use crate::unfold_places::memo::Place;
use crate::unfold_places::variables::{inputs_of, numbers_of};
use crate::unfold_places::visitors::{input_numbers, links_of, places_at, visitors_of, with_bits};
use aig::Lit;
use base_tables::PlaceTable;
use flat_net::Signal;
use sec_base::{Ids, NoMemory};
use std::alloc::Global;

impl<'a> Unfolder<'a> {
    /// The signals, which were unfolded and have these literals, with their variables.
    pub(super) fn functions(
        &self,
        alloc: Global,
        places: &mut PlaceTable,
        signals: &[Signal],
        lits: &[Lit],
    ) -> Result<Vec<Unfolded>, NoMemory>
        requires fits { (g : List Node) × Fits self.now g places.old }
        requires done { (k : ℕ) (s : Signal) → slice_get signals.now k ≡ Some s → Contains self.now.done s.0 }
        requires lits { AllZip (λ s x. Contains self.now.memo ((self.now.cap, s.0), x)) signals.now lits.now }
        requires room { length places.old + 1 < 2 ^ 32 }
        ensures same { places.new ≡ places.old }
        ensures found { IfOk result (λ us. AllZip (IsFound self.now places.old) signals.now us.items) }
    {
        let links = self.links(alloc)?;
        let inputs = self.inputs(alloc)?;
        let mut all = Vec::new(alloc);
        while all.len() < signals.len() {
            self.put_block(
                alloc,
                places,
                signals,
                lits,
                links.as_slice(),
                inputs.as_slice(),
                &mut all,
            )?;
        }
        Ok(all)
    }

    /// Puts the next 64 signals, or those that are left, behind the others.
    fn put_block(
        &self,
        alloc: Global,
        places: &mut PlaceTable,
        signals: &[Signal],
        lits: &[Lit],
        links: &[Ids],
        inputs: &[usize],
        all: &mut Vec<Unfolded>,
    ) -> Result<(), NoMemory>
        requires fits { (g : List Node) × Fits self.now g places.old }
        requires done { (k : ℕ) (s : Signal) → slice_get signals.now k ≡ Some s → Contains self.now.done s.0 }
        requires lits { AllZip (λ s x. Contains self.now.memo ((self.now.cap, s.0), x)) signals.now lits.now }
        requires links { AreLinks (circuit_of self.now.net) self.now.memo links.now }
        requires inputs { AreInputNumbers (circuit_of self.now.net) self.now.order self.now.memo inputs.now }
        requires room { length places.old + 1 < 2 ^ 32 }
        requires some { length all.old.items < length signals.now }
        requires found { AllZip (IsFound self.now places.old) (take (length all.old.items) signals.now) all.old.items }
        ensures same { places.new ≡ places.old }
        ensures more { OnOk result (length all.old.items < length all.new.items) }
        ensures within { OnOk result (length all.new.items ≤ length signals.now) }
        ensures found { OnOk result (AllZip (IsFound self.now places.old) (take (length all.new.items) signals.now) all.new.items) }
    {
        let from = all.len();
        let to = from + (signals.len() - from).min(64);
        let block = &signals[from..to];
        let words = self.visitors(alloc, links, block)?;
        let near = with_bits(alloc, words.as_slice(), inputs, u64::MAX)?;
        for k in 0..block.len() {
            let vars = self.variables(alloc, places, words.as_slice(), near.as_slice(), k)?;
            all.push(Unfolded {
                lit: lits[from + k],
                vars,
            })?;
        }
        Ok(())
    }

    /// The numbers of the inputs' places, in order.
    fn inputs(&self, alloc: Global) -> Result<Vec<usize>, NoMemory>
        requires { (g : List Node) × (places : List (ℕ × ℕ)) × Fits self.now g places }
        ensures { IfOk result (λ numbers. AreInputNumbers (circuit_of self.now.net) self.now.order self.now.memo numbers.items) }
    {
        let net = self.net();
        net.keeps();
        self.keeps();
        input_numbers(alloc, net, self.order(), self.memo())
    }

    /// For each place the numbers of those that it reads.
    fn links(&self, alloc: Global) -> Result<Vec<Ids>, NoMemory>
        requires { (g : List Node) × (places : List (ℕ × ℕ)) × Fits self.now g places }
        ensures { IfOk result (λ links. AreLinks (circuit_of self.now.net) self.now.memo links.items) }
    {
        let net = self.net();
        net.keeps();
        links_of(alloc, net, self.memo())
    }

    /// The words of the places, with a bit for each of these signals, which were unfolded.
    fn visitors(
        &self,
        alloc: Global,
        links: &[Ids],
        signals: &[Signal],
    ) -> Result<Vec<u64>, NoMemory>
        requires fits { (g : List Node) × (places : List (ℕ × ℕ)) × Fits self.now g places }
        requires links { AreLinks (circuit_of self.now.net) self.now.memo links.now }
        requires few { length signals.now ≤ 64 }
        requires done { (k : ℕ) (s : Signal) → slice_get signals.now k ≡ Some s → Contains self.now.done s.0 }
        ensures { IfOk result (λ words. AreVisitors (circuit_of self.now.net) self.now.cap signals.now self.now.memo words.items) }
    {
        visitors_of(alloc, self.net(), self.memo(), links, self.cap(), signals)
    }

    /// The variables of one signal that was unfolded.
    pub(super) fn list_of(
        &self,
        alloc: Global,
        places: &mut PlaceTable,
        s: Signal,
    ) -> Result<Ids, NoMemory>
        requires fits { (g : List Node) × Fits self.now g places.old }
        requires done { Contains self.now.done s.0 }
        requires room { length places.old + 1 < 2 ^ 32 }
        ensures same { places.new ≡ places.old }
        ensures numbered { IfOk result (AreNumbered self.now places.old s.0) }
    {
        let signals = [s];
        let inputs = self.inputs(alloc)?;
        let links = self.links(alloc)?;
        let words = self.visitors(alloc, links.as_slice(), &signals)?;
        self.variables(alloc, places, words.as_slice(), inputs.as_slice(), 0)
    }

    /// The variables of the k-th of the signals whose words these are: the numbers in the table of the inputs that it visits. They
    /// are in the table already.
    fn variables(
        &self,
        alloc: Global,
        places: &mut PlaceTable,
        words: &[u64],
        numbers: &[usize],
        k: usize,
    ) -> Result<Ids, NoMemory>
        requires fits { (g : List Node) × Fits self.now g places.old }
        requires bit { k < 64 }
        requires size { length words.now ≡ length self.now.memo }
        requires candidates { AreCandidates (circuit_of self.now.net) self.now.order self.now.memo words.now k numbers.now }
        requires room { length places.old + 1 < 2 ^ 32 }
        ensures same { places.new ≡ places.old }
        ensures numbered { IfOk result (λ vars. (signals : List Signal) (s : Signal) → slice_get signals k ≡ Some s → AreVisitors (circuit_of self.now.net) self.now.cap signals self.now.memo words.now → AreNumbered self.now places.old s.0 vars) }
    {
        let net = self.net();
        net.keeps();
        self.keeps();
        let visited = self.places_with(alloc, words, numbers, k)?;
        let found = inputs_of(alloc, net, self.order(), visited.as_slice())?;
        numbers_of(alloc, places, self.cap(), found.as_slice())
    }

    /// Those of the places with these numbers whose words have this bit.
    fn places_with(
        &self,
        alloc: Global,
        words: &[u64],
        numbers: &[usize],
        k: usize,
    ) -> Result<Vec<Place>, NoMemory>
        requires bit { k < 64 }
        requires size { length words.now ≡ length self.now.memo }
        requires within { All (λ i. i < length self.now.memo) numbers.now }
        ensures { IfOk result (λ places. ArePlacesAt self.now.memo (with_bits words.now (2 ^ k) numbers.now) places.items) }
    {
        let own = with_bits(alloc, words, numbers, 1 << k)?;
        places_at(alloc, self.memo(), own.as_slice())
    }
}
