//! The unfolder.

ghost use Rattle.std.specs.Prelude.{◌≡◌, ◌≢◌, ℕ, ◌+◌, ◌^◌, ◌<◌, ◌≤◌, List, [], ◌∷◌, ◌++◌, length, map, slice_get, Some, All, Contains, IfOk, OnOk, OnErr};
ghost use Rattle.std.specs.List.{AllPairs};
ghost use Rattle.circuit_laws.specs.reset_laws.Weight.{IsResetOver};
ghost use Rattle.flat_net.specs.View.{circuit_of};
ghost use Rattle.aig.specs.declared.node.Lit.{Lit};
ghost use Rattle.aig.specs.declared.node.Node.{Node};
ghost use Rattle.cbf_unfold.specs.unfold_places.InputOrder.{IsOrderOf};
ghost use Rattle.cbf_unfold.specs.unfold_places.Places.{PlaceBefore};
ghost use Rattle.cbf_unfold.specs.unfold_places.Reach.{IsMet};
ghost use Rattle.cbf_unfold.specs.declared.unfold_places.error.UnfoldError.TheVariants as unfold_error;
ghost use Rattle.reset_form.specs.reset_unfold.Places.{starts_of};
ghost use Rattle.reset_form.specs.reset_unfold.View.{IsResetUnfolder};
ghost use Rattle.reset_form.specs.reset_unfold.Unfolded.{IsResetUnfolded, FitsReset};
ghost use Rattle.reset_form.specs.reset_unfold.Building.{IsLaterReset};
ghost use Rattle.reset_form.specs.reset_unfold.Reach.{IsReach, AreLeavesAt};
ghost use Rattle.reset_form.specs.reset_unfold.Cone.{IsCone};

mod literals;
mod places;

use crate::reset_unfold::cone::Cone;
use crate::reset_unfold::leaves::{leaves_of, numbers_of};
use aig::{Aig, Lit};
use base_tables::PlaceTable;
use cbf_unfold::unfold_places::memo::{Memo, Place};
use cbf_unfold::unfold_places::reached::reach;
use cbf_unfold::unfold_places::{UnfoldError, Unfolded};
use flat_net::{Net, Signal};
use latch_graph::LatchGraph;
use sec_base::{Ids, MAX_WEIGHT, NoMemory};
use std::alloc::Global;
use std::marker::Model;

/// Unfolds signals of one net in cycles of runs that begin with the latches' initial values. Each place, a signal in a cycle,
/// is unfolded once, whatever reads it.
pub struct ResetUnfolder<'a> {
    net: &'a Net,
    order: Ids,
    base: u32,
    cap: u32,
    done: Vec<Place>,
    memo: Memo,
    weight: u32,
}

/// It is let go by one call: an owner isn't taken apart field by field at each way out.
impl Drop for ResetUnfolder<'_> {
    fn drop(self) {
        let ResetUnfolder {
            net: _,
            order: _,
            base: _,
            cap: _,
            done: _,
            memo: _,
            weight: _,
        } = self;
    }
}

impl<'a> Model for ResetUnfolder<'a> {
    ghost use Rattle.reset_form.specs.reset_unfold.View.{ResetView};

    ghost Value = { ResetView };

    ghost use Rattle.reset_form.specs.reset_unfold.View.{IsResetUnfolder};

    ghost view = { λ u. record { net = u.net.now; order = u.order; base = u.base; cap = u.cap; done = u.done.items; memo = u.memo; weight = u.weight } };

    ghost invariant = { λ u. IsResetUnfolder (record { net = u.net.now; order = u.order; base = u.base; cap = u.cap; done = u.done.items; memo = u.memo; weight = u.weight }) };
}

impl<'a> ResetUnfolder<'a> {
    /// An unfolder of the net, that has unfolded nothing. `order` has a number for each input of the net, at place i that
    /// of input i, and none twice; two nets whose inputs have the same names take the same numbers for them. `base` is
    /// above all of these: the variable of latch j has the number base + j, and these numbers are below 2^31. The graph of
    /// the net's latches is lent for as long as the net, and isn't looked at. `NoMemory` comes where the copy of `order`
    /// wanted memory.
    pub fn new(
        alloc: Global,
        net: &'a Net,
        _graph: &'a LatchGraph,
        order: &Ids,
        base: u32,
    ) -> Result<ResetUnfolder<'a>, NoMemory>
        requires order { IsOrderOf net.now order.now }
        requires base { All (λ i. i < base) order.now }
        requires room { base + length net.now.latches < 2 ^ 31 }
        ensures net { IfOk result (λ u. u.net ≡ net.now) }
        ensures order { IfOk result (λ u. u.order ≡ order.now) }
        ensures base { IfOk result (λ u. u.base ≡ base) }
        ensures none { IfOk result (λ u. u.done ≡ []) }
        ensures weight { IfOk result (λ u. u.weight ≡ 0) }
        ensures fits { IfOk result (λ u. (g : List Node) (places : List (ℕ × ℕ)) → FitsReset u g places) }
    {
        Ok(ResetUnfolder {
            net,
            order: order.copy()?,
            base,
            cap: MAX_WEIGHT,
            done: Vec::new(alloc),
            memo: Memo::new(alloc),
            weight: 0,
        })
    }

    /// The literal of a signal of the net in a cycle, as a function of the inputs in that cycle and the earlier ones, and of the
    /// latches without an initial value in cycle 0. The same graph and table are lent each time, and may have grown in between,
    /// to at most 2^29 nodes and 2^29 entries. An entry is a number and a cycle: an input's number and the cycle in which the
    /// input is read, or a latch's number and 0.
    ///
    /// `TooLarge` comes exactly where the places that the unfoldings of all calls so far visit, with this one's, weigh more
    /// than 2,000,000 together. A place is a signal in a cycle, and counts once however often it is visited: an input or a
    /// latch 1, a gate 1 + r * (f + 1) with f fan-ins and a cover of r rows, or of one where it has none. After a refusal,
    /// also one for want of memory, the graph and the table may have grown, and the unfolder is used no more.
    pub fn literal_at(
        &mut self,
        alloc: Global,
        aig: &mut Aig,
        places: &mut PlaceTable,
        start: Place,
    ) -> Result<Lit, UnfoldError>
        requires signal { start.1 < length self.old.net.drivers }
        requires fits { FitsReset self.old aig.old places.old }
        requires nodes { length aig.old ≤ 2 ^ 29 }
        requires entries { length places.old ≤ 2 ^ 29 }
        ensures here { IfOk result (λ x. Contains self.new.memo (start, x)) }
        ensures fits { OnOk result (FitsReset self.new aig.new places.new) }
        ensures done { OnOk result (self.new.done ≡ self.old.done ++ start ∷ []) }
        ensures over { result ≡ Err unfold_error.TooLarge → IsResetOver (circuit_of self.old.net) (starts_of (self.old.done ++ start ∷ [])) MAX_WEIGHT }
        ensures later { IsLaterReset self.old self.new aig.old aig.new places.old places.new }
    {
        let net = self.net();
        net.keeps();
        let unmet = reach(alloc, net, self.memo(), start, self.cap())?;
        let reached = unmet.as_slice();
        self.begin(start)?;
        self.build(alloc, aig, places, reached)?;
        self.keeps();
        Ok(self.met(start))
    }

    /// The variables of a signal in a cycle that was unfolded, with whose literal they are its function. This costs a walk over all
    /// places that the unfolding visits.
    pub fn variables_at(
        &self,
        alloc: Global,
        _aig: &Aig,
        places: &mut PlaceTable,
        start: Place,
    ) -> Result<Ids, NoMemory>
        requires done { Contains self.now.done start }
        requires fits { FitsReset self.now _aig.now places.old }
        requires entries { length places.old + 1 < 2 ^ 32 }
        ensures unfolded { IfOk result (λ vars. (x : Lit) → Contains self.now.memo (start, x) → IsResetUnfolded self.now.net self.now.order self.now.base _aig.now places.old start.1 start.0 x.0 vars) }
        ensures same { places.new ≡ places.old }
    {
        self.net().keeps();
        self.keeps();
        let Ok(found) = self.leaves(alloc, start) else {
            return Err(NoMemory);
        };
        let vars = numbers_of(alloc, places, found.as_slice())?;
        Ok(vars)
    }

    /// The cone of a signal up to a last cycle, from which `unfold_next` unfolds the signal in each cycle from 0 on. `TooLarge` comes
    /// only where the places that the unfolding in the last cycle visits weigh more than 2,000,000.
    pub fn cone(&self, alloc: Global, s: Signal, last: u32) -> Result<Cone, UnfoldError>
        requires signal { s.0 < length self.now.net.drivers }
        ensures cone { IfOk result (IsCone self.now.net self.now.order self.now.base) }
        ensures starts { IfOk result (λ k. (k.signal ≡ s.0) × (k.last ≡ last) × (k.next ≡ 0)) }
        ensures over { result ≡ Err unfold_error.TooLarge → IsResetOver (circuit_of self.now.net) (starts_of ((last, s.0) ∷ [])) self.now.cap }
    {
        let start = (last, s.0);
        let visited = self.visited(alloc, start)?;
        Ok(Cone::new(alloc, start, visited))
    }

    /// The cone's signal in the next cycle, as a function. Beside the variables this costs a walk over the places that
    /// weren't met before.
    pub(crate) fn unfold_next(
        &mut self,
        alloc: Global,
        aig: &mut Aig,
        places: &mut PlaceTable,
        cone: &mut Cone,
    ) -> Result<Unfolded, UnfoldError>
        requires cone { IsCone self.old.net self.old.order self.old.base cone.old }
        requires next { cone.old.next ≤ cone.old.last }
        requires fits { FitsReset self.old aig.old places.old }
        requires nodes { length aig.old ≤ 2 ^ 29 }
        requires entries { length places.old ≤ 2 ^ 29 }
        ensures unfolded { IfOk result (λ r. IsResetUnfolded self.new.net self.new.order self.new.base aig.new places.new cone.old.signal cone.old.next r.lit.0 r.vars) }
        ensures fits { OnOk result (FitsReset self.new aig.new places.new) }
        ensures done { OnOk result (self.new.done ≡ self.old.done ++ (cone.old.next, cone.old.signal) ∷ []) }
        ensures over { result ≡ Err unfold_error.TooLarge → IsResetOver (circuit_of self.old.net) (starts_of (self.old.done ++ (cone.old.next, cone.old.signal) ∷ [])) MAX_WEIGHT }
        ensures later { IsLaterReset self.old self.new aig.old aig.new places.old places.new }
        ensures cone { OnOk result (IsCone self.new.net self.new.order self.new.base cone.new) }
        ensures next { OnOk result (cone.new.next ≡ cone.old.next + 1) }
        ensures same { (cone.new.signal ≡ cone.old.signal) × (cone.new.last ≡ cone.old.last) }
    {
        let net = self.net();
        net.keeps();
        let lit = self.literal_at(alloc, aig, places, cone.start())?;
        self.keeps();
        cone.advance(alloc, net, self.order(), self.base())?;
        let vars = numbers_of(alloc, places, cone.found())?;
        Ok(Unfolded { lit, vars })
    }

    /// Tells a proof what each unfolder keeps. It does nothing.
    fn keeps(&self)
        ensures unfolder { IsResetUnfolder self.now }
        ensures apart { AllPairs (λ p q. p ≢ q) (map (λ e. e.0) self.now.memo) }
    {
        self.memo.keeps();
    }

    fn net(&self) -> &'a Net
        ensures { result.now ≡ self.now.net }
    {
        self.net
    }

    fn order(&self) -> &[u32]
        ensures { result.now ≡ self.now.order }
    {
        self.order.as_slice()
    }

    fn base(&self) -> u32
        ensures { result ≡ self.now.base }
    {
        self.base
    }

    fn cap(&self) -> u32
        ensures { result ≡ self.now.cap }
    {
        self.cap
    }

    fn memo(&self) -> &Memo
        ensures { result.now ≡ self.now.memo }
    {
        &self.memo
    }

    /// Puts the signal in its cycle to those that are unfolded.
    fn begin(&mut self, start: Place) -> Result<(), NoMemory>
        ensures ok { OnOk result (self.new ≡ record self.old { done = self.old.done ++ start ∷ [] }) }
        ensures err { OnErr result (self.new ≡ self.old) }
    {
        self.done.push(start)?;
        Ok(())
    }

    /// The literal of a place that was met.
    fn met(&self, place: Place) -> Lit
        requires { IsMet self.now.memo place }
        ensures { Contains self.now.memo (place, result) }
    {
        self.memo.met(place)
    }

    /// The places that the unfolding of a signal in its cycle visits, in an order of evaluation.
    fn visited(&self, alloc: Global, start: Place) -> Result<Vec<Place>, UnfoldError>
        requires signal { start.1 < length self.now.net.drivers }
        ensures reach { IfOk result (λ r. IsReach (circuit_of self.now.net) (length self.now.net.drivers) [] start r.items) }
        ensures over { result ≡ Err unfold_error.TooLarge → IsResetOver (circuit_of self.now.net) (starts_of (start ∷ [])) self.now.cap }
    {
        let net = self.net();
        net.keeps();
        self.keeps();
        let none = Memo::new(alloc);
        reach(alloc, net, &none, start, self.cap())
    }

    /// The leaves that the unfolding of a signal in its cycle visits, each as its cycle and its variable's number, in order.
    fn leaves(&self, alloc: Global, start: Place) -> Result<Vec<(u32, u32)>, UnfoldError>
        requires signal { start.1 < length self.now.net.drivers }
        ensures leaves { IfOk result (λ found. AreLeavesAt (circuit_of self.now.net) self.now.order self.now.base start found.items) }
        ensures ordered { IfOk result (λ found. AllPairs PlaceBefore found.items) }
        ensures over { result ≡ Err unfold_error.TooLarge → IsResetOver (circuit_of self.now.net) (starts_of (start ∷ [])) self.now.cap }
    {
        self.keeps();
        let net = self.net();
        let visited = self.visited(alloc, start)?;
        let found = leaves_of(alloc, net, self.order(), self.base(), visited.as_slice())?;
        Ok(found)
    }
}
