//! The unfolder.

ghost use Rattle.std.specs.Prelude.{◌≡◌, ◌≢◌, ℕ, ◌+◌, ◌-◌, ◌^◌, ◌<◌, ◌≤◌, List, [], ◌∷◌, ◌++◌, length, map, All, Contains, IfOk, OnOk, OnErr};
ghost use Rattle.std.specs.List.{AllPairs, AllZip};
ghost use Rattle.circuit_theory.specs.Sizes.{IsOver};
ghost use Rattle.flat_net.specs.View.{circuit_of};
ghost use Rattle.aig.specs.declared.node.Node.{Node};
ghost use Rattle.cbf_unfold.specs.View.{IsOrderOf, IsUnfolder};
ghost use Rattle.cbf_unfold.specs.Unfolded.{IsUnfolded, IsLiteralOf, Fits};
ghost use Rattle.cbf_unfold.specs.Building.{IsMet, IsLater};
ghost use Rattle.cbf_unfold.specs.declared.unfold_places.error.UnfoldError.TheVariants as unfold_error;

mod listing;
mod literals;
mod places;
mod rooting;

use crate::unfold_places::memo::{Memo, Place};
use crate::unfold_places::{UnfoldError, Unfolded};
use aig::{Aig, Lit};
use base_tables::PlaceTable;
use flat_net::{Net, Signal};
use latch_graph::LatchGraph;
use sec_base::{Ids, MAX_WEIGHT, NoMemory};
use std::alloc::Global;
use std::marker::Model;

/// Unfolds signals of one net. Each place, a signal some cycles ago, is unfolded once, whatever reads it.
pub struct Unfolder<'a> {
    net: &'a Net,
    order: Ids,
    cap: u32,
    done: Ids,
    memo: Memo,
    weight: u32,
}

/// It is let go by one call: an owner isn't taken apart field by field at each way out.
impl Drop for Unfolder<'_> {
    fn drop(self) {
        let Unfolder {
            net: _,
            order: _,
            cap: _,
            done: _,
            memo: _,
            weight: _,
        } = self;
    }
}

impl<'a> Model for Unfolder<'a> {
    ghost use Rattle.cbf_unfold.specs.View.{UnfolderView};

    ghost Value = { UnfolderView };

    ghost use Rattle.cbf_unfold.specs.View.{IsUnfolder};

    ghost view = { λ u. record { net = u.net.now; order = u.order; cap = u.cap; done = u.done; memo = u.memo; weight = u.weight } };

    ghost invariant = { λ u. IsUnfolder (record { net = u.net.now; order = u.order; cap = u.cap; done = u.done; memo = u.memo; weight = u.weight }) };
}

impl<'a> Unfolder<'a> {
    /// An unfolder of the net, that has unfolded nothing. `order` has a number for each input of the net, at place i that
    /// of input i, and none twice; two nets whose inputs have the same names take the same numbers for them. The graph
    /// of the net's latches is lent for as long as the net, and isn't looked at. `NoMemory` comes where the copy of
    /// `order` wanted memory.
    pub fn new(
        alloc: Global,
        net: &'a Net,
        _graph: &'a LatchGraph,
        order: &Ids,
    ) -> Result<Unfolder<'a>, NoMemory>
        requires { IsOrderOf net.now order.now }
        ensures net { IfOk result (λ u. u.net ≡ net.now) }
        ensures order { IfOk result (λ u. u.order ≡ order.now) }
        ensures none { IfOk result (λ u. u.done ≡ []) }
        ensures weight { IfOk result (λ u. u.weight ≡ 0) }
        ensures fits { IfOk result (λ u. (g : List Node) (places : List (ℕ × ℕ)) → Fits u g places) }
    {
        Ok(Unfolder {
            net,
            order: order.copy()?,
            cap: MAX_WEIGHT,
            done: Ids::new(alloc),
            memo: Memo::new(alloc),
            weight: 0,
        })
    }

    /// The signal of the net as a function of inputs at earlier cycles. The same graph and table are lent each time, and
    /// may have grown in between, to at most 2^29 nodes and 2^29 entries. An entry is an input's number and a shift: how
    /// many cycles ago the input is read.
    ///
    /// `TooLarge` comes exactly where the places that the unfoldings of all signals so far visit, with this one's, weigh
    /// more than 2,000,000 together. A place is a signal some cycles ago, and counts once however often it is visited: an
    /// input or a latch 1, a gate 1 + r * (f + 1) with f fan-ins and a cover of r rows, or of one where it has none. A
    /// signal that reads itself through latches is refused: the places that it visits have no end. After a refusal, also
    /// one for want of memory, the graph and the table may have grown, and the unfolder is used no more.
    ///
    /// It costs a pass over all places so far; for many signals `unfold_all` costs less.
    pub fn unfold(
        &mut self,
        alloc: Global,
        aig: &mut Aig,
        places: &mut PlaceTable,
        s: Signal,
    ) -> Result<Unfolded, UnfoldError>
        requires signal { s.0 < length self.old.net.drivers }
        requires fits { Fits self.old aig.old places.old }
        requires nodes { length aig.old ≤ 2 ^ 29 }
        requires entries { length places.old ≤ 2 ^ 29 }
        ensures unfolded { IfOk result (λ r. IsUnfolded self.new.net self.new.order aig.new places.new s.0 r.lit.0 r.vars) }
        ensures fits { OnOk result (Fits self.new aig.new places.new) }
        ensures done { OnOk result (self.new.done ≡ self.old.done ++ s.0 ∷ []) }
        ensures over { result ≡ Err unfold_error.TooLarge → IsOver (circuit_of self.old.net) (self.old.done ++ s.0 ∷ []) MAX_WEIGHT }
        ensures later { IsLater self.old self.new aig.old aig.new places.old places.new }
    {
        let net = self.net();
        net.keeps();
        let lit = self.root(alloc, aig, places, s)?;
        let vars = self.list_of(alloc, places, s)?;
        Ok(Unfolded { lit, vars })
    }

    /// The same of several signals, in their order. Beside their own variables it costs one walk over all places that they visit
    /// together, and a pass over these for each 64 signals.
    pub fn unfold_all(
        &mut self,
        alloc: Global,
        aig: &mut Aig,
        places: &mut PlaceTable,
        signals: &[Signal],
    ) -> Result<Vec<Unfolded>, UnfoldError>
        requires signals { All (λ s. s.0 < length self.old.net.drivers) signals.now }
        requires fits { Fits self.old aig.old places.old }
        requires nodes { length aig.old ≤ 2 ^ 29 }
        requires entries { length places.old ≤ 2 ^ 29 }
        ensures unfolded { IfOk result (λ us. AllZip (λ s u. IsUnfolded self.new.net self.new.order aig.new places.new s.0 u.lit.0 u.vars) signals.now us.items) }
        ensures fits { OnOk result (Fits self.new aig.new places.new) }
        ensures done { OnOk result (self.new.done ≡ self.old.done ++ map (λ s. s.0) signals.now) }
        ensures over { result ≡ Err unfold_error.TooLarge → IsOver (circuit_of self.old.net) (self.old.done ++ map (λ s. s.0) signals.now) MAX_WEIGHT }
        ensures later { IsLater self.old self.new aig.old aig.new places.old places.new }
    {
        let net = self.net();
        net.keeps();
        let lits = self.roots(alloc, aig, places, signals)?;
        let unfolded = self.functions(alloc, places, signals, lits.as_slice())?;
        Ok(unfolded)
    }

    /// The literals of several signals, in their order, without their variables: it costs one walk over all places that they visit
    /// together. `TooLarge` comes as with `unfold_all`, which gives the variables of some of them afterwards.
    pub fn unfold_literals(
        &mut self,
        alloc: Global,
        aig: &mut Aig,
        places: &mut PlaceTable,
        signals: &[Signal],
    ) -> Result<Vec<Lit>, UnfoldError>
        requires signals { All (λ s. s.0 < length self.old.net.drivers) signals.now }
        requires fits { Fits self.old aig.old places.old }
        requires nodes { length aig.old ≤ 2 ^ 29 }
        requires entries { length places.old ≤ 2 ^ 29 }
        ensures literals { IfOk result (λ lits. AllZip (λ s x. IsLiteralOf self.new.net self.new.order aig.new places.new s.0 x.0) signals.now lits.items) }
        ensures fits { OnOk result (Fits self.new aig.new places.new) }
        ensures done { OnOk result (self.new.done ≡ self.old.done ++ map (λ s. s.0) signals.now) }
        ensures over { result ≡ Err unfold_error.TooLarge → IsOver (circuit_of self.old.net) (self.old.done ++ map (λ s. s.0) signals.now) MAX_WEIGHT }
        ensures later { IsLater self.old self.new aig.old aig.new places.old places.new }
    {
        let lits = self.roots(alloc, aig, places, signals)?;
        Ok(lits)
    }

    /// Tells a proof what each unfolder keeps. It does nothing.
    fn keeps(&self)
        ensures unfolder { IsUnfolder self.now }
        ensures apart { AllPairs (λ p q. p ≢ q) (map (λ e. e.0) self.now.memo) }
    {
        self.memo.keeps();
    }

    fn net(&self) -> &'a Net
        ensures { result.now ≡ self.now.net }
    {
        self.net
    }

    fn order(&self) -> &[u32]
        ensures { result.now ≡ self.now.order }
    {
        self.order.as_slice()
    }

    fn memo(&self) -> &Memo
        ensures { result.now ≡ self.now.memo }
    {
        &self.memo
    }

    fn cap(&self) -> u32
        ensures { result ≡ self.now.cap }
    {
        self.cap
    }

    /// Puts the signal to those that are unfolded.
    fn begin(&mut self, s: Signal) -> Result<(), NoMemory>
        ensures ok { OnOk result (self.new ≡ record self.old { done = self.old.done ++ s.0 ∷ [] }) }
        ensures err { OnErr result (self.new ≡ self.old) }
    {
        self.done.push(s.0)
    }

    /// The literal of a place that was met.
    fn met(&self, place: Place) -> Lit
        requires { IsMet self.now.memo place }
        ensures { Contains self.now.memo (place, result) }
    {
        self.memo.met(place)
    }
}
