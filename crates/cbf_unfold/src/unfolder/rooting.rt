//! The literals of signals.

ghost use Rattle.std.specs.Prelude.{◌≡◌, ℕ, ◌+◌, ◌<◌, ◌≤◌, [], ◌∷◌, ◌++◌, map, length, All, Contains, IfOk, OnOk};
ghost use Rattle.std.specs.List.{AllZip};
ghost use Rattle.circuit_theory.specs.Sizes.{IsOver};
ghost use Rattle.flat_net.specs.View.{circuit_of};
ghost use Rattle.cbf_unfold.specs.Unfolded.{Fits};
ghost use Rattle.cbf_unfold.specs.Building.{HasRoom, IsLater};
ghost use Rattle.cbf_unfold.specs.declared.unfold_places.error.UnfoldError.TheVariants as unfold_error;

use super::Unfolder;
use crate::unfold_places::UnfoldError;
use crate::unfold_places::reached::reach;
use aig::{Aig, Lit};
use base_tables::PlaceTable;
use flat_net::Signal;
use sec_base::MAX_WEIGHT;
use std::alloc::Global;

impl<'a> Unfolder<'a> {
    /// The literals of the signals, in their order.
    pub(super) fn roots(
        &mut self,
        alloc: Global,
        aig: &mut Aig,
        places: &mut PlaceTable,
        signals: &[Signal],
    ) -> Result<Vec<Lit>, UnfoldError>
        requires signals { All (λ s. s.0 < length self.old.net.drivers) signals.now }
        requires fits { Fits self.old aig.old places.old }
        requires room { HasRoom self.old aig.old places.old }
        ensures here { IfOk result (λ lits. AllZip (λ s x. Contains self.new.memo ((self.new.cap, s.0), x)) signals.now lits.items) }
        ensures fits { OnOk result (Fits self.new aig.new places.new) }
        ensures done { OnOk result (self.new.done ≡ self.old.done ++ map (λ s. s.0) signals.now) }
        ensures over { result ≡ Err unfold_error.TooLarge → IsOver (circuit_of self.old.net) (self.old.done ++ map (λ s. s.0) signals.now) MAX_WEIGHT }
        ensures later { IsLater self.old self.new aig.old aig.new places.old places.new }
    {
        let mut lits = Vec::new(alloc);
        for s in signals {
            let lit = self.root(alloc, aig, places, *s)?;
            lits.push(lit)?;
        }
        Ok(lits)
    }

    /// The literal of the signal. It looks at no place that was met before but those that a new one reads.
    pub(super) fn root(
        &mut self,
        alloc: Global,
        aig: &mut Aig,
        places: &mut PlaceTable,
        s: Signal,
    ) -> Result<Lit, UnfoldError>
        requires signal { s.0 < length self.old.net.drivers }
        requires fits { Fits self.old aig.old places.old }
        requires room { HasRoom self.old aig.old places.old }
        ensures here { IfOk result (λ x. Contains self.new.memo ((self.new.cap, s.0), x)) }
        ensures fits { OnOk result (Fits self.new aig.new places.new) }
        ensures done { OnOk result (self.new.done ≡ self.old.done ++ s.0 ∷ []) }
        ensures over { result ≡ Err unfold_error.TooLarge → IsOver (circuit_of self.old.net) (self.old.done ++ s.0 ∷ []) MAX_WEIGHT }
        ensures later { IsLater self.old self.new aig.old aig.new places.old places.new }
    {
        let net = self.net();
        net.keeps();
        let unmet = reach(alloc, net, self.memo(), (self.cap(), s.0), self.cap())?;
        let reached = unmet.as_slice();
        self.begin(s)?;
        self.build(alloc, aig, places, reached)?;
        self.keeps();
        let lit = self.met((self.cap(), s.0));
        Ok(lit)
    }
}
