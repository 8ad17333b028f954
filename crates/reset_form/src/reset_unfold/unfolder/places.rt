//! Places are unfolded in an order of evaluation.

ghost use Rattle.std.specs.Prelude.{◌≡◌, ℕ, ◌+◌, ◌^◌, ◌<◌, ◌≤◌, length, Contains, OnOk};
ghost use Rattle.circuit_laws.specs.reset_laws.Weight.{IsResetOver};
ghost use Rattle.flat_net.specs.View.{circuit_of};
ghost use Rattle.cbf_unfold.specs.unfold_places.Reach.{IsMet};
ghost use Rattle.cbf_unfold.specs.declared.unfold_places.error.UnfoldError.TheVariants as unfold_error;
ghost use Rattle.reset_form.specs.reset_unfold.Places.{starts_of};
ghost use Rattle.reset_form.specs.reset_unfold.Reach.{IsReach};
ghost use Rattle.reset_form.specs.reset_unfold.Unfolded.{Holds};
ghost use Rattle.reset_form.specs.reset_unfold.Building.{IsReady, HasRoom, IsLaterReset};

use super::ResetUnfolder;
use aig::Aig;
use base_tables::PlaceTable;
use cbf_unfold::unfold_places::UnfoldError;
use cbf_unfold::unfold_places::memo::Place;
use flat_net::{Signal, weigh};
use std::alloc::Global;

impl<'a> ResetUnfolder<'a> {
    /// Unfolds all places of one of the signals that are to be unfolded.
    pub(super) fn build(
        &mut self,
        alloc: Global,
        aig: &mut Aig,
        places: &mut PlaceTable,
        reach: &[Place],
    ) -> Result<(), UnfoldError>
        requires reach { (s : ℕ × ℕ) × Contains self.old.done s × IsReach (circuit_of self.old.net) (length self.old.net.drivers) self.old.memo s reach.now }
        requires holds { Holds self.old aig.old places.old }
        requires room { HasRoom self.old aig.old places.old }
        ensures holds { OnOk result (Holds self.new aig.new places.new) }
        ensures met { OnOk result ((p : ℕ × ℕ) → Contains reach.now p → IsMet self.new.memo p) }
        ensures over { result ≡ Err unfold_error.TooLarge → IsResetOver (circuit_of self.old.net) (starts_of self.old.done) self.old.cap }
        ensures done { self.new.done ≡ self.old.done }
        ensures later { IsLaterReset self.old self.new aig.old aig.new places.old places.new }
    {
        let net = self.net();
        net.keeps();
        for place in reach {
            self.build_place(alloc, aig, places, *place)?;
        }
        Ok(())
    }

    /// Unfolds the place, if it wasn't met before.
    fn build_place(
        &mut self,
        alloc: Global,
        aig: &mut Aig,
        places: &mut PlaceTable,
        place: Place,
    ) -> Result<(), UnfoldError>
        requires ready { IsReady self.old place }
        requires holds { Holds self.old aig.old places.old }
        requires room { HasRoom self.old aig.old places.old }
        ensures holds { OnOk result (Holds self.new aig.new places.new) }
        ensures met { OnOk result (IsMet self.new.memo place) }
        ensures over { result ≡ Err unfold_error.TooLarge → IsResetOver (circuit_of self.old.net) (starts_of self.old.done) self.old.cap }
        ensures done { self.new.done ≡ self.old.done }
        ensures later { IsLaterReset self.old self.new aig.old aig.new places.old places.new }
    {
        self.memo.keeps();
        if let Some(_) = self.memo.get(place) {
            return Ok(());
        }
        self.net.keeps();
        let Some(weight) = weigh(self.net, Signal(place.1), self.cap - self.weight) else {
            return Err(UnfoldError::TooLarge);
        };
        self.weight += weight;
        let lit = self.literal(alloc, aig, places, place)?;
        self.memo.put(place, lit)?;
        Ok(())
    }
}
