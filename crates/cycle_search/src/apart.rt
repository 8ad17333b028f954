//! The functions of the pairs' signals in a cycle, with the variables of those whose literals differ.

ghost use Rattle.std.specs.Prelude.{◌≡◌, ◌+◌, ◌^◌, ◌<◌, length, All, Contains, IfOk};
ghost use Rattle.std.specs.List.{AllZip};
ghost use Rattle.circuit_theory.specs.declared.Side.TheVariants as sides;
ghost use Rattle.reset_form.specs.reset_unfold.Unfolded.{FitsReset};
ghost use Rattle.cycle_search.specs.Outputs.{side_of, IsLiteralIn, IsApart};
ghost use Rattle.cycle_search.specs.Apart.{AreApart};

use crate::outputs::side_of;
use aig::{Aig, Lit};
use base_tables::PlaceTable;
use cbf_unfold::unfold_places::Unfolded;
use cbf_unfold::unfold_places::memo::Place;
use reset_form::reset_functions::Functions;
use reset_form::reset_unfold::ResetUnfolder;
use sec_base::{Ids, NoMemory, Side};
use sec_setup::SignalPair;
use std::alloc::Global;

/// The literals of the pairs' signals in a cycle, in order.
#[derive(Drop)]
pub struct Literals {
    pub left: Vec<Lit>,
    pub right: Vec<Lit>,
}

/// The functions of the pairs' signals in a cycle, in order.
#[derive(Drop)]
pub struct CycleFunctions {
    pub left: Vec<Unfolded>,
    pub right: Vec<Unfolded>,
}

/// The functions of the pairs' signals in a cycle, whose literals are known. Variables are listed only where both literals differ: they take a
/// walk over all that the unfolding visits.
pub fn functions_apart(
    alloc: Global,
    left: &ResetUnfolder<'_>,
    right: &ResetUnfolder<'_>,
    functions: &mut Functions,
    pairs: &[SignalPair],
    literals: &Literals,
    cycle: u32,
) -> Result<CycleFunctions, NoMemory>
    requires left_literals { AllZip (IsLiteralIn left.now.memo sides.A cycle) pairs.now literals.now.left.items }
    requires right_literals { AllZip (IsLiteralIn right.now.memo sides.B cycle) pairs.now literals.now.right.items }
    requires left_done { All (λ x. Contains left.now.done (cycle, side_of sides.A x)) pairs.now }
    requires right_done { All (λ x. Contains right.now.done (cycle, side_of sides.B x)) pairs.now }
    requires left_fits { FitsReset left.now functions.old.aig functions.old.places }
    requires right_fits { FitsReset right.now functions.old.aig functions.old.places }
    requires entries { length functions.old.places + 1 < 2 ^ 32 }
    ensures apart { IfOk result (AreApart left.now right.now functions.old.aig functions.old.places cycle pairs.now) }
    ensures same_aig { functions.new.aig ≡ functions.old.aig }
    ensures same_places { functions.new.places ≡ functions.old.places }
{
    let mut of_a = Vec::new(alloc);
    let mut of_b = Vec::new(alloc);
    let xs = literals.left.as_slice();
    let ys = literals.right.as_slice();
    for i in 0..pairs.len() {
        let (x, y) = (xs[i], ys[i]);
        let (a, b) = (side_of(Side::A, &pairs[i]), side_of(Side::B, &pairs[i]));
        let aig = &functions.aig;
        let one = function_apart(alloc, left, aig, &mut functions.places, (cycle, a), x, y)?;
        of_a.push(one)?;
        let two = function_apart(alloc, right, aig, &mut functions.places, (cycle, b), y, x)?;
        of_b.push(two)?;
    }
    Ok(CycleFunctions {
        left: of_a,
        right: of_b,
    })
}

/// The function of a signal in its cycle, which has this literal: its variables are listed where the other literal is another one.
fn function_apart(
    alloc: Global,
    unfolder: &ResetUnfolder<'_>,
    aig: &Aig,
    places: &mut PlaceTable,
    start: Place,
    own: Lit,
    other: Lit,
) -> Result<Unfolded, NoMemory>
    requires own { Contains unfolder.now.memo (start, own) }
    requires done { Contains unfolder.now.done start }
    requires fits { FitsReset unfolder.now aig.now places.old }
    requires entries { length places.old + 1 < 2 ^ 32 }
    ensures apart { IfOk result (IsApart unfolder.now.net unfolder.now.order unfolder.now.base aig.now places.old start.1 start.0 other.0) }
    ensures own { IfOk result (λ u. u.lit ≡ own) }
    ensures same { places.new ≡ places.old }
{
    if own.0 == other.0 {
        let none = Ids::new(alloc);
        return Ok(Unfolded {
            lit: own,
            vars: none,
        });
    }
    let vars = unfolder.variables_at(alloc, aig, places, start)?;
    Ok(Unfolded { lit: own, vars })
}
