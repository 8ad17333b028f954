//! The outputs of one circuit in one cycle.

ghost use Rattle.std.specs.Prelude.{◌≡◌, ℕ, ◌+◌, ◌^◌, ◌<◌, ◌≤◌, length, All, IfOk, IfErr, OnOk, Err};
ghost use Rattle.std.specs.List.{AllZip};
ghost use Rattle.cbf_unfold.specs.declared.unfold_places.error.UnfoldError.TheVariants as unfold_error;
ghost use Rattle.reset_form.specs.reset_unfold.Unfolded.{FitsReset};
ghost use Rattle.reset_form.specs.reset_unfold.Building.{IsLaterReset};
ghost use Rattle.reset_form.specs.reset_functions.Pairs.{IsRefusalOf, IsTooLarge};
ghost use Rattle.cycle_search.specs.Outputs.{side_of, IsLiteralIn, HasDoneIn, IsDoneOrIn};

use aig::{Aig, Lit};
use base_tables::PlaceTable;
use cbf_unfold::unfold_places::UnfoldError;
use reset_form::ResetError;
use reset_form::reset_unfold::ResetUnfolder;
use sec_base::Side;
use sec_setup::SignalPair;
use std::alloc::Global;

/// The signal of the pair in this circuit.
pub(crate) fn side_of(side: Side, pair: &SignalPair) -> u32
    ensures { result ≡ side_of side pair.now }
{
    match side {
        Side::A => pair.left.0,
        Side::B => pair.right.0,
    }
}

/// The literals of the signals of the pairs in one circuit, in a cycle, in order. `TooLarge` comes exactly where all that was unfolded before
/// weighs more than 2,000,000 together with these.
pub fn unfold_side(
    alloc: Global,
    side: Side,
    pairs: &[SignalPair],
    cycle: u32,
    unfolder: &mut ResetUnfolder<'_>,
    aig: &mut Aig,
    places: &mut PlaceTable,
) -> Result<Vec<Lit>, ResetError>
    requires signals { All (λ x. side_of side x < length unfolder.old.net.drivers) pairs.now }
    requires fits { FitsReset unfolder.old aig.old places.old }
    requires nodes { length aig.old ≤ 2 ^ 28 + unfolder.old.weight }
    requires entries { length places.old ≤ 2 ^ 28 + unfolder.old.weight }
    ensures literals { IfOk result (λ xs. AllZip (IsLiteralIn unfolder.new.memo side cycle) pairs.now xs.items) }
    ensures fits { OnOk result (FitsReset unfolder.new aig.new places.new) }
    ensures done { OnOk result (HasDoneIn side pairs.now cycle unfolder.old.done unfolder.new.done) }
    ensures refused { IfErr result (IsRefusalOf side unfolder.old.net (IsDoneOrIn side pairs.now cycle unfolder.old.done)) }
    ensures later { IsLaterReset unfolder.old unfolder.new aig.old aig.new places.old places.new }
{
    match unfold_signals(alloc, side, pairs, cycle, unfolder, aig, places) {
        Ok(literals) => Ok(literals),
        Err(UnfoldError::TooLarge) => Err(ResetError::TooLarge(side)),
        Err(UnfoldError::NoMemory) => Err(ResetError::NoMemory),
    }
}

/// The same, where `TooLarge` names no circuit.
fn unfold_signals(
    alloc: Global,
    side: Side,
    pairs: &[SignalPair],
    cycle: u32,
    unfolder: &mut ResetUnfolder<'_>,
    aig: &mut Aig,
    places: &mut PlaceTable,
) -> Result<Vec<Lit>, UnfoldError>
    requires signals { All (λ x. side_of side x < length unfolder.old.net.drivers) pairs.now }
    requires fits { FitsReset unfolder.old aig.old places.old }
    requires nodes { length aig.old ≤ 2 ^ 28 + unfolder.old.weight }
    requires entries { length places.old ≤ 2 ^ 28 + unfolder.old.weight }
    ensures literals { IfOk result (λ xs. AllZip (IsLiteralIn unfolder.new.memo side cycle) pairs.now xs.items) }
    ensures fits { OnOk result (FitsReset unfolder.new aig.new places.new) }
    ensures done { OnOk result (HasDoneIn side pairs.now cycle unfolder.old.done unfolder.new.done) }
    ensures over { result ≡ Err unfold_error.TooLarge → IsTooLarge unfolder.old.net (IsDoneOrIn side pairs.now cycle unfolder.old.done) }
    ensures later { IsLaterReset unfolder.old unfolder.new aig.old aig.new places.old places.new }
{
    let mut all = Vec::new(alloc);
    for pair in pairs {
        let one = unfolder.literal_at(alloc, aig, places, (cycle, side_of(side, pair)))?;
        all.push(one)?;
    }
    Ok(all)
}
