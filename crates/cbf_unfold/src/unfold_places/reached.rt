//! The places that an unfolding visits.

ghost use Rattle.std.specs.Prelude.{◌≡◌, ◌^◌, ◌<◌, length, IfOk};
ghost use Rattle.cbf_unfold.specs.unfold_places.Walk.{AreWalked, IsWalk, IsTooLong};
ghost use Rattle.cbf_unfold.specs.declared.unfold_places.error.UnfoldError.TheVariants as unfold_error;

use crate::unfold_places::error::UnfoldError;
use crate::unfold_places::listing::listed;
use crate::unfold_places::memo::{Memo, Place};
use crate::unfold_places::reads::{add, add_read};
use flat_net::{Net, PlaceTable, Signal, weigh};
use std::alloc::Global;

/// The places that the unfolding of a signal in a cycle visits and that haven't been met, in an order of evaluation. It doesn't
/// look behind a place that has been met. `TooLarge` comes only where they weigh more than the cap.
pub fn reach(
    alloc: Global,
    net: &Net,
    memo: &Memo,
    start: Place,
    cap: u32,
) -> Result<Vec<Place>, UnfoldError>
    requires signal { start.1 < length net.now.drivers }
    requires small { cap < 2 ^ 31 }
    ensures reach { IfOk result (λ r. IsWalk net.now memo.now start cap r.items) }
    ensures over { result ≡ Err unfold_error.TooLarge → IsTooLong net.now start cap }
{
    let table = unmet(alloc, net, memo, start, cap)?;
    table.keeps();
    let mut places = listed(alloc, &table)?;
    places.sort()?;
    Ok(places)
}

/// The places that are visited and haven't been met, each before those that it reads.
fn unmet(
    alloc: Global,
    net: &Net,
    memo: &Memo,
    start: Place,
    cap: u32,
) -> Result<PlaceTable, UnfoldError>
    requires signal { start.1 < length net.now.drivers }
    requires small { cap < 2 ^ 31 }
    ensures unmet { IfOk result (λ table. AreWalked net.now memo.now start cap table) }
    ensures over { result ≡ Err unfold_error.TooLarge → IsTooLong net.now start cap }
{
    net.keeps();
    let mut table = PlaceTable::new(alloc);
    add(memo, &mut table, start.0, Signal(start.1))?;
    let mut at = 0;
    let mut weight = 0;
    while at < table.len() {
        let (cycle, signal) = table.pair(at);
        let Some(more) = weigh(net, Signal(signal), cap - weight) else {
            table.keeps();
            return Err(UnfoldError::TooLarge);
        };
        add_read(net, memo, &mut table, cycle, Signal(signal))?;
        weight += more;
        at += 1;
    }
    Ok(table)
}
