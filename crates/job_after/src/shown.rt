//! The difference that is shown behind the rows of a stimulus.

ghost use Rattle.std.specs.Prelude.{◌≡◌, ◌≤◌, length, IfOk, IfSome};
ghost use Rattle.flat_net.specs.Comparable.{IsComparable};
ghost use Rattle.restart.specs.Behind.{begun};
ghost use Rattle.restart.specs.Sequence.{IsShownBehind};
ghost use Rattle.job_after.specs.Judged.{GoesOnAsFound};
ghost use Rattle.job_after.specs.Shown.{IsShownBy};

use crate::others::shown_in_others;
use crate::searching::{NetSearch, Start};
use cycle_search::{SearchVerdict, Searched};
use flat_net::Net;
use obligations::outcome::{PairName, Witness};
use restart::{restart, shown_behind};
use sec_base::NoMemory;
use std::alloc::Global;

/// The difference that is shown where this was found, if one is. Where the sequence that was found shows none, since a latch that isn't known
/// has a part in it, another one is looked for, where each such latch begins with 0, first in all outputs and then in fewer. Afterwards both
/// nets are as before.
pub fn shown_of<S: NetSearch>(
    alloc: Global,
    a: &mut Net,
    b: &mut Net,
    search: &S,
    start: &Start<'_>,
    searched: &Searched,
) -> Result<Option<Witness>, NoMemory>
    requires left { IsComparable a.old }
    requires right { IsComparable b.old }
    requires can { S.can_search search.now }
    requires header { start.now.header.now ≡ start.now.stimulus.now.names }
    requires known { (length start.now.left.now ≡ length a.old.latches) × (length start.now.right.now ≡ length b.old.latches) }
    requires begun { (begun a.old start.now.left.now ≡ a.old) × (begun b.old start.now.right.now ≡ b.old) }
    requires searched { S.finds search.now searched.now }
    ensures shown { IfOk result (λ shown. IfSome shown (IsShownBy (S.finds search.now) a.old b.old start.now.stimulus.now.names start.now.stimulus.now.rows)) }
    ensures same { IfOk result (λ shown. (a.new ≡ a.old) × (b.new ≡ b.old)) }
{
    let SearchVerdict::Different(_) = &searched.verdict else {
        return Ok(None);
    };
    let shown = shown_by(alloc, a, b, start, searched)?;
    if shown.is_some() {
        return Ok(shown);
    }
    shown_from_zeros(alloc, a, b, search, start)
}

/// The difference that the sequence which was found shows, if it shows one. Its sequence has the rows, and then that one.
pub(crate) fn shown_by(
    alloc: Global,
    a: &Net,
    b: &Net,
    start: &Start<'_>,
    searched: &Searched,
) -> Result<Option<Witness>, NoMemory>
    requires { start.now.header.now ≡ start.now.stimulus.now.names }
    ensures shown { IfOk result (λ shown. IfSome shown (IsShownBehind a.now b.now start.now.stimulus.now.names start.now.stimulus.now.rows)) }
    ensures goes_on { IfOk result (λ shown. IfSome shown (GoesOnAsFound (length start.now.stimulus.now.rows) searched.now.verdict)) }
{
    match &searched.verdict {
        SearchVerdict::Different(found) => match &found.witness.pair {
            PairName::Output(name) => {
                let rows = start.stimulus.rows.as_slice();
                let sequence = &found.witness.stimulus;
                shown_behind(alloc, a, b, start.header, rows, name, sequence)
            }
            PairName::Next(_) => Ok(None),
        },
        _ => Ok(None),
    }
}

/// The difference that is shown where one is looked for from these initial values, if one is: in all outputs, and then in fewer.
fn shown_anew<S: NetSearch>(
    alloc: Global,
    a: &Net,
    b: &Net,
    search: &S,
    start: &Start<'_>,
) -> Result<Option<Witness>, NoMemory>
    requires left { IsComparable a.now }
    requires right { IsComparable b.now }
    requires can { S.can_search search.now }
    requires header { start.now.header.now ≡ start.now.stimulus.now.names }
    ensures { IfOk result (λ shown. IfSome shown (IsShownBy (S.finds search.now) a.now b.now start.now.stimulus.now.names start.now.stimulus.now.rows)) }
{
    let Some(searched) = search.search(alloc, a, b, start.cycles, start.conflicts)? else {
        return Ok(None);
    };
    let shown = shown_by(alloc, a, b, start, &searched)?;
    if shown.is_some() {
        return Ok(shown);
    }
    shown_in_others(alloc, a, b, search, start, &searched)
}

/// The same where each latch that isn't known begins with 0. Afterwards both nets are as before.
fn shown_from_zeros<S: NetSearch>(
    alloc: Global,
    a: &mut Net,
    b: &mut Net,
    search: &S,
    start: &Start<'_>,
) -> Result<Option<Witness>, NoMemory>
    requires left { IsComparable a.old }
    requires right { IsComparable b.old }
    requires can { S.can_search search.now }
    requires header { start.now.header.now ≡ start.now.stimulus.now.names }
    requires known { (length start.now.left.now ≡ length a.old.latches) × (length start.now.right.now ≡ length b.old.latches) }
    requires begun { (begun a.old start.now.left.now ≡ a.old) × (begun b.old start.now.right.now ≡ b.old) }
    ensures shown { IfOk result (λ shown. IfSome shown (IsShownBy (S.finds search.now) a.old b.old start.now.stimulus.now.names start.now.stimulus.now.rows)) }
    ensures same { IfOk result (λ shown. (a.new ≡ a.old) × (b.new ≡ b.old)) }
{
    let left = or_zero(alloc, start.left)?;
    let right = or_zero(alloc, start.right)?;
    restart(a, &left);
    restart(b, &right);
    let shown = shown_anew(alloc, a, b, search, start)?;
    restart(a, start.left);
    restart(b, start.right);
    Ok(shown)
}

/// What is known, and 0 of what isn't.
fn or_zero(alloc: Global, known: &[Option<bool>]) -> Result<Vec<Option<bool>>, NoMemory>
    ensures { IfOk result (λ filled. length filled.items ≡ length known.now) }
{
    let mut filled = Vec::new(alloc);
    for value in known {
        filled.push(Some(value.unwrap_or(false)))?;
    }
    Ok(filled)
}
