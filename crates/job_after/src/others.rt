//! A difference that is shown in other outputs than those in which one was found that isn't.

ghost use Rattle.std.specs.Prelude.{◌≡◌, IfOk, IfSome};
ghost use Rattle.flat_net.specs.Comparable.{IsComparable};
ghost use Rattle.net_names.specs.Alone.{IsWithout};
ghost use Rattle.job_after.specs.Shown.{IsShownBy, AreWithout};

use crate::searching::{NetSearch, Start};
use crate::shown::shown_by;
use base_tables::NameTable;
use cycle_search::{SearchVerdict, Searched};
use flat_net::Net;
use net_names::{CopyError, without_outputs};
use obligations::outcome::{PairName, Witness};
use sec_base::NoMemory;
use std::alloc::Global;

/// How many searches are made at most of nets without the outputs in which a difference was found that isn't shown.
const MAX_SEARCHES: u32 = 16;

/// How many signals they go over together at most, each counted in each cycle, beyond the last cycle of the search before them.
const WORK: u32 = 1 << 17;

/// Each query of theirs may have one conflict for so many of a query before them.
const SHARE: u32 = 16;

/// Two nets that are searched in place of the circuits.
#[derive(Drop)]
struct Others {
    left: Net,
    right: Net,
}

/// The difference that is shown in other outputs than those in which this search of both nets found one, if one is: these are left out, and
/// the rest is searched, up to 16 times, with fewer conflicts, and through few more cycles where the nets are large. What is found is looked at
/// in the nets themselves.
pub(crate) fn shown_in_others<S: NetSearch>(
    alloc: Global,
    a: &Net,
    b: &Net,
    search: &S,
    start: &Start<'_>,
    searched: &Searched,
) -> Result<Option<Witness>, NoMemory>
    requires left { IsComparable a.now }
    requires right { IsComparable b.now }
    requires can { S.can_search search.now }
    requires header { start.now.header.now ≡ start.now.stimulus.now.names }
    ensures { IfOk result (λ shown. IfSome shown (IsShownBy (S.finds search.now) a.now b.now start.now.stimulus.now.names start.now.stimulus.now.rows)) }
{
    let Some(mut others) = left_out(alloc, a, b, searched)? else {
        return Ok(None);
    };
    let conflicts = start.conflicts / SHARE;
    let mut more = cycles_in_all(a, b);
    for _ in 0..MAX_SEARCHES {
        let cycles = searched.last.saturating_add(more);
        let Some(found) = search.search(alloc, &others.left, &others.right, cycles, conflicts)?
        else {
            return Ok(None);
        };
        let shown = shown_by(alloc, a, b, start, &found)?;
        if shown.is_some() {
            return Ok(shown);
        }
        if found.last > more {
            return Ok(None);
        }
        more -= found.last;
        let Some(fewer) = left_out(alloc, &others.left, &others.right, &found)? else {
            return Ok(None);
        };
        others = fewer;
    }
    Ok(None)
}

/// Through how many cycles all of the searches go together, cycle 0 apart, beyond the last cycle of the search before them.
fn cycles_in_all(a: &Net, b: &Net) -> u32 {
    WORK / a.size().saturating_add(b.size()).saturating_add(1)
}

/// Both nets without the outputs that are of one word with that at which the search ended; nothing where it found no difference and met no
/// limit, or a net can't be copied.
fn left_out(
    alloc: Global,
    a: &Net,
    b: &Net,
    searched: &Searched,
) -> Result<Option<Others>, NoMemory>
    ensures { IfOk result (λ others. IfSome others (λ both. AreWithout a.now b.now both.left both.right)) }
{
    let Some(names) = of_one_word(alloc, searched)? else {
        return Ok(None);
    };
    let Some(left) = without(alloc, a, &names)? else {
        return Ok(None);
    };
    let Some(right) = without(alloc, b, &names)? else {
        return Ok(None);
    };
    Ok(Some(Others { left, right }))
}

/// The net without these outputs; nothing where it can't be copied.
fn without(alloc: Global, net: &Net, names: &NameTable) -> Result<Option<Net>, NoMemory>
    ensures { IfOk result (λ copy. IfSome copy (IsWithout names.now net.now)) }
{
    match without_outputs(alloc, net, names) {
        Ok(copy) => Ok(Some(copy)),
        Err(CopyError::NoMemory) => Err(NoMemory),
        Err(CopyError::Order) => Ok(None),
    }
}

/// The outputs that are of one word with that at which the search ended; nothing where it ended at none.
fn of_one_word(alloc: Global, searched: &Searched) -> Result<Option<NameTable>, NoMemory> {
    let Some(PairName::Output(first)) = last_pair(&searched.verdict) else {
        return Ok(None);
    };
    let word = word_name(first.as_slice());
    let mut names = NameTable::new(alloc);
    for pair in searched.pairs.as_slice() {
        add_of_word(alloc, &mut names, &pair.name, word)?;
    }
    Ok(Some(names))
}

/// The pair at which the search ended: the first one that differs, or that wasn't decided.
fn last_pair(verdict: &SearchVerdict) -> Option<&PairName> {
    match verdict {
        SearchVerdict::Different(found) => Some(&found.witness.pair),
        SearchVerdict::Limit(name) => Some(name),
        SearchVerdict::Equal | SearchVerdict::NoDifference(_) => None,
    }
}

/// Adds the name of an output that is of this word.
fn add_of_word(
    alloc: Global,
    names: &mut NameTable,
    pair: &PairName,
    word: &[u8],
) -> Result<(), NoMemory> {
    if let PairName::Output(name) = pair {
        if word_name(name.as_slice()) == word {
            names.add(alloc, name.as_slice())?;
        }
    }
    Ok(())
}

/// The name of the word that an output is a bit of: its own name up to the first `[`, or all of it.
fn word_name(name: &[u8]) -> &[u8] {
    for (place, byte) in name.iter().enumerate() {
        if *byte == b'[' {
            return &name[..place];
        }
    }
    name
}
