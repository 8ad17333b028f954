//! Two nets that are run over a stimulus from what is known of them at first.

ghost use Rattle.std.specs.Prelude.{◌≡◌, ◌<◌, ◌^◌, [], length, map, IfOk, OnOk};
ghost use Rattle.flat_net.specs.Comparable.{IsComparable};
ghost use Rattle.flat_net.specs.View.{circuit_of};
ghost use Rattle.sec_setup.specs.Matching.{InterfacesMatch};
ghost use Rattle.sec_setup.specs.ports.Pairs.{places_of, named_pairs};
ghost use Rattle.job_after.specs.Ends.{FitsAfter};
ghost use Rattle.job_known.specs.Begins.{BeginsBoth};
ghost use Rattle.job_known.specs.Cycle.{AreWithin};
ghost use Rattle.job_known.specs.Judged.{MatchesAfter, ReplaysFrom, ReplaysBehind};
ghost use Rattle.job_known.specs.Pairs.{ShowsKnown};

use crate::known_pairs::{KnownReplay, known_replay};
use crate::known_report::told;
use flat_net::Net;
use job_after::{AfterFault, Judged, match_header, put_begun};
use job_circuit::replay::ReplayError;
use restart::begin;
use sec_base::{Ids, NoMemory, Words};
use sec_setup::ports::name_tables::table_of_names;
use sec_setup::ports::pairs_of;
use sec_setup::{SetupError, SignalPair, SignalPairs, shared_names};
use std::alloc::Global;
use witness_report::Stimulus;

/// Refuses circuits whose interfaces don't match.
fn match_interfaces(alloc: Global, a: &Net, b: &Net) -> Result<(), AfterFault>
    requires left { IsComparable a.now }
    requires right { IsComparable b.now }
    ensures { MatchesAfter a.now b.now result }
{
    match shared_names(alloc, a, b) {
        Ok(_) => Ok(()),
        Err(SetupError::Interface(name)) => Err(AfterFault::Interface(name)),
        Err(SetupError::Cyclic(_, _)) => unreachable!(),
        Err(SetupError::Unpaired(_, _)) => unreachable!(),
        Err(SetupError::NoMemory) => Err(AfterFault::NoMemory),
    }
}

/// Refuses the first name of the stimulus that is no input of a circuit, or an input of both that it lacks.
fn fit(alloc: Global, a: &Net, b: &Net, stimulus: &Stimulus) -> Result<(), ReplayError>
    ensures { FitsAfter a.now b.now stimulus.now.names result }
{
    let names = table_of_names(alloc, &stimulus.names)?;
    match_header(alloc, a, b, &names)
}

/// Each output of A beside B's output of its name.
fn output_pairs(alloc: Global, a: &Net, b: &Net) -> Result<SignalPairs, NoMemory>
    requires right { IsComparable b.now }
    requires matches { InterfacesMatch a.now b.now }
    ensures named { IfOk result (λ pairs. map places_of pairs ≡ named_pairs [] (circuit_of a.now) (circuit_of b.now)) }
    ensures within { IfOk result (AreWithin (length a.now.drivers) (length b.now.drivers)) }
{
    a.keeps();
    b.keeps();
    let names = Words::new(alloc);
    let positions = Ids::new(alloc);
    pairs_of(alloc, a, b, &names, &positions, &positions)
}

/// What both circuits show of these pairs over the stimulus from their initial values.
fn found_over(
    alloc: Global,
    a: &Net,
    b: &Net,
    pairs: &[SignalPair],
    stimulus: &Stimulus,
) -> Result<KnownReplay, NoMemory>
    requires within { AreWithin (length a.now.drivers) (length b.now.drivers) pairs.now }
    requires few { length stimulus.now.rows < 2 ^ 32 }
    ensures { IfOk result (ShowsKnown a.now b.now (map places_of pairs.now) stimulus.now.names stimulus.now.rows) }
{
    let names = table_of_names(alloc, &stimulus.names)?;
    known_replay(alloc, a, b, pairs, &names, stimulus.rows.as_slice())
}

/// Runs both circuits over the stimulus from their initial values, where it fits both and their interfaces match. The first name that
/// doesn't is refused: of the interfaces first.
pub(crate) fn judge_from_reset(
    alloc: Global,
    a: &Net,
    b: &Net,
    stimulus: &Stimulus,
    settles: bool,
) -> Result<Judged, AfterFault>
    requires left { IsComparable a.now }
    requires right { IsComparable b.now }
    requires few { length stimulus.now.rows < 2 ^ 32 }
    ensures { ReplaysFrom settles a.now b.now stimulus.now.names stimulus.now.rows result }
{
    a.keeps();
    b.keeps();
    match_interfaces(alloc, a, b)?;
    fit(alloc, a, b, stimulus)?;
    let pairs = output_pairs(alloc, a, b)?;
    let found = found_over(alloc, a, b, pairs.as_slice(), stimulus)?;
    let rows = stimulus.rows.len() as u64;
    let judged = told(alloc, Vec::new(alloc), settles, rows, &found)?;
    Ok(judged)
}

/// Gives both nets what is known of them behind the rows as their initial values, and puts how many rows there are and what isn't known.
fn begin_both(
    alloc: Global,
    a: &mut Net,
    b: &mut Net,
    before: &Stimulus,
    text: &mut Vec<u8>,
) -> Result<(), NoMemory>
    ensures { OnOk result (BeginsBoth a.old b.old before.now.names before.now.rows a.new b.new text.old.items text.new.items) }
{
    let names = table_of_names(alloc, &before.names)?;
    let left = begin(alloc, a, &names, &before.rows)?;
    let right = begin(alloc, b, &names, &before.rows)?;
    let rows = before.rows.len() as u64;
    put_begun(alloc, text, a, b, rows, &left, &right)
}

/// Runs both circuits over the second stimulus from what is known of them behind the rows of the first, where both fit and the interfaces
/// match. The first name that doesn't is refused: of the interfaces first, then of the first stimulus.
pub(crate) fn judge_behind(
    alloc: Global,
    mut a: Net,
    mut b: Net,
    before: &Stimulus,
    stimulus: &Stimulus,
    settles: bool,
) -> Result<Judged, AfterFault>
    requires left { IsComparable a }
    requires right { IsComparable b }
    requires few { length stimulus.now.rows < 2 ^ 32 }
    ensures { ReplaysBehind settles a b before.now.names before.now.rows stimulus.now.names stimulus.now.rows result }
{
    match_interfaces(alloc, &a, &b)?;
    fit(alloc, &a, &b, before)?;
    fit(alloc, &a, &b, stimulus)?;
    let pairs = output_pairs(alloc, &a, &b)?;
    let mut text = Vec::new(alloc);
    begin_both(alloc, &mut a, &mut b, before, &mut text)?;
    a.keeps();
    b.keeps();
    let found = found_over(alloc, &a, &b, pairs.as_slice(), stimulus)?;
    let rows = stimulus.rows.len() as u64;
    let judged = told(alloc, text, settles, rows, &found)?;
    Ok(judged)
}
