//! From the words of the other commands to their jobs.

ghost use Rattle.std.specs.Prelude.{◌≡◌, option_map, IfOk, Some, true};
ghost use Rattle.clap.specs.Words.{found_of, rows_of};
ghost use Rattle.circuit_theory.specs.declared.Mode.TheVariants.{Plain};
ghost use Rattle.command_line.specs.Jobs.{graph_in, run_in, sim_in, replayed_in, replay_in, settle_in, gen_in, lrat_in, cert_in, induct_in, form_in, inducted_in, tied_in};

use crate::jobs::values::{
    conflicts_in, copied, is_set, mode_in, named_mode, number_of, path_of, paths_of, word,
};
use crate::task::Task;
use circuit_theory::Mode;
use clap::ArgMatches;
use sec_base::{FilePath, NoMemory, Seq, Word};
use std::alloc::Global;

pub(crate) fn graph_in(alloc: Global, matches: &ArgMatches<'_>) -> Result<Option<Task>, NoMemory>
    ensures { IfOk result (λ task. task ≡ graph_in (rows_of (found_of matches.now))) }
{
    let Some(a) = word(matches, "a") else {
        return Ok(None);
    };
    let Some(mode) = mode_in(matches) else {
        return Ok(None);
    };
    Ok(Some(Task::Graph {
        a: FilePath::from_str(alloc, a)?,
        mode,
    }))
}

pub(crate) fn sim_in(alloc: Global, matches: &ArgMatches<'_>) -> Result<Option<Task>, NoMemory>
    ensures { IfOk result (λ task. task ≡ sim_in (rows_of (found_of matches.now))) }
{
    let Some(a) = word(matches, "a") else {
        return Ok(None);
    };
    let Some(s) = word(matches, "s") else {
        return Ok(None);
    };
    let Some(mode) = mode_in(matches) else {
        return Ok(None);
    };
    let reset = is_set(matches, "reset");
    let power = copied(alloc, word(matches, "power"))?;
    let rows = path_of(alloc, word(matches, "after"))?;
    let (a, s) = paths_of(alloc, a, s)?;
    Ok(run_in(a, s, mode, power, reset, rows))
}

/// The run of a circuit, or where rows are named the run behind these. That stands only beside `--reset`.
fn run_in(
    a: FilePath,
    s: FilePath,
    mode: Mode,
    power: Option<Word>,
    reset: bool,
    rows: Option<FilePath>,
) -> Option<Task>
    ensures { result ≡ run_in a s mode power reset rows }
{
    let Some(rows) = rows else {
        return Some(Task::Sim {
            a,
            s,
            mode,
            power,
            reset,
        });
    };
    if reset {
        return Some(Task::SimAfter { a, s, rows, power });
    }
    None
}

pub(crate) fn replay_in(alloc: Global, matches: &ArgMatches<'_>) -> Result<Option<Task>, NoMemory>
    ensures { IfOk result (λ task. task ≡ replay_in (rows_of (found_of matches.now))) }
{
    let Some(a) = word(matches, "a") else {
        return Ok(None);
    };
    let Some(b) = word(matches, "b") else {
        return Ok(None);
    };
    let Some(s) = word(matches, "s") else {
        return Ok(None);
    };
    let Some(mode) = named_mode(matches) else {
        return Ok(None);
    };
    let settles = is_set(matches, "settles");
    let reset = is_set(matches, "reset");
    let rows = path_of(alloc, word(matches, "after"))?;
    let s = FilePath::from_str(alloc, s)?;
    let (a, b) = paths_of(alloc, a, b)?;
    Ok(replayed_in(a, b, s, settles, reset, rows, mode))
}

/// The replay of a stimulus; with `reset` from initial values, or behind the rows that are named, which stand only beside `reset`. That
/// doesn't stand beside the mode `event`.
fn replayed_in(
    a: FilePath,
    b: FilePath,
    s: FilePath,
    settles: bool,
    reset: bool,
    rows: Option<FilePath>,
    mode: Mode,
) -> Option<Task>
    ensures { result ≡ replayed_in a b s settles reset rows mode }
{
    if !reset {
        if rows.is_some() {
            return None;
        }
        return Some(Task::Replay {
            a,
            b,
            s,
            mode,
            settles,
        });
    }
    match mode {
        Mode::Plain => Some(replayed_from(a, b, s, settles, rows)),
        Mode::Event => None,
    }
}

/// The replay of a stimulus from initial values, or behind the rows that are named.
fn replayed_from(
    a: FilePath,
    b: FilePath,
    s: FilePath,
    settles: bool,
    rows: Option<FilePath>,
) -> Task
    ensures { Some result ≡ replayed_in a b s settles true rows Plain }
{
    match rows {
        Some(rows) => Task::ReplayAfter {
            a,
            b,
            s,
            rows,
            settles,
        },
        None => Task::ReplayReset { a, b, s, settles },
    }
}

pub(crate) fn settle_in(alloc: Global, matches: &ArgMatches<'_>) -> Result<Option<Task>, NoMemory>
    ensures { IfOk result (λ task. task ≡ settle_in (rows_of (found_of matches.now))) }
{
    let Some(a) = word(matches, "a") else {
        return Ok(None);
    };
    let Some(b) = word(matches, "b") else {
        return Ok(None);
    };
    let Some(s) = word(matches, "s") else {
        return Ok(None);
    };
    let Some(mode) = mode_in(matches) else {
        return Ok(None);
    };
    let s = FilePath::from_str(alloc, s)?;
    let (a, b) = paths_of(alloc, a, b)?;
    Ok(Some(Task::Settle { a, b, s, mode }))
}

pub(crate) fn gen_in(matches: &ArgMatches<'_>) -> Option<Task>
    ensures { result ≡ gen_in (rows_of (found_of matches.now)) }
{
    let seed = number_of(0, u64::MAX, word(matches, "n")?)?;
    let conflicts = conflicts_in(matches)?;
    Some(Task::Gen {
        seed,
        regroup: is_set(matches, "regroup"),
        conflicts,
    })
}

pub(crate) fn lrat_in(alloc: Global, matches: &ArgMatches<'_>) -> Result<Option<Task>, NoMemory>
    ensures { IfOk result (λ task. task ≡ lrat_in (rows_of (found_of matches.now))) }
{
    let Some(f) = word(matches, "f") else {
        return Ok(None);
    };
    let Some(l) = word(matches, "l") else {
        return Ok(None);
    };
    let (f, l) = paths_of(alloc, f, l)?;
    Ok(Some(Task::Lrat { f, l }))
}

/// Whether the words name the form of a refutation, and not that of the clauses.
fn form_in(matches: &ArgMatches<'_>) -> Option<bool>
    ensures { result ≡ form_in (rows_of (found_of matches.now)) }
{
    match word(matches, "form")? {
        "lrat" => Some(true),
        "cnf" => Some(false),
        _ => None,
    }
}

pub(crate) fn cert_in(alloc: Global, matches: &ArgMatches<'_>) -> Result<Option<Task>, NoMemory>
    ensures { IfOk result (λ task. task ≡ cert_in (rows_of (found_of matches.now))) }
{
    let Some(a) = word(matches, "a") else {
        return Ok(None);
    };
    let Some(b) = word(matches, "b") else {
        return Ok(None);
    };
    let Some(pair) = word(matches, "pair") else {
        return Ok(None);
    };
    let Some(lrat) = form_in(matches) else {
        return Ok(None);
    };
    let Some(conflicts) = conflicts_in(matches) else {
        return Ok(None);
    };
    let pair = Seq::from_vec(pair.as_bytes().to_vec(alloc)?);
    let (a, b) = paths_of(alloc, a, b)?;
    Ok(Some(Task::Cert {
        a,
        b,
        pair,
        lrat,
        conflicts,
    }))
}

pub(crate) fn induct_in(alloc: Global, matches: &ArgMatches<'_>) -> Result<Option<Task>, NoMemory>
    ensures { IfOk result (λ task. task ≡ induct_in (rows_of (found_of matches.now))) }
{
    let Some(a) = word(matches, "a") else {
        return Ok(None);
    };
    let Some(b) = word(matches, "b") else {
        return Ok(None);
    };
    let Some(conflicts) = conflicts_in(matches) else {
        return Ok(None);
    };
    let signals = is_set(matches, "signals");
    let after = word(matches, "after");
    if let Some(assumed) = word(matches, "assume") {
        return tied_under(alloc, signals, a, b, conflicts, assumed, after);
    }
    let after = path_of(alloc, after)?;
    let (a, b) = paths_of(alloc, a, b)?;
    Ok(Some(inducted_in(signals, a, b, conflicts, after)))
}

/// The comparison by ties of signals under an assumption, behind the rows of a stimulus where one is named. It stands only beside `--signals`.
fn tied_under(
    alloc: Global,
    signals: bool,
    a: &str,
    b: &str,
    conflicts: u32,
    assumed: &str,
    after: Option<&str>,
) -> Result<Option<Task>, NoMemory>
    ensures { IfOk result (λ task. task ≡ tied_in signals a.now b.now conflicts (Some assumed.now) (option_map (λ w. w.now) after.entry)) }
{
    if !signals {
        return Ok(None);
    }
    let after = path_of(alloc, after)?;
    let c = FilePath::from_str(alloc, assumed)?;
    let (a, b) = paths_of(alloc, a, b)?;
    Ok(Some(assumed_ties(a, b, c, conflicts, after)))
}

/// That comparison of these files.
fn assumed_ties(
    a: FilePath,
    b: FilePath,
    c: FilePath,
    conflicts: u32,
    after: Option<FilePath>,
) -> Task
    ensures { Some result ≡ tied_in true a b conflicts (Some c) after }
{
    match after {
        Some(s) => Task::InductAfterUnder {
            a,
            b,
            c,
            s,
            conflicts,
        },
        None => Task::InductUnder { a, b, c, conflicts },
    }
}

/// The induction over these files, by ties of signals where `--signals` stands, and behind the rows of a stimulus where one is named.
fn inducted_in(
    signals: bool,
    a: FilePath,
    b: FilePath,
    conflicts: u32,
    after: Option<FilePath>,
) -> Task
    ensures { result ≡ inducted_in signals a b conflicts after }
{
    if let Some(s) = after {
        return Task::InductAfter {
            a,
            b,
            s,
            signals,
            conflicts,
        };
    }
    if signals {
        return Task::InductSignals { a, b, conflicts };
    }
    Task::Induct { a, b, conflicts }
}
