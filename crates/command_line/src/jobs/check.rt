//! From the words of `check` to its jobs.

ghost use Rattle.std.specs.Prelude.{◌≡◌, option_map, IfOk, None, Some, codes};
ghost use Rattle.clap.specs.Words.{first_of, found_of, rows_of};
ghost use Rattle.command_line.specs.Jobs.{check_in, compared_in, is_set, settings_in, checked_in, paired_in, stands_alone, search_in, last_in, after_in, searched_in, renamed_in};

use crate::jobs::values::{conflicts_in, is_set, mode_in, number_of, path_of, paths_of, word};
use crate::task::Task;
use clap::ArgMatches;
use sec_base::{FilePath, NoMemory, Seq, Settings};
use std::alloc::Global;

fn settings_in(matches: &ArgMatches<'_>) -> Option<Settings>
    ensures { result ≡ settings_in (rows_of (found_of matches.now)) }
{
    let mode = mode_in(matches)?;
    let conflicts = conflicts_in(matches)?;
    Some(Settings {
        mode,
        expose: is_set(matches, "expose"),
        conflicts,
        reset: is_set(matches, "reset"),
    })
}

pub(crate) fn check_in(alloc: Global, matches: &ArgMatches<'_>) -> Result<Option<Task>, NoMemory>
    ensures { IfOk result (λ task. task ≡ check_in (rows_of (found_of matches.now))) }
{
    let Some(a) = word(matches, "a") else {
        return Ok(None);
    };
    let Some(b) = word(matches, "b") else {
        return Ok(None);
    };
    let Some(settings) = settings_in(matches) else {
        return Ok(None);
    };
    if let Some(pairs) = word(matches, "pairs") {
        return renamed_in(alloc, matches, a, b, pairs, settings);
    }
    if let Some(pair) = word(matches, "pair") {
        return paired_in(alloc, matches, a, b, pair, settings);
    }
    let assumed = word(matches, "assume");
    match word(matches, "after") {
        Some(stimulus) => {
            let cycles = word(matches, "cycles");
            after_in(alloc, a, b, stimulus, settings, assumed, cycles)
        }
        None => match word(matches, "cycles") {
            Some(cycles) => search_in(alloc, a, b, settings, assumed, cycles),
            None => checked_in(alloc, a, b, settings, assumed, is_set(matches, "settles")),
        },
    }
}

/// Whether none of `--settles`, `--assume`, `--cycles` and `--after` stands.
fn stands_alone(matches: &ArgMatches<'_>) -> bool
    ensures { result ≡ stands_alone (is_set (codes "settles") (rows_of (found_of matches.now))) (first_of (codes "assume") (rows_of (found_of matches.now))) (first_of (codes "cycles") (rows_of (found_of matches.now))) (first_of (codes "after") (rows_of (found_of matches.now))) }
{
    !(is_set(matches, "settles")
        || word(matches, "assume").is_some()
        || word(matches, "cycles").is_some()
        || word(matches, "after").is_some())
}

/// The comparison of the outputs of one name. It stands beside none of `--settles`, `--assume`, `--cycles` and `--after`.
fn paired_in(
    alloc: Global,
    matches: &ArgMatches<'_>,
    a: &str,
    b: &str,
    pair: &str,
    settings: Settings,
) -> Result<Option<Task>, NoMemory>
    ensures { IfOk result (λ task. task ≡ paired_in (is_set (codes "settles") (rows_of (found_of matches.now))) a.now b.now settings (first_of (codes "assume") (rows_of (found_of matches.now))) (first_of (codes "cycles") (rows_of (found_of matches.now))) (first_of (codes "after") (rows_of (found_of matches.now))) (Some pair.now)) }
{
    if !stands_alone(matches) {
        return Ok(None);
    }
    let pair = Seq::from_vec(pair.as_bytes().to_vec(alloc)?);
    let (a, b) = paths_of(alloc, a, b)?;
    Ok(Some(Task::CheckPair {
        a,
        b,
        pair,
        settings,
    }))
}

/// The comparison whose latches the file pairs. It stands only beside `--expose`, and beside none of `--settles`, `--assume`, `--cycles`,
/// `--after` and `--pair`.
fn renamed_in(
    alloc: Global,
    matches: &ArgMatches<'_>,
    a: &str,
    b: &str,
    pairs: &str,
    settings: Settings,
) -> Result<Option<Task>, NoMemory>
    ensures { IfOk result (λ task. task ≡ renamed_in (is_set (codes "settles") (rows_of (found_of matches.now))) a.now b.now settings (first_of (codes "assume") (rows_of (found_of matches.now))) (first_of (codes "cycles") (rows_of (found_of matches.now))) (first_of (codes "after") (rows_of (found_of matches.now))) (first_of (codes "pair") (rows_of (found_of matches.now))) (Some pairs.now)) }
{
    if !settings.expose || !stands_alone(matches) || word(matches, "pair").is_some() {
        return Ok(None);
    }
    let pairs = FilePath::from_str(alloc, pairs)?;
    let (a, b) = paths_of(alloc, a, b)?;
    Ok(Some(Task::CheckRenamed {
        a,
        b,
        pairs,
        settings,
    }))
}

/// The last cycle that the word spells; without a word none is named.
fn last_in(cycles: Option<&str>) -> Option<Option<u32>>
    ensures { result ≡ last_in (option_map (λ w. w.now) cycles.entry) }
{
    match cycles {
        Some(word) => {
            let last = number_of(0, 1_000, word)?;
            Some(Some(last as u32))
        }
        None => Some(None),
    }
}

/// The search behind the rows of the stimulus, up to the cycle that the word spells, or without one in all cycles; under an
/// assumption it wants such a word. It stands only beside `--reset`.
fn after_in(
    alloc: Global,
    a: &str,
    b: &str,
    stimulus: &str,
    settings: Settings,
    assumed: Option<&str>,
    cycles: Option<&str>,
) -> Result<Option<Task>, NoMemory>
    ensures { IfOk result (λ task. task ≡ after_in a.now b.now stimulus.now settings (option_map (λ w. w.now) assumed.entry) (option_map (λ w. w.now) cycles.entry)) }
{
    if !settings.reset {
        return Ok(None);
    }
    if let Some(assumed) = assumed {
        return after_under(alloc, a, b, stimulus, settings, assumed, cycles);
    }
    let Some(cycles) = last_in(cycles) else {
        return Ok(None);
    };
    let s = FilePath::from_str(alloc, stimulus)?;
    let (a, b) = paths_of(alloc, a, b)?;
    Ok(Some(Task::After {
        a,
        b,
        s,
        cycles,
        conflicts: settings.conflicts,
    }))
}

/// The same under an assumption. It stands only beside `--reset` and `--cycles`.
fn after_under(
    alloc: Global,
    a: &str,
    b: &str,
    stimulus: &str,
    settings: Settings,
    assumed: &str,
    cycles: Option<&str>,
) -> Result<Option<Task>, NoMemory>
    ensures { IfOk result (λ task. task ≡ after_in a.now b.now stimulus.now settings (Some assumed.now) (option_map (λ w. w.now) cycles.entry)) }
{
    let Some(cycles) = cycles else {
        return Ok(None);
    };
    if !settings.reset {
        return Ok(None);
    }
    let Some(cycles) = number_of(0, 1_000, cycles) else {
        return Ok(None);
    };
    let s = FilePath::from_str(alloc, stimulus)?;
    let c = FilePath::from_str(alloc, assumed)?;
    let (a, b) = paths_of(alloc, a, b)?;
    Ok(Some(Task::AfterUnder {
        a,
        b,
        c,
        s,
        cycles: cycles as u32,
        conflicts: settings.conflicts,
    }))
}

/// The check of two circuits, with `--settles` where that stands.
fn checked_in(
    alloc: Global,
    a: &str,
    b: &str,
    settings: Settings,
    assumed: Option<&str>,
    settles: bool,
) -> Result<Option<Task>, NoMemory>
    ensures { IfOk result (λ task. task ≡ checked_in settles a.now b.now settings (option_map (λ w. w.now) assumed.entry) None) }
{
    let assumed = path_of(alloc, assumed)?;
    let (a, b) = paths_of(alloc, a, b)?;
    Ok(Some(compared_in(settles, a, b, settings, assumed)))
}

/// The comparison of these files, with `--settles` where that stands.
fn compared_in(
    settles: bool,
    a: FilePath,
    b: FilePath,
    settings: Settings,
    assumed: Option<FilePath>,
) -> Task
    ensures { result ≡ compared_in settles a b settings assumed }
{
    if settles {
        return Task::CheckSettles {
            a,
            b,
            settings,
            assumed,
        };
    }
    Task::Check {
        a,
        b,
        settings,
        assumed,
    }
}

/// The search for a difference up to the cycle that the word spells. It stands only beside `--reset`.
fn search_in(
    alloc: Global,
    a: &str,
    b: &str,
    settings: Settings,
    assumed: Option<&str>,
    cycles: &str,
) -> Result<Option<Task>, NoMemory>
    ensures { IfOk result (λ task. task ≡ search_in a.now b.now settings (option_map (λ w. w.now) assumed.entry) cycles.now) }
{
    if !settings.reset {
        return Ok(None);
    }
    let Some(cycles) = number_of(0, 1_000, cycles) else {
        return Ok(None);
    };
    let assumed = path_of(alloc, assumed)?;
    let (a, b) = paths_of(alloc, a, b)?;
    let conflicts = settings.conflicts;
    Ok(Some(searched_in(a, b, assumed, cycles as u32, conflicts)))
}

/// The search of these files, under an assumption where one is named.
fn searched_in(
    a: FilePath,
    b: FilePath,
    assumed: Option<FilePath>,
    cycles: u32,
    conflicts: u32,
) -> Task
    ensures { result ≡ searched_in a b assumed cycles conflicts }
{
    match assumed {
        Some(c) => Task::SearchUnder {
            a,
            b,
            c,
            cycles,
            conflicts,
        },
        None => Task::Search {
            a,
            b,
            cycles,
            conflicts,
        },
    }
}
