//! From the words to the job.

ghost use Rattle.std.specs.Prelude.{◌≡◌, map, string_bytes, IfOk, IsErrOf, None, Some, option_and_then, []};
ghost use Rattle.clap.specs.Words.{fault_of, found_of, rows_of, subcommand_of, subcommand_rows_of};
ghost use Rattle.command_line.specs.command_words.Command.{sec_app};
ghost use Rattle.command_line.specs.Jobs.{job_of, task_in};

mod check;
mod others;
mod values;

use crate::command_words::sec_command;
use crate::jobs::check::check_in;
use crate::jobs::others::{
    cert_in, gen_in, graph_in, induct_in, lrat_in, replay_in, settle_in, sim_in,
};
use crate::task::Task;
use clap::ArgMatches;
use clap::error::ErrorKind;
use sec_base::NoMemory;
use std::alloc::{AllocError, Global};

/// Why the words are no job.
#[derive(Clone, Copy)]
pub enum WordsError {
    /// `clap`'s definition for the command doesn't take the words, the mode is neither `plain` nor `event`, `--reset` stands with
    /// `event`, with `--expose` or with `--settles` of `check`, `--cycles` or `--after` of `check`, `sim` or `replay` stands without
    /// `--reset`, `--after` with `--assume` and without `--cycles`, `--assume` of `induct` without `--signals`, `--pair` with
    /// `--settles`, `--assume`, `--cycles` or `--after`, `--pairs` with one of these or with `--pair` or
    /// without `--expose`, or the form of a certificate is neither `cnf` nor `lrat`.
    Refused,
    /// Memory was wanted and couldn't be had.
    NoMemory,
}

impl From<AllocError> for WordsError {
    ghost use Rattle.command_line.specs.declared.jobs.WordsError.TheVariants.{NoMemory};

    ghost from_gives = { λ _ e. e ≡ NoMemory };

    fn from(_error: AllocError) -> WordsError {
        WordsError::NoMemory
    }
}

impl From<NoMemory> for WordsError {
    ghost use Rattle.command_line.specs.declared.jobs.WordsError.TheVariants.{NoMemory};

    ghost from_gives = { λ _ e. e ≡ NoMemory };

    fn from(_error: NoMemory) -> WordsError {
        WordsError::NoMemory
    }
}

/// The task of a subcommand's matches.
fn task_in(alloc: Global, name: &str, matches: &ArgMatches<'_>) -> Result<Option<Task>, NoMemory>
    ensures { IfOk result (λ task. task ≡ task_in name.now (rows_of (found_of matches.now))) }
{
    match name {
        "check" => check_in(alloc, matches),
        "graph" => graph_in(alloc, matches),
        "sim" => sim_in(alloc, matches),
        "replay" => replay_in(alloc, matches),
        "settle" => settle_in(alloc, matches),
        "gen" => Ok(gen_in(matches)),
        "lrat" => lrat_in(alloc, matches),
        "cert" => cert_in(alloc, matches),
        "induct" => induct_in(alloc, matches),
        _ => Ok(None),
    }
}

/// The task of the subcommand that was met.
fn task_of(alloc: Global, matches: &ArgMatches<'_>) -> Result<Task, WordsError>
    ensures task { IfOk result (λ task. option_and_then (λ met. task_in met.0 met.1) (subcommand_rows_of matches.now) ≡ Some task) }
    ensures refused { IsErrOf result WordsError.Refused → option_and_then (λ met. task_in met.0 met.1) (subcommand_rows_of matches.now) ≡ None }
{
    let Some((name, inner)) = matches.subcommand() else {
        return Err(WordsError::Refused);
    };
    match task_in(alloc, name, inner)? {
        Some(task) => Ok(task),
        None => Err(WordsError::Refused),
    }
}

/// The matches of the words, or why `clap` doesn't take them.
fn matches_of<'a>(alloc: Global, words: &'a [String]) -> Result<ArgMatches<'a>, WordsError>
    ensures taken { IfOk result (λ m. (fault_of sec_app (map (λ w. string_bytes w) words.now) ≡ []) × (subcommand_rows_of m ≡ subcommand_of sec_app (map (λ w. string_bytes w) words.now))) }
    ensures refused { IsErrOf result WordsError.Refused → fault_of sec_app (map (λ w. string_bytes w) words.now) ≡ [] → ⊥ }
{
    let command = sec_command(alloc)?;
    match command.try_get_matches_from(words) {
        Ok(matches) => Ok(matches),
        Err(error) => match error.kind() {
            ErrorKind::OutOfMemory => Err(WordsError::NoMemory),
            _ => Err(WordsError::Refused),
        },
    }
}

/// The job of the words behind the program's name. `Refused` comes exactly where `clap`'s definition for the command
/// doesn't take them, the mode is neither `plain` nor `event`, `--reset` stands with `event`, with `--expose` or with `--settles`, `--cycles`
/// stands without `--reset`, `--after` with `--assume` and without `--cycles`, `--pair` with `--settles`, `--assume`, `--cycles` or `--after`, `--pairs` with one of these or with
/// `--pair` or without `--expose`, or the form of a certificate is neither `cnf` nor `lrat`.
pub fn job(alloc: Global, words: &[String]) -> Result<Task, WordsError>
    ensures job { IfOk result (λ task. job_of (map (λ w. string_bytes w) words.now) ≡ Some task) }
    ensures refused { IsErrOf result WordsError.Refused → job_of (map (λ w. string_bytes w) words.now) ≡ None }
{
    let matches = matches_of(alloc, words)?;
    task_of(alloc, &matches)
}
