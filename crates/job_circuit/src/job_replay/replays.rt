//! The job that runs two circuits on one stimulus.

ghost use Rattle.std.specs.Prelude.{◌≡◌, ◌<◌, ◌^◌, ℕ, List, length, IfOk, IsErrOf};
ghost use Rattle.base_shelves.specs.Outside.{Rose, SameHeld, NoneFell};
ghost use Rattle.flat_net.specs.Comparable.{IsComparable};
ghost use Rattle.job_circuit.specs.job_replay.Ends.{ReplayJob, replay_end, EndsOver, EndsWithBoth, ReplayFound};
ghost use Rattle.job_circuit.specs.job_replay.Told.{judgement_of, finding_of, FindsIn};

use crate::job_replay::fault::ReplayFault;
use crate::job_replay::modes::replay_in;
use crate::replay::Replayed;
use base_shelves::Shelf;
use circuit_report::sim_report::Misfit;
use circuit_theory::Mode;
use cycle_sim::pair_runs::replay_report::{settle_report, settled_count, settled_replay_report};
use flat_net::Net;
use job_base::sec_files::job_files::{load_end, stimulus_end};
use job_base::sec_files::{load, load_stimulus};
use job_base::{File, Finding, Judgement, Proofs, Refusal, Stop};
use sec_base::NoMemory;
use std::alloc::Global;
use witness_report::Stimulus;

/// What is told of two circuits that are run on one stimulus.
#[derive(Clone, Copy)]
pub enum ReplayReport {
    /// In which cycles which pairs differ.
    Differences,
    /// The same, and how many pairs are settled in both.
    DifferencesAndSettled,
    /// Since when each pair is settled in both.
    Settled,
}

/// The paths of two circuits and of a stimulus, the mode, and what is to be told.
#[derive(Clone, Copy)]
pub struct Replay<'a> {
    pub left: &'a str,
    pub right: &'a str,
    pub stimulus: &'a str,
    pub mode: Mode,
    pub report: ReplayReport,
}

/// Loads both circuits, A first, and then the stimulus, and finds what both circuits show on it.
pub fn replay_files<S: Shelf>(
    alloc: Global,
    replay: &Replay<'_>,
    shelf: &mut S,
) -> Result<Finding, Stop>
    ensures found { let job : ReplayJob = record { left = replay.now.left.now; right = replay.now.right.now; stimulus = replay.now.stimulus.now; mode = replay.now.mode; report = replay.now.report } in
        ReplayFound (S.held shelf.old) (S.faults shelf.old) (S.faults shelf.new) job result }
    ensures keeps { SameHeld (S.held shelf.old) (S.held shelf.new) }
    ensures later { NoneFell (S.faults shelf.old) (S.faults shelf.new) }
    ensures served { S.serves shelf.old replay.now.left.now → S.serves shelf.old replay.now.right.now → S.serves shelf.old replay.now.stimulus.now → IsErrOf result Stop.ReadFault → ⊥ }
    ensures serving { (other : List ℕ) → S.serves shelf.old other → S.serves shelf.new other }
{
    match load(alloc, shelf, replay.left) {
        Ok(a) => replay_with(alloc, &a, replay, shelf),
        Err(error) => load_end(File::A, error),
    }
}

/// Loads B and then the stimulus, and runs A beside B.
fn replay_with<S: Shelf>(
    alloc: Global,
    a: &Net,
    replay: &Replay<'_>,
    shelf: &mut S,
) -> Result<Finding, Stop>
    requires left { IsComparable a.now }
    ensures found { let right = replay.now.right.now in let stimulus = replay.now.stimulus.now in
        EndsWithBoth replay.now.report replay.now.mode (S.held shelf.old right) (Rose (S.faults shelf.old right) (S.faults shelf.new right)) (S.held shelf.old stimulus) (Rose (S.faults shelf.old stimulus) (S.faults shelf.new stimulus)) a.now result }
    ensures keeps { SameHeld (S.held shelf.old) (S.held shelf.new) }
    ensures later { NoneFell (S.faults shelf.old) (S.faults shelf.new) }
    ensures served { S.serves shelf.old replay.now.right.now → S.serves shelf.old replay.now.stimulus.now → IsErrOf result Stop.ReadFault → ⊥ }
    ensures serving { (other : List ℕ) → S.serves shelf.old other → S.serves shelf.new other }
{
    match load(alloc, shelf, replay.right) {
        Ok(b) => replay_over(alloc, a, &b, replay, shelf),
        Err(error) => load_end(File::B, error),
    }
}

/// Loads the stimulus, and runs both circuits over it.
fn replay_over<S: Shelf>(
    alloc: Global,
    a: &Net,
    b: &Net,
    replay: &Replay<'_>,
    shelf: &mut S,
) -> Result<Finding, Stop>
    requires left { IsComparable a.now }
    requires right { IsComparable b.now }
    ensures found { let path = replay.now.stimulus.now in
        EndsOver replay.now.report replay.now.mode (S.held shelf.old path) (Rose (S.faults shelf.old path) (S.faults shelf.new path)) a.now b.now result }
    ensures keeps { SameHeld (S.held shelf.old) (S.held shelf.new) }
    ensures later { NoneFell (S.faults shelf.old) (S.faults shelf.new) }
    ensures served { S.serves shelf.old replay.now.stimulus.now → IsErrOf result Stop.ReadFault → ⊥ }
    ensures serving { (other : List ℕ) → S.serves shelf.old other → S.serves shelf.new other }
{
    match load_stimulus(alloc, shelf, replay.stimulus) {
        Ok(stimulus) => {
            let found = found_in(alloc, a, b, &stimulus, replay);
            replay_end(found)
        }
        Err(error) => stimulus_end(error),
    }
}

/// What is found where both circuits are run on the stimulus, or why they aren't.
fn found_in(
    alloc: Global,
    a: &Net,
    b: &Net,
    stimulus: &Stimulus,
    replay: &Replay<'_>,
) -> Result<Finding, ReplayFault>
    requires left { IsComparable a.now }
    requires right { IsComparable b.now }
    requires few { length stimulus.now.rows < 2 ^ 32 }
    ensures { FindsIn replay.now.report replay.now.mode a.now b.now stimulus.now.names stimulus.now.rows result }
{
    let replayed = replay_in(alloc, a, b, stimulus, replay.mode)?;
    let cycles = stimulus.rows.len() as u32;
    Ok(finding_of(alloc, replay.report, cycles, replayed)?)
}

/// What is said of two circuits: some pair differs; or none does, and some is settled in both, or none.
fn judgement_of(replayed: &Replayed) -> Judgement
    ensures { result ≡ judgement_of replayed.now }
{
    if replayed.differences.len() > 0 {
        return Judgement::Different;
    }
    if settled_count(&replayed.settlings) == 0 {
        return Judgement::NotShown;
    }
    Judgement::Equal
}

/// What is found, by what is to be told, of what both circuits show in so many cycles.
fn finding_of(
    alloc: Global,
    report: ReplayReport,
    cycles: u32,
    replayed: Replayed,
) -> Result<Finding, NoMemory>
    ensures { IfOk result (λ found. found ≡ finding_of report cycles replayed) }
{
    match report {
        ReplayReport::Differences => Ok(Finding::Replayed(replayed.differences)),
        ReplayReport::DifferencesAndSettled => {
            let text = settled_replay_report(alloc, cycles, &replayed)?;
            Ok(Finding::Judged(judgement_of(&replayed), Proofs::new(alloc), text))
        }
        ReplayReport::Settled => {
            let text = settle_report(alloc, cycles, &replayed.settlings)?;
            Ok(Finding::Done(text))
        }
    }
}

/// What is found by a replay, or why both circuits weren't run.
fn replay_end(found: Result<Finding, ReplayFault>) -> Result<Finding, Stop>
    ensures { result ≡ replay_end found }
{
    match found {
        Ok(finding) => Ok(finding),
        Err(ReplayFault::Interface(name)) => Ok(Finding::Refused(Refusal::Interface(name))),
        Err(ReplayFault::TooLarge(side)) => Ok(Finding::Refused(Refusal::TooLarge(side))),
        Err(ReplayFault::Limit(side, name, proof)) => Ok(Finding::Undecided(side, name, proof)),
        Err(ReplayFault::Unknown(name)) => {
            Ok(Finding::Refused(Refusal::Misfit(Misfit::Unknown(name))))
        }
        Err(ReplayFault::Missing(name)) => {
            Ok(Finding::Refused(Refusal::Misfit(Misfit::Missing(name))))
        }
        Err(ReplayFault::NoMemory) => Err(Stop::NoMemory),
    }
}
