//! The top call.

ghost use Rattle.std.specs.Prelude.{◌≡◌, ◌≢◌, ◌≤◌, [], ℕ, List, Ok, IsErrOf, map, string_bytes, option_map, Some};
ghost use Rattle.std.specs.List.{All};
ghost use Rattle.base_shelves.specs.Outside.{Rose, SameHeld, NoneFell};
ghost use Rattle.command_line.specs.Jobs.{job_of};
ghost use Rattle.job_base.specs.Reading.{ReadFailedAfter};
ghost use Rattle.command_line.specs.Allowed.{IsAllowed};
ghost use Rattle.job_circuit.specs.job_replay.Told.{report_with};
ghost use Rattle.sec_run.specs.Job.{paths_of, paths_in, GoesOn, GoesOnIn};
ghost use Rattle.sec_run.specs.Answer.{IsCutOff, IsTaken};
ghost use Rattle.sec_run.specs.Ends.{Found};
ghost use Rattle.sec_run.specs.Promises.{Means, IsComplete};

use base_shelves::{Shelf, Sink};
use command_line::{Task, WordsError, job};
use job_after::{AfterComparison, compare_after};
use job_after_under::ties::{TiesBehindComparison, compare_ties_behind};
use job_after_under::{AfterUnderComparison, compare_after_under};
use job_base::{Finding, Status, StatusName, Stop, finish};
use job_cert::job_lrat::{Refutation, check_refutation};
use job_cert::{Certification, Wanted, certify};
use job_check::{Comparison, check};
use job_circuit::job_replay::{Replay, ReplayReport, replay_files};
use job_circuit::{Simulation, SimulationBehind, simulate, simulate_behind, tell_graph};
use job_gen::{Generation, compare_generated};
use job_known::{KnownPaths, replay_behind, replay_from_reset};
use job_pair::job_renamed::{RenamedComparison, compare_renamed};
use job_pair::{PairComparison, compare_pair};
use job_settles::check_settles;
use job_signals::job_begun::{BegunComparison, compare_begun};
use job_signals::{SignalComparison, compare_by_signals};
use job_under::ties::{TiesComparison, compare_ties};
use job_under::{UnderComparison, compare_under};
use sec_base::{FilePath, Word};
use sec_jobs::job_induct::{BlockComparison, compare_by_blocks};
use sec_jobs::job_search::{CycleComparison, compare_in_cycles};
use std::alloc::Global;

/// Finds what the job asks for.
fn find<S: Shelf>(alloc: Global, task: &Task, shelf: &mut S) -> Result<Finding, Stop>
    requires { IsAllowed task.now }
    ensures found { Found (S.held shelf.old) (S.faults shelf.old) (S.faults shelf.new) task.now result }
    ensures keeps { SameHeld (S.held shelf.old) (S.held shelf.new) }
    ensures later { NoneFell (S.faults shelf.old) (S.faults shelf.new) }
    ensures served { All (S.serves shelf.old) (paths_of task.now) → IsErrOf result Stop.ReadFault → ⊥ }
    ensures serving { (other : List ℕ) → S.serves shelf.old other → S.serves shelf.new other }
    ensures idle { paths_of task.now ≡ [] → shelf.new ≡ shelf.old }
{
    match task {
        Task::Check {
            a,
            b,
            settings,
            assumed,
        } => {
            let comparison = Comparison {
                left: a.as_str(),
                right: b.as_str(),
                settings: *settings,
                assumed: path_of(assumed),
            };
            check(alloc, &comparison, shelf)
        }
        Task::CheckSettles {
            a,
            b,
            settings,
            assumed,
        } => {
            let comparison = Comparison {
                left: a.as_str(),
                right: b.as_str(),
                settings: *settings,
                assumed: path_of(assumed),
            };
            check_settles(alloc, &comparison, shelf)
        }
        Task::CheckPair {
            a,
            b,
            pair,
            settings,
        } => {
            let comparison = PairComparison {
                left: a.as_str(),
                right: b.as_str(),
                pair: pair.as_slice(),
                settings: *settings,
            };
            compare_pair(alloc, &comparison, shelf)
        }
        Task::CheckRenamed {
            a,
            b,
            pairs,
            settings,
        } => {
            let comparison = RenamedComparison {
                left: a.as_str(),
                right: b.as_str(),
                pairs: pairs.as_str(),
                settings: *settings,
            };
            compare_renamed(alloc, &comparison, shelf)
        }
        Task::Graph { a, mode } => tell_graph(alloc, a.as_str(), *mode, shelf),
        Task::Sim {
            a,
            s,
            mode,
            power,
            reset,
        } => {
            let simulation = Simulation {
                circuit: a.as_str(),
                stimulus: s.as_str(),
                mode: *mode,
                power: digits_of(power),
                reset: *reset,
            };
            simulate(alloc, &simulation, shelf)
        }
        Task::SimAfter { a, s, rows, power } => {
            let simulation = SimulationBehind {
                circuit: a.as_str(),
                before: rows.as_str(),
                stimulus: s.as_str(),
                power: digits_of(power),
            };
            simulate_behind(alloc, &simulation, shelf)
        }
        Task::Replay {
            a,
            b,
            s,
            mode,
            settles,
        } => {
            let replay = Replay {
                left: a.as_str(),
                right: b.as_str(),
                stimulus: s.as_str(),
                mode: *mode,
                report: report_with(*settles),
            };
            replay_files(alloc, &replay, shelf)
        }
        Task::ReplayReset { a, b, s, settles } => {
            let paths = KnownPaths {
                left: a.as_str(),
                right: b.as_str(),
                stimulus: s.as_str(),
            };
            replay_from_reset(alloc, &paths, *settles, shelf)
        }
        Task::ReplayAfter {
            a,
            b,
            s,
            rows,
            settles,
        } => {
            let paths = KnownPaths {
                left: a.as_str(),
                right: b.as_str(),
                stimulus: s.as_str(),
            };
            replay_behind(alloc, &paths, rows.as_str(), *settles, shelf)
        }
        Task::Settle { a, b, s, mode } => {
            let replay = Replay {
                left: a.as_str(),
                right: b.as_str(),
                stimulus: s.as_str(),
                mode: *mode,
                report: ReplayReport::Settled,
            };
            replay_files(alloc, &replay, shelf)
        }
        Task::Gen {
            seed,
            regroup,
            conflicts,
        } => {
            let generation = Generation {
                seed: *seed,
                regroup: *regroup,
                conflicts: *conflicts,
            };
            compare_generated(alloc, &generation)
        }
        Task::Lrat { f, l } => {
            let refutation = Refutation {
                clauses: f.as_str(),
                proof: l.as_str(),
            };
            check_refutation(alloc, &refutation, shelf)
        }
        Task::Cert {
            a,
            b,
            pair,
            lrat,
            conflicts,
        } => {
            let wanted = Wanted {
                pair: pair.as_slice(),
                refuted: *lrat,
                conflicts: *conflicts,
            };
            let certification = Certification {
                left: a.as_str(),
                right: b.as_str(),
                wanted,
            };
            certify(alloc, &certification, shelf)
        }
        Task::Search {
            a,
            b,
            cycles,
            conflicts,
        } => {
            let comparison = CycleComparison {
                left: a.as_str(),
                right: b.as_str(),
                cycles: *cycles,
                conflicts: *conflicts,
            };
            compare_in_cycles(alloc, &comparison, shelf)
        }
        Task::SearchUnder {
            a,
            b,
            c,
            cycles,
            conflicts,
        } => {
            let comparison = UnderComparison {
                left: a.as_str(),
                right: b.as_str(),
                assumed: c.as_str(),
                cycles: *cycles,
                conflicts: *conflicts,
            };
            compare_under(alloc, &comparison, shelf)
        }
        Task::After {
            a,
            b,
            s,
            cycles,
            conflicts,
        } => {
            let comparison = AfterComparison {
                left: a.as_str(),
                right: b.as_str(),
                stimulus: s.as_str(),
                cycles: *cycles,
                conflicts: *conflicts,
            };
            compare_after(alloc, &comparison, shelf)
        }
        Task::AfterUnder {
            a,
            b,
            c,
            s,
            cycles,
            conflicts,
        } => {
            let comparison = AfterUnderComparison {
                left: a.as_str(),
                right: b.as_str(),
                assumed: c.as_str(),
                stimulus: s.as_str(),
                cycles: *cycles,
                conflicts: *conflicts,
            };
            compare_after_under(alloc, &comparison, shelf)
        }
        Task::Induct { a, b, conflicts } => {
            let comparison = BlockComparison {
                left: a.as_str(),
                right: b.as_str(),
                conflicts: *conflicts,
            };
            compare_by_blocks(alloc, &comparison, shelf)
        }
        Task::InductSignals { a, b, conflicts } => {
            let comparison = SignalComparison {
                left: a.as_str(),
                right: b.as_str(),
                conflicts: *conflicts,
            };
            compare_by_signals(alloc, &comparison, shelf)
        }
        Task::InductUnder { a, b, c, conflicts } => {
            let comparison = TiesComparison {
                left: a.as_str(),
                right: b.as_str(),
                assumed: c.as_str(),
                conflicts: *conflicts,
            };
            compare_ties(alloc, &comparison, shelf)
        }
        Task::InductAfter {
            a,
            b,
            s,
            signals,
            conflicts,
        } => {
            let comparison = BegunComparison {
                left: a.as_str(),
                right: b.as_str(),
                stimulus: s.as_str(),
                signals: *signals,
                conflicts: *conflicts,
            };
            compare_begun(alloc, &comparison, shelf)
        }
        Task::InductAfterUnder {
            a,
            b,
            c,
            s,
            conflicts,
        } => {
            let comparison = TiesBehindComparison {
                left: a.as_str(),
                right: b.as_str(),
                assumed: c.as_str(),
                stimulus: s.as_str(),
                conflicts: *conflicts,
            };
            compare_ties_behind(alloc, &comparison, shelf)
        }
    }
}

/// What is told of a replay: with `settles` also how many pairs are settled.
fn report_with(settles: bool) -> ReplayReport
    ensures { result ≡ report_with settles }
{
    if settles {
        ReplayReport::DifferencesAndSettled
    } else {
        ReplayReport::Differences
    }
}

/// The path, where there is one.
fn path_of(path: &Option<FilePath>) -> Option<&str>
    ensures { option_map (λ text. text.now) result ≡ path.now }
{
    match path {
        Some(path) => Some(path.as_str()),
        None => None,
    }
}

/// The digits of the power word.
fn digits_of(power: &Option<Word>) -> Option<&[u8]>
    ensures { option_map (λ digits. digits.now) result ≡ power.now }
{
    match power {
        Some(word) => Some(word.as_slice()),
        None => None,
    }
}

/// Does the job, and writes its report last, by one write.
///
/// The report is written whole with the statuses `Equal`, `Done`, `Different`, `NotShown`, `Limit`, `Refused` and `Cyclic`; at a
/// write fault a front of it; at a read fault and at want of memory nothing. Want of memory alone is without a cause here.
pub fn run_job<S: Shelf, W: Sink>(alloc: Global, task: &Task, shelf: &mut S, out: &mut W) -> Status
    requires { IsAllowed task.now }
    ensures taken { IsTaken (W.taken out.old) (W.taken out.new) (S.held shelf.old) (Some task.now) result }
    // What the status says of what is held.
    ensures means { Means (S.held shelf.old) (Some task.now) (W.taken out.old) (W.taken out.new) result.proofs result.name }
    ensures read_fault { result.name ≡ StatusName.ReadFault → ReadFailedAfter (GoesOn task.now) (S.held shelf.old) (S.faults shelf.old) (S.faults shelf.new) (paths_of task.now) }
    ensures write_fault { result.name ≡ StatusName.WriteFault → Rose (W.faults out.old) (W.faults out.new) }
    // Where no read and no write fails, what can be done is done.
    ensures complete { result.name ≢ StatusName.ReadFault → result.name ≢ StatusName.WriteFault → IsComplete (S.held shelf.old) (Some task.now) result.name }
    ensures served { All (S.serves shelf.old) (paths_of task.now) → result.name ≢ StatusName.ReadFault }
    ensures accepted { result.name ≡ StatusName.WriteFault → IsCutOff (W.accepts out.old) (W.taken out.old) (W.taken out.new) (S.held shelf.old) (Some task.now) result.proofs }
    // Nothing that is held changes, what is served stays so, a job without paths leaves the shelf alone, and no count of faults falls.
    ensures keeps { SameHeld (S.held shelf.old) (S.held shelf.new) × ((other : List ℕ) → S.serves shelf.old other → S.serves shelf.new other) × (paths_of task.now ≡ [] → shelf.new ≡ shelf.old) }
    ensures later { NoneFell (S.faults shelf.old) (S.faults shelf.new) × (W.faults out.old ≤ W.faults out.new) }
{
    match find(alloc, task, shelf) {
        Ok(finding) => finish(alloc, finding, out),
        Err(Stop::ReadFault) => Status::bare(alloc, StatusName::ReadFault),
        Err(Stop::NoMemory) => Status::bare(alloc, StatusName::NoMemory),
    }
}

/// Reads the words as a job and does it. The words are those behind the program's name. `Words` comes exactly where they are
/// no job; all else is as `run_job` says.
pub fn run<S: Shelf, W: Sink>(alloc: Global, words: &[String], shelf: &mut S, out: &mut W) -> Status
    ensures taken { IsTaken (W.taken out.old) (W.taken out.new) (S.held shelf.old) (job_of (map (λ w. string_bytes w) words.now)) result }
    // What the status says of what is held.
    ensures means { Means (S.held shelf.old) (job_of (map (λ w. string_bytes w) words.now)) (W.taken out.old) (W.taken out.new) result.proofs result.name }
    ensures read_fault { result.name ≡ StatusName.ReadFault → ReadFailedAfter (GoesOnIn (job_of (map (λ w. string_bytes w) words.now))) (S.held shelf.old) (S.faults shelf.old) (S.faults shelf.new) (paths_in (job_of (map (λ w. string_bytes w) words.now))) }
    ensures write_fault { result.name ≡ StatusName.WriteFault → Rose (W.faults out.old) (W.faults out.new) }
    // Where no read and no write fails, what can be done is done.
    ensures complete { result.name ≢ StatusName.ReadFault → result.name ≢ StatusName.WriteFault → IsComplete (S.held shelf.old) (job_of (map (λ w. string_bytes w) words.now)) result.name }
    ensures served { All (S.serves shelf.old) (paths_in (job_of (map (λ w. string_bytes w) words.now))) → result.name ≢ StatusName.ReadFault }
    ensures accepted { result.name ≡ StatusName.WriteFault → IsCutOff (W.accepts out.old) (W.taken out.old) (W.taken out.new) (S.held shelf.old) (job_of (map (λ w. string_bytes w) words.now)) result.proofs }
    // Nothing that is held changes, what is served stays so, and no count of faults falls.
    ensures keeps { SameHeld (S.held shelf.old) (S.held shelf.new) × ((other : List ℕ) → S.serves shelf.old other → S.serves shelf.new other) }
    ensures later { NoneFell (S.faults shelf.old) (S.faults shelf.new) × (W.faults out.old ≤ W.faults out.new) }
    ensures idle { paths_in (job_of (map (λ w. string_bytes w) words.now)) ≡ [] → shelf.new ≡ shelf.old }
{
    match job(alloc, words) {
        Ok(task) => run_job(alloc, &task, shelf, out),
        Err(WordsError::Refused) => finish(alloc, Finding::Words, out),
        Err(WordsError::NoMemory) => Status::bare(alloc, StatusName::NoMemory),
    }
}
