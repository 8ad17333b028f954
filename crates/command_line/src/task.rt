//! What the program is asked to do.

use circuit_theory::Mode;
use sec_base::{FilePath, Settings, Word};

/// What the words of a command line ask for: a job.
pub enum Task {
    /// Compare the circuits of two files. Where a third file is assumed, only runs count whose inputs make its output 1 in each
    /// cycle.
    Check {
        a: FilePath,
        b: FilePath,
        settings: Settings,
        assumed: Option<FilePath>,
    },
    /// Compare them so, not from initial values, and find out of each pair whether some frame has care for both its sides.
    CheckSettles {
        a: FilePath,
        b: FilePath,
        settings: Settings,
        assumed: Option<FilePath>,
    },
    /// Compare them with their outputs of this name alone.
    CheckPair {
        a: FilePath,
        b: FilePath,
        pair: Word,
        settings: Settings,
    },
    /// Compare them with the latches of B under the names of those of A that a file pairs them with.
    CheckRenamed {
        a: FilePath,
        b: FilePath,
        pairs: FilePath,
        settings: Settings,
    },
    /// Print the latches of a circuit, their depths and a cycle.
    Graph {
        a: FilePath,
        mode: Mode,
    },
    /// Run a circuit on a stimulus. `power` has a digit for each latch; without it all power up with 0. With `reset` each latch
    /// with the initial value 0 or 1 powers up with that, whatever its digit is.
    Sim {
        a: FilePath,
        s: FilePath,
        mode: Mode,
        power: Option<Word>,
        reset: bool,
    },
    /// Run a circuit on the stimulus `s` from what is known of its latches behind the rows of another one, whatever it powers up with. A latch
    /// that isn't known there has its digit of `power`, or 0.
    SimAfter {
        a: FilePath,
        s: FilePath,
        rows: FilePath,
        power: Option<Word>,
    },
    /// Run two circuits on a stimulus and print where they differ, and with `settles` how many pairs are settled in both.
    Replay {
        a: FilePath,
        b: FilePath,
        s: FilePath,
        mode: Mode,
        settles: bool,
    },
    /// Run two circuits on a stimulus from their initial values and print where both are known and differ, and with `settles` how many
    /// pairs are known in both.
    ReplayReset {
        a: FilePath,
        b: FilePath,
        s: FilePath,
        settles: bool,
    },
    /// The same from what is known of both behind the rows of another stimulus, whatever they power up with.
    ReplayAfter {
        a: FilePath,
        b: FilePath,
        s: FilePath,
        rows: FilePath,
        settles: bool,
    },
    /// Run two circuits on a stimulus and print since when each pair is settled in both.
    Settle {
        a: FilePath,
        b: FilePath,
        s: FilePath,
        mode: Mode,
    },
    /// Make a pair of circuits from a number and compare them.
    Gen {
        seed: u64,
        regroup: bool,
        conflicts: u32,
    },
    /// Check a text in the LRAT format against the clauses of a DIMACS text.
    Lrat {
        f: FilePath,
        l: FilePath,
    },
    /// Print the clauses that say that the outputs of this name differ, or with `lrat` their refutation.
    Cert {
        a: FilePath,
        b: FilePath,
        pair: Word,
        lrat: bool,
        conflicts: u32,
    },
    /// Search the circuits of two files for a difference, in the cycles from 0 to a last one of runs from their initial values.
    Search {
        a: FilePath,
        b: FilePath,
        cycles: u32,
        conflicts: u32,
    },
    /// Search them so in the runs whose inputs make the output of a third file's circuit 1 in each cycle.
    SearchUnder {
        a: FilePath,
        b: FilePath,
        c: FilePath,
        cycles: u32,
        conflicts: u32,
    },
    /// Search them for a difference behind the rows of a stimulus, whatever they power up with, in the cycles from 0 to a last one there,
    /// or without one in all cycles.
    After {
        a: FilePath,
        b: FilePath,
        s: FilePath,
        cycles: Option<u32>,
        conflicts: u32,
    },
    /// Search them so behind the rows in the runs whose inputs make the output of a fourth file's circuit 1 in each cycle there.
    AfterUnder {
        a: FilePath,
        b: FilePath,
        c: FilePath,
        s: FilePath,
        cycles: u32,
        conflicts: u32,
    },
    /// Compare the circuits of two files from their initial values, by blocks of latches that are equal in every cycle.
    Induct {
        a: FilePath,
        b: FilePath,
        conflicts: u32,
    },
    /// Compare them so by ties of signals, which are equal or complements in every cycle.
    InductSignals {
        a: FilePath,
        b: FilePath,
        conflicts: u32,
    },
    /// Compare them by ties of signals in the runs whose inputs make the output of a third file's circuit 1 in each cycle.
    InductUnder {
        a: FilePath,
        b: FilePath,
        c: FilePath,
        conflicts: u32,
    },
    /// Compare them behind the rows of a stimulus, whatever they power up with: by ties of signals, or by blocks of latches.
    InductAfter {
        a: FilePath,
        b: FilePath,
        s: FilePath,
        signals: bool,
        conflicts: u32,
    },
    /// Compare them by ties of signals behind the rows of a stimulus, whatever they power up with, in the runs whose inputs make the output of a
    /// fourth file's circuit 1 in each cycle there.
    InductAfterUnder {
        a: FilePath,
        b: FilePath,
        c: FilePath,
        s: FilePath,
        conflicts: u32,
    },
}

/// It is let go by one call: an owner isn't taken apart field by field at each way out.
impl Drop for Task {
    fn drop(self) {
        match self {
            Task::Check {
                a: _,
                b: _,
                settings: _,
                assumed: _,
            } => {}
            Task::CheckSettles {
                a: _,
                b: _,
                settings: _,
                assumed: _,
            } => {}
            Task::CheckPair {
                a: _,
                b: _,
                pair: _,
                settings: _,
            } => {}
            Task::CheckRenamed {
                a: _,
                b: _,
                pairs: _,
                settings: _,
            } => {}
            Task::Graph { a: _, mode: _ } => {}
            Task::Sim {
                a: _,
                s: _,
                mode: _,
                power: _,
                reset: _,
            } => {}
            Task::SimAfter {
                a: _,
                s: _,
                rows: _,
                power: _,
            } => {}
            Task::Replay {
                a: _,
                b: _,
                s: _,
                mode: _,
                settles: _,
            } => {}
            Task::ReplayReset {
                a: _,
                b: _,
                s: _,
                settles: _,
            } => {}
            Task::ReplayAfter {
                a: _,
                b: _,
                s: _,
                rows: _,
                settles: _,
            } => {}
            Task::Settle {
                a: _,
                b: _,
                s: _,
                mode: _,
            } => {}
            Task::Gen {
                seed: _,
                regroup: _,
                conflicts: _,
            } => {}
            Task::Lrat { f: _, l: _ } => {}
            Task::Cert {
                a: _,
                b: _,
                pair: _,
                lrat: _,
                conflicts: _,
            } => {}
            Task::Search {
                a: _,
                b: _,
                cycles: _,
                conflicts: _,
            } => {}
            Task::SearchUnder {
                a: _,
                b: _,
                c: _,
                cycles: _,
                conflicts: _,
            } => {}
            Task::After {
                a: _,
                b: _,
                s: _,
                cycles: _,
                conflicts: _,
            } => {}
            Task::AfterUnder {
                a: _,
                b: _,
                c: _,
                s: _,
                cycles: _,
                conflicts: _,
            } => {}
            Task::Induct {
                a: _,
                b: _,
                conflicts: _,
            } => {}
            Task::InductSignals {
                a: _,
                b: _,
                conflicts: _,
            } => {}
            Task::InductUnder {
                a: _,
                b: _,
                c: _,
                conflicts: _,
            } => {}
            Task::InductAfter {
                a: _,
                b: _,
                s: _,
                signals: _,
                conflicts: _,
            } => {}
            Task::InductAfterUnder {
                a: _,
                b: _,
                c: _,
                s: _,
                conflicts: _,
            } => {}
        }
    }
}
