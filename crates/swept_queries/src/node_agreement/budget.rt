//! What may be spent on proofs.

ghost use Rattle.std.specs.Prelude.{◌≤◌};

use crate::node_agreement::question::{Cost, Tried};
use crate::node_agreement::table::WIDE;
use aig::lane_eval::root_classes::{MAX_CONFLICTS, MAX_TABLE_VARIABLES};

/// How nodes are proved to agree.
#[derive(Clone, Copy)]
pub struct Effort {
    /// The most conflicts of all searches that fail. A twentieth of it is the most for each.
    pub conflicts: u32,
    /// Whether there are searches, or only tables over cuts of few leaves.
    pub searches: bool,
}

/// The least limit that a search that fails leaves for the next one.
const LEAST: u32 = 30;

/// How many nodes may be walked for each node of the graph, and besides.
const WALKS: u64 = 64;

const WALKS_BESIDES: u64 = 1 << 23;

/// How many walked nodes take the time of a conflict, roughly.
const WALKS_OF_CONFLICT: u64 = 32;

/// How many conflicts may be spent: at most on one search, on the next one, and on all further ones that fail. What is walked is counted
/// apart, whether the proof succeeds or fails.
#[derive(Drop)]
pub struct Budget {
    pub(crate) each: u32,
    pub(crate) next: u32,
    pub(crate) left: u32,
    pub(crate) searches: bool,
    /// How many attempts by cases failed or were left out one after the other.
    pub(crate) in_vain: u32,
    /// How many attempts over stages failed or were left out one after the other.
    stages: u32,
    /// How many nodes may still be walked.
    pub(crate) walks: u64,
}

impl Budget {
    /// What so much effort leaves before the first search, in a graph of so many nodes: a twentieth of its conflicts for each search, and all of them
    /// for those that fail.
    pub fn new(effort: Effort, nodes: u32) -> Budget {
        let each = effort.conflicts / 20;
        Budget {
            each,
            next: each,
            left: effort.conflicts,
            searches: effort.searches,
            in_vain: 0,
            stages: 0,
            walks: WALKS_BESIDES.saturating_add(WALKS.saturating_mul(u64::from(nodes))),
        }
    }

    /// What is spent on nodes that look constant, in a graph of so many: at most 100 conflicts for each search, and walks over as many nodes as
    /// the graph has, and some.
    pub(crate) fn for_constants(nodes: u32) -> Budget {
        Budget {
            each: 100,
            next: 100,
            left: 20_000,
            searches: true,
            in_vain: 0,
            stages: 0,
            walks: u64::from(nodes).saturating_add(1 << 10),
        }
    }

    /// Whether there may be one more search. Where no conflicts are allowed it is one that needs none.
    pub(crate) fn may_search(&self) -> bool {
        self.searches && (self.each == 0 || self.left > 0 && self.walks > 0)
    }

    /// Notes that so many nodes were walked.
    pub(crate) fn note_walk(&mut self, nodes: u64) {
        self.walks = self.walks.saturating_sub(nodes);
    }

    /// Notes a walk over whole cones of so many nodes, in a graph of so many: where they differ, all of these are looked at too, each shortly.
    pub(crate) fn note_cone(&mut self, cone: usize, nodes: u32) {
        self.note_walk((cone as u64).saturating_add(u64::from(nodes / 64)));
    }

    /// Notes an attempt by cases in a graph of so many nodes, which are walked where it fails. It is quicker than a search over them.
    pub(crate) fn note_split(&mut self, same: bool, nodes: u32) {
        if same {
            self.in_vain = 0;
        } else {
            self.in_vain = self.in_vain.saturating_add(1);
            self.note_walk(u64::from(nodes / 16));
        }
    }

    /// Whether the stage is tried: where that failed 16 times one after the other, one of 16 is.
    pub(crate) fn may_try_stage(&mut self) -> bool {
        let may = self.stages < 16 || self.stages % 16 == 0;
        if !may {
            self.note_stage(false);
        }
        may
    }

    /// Notes an attempt over a stage.
    pub(crate) fn note_stage(&mut self, told: bool) {
        if told {
            self.stages = 0;
        } else {
            self.stages = self.stages.saturating_add(1);
        }
    }

    /// The conflicts for one search.
    pub(crate) fn conflicts(&self) -> u32
        ensures { result ≤ MAX_CONFLICTS }
    {
        self.next.min(self.left).min(MAX_CONFLICTS)
    }

    /// After a failure the next search has half as many conflicts, after a success that was dear twice as many.
    pub(crate) fn note(&mut self, tried: &Tried, conflicts: u32) {
        match tried {
            Tried::Same(cost) => self.note_success(*cost),
            Tried::Limit => {
                self.left = self.left.saturating_sub(conflicts);
                self.next = (self.next / 2).max(LEAST.min(self.each));
                self.note_conflicts(conflicts);
            }
            Tried::Differs(vars, _) => self.note_walk(table_walks(vars.len())),
            Tried::Open => {}
        }
    }

    /// Notes a proof that succeeded: it leaves as many conflicts as before.
    fn note_success(&mut self, cost: Cost) {
        if cost.conflicts > self.next / 4 {
            self.next = self.next.saturating_mul(2).min(self.each);
        }
        self.note_conflicts(cost.conflicts.saturating_add(cost.table));
    }

    /// Notes that so many conflicts were met, or a table took their time.
    fn note_conflicts(&mut self, conflicts: u32) {
        self.note_walk(WALKS_OF_CONFLICT.saturating_mul(u64::from(conflicts)));
    }
}

/// How many walked nodes take the time of a table of so many variables, roughly, if that may have followed a search.
fn table_walks(vars: usize) -> u64 {
    if MAX_TABLE_VARIABLES < vars && vars <= WIDE {
        1 << (vars as u32 - 10)
    } else {
        0
    }
}
