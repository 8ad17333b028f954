//! What a net is made by.

ghost use Rattle.std.specs.Prelude.{◌≡◌, ◌+◌, ◌*◌, ◌<◌};
ghost use Rattle.aiger_read.specs.aiger_file.aiger_graph.Literals.{reads_in};
ghost use Rattle.aiger_read.specs.Signals.{is_gate};
ghost use Rattle.aiger_read.specs.Made.{IsPlan};

use crate::aiger_file::AigerFile;
use sec_base::Ids;

/// A file without a fault, what its literals read, and an order in which each stands behind those that it reads.
#[derive(Clone, Copy)]
pub(crate) struct Plan<'a> {
    pub(crate) file: &'a AigerFile,
    pub(crate) graph: &'a [Ids],
    pub(crate) order: &'a [u32],
}

impl Plan<'_> {
    /// What the literal reads.
    pub(crate) fn reads_of(&self, literal: u32) -> &[u32]
        requires plan { IsPlan self.now.file.now self.now.graph.now self.now.order.now }
        requires low { literal < 2 * self.now.file.now.header.greatest + 2 }
        ensures { result.now ≡ reads_in self.now.file.now.records literal }
    {
        self.graph[literal as usize].as_slice()
    }

    /// Whether a gate drives the literal.
    pub(crate) fn has_gate(&self, literal: u32) -> bool
        requires plan { IsPlan self.now.file.now self.now.graph.now self.now.order.now }
        requires low { literal < 2 * self.now.file.now.header.greatest + 2 }
        ensures { result ≡ is_gate self.now.file.now.records literal }
    {
        literal < 2 || !self.reads_of(literal).is_empty()
    }
}
