//! How a run ends.

ghost use Rattle.std.specs.Prelude.{◌≡◌, []};
ghost use Rattle.job_base.specs.Status.{code_of};

use obligations::outcome::Proof;
use sec_base::Seq;
use std::alloc::Global;

/// The proofs of queries that met the limit of conflicts, in the order in which the queries were decided.
pub type Proofs = Seq<Proof>;

/// The name of the way in which a run ends.
#[derive(Clone, Copy)]
pub enum StatusName {
    /// The circuits agree.
    Equal,
    /// A printed sequence makes an output differ.
    Different,
    /// Latches were cut open, and a printed sequence makes a pair of the cut circuits differ.
    NotShown,
    /// A query wasn't decided within the number of conflicts.
    Limit,
    /// A text, an interface, a size, a stimulus, a power word, an assumption or the name of a pair is refused.
    Refused,
    /// The words are no job.
    Words,
    /// A read failed; nothing is written.
    ReadFault,
    /// The write failed; a front of the report is written.
    WriteFault,
    /// Memory was wanted and couldn't be had; nothing is written.
    NoMemory,
    /// A latch graph has a cycle, or one that no latch breaks that both circuits name where latches may be cut open.
    Cyclic,
    /// The report of one circuit, or of a refutation that is accepted, is written.
    Done,
}

/// How a run ended.
pub struct Status {
    pub name: StatusName,
    /// One proof for each query that met the limit; with `WriteFault` those of the finished report.
    pub proofs: Proofs,
}

/// It is let go by one call: an owner isn't taken apart field by field at each way out.
impl Drop for Status {
    fn drop(self) {
        let Status { name: _, proofs: _ } = self;
    }
}

impl Status {
    /// The status of this name, without proofs.
    pub fn bare(alloc: Global, name: StatusName) -> Status
        ensures name { result.name ≡ name }
        ensures proofs { result.proofs ≡ [] }
    {
        Status {
            name,
            proofs: Proofs::new(alloc),
        }
    }

    /// The exit status of the program.
    pub fn code(&self) -> u8
        ensures { result ≡ code_of self.now.name }
    {
        match self.name {
            StatusName::Equal => 0,
            StatusName::Different => 1,
            StatusName::NotShown => 2,
            StatusName::Limit => 3,
            StatusName::Refused => 4,
            StatusName::Words => 5,
            StatusName::ReadFault => 6,
            StatusName::WriteFault => 7,
            StatusName::NoMemory => 8,
            StatusName::Cyclic => 9,
            StatusName::Done => 0,
        }
    }
}
