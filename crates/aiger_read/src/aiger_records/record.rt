//! Records of the body: inputs, latches, outputs and and-gates.

ghost use Rattle.std.specs.Prelude.{◌≡◌};
ghost use Rattle.aiger_read.specs.aiger_records.Records.{listed};

use sec_base::Seq;

/// What a record is to be.
#[derive(Clone, Copy)]
pub enum Section {
    Input,
    Latch,
    Output,
    Gate,
}

/// A record. A literal is twice its variable, and 1 more where its value is negated.
#[derive(Clone, Copy)]
pub enum Record {
    Input {
        literal: u64,
    },
    /// A latch that takes over `next`. Its reset is 0, 1, or its own literal.
    Latch {
        literal: u64,
        next: u64,
        reset: u64,
    },
    Output {
        literal: u64,
    },
    Gate {
        literal: u64,
        left: u64,
        right: u64,
    },
    /// An and-gate by two differences: that of its literal and its first operand, and that of its operands.
    Packed {
        literal: u64,
        first: u64,
        second: u64,
    },
}

/// Records in the order of the file.
pub type Records = Seq<Record>;

/// The record of these numbers; None where it has another count of them.
pub fn listed(section: Section, numbers: &[u64]) -> Option<Record>
    ensures { result ≡ listed section numbers.now }
{
    match section {
        Section::Input => match numbers {
            [literal] => Some(Record::Input { literal: *literal }),
            _ => None,
        },
        Section::Latch => match numbers {
            [literal, next] => Some(Record::Latch {
                literal: *literal,
                next: *next,
                reset: 0,
            }),
            [literal, next, reset] => Some(Record::Latch {
                literal: *literal,
                next: *next,
                reset: *reset,
            }),
            _ => None,
        },
        Section::Output => match numbers {
            [literal] => Some(Record::Output { literal: *literal }),
            _ => None,
        },
        Section::Gate => match numbers {
            [literal, left, right] => Some(Record::Gate {
                literal: *literal,
                left: *left,
                right: *right,
            }),
            _ => None,
        },
    }
}
