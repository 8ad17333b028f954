//! The assumption's query: is its output 0 for each row of inputs?

ghost use Rattle.std.specs.Prelude.{◌≡◌, ◌≤◌, IfOk};
ghost use Rattle.base_tables.specs.Table.{AreDistinct};
ghost use Rattle.aig.specs.Graph.{IsGraph};
ghost use Rattle.pair_decide.specs.Answers.{IsDifference};
ghost use Rattle.assume_queries.specs.assume_sequences.assume_taken.Meeting.{CanMeet, IsMeeting, IsRowOf, meeting_query};

use crate::assume_sequences::{OwnFunction, rows_of};
use aig::Lit;
use pair_decide::{Decision, Proof, Query, SameBy, decide};
use sec_base::{Bits, MAX_CONFLICTS, NoMemory};
use std::alloc::Global;

/// What is found of the rows that meet an assumption.
#[derive(Drop)]
pub enum Meeting {
    /// None does.
    Never(SameBy),
    /// This one does, with a bit for each of so many inputs. All that the assumption doesn't read are 0.
    Row(Bits),
    /// The limit of conflicts was met.
    Limit(Proof),
}

/// Looks for a row of so many inputs that meets an assumption with this function: with at most so many conflicts, and for at most 16
/// variables the row of the least assignment.
pub fn meeting_row(
    alloc: Global,
    own: &OwnFunction,
    count: usize,
    conflicts: u32,
) -> Result<Meeting, NoMemory>
    requires own { CanMeet own.now count }
    requires conflicts { conflicts ≤ MAX_CONFLICTS }
    ensures { IfOk result (IsMeeting own.now count conflicts) }
{
    own.aig.keeps();
    own.places.keeps();
    let query = query_of(own)?;
    let decision = decide(alloc, &own.aig, &query, conflicts)?;
    match decision {
        Decision::Same(by) => Ok(Meeting::Never(by)),
        Decision::Differs(bits) => {
            let row = row_of(alloc, own, &bits, count)?;
            Ok(Meeting::Row(row))
        }
        Decision::Limit(proof) => Ok(Meeting::Limit(proof)),
    }
}

/// Whether the function and 0 agree always.
fn query_of(own: &OwnFunction) -> Result<Query, NoMemory>
    ensures { IfOk result (λ q. q ≡ meeting_query own.now) }
{
    Ok(Query {
        left: own.function.lit,
        right: Lit::FALSE,
        care: Lit::TRUE,
        vars: own.function.vars.copy()?,
    })
}

/// The row of a difference of that query.
fn row_of(alloc: Global, own: &OwnFunction, bits: &Bits, count: usize) -> Result<Bits, NoMemory>
    requires own { CanMeet own.now count }
    requires graph { IsGraph own.now.aig }
    requires distinct { AreDistinct own.now.places }
    requires bits { IsDifference own.now.aig (meeting_query own.now) bits.now }
    ensures { IfOk result (IsRowOf own.now bits.now count) }
{
    let vars = own.function.vars.as_slice();
    let rows = rows_of(alloc, &own.places, vars, bits.as_slice(), 0, count)?;
    rows.as_slice()[0].copy()
}
