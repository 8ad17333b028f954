//! What tells an enable apart.

ghost use Rattle.std.specs.Prelude.{◌≢◌, IfErr, IfOk};
ghost use Rattle.pair_decide.specs.declared.query.Decision.TheVariants as answer;
ghost use Rattle.pair_decide.specs.declared.query.SameBy.{SameBy};
ghost use Rattle.class_search.specs.Told.{IsToldBy};
ghost use Rattle.class_search.specs.Search.{IsLimitOf};

use crate::compare::Compared;
use crate::fitting::Unlike;
use crate::search::Unfit;
use event_nodes::event_variables::{Bits, Ids};
use pair_decide::Decision;

/// An assignment that shows a difference.
#[derive(Drop)]
pub struct Difference {
    /// The variables of the query, in their order.
    pub vars: Ids,
    /// A bit for each.
    pub bits: Bits,
}

/// A member of a class from which an enable differs.
pub struct Told {
    /// Its place among the members.
    pub member: usize,
    pub difference: Difference,
}

/// It is let go by one call: an owner isn't taken apart field by field at each way out.
impl Drop for Told {
    fn drop(self) {
        let Told {
            member: _,
            difference: _,
        } = self;
    }
}

/// What tells the enable from a class, by the first member that isn't known to agree; or that its query met the limit.
pub(crate) fn told_by(place: usize, unlike: Unlike) -> Result<Told, Unfit>
    requires { (by : SameBy) → unlike.compared.decision ≢ answer.Same by }
    ensures told { IfOk result (IsToldBy unlike) }
    ensures limit { IfErr result (IsLimitOf place unlike) }
{
    let Unlike { member, compared } = unlike;
    let Compared { vars, decision } = compared;
    match decision {
        Decision::Differs(bits) => Ok(Told {
            member,
            difference: Difference { vars, bits },
        }),
        Decision::Limit(proof) => Err(Unfit::Member(place, member, proof)),
        Decision::Same(_) => unreachable!(),
    }
}
