//! The queries of cares are decided.

ghost use Rattle.std.specs.Prelude.{◌≡◌, ◌≤◌, All, IfOk};
ghost use Rattle.std.specs.List.{AllZip};
ghost use Rattle.aig.specs.Graph.{IsGraph};
ghost use Rattle.obligations.specs.outcome.Queries.{IsQuery};
ghost use Rattle.event_settles.specs.Deciding.{HasOneQuery, IsCareDecided, CareDecides, care_query};

use crate::cares::{Care, PairCare, PairCares};
use aig::{Aig, Lit};
use obligations::outcome::{Decision, Query};
use obligations::{Obligation, copy_name};
use pair_decide::decide;
use sec_base::{MAX_CONFLICTS, NoMemory};
use std::alloc::Global;

/// Whether some assignment meets the care of each one's query, decided in order, each with at most so many conflicts.
pub(crate) fn decide_cares(
    alloc: Global,
    aig: &Aig,
    asked: &[Obligation],
    conflicts: u32,
) -> Result<PairCares, NoMemory>
    requires ones { All (HasOneQuery aig.now) asked.now }
    requires conflicts { conflicts ≤ MAX_CONFLICTS }
    ensures { IfOk result (λ cares. AllZip (IsCareDecided aig.now conflicts) asked.now cares) }
{
    let mut cares = PairCares::new(alloc);
    for i in 0..asked.len() {
        cares.push(decide_care(alloc, aig, &asked[i], conflicts)?)?;
    }
    Ok(cares)
}

/// Whether some assignment meets the care of its one query.
fn decide_care(
    alloc: Global,
    aig: &Aig,
    obligation: &Obligation,
    conflicts: u32,
) -> Result<PairCare, NoMemory>
    requires one { HasOneQuery aig.now obligation.now }
    requires conflicts { conflicts ≤ MAX_CONFLICTS }
    ensures { IfOk result (IsCareDecided aig.now conflicts obligation.now) }
{
    aig.keeps();
    let name = copy_name(&obligation.name)?;
    let care = care_met(alloc, aig, &obligation.queries.as_slice()[0], conflicts)?;
    Ok(PairCare { name, care })
}

/// Whether some assignment meets the query's care.
pub(crate) fn care_met(
    alloc: Global,
    aig: &Aig,
    query: &Query,
    conflicts: u32,
) -> Result<Care, NoMemory>
    requires graph { IsGraph aig.now }
    requires query { IsQuery aig.now query.now }
    requires conflicts { conflicts ≤ MAX_CONFLICTS }
    ensures { IfOk result (CareDecides aig.now query.now conflicts) }
{
    let asked = care_query(query)?;
    match decide(alloc, aig, &asked, conflicts)? {
        Decision::Same(_) => Ok(Care::Never(None)),
        Decision::Differs(_) => Ok(Care::Met),
        Decision::Limit(proof) => Ok(Care::Limit(proof)),
    }
}

/// Whether the care and 0 agree always. The variables are those of the query.
fn care_query(query: &Query) -> Result<Query, NoMemory>
    ensures { IfOk result (λ q. q ≡ care_query query.now) }
{
    Ok(Query {
        left: query.care,
        right: Lit::FALSE,
        care: Lit::TRUE,
        vars: query.vars.copy()?,
    })
}
