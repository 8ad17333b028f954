//! Queries of more than 16 variables: clauses, a search, and a checked refutation.

ghost use Rattle.std.specs.Prelude.{◌≤◌, ◌<◌, ◌+◌, ◌^◌, length, IfOk, OnOk};
ghost use Rattle.pair_decide.specs.cnf_encode.proof_check.Clauses.{Unsatisfiable};
ghost use Rattle.pair_decide.specs.cnf_encode.proof_check.Chains.{IsRefutation};
ghost use Rattle.pair_decide.specs.Queries.{IsQuery};
ghost use Rattle.pair_decide.specs.Answers.{Decides, IsWide};

use crate::bits::bits_of_vars;
use crate::cnf_encode::{Clauses, Log, MAX_CONFLICTS, NoMemory, ProofError, check_log, encode};
use crate::query::{Decision, Proof, Query, SameBy};
use aig::lane_eval::Aig;
use sat_search::{Found, search};
use std::alloc::Global;

/// Decides a query of more than 16 variables whose sides are different literals.
pub(crate) fn decide_by_search(
    alloc: Global,
    aig: &Aig,
    query: &Query,
    conflicts: u32,
) -> Result<Decision, NoMemory>
    requires query { IsQuery aig.now query.now }
    requires wide { IsWide query.now }
    requires conflicts { conflicts ≤ MAX_CONFLICTS }
    ensures { IfOk result (Decides aig.now query.now conflicts) }
{
    aig.keeps();
    let cnf = encode(alloc, aig, query.left, query.right, query.care)?;
    match search(alloc, &cnf.clauses, cnf.variables, conflicts)? {
        Found::Model(values) => {
            let nodes = cnf.nodes.as_slice();
            let vars = query.vars.as_slice();
            let bits = bits_of_vars(alloc, aig, nodes, values.as_slice(), vars)?;
            Ok(Decision::Differs(bits))
        }
        Found::Refuted(log) => {
            check(alloc, &cnf.clauses, &log)?;
            Ok(Decision::Same(SameBy::Refuted(Proof { cnf, log })))
        }
        Found::Limit(log) => Ok(Decision::Limit(Proof { cnf, log })),
    }
}

/// Checks the refutation.
fn check(alloc: Global, clauses: &Clauses, log: &Log) -> Result<(), NoMemory>
    requires numbers { length clauses.now + length log.now < 2 ^ 32 }
    requires refutation { IsRefutation clauses.now log.now }
    ensures refutes { OnOk result (IsRefutation clauses.now log.now) }
    ensures unsatisfiable { OnOk result (Unsatisfiable clauses.now) }
{
    match check_log(alloc, clauses, log) {
        Ok(_) => Ok(()),
        Err(ProofError::NoMemory) => Err(NoMemory),
        Err(ProofError::Chain { .. }) => unreachable!(),
    }
}
