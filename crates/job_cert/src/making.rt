//! A certificate of two nets.

ghost use Rattle.std.specs.Prelude.{◌≤◌, ◌^◌, length, IfOk};
ghost use Rattle.flat_net.specs.Comparable.{IsComparable};
ghost use Rattle.pair_decide.specs.cnf_encode.Encoding.{IsSmall};
ghost use Rattle.job_cert.specs.Made.{Made, wanted_of, IsSearched};

use crate::pair_clauses::{CertError, Cnf, pair_clauses};
use flat_net::Net;
use job_base::{Finding, Unrefuted};
use lrat_core::certificate_writer::{write_dimacs, write_lrat};
use pair_decide::Proof;
use sat_search::{Found, search};
use sec_base::{MAX_CONFLICTS, NoMemory};
use std::alloc::Global;

/// Which outputs a certificate is of, and what it is.
#[derive(Clone, Copy)]
pub struct Wanted<'a> {
    /// The name of the outputs.
    pub pair: &'a [u8],
    /// Whether their clauses are to be refuted, and not written themselves.
    pub refuted: bool,
    /// The greatest number of conflicts of the search, 0 to 200,000.
    pub conflicts: u32,
}

/// The certificate: the text of the clauses of the pair; or the text of their refutation, or what is found in place of one.
pub(crate) fn make(
    alloc: Global,
    a: &Net,
    b: &Net,
    wanted: &Wanted<'_>,
) -> Result<Finding, CertError>
    requires left { IsComparable a.now }
    requires right { IsComparable b.now }
    requires conflicts { wanted.now.conflicts ≤ MAX_CONFLICTS }
    ensures { Made a.now b.now (wanted_of wanted.now) result }
{
    let cnf = pair_clauses(alloc, a, b, wanted.pair)?;
    if wanted.refuted {
        let finding = refute(alloc, cnf, wanted.conflicts)?;
        return Ok(finding);
    }
    let text = write_dimacs(alloc, &cnf)?;
    Ok(Finding::Done(text))
}

/// Searches the clauses with at most so many conflicts.
fn refute(alloc: Global, cnf: Cnf, conflicts: u32) -> Result<Finding, NoMemory>
    requires small { IsSmall cnf }
    requires few { length cnf.clauses ≤ 2 ^ 30 }
    requires conflicts { conflicts ≤ MAX_CONFLICTS }
    ensures { IfOk result (IsSearched conflicts cnf) }
{
    let found = search(alloc, &cnf.clauses, cnf.variables, conflicts)?;
    match found {
        Found::Model(_) => Ok(Finding::Unrefuted(Unrefuted::Satisfiable)),
        Found::Refuted(log) => {
            let text = write_lrat(alloc, &cnf, &log)?;
            Ok(Finding::Done(text))
        }
        Found::Limit(log) => {
            let proof = Proof { cnf, log };
            Ok(Finding::Unrefuted(Unrefuted::Limit(conflicts, proof)))
        }
    }
}
