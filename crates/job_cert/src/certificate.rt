//! Certificates of two files.

ghost use Rattle.std.specs.Prelude.{◌≡◌, ◌≤◌, ◌∷◌, [], ℕ, List, IsErrOf};
ghost use Rattle.base_shelves.specs.Outside.{Rose, SameHeld, NoneFell};
ghost use Rattle.flat_net.specs.Comparable.{IsComparable};
ghost use Rattle.job_cert.specs.Made.{wanted_of};
ghost use Rattle.job_cert.specs.Ends.{compare_end, cert_end, CertFound, EndsBeside};

use crate::making::{Wanted, make};
use crate::pair_clauses::{CertError, CompareError};
use base_shelves::Shelf;
use flat_net::Net;
use job_base::sec_files::job_files::load_end;
use job_base::sec_files::load;
use job_base::{File, Finding, Refusal, Stop};
use sec_base::MAX_CONFLICTS;
use std::alloc::Global;

/// The paths of two circuits, and what certificate is wanted of them.
#[derive(Clone, Copy)]
pub struct Certification<'a> {
    pub left: &'a str,
    pub right: &'a str,
    pub wanted: Wanted<'a>,
}

/// Loads both circuits, A first, and makes the certificate.
pub fn certify<S: Shelf>(
    alloc: Global,
    certification: &Certification<'_>,
    shelf: &mut S,
) -> Result<Finding, Stop>
    requires { certification.now.wanted.conflicts ≤ MAX_CONFLICTS }
    ensures found { CertFound (S.held shelf.old) (S.faults shelf.old) (S.faults shelf.new) (wanted_of certification.now.wanted) certification.now.left.now certification.now.right.now result }
    ensures keeps { SameHeld (S.held shelf.old) (S.held shelf.new) }
    ensures later { NoneFell (S.faults shelf.old) (S.faults shelf.new) }
    ensures served { S.serves shelf.old certification.now.left.now → S.serves shelf.old certification.now.right.now → IsErrOf result Stop.ReadFault → ⊥ }
    ensures serving { (other : List ℕ) → S.serves shelf.old other → S.serves shelf.new other }
{
    match load(alloc, shelf, certification.left) {
        Ok(a) => certify_with(alloc, &a, certification, shelf),
        Err(error) => load_end(File::A, error),
    }
}

/// Loads B and makes the certificate of A and it.
fn certify_with<S: Shelf>(
    alloc: Global,
    a: &Net,
    certification: &Certification<'_>,
    shelf: &mut S,
) -> Result<Finding, Stop>
    requires conflicts { certification.now.wanted.conflicts ≤ MAX_CONFLICTS }
    requires left { IsComparable a.now }
    ensures found { let path = certification.now.right.now in
        EndsBeside (S.held shelf.old path) (Rose (S.faults shelf.old path) (S.faults shelf.new path)) a.now (wanted_of certification.now.wanted) result }
    ensures keeps { SameHeld (S.held shelf.old) (S.held shelf.new) }
    ensures later { NoneFell (S.faults shelf.old) (S.faults shelf.new) }
    ensures served { S.serves shelf.old certification.now.right.now → IsErrOf result Stop.ReadFault → ⊥ }
    ensures serving { (other : List ℕ) → S.serves shelf.old other → S.serves shelf.new other }
{
    match load(alloc, shelf, certification.right) {
        Ok(b) => {
            let made = make(alloc, a, &b, &certification.wanted);
            cert_end(made)
        }
        Err(error) => load_end(File::B, error),
    }
}

/// What is found by a certificate, or by its refusal.
fn cert_end(made: Result<Finding, CertError>) -> Result<Finding, Stop>
    ensures { result ≡ cert_end made }
{
    match made {
        Ok(finding) => Ok(finding),
        Err(CertError::Compare(error)) => compare_end(error),
        Err(CertError::Pair(name)) => Ok(Finding::Refused(Refusal::Pair(name))),
    }
}

/// What is found where the circuits aren't compared.
fn compare_end(error: CompareError) -> Result<Finding, Stop>
    ensures { result ≡ compare_end error }
{
    match error {
        CompareError::Interface(name) => Ok(Finding::Refused(Refusal::Interface(name))),
        CompareError::Cyclic(side, names) => Ok(Finding::Cyclic(side, names)),
        CompareError::Unpaired(side, names) => Ok(Finding::Unpaired(side, names)),
        CompareError::TooLarge(side) => Ok(Finding::Refused(Refusal::TooLarge(side))),
        CompareError::TooManyEvents => Ok(Finding::Refused(Refusal::TooManyEvents)),
        CompareError::Assume(fault) => Ok(Finding::Refused(Refusal::Assume(fault))),
        CompareError::Vacuous(_) => Ok(Finding::Refused(Refusal::Vacuous)),
        CompareError::NoMemory => Err(Stop::NoMemory),
    }
}
