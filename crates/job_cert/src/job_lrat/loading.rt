//! Clauses and refutations out of files.

ghost use Rattle.std.specs.Prelude.{◌≡◌, ◌≤◌, ◌^◌, ℕ, List, length, Some, IfOk, IfErr, IfSome, OnOk, IsErrOf};
ghost use Rattle.proof_check.specs.Clauses.{Unsatisfiable};
ghost use Rattle.base_shelves.specs.Outside.{Rose, SameHeld, NoneFell};
ghost use Rattle.job_cert.specs.job_lrat.Texts.{Spells, Refutes, ClausesFail, ProofFails};

use base_shelves::{FetchError, Shelf, fetch};
use lrat_core::lrat_text::{Formula, TextError, Verified, check_lrat, read_dimacs};
use sec_base::MAX_FILE_BYTES;
use std::alloc::Global;

/// Why a text isn't loaded.
#[derive(Drop)]
pub enum TextLoadError {
    Fetch(FetchError),
    Read(TextError),
}

/// Fetches the file at the path and reads it as clauses. A refusal of one step ends the work.
pub fn load_clauses<S: Shelf>(
    alloc: Global,
    shelf: &mut S,
    path: &str,
) -> Result<Formula, TextLoadError>
    ensures ok { IfOk result (λ formula. IfSome (S.held shelf.old path.now) (λ text. Spells text formula)) }
    ensures err { IfErr result (ClausesFail (S.held shelf.old path.now) (Rose (S.faults shelf.old path.now) (S.faults shelf.new path.now))) }
    ensures keeps { SameHeld (S.held shelf.old) (S.held shelf.new) }
    ensures later { NoneFell (S.faults shelf.old) (S.faults shelf.new) }
    ensures served { S.serves shelf.old path.now → IsErrOf result (TextLoadError.Fetch FetchError.Failed) → ⊥ }
    ensures serving { (other : List ℕ) → S.serves shelf.old other → S.serves shelf.new other }
{
    let text = match fetch(alloc, shelf, path, MAX_FILE_BYTES) {
        Ok(text) => text,
        Err(error) => return Err(TextLoadError::Fetch(error)),
    };
    clauses_of(alloc, text.as_slice())
}

/// Reads a text as clauses.
fn clauses_of(alloc: Global, text: &[u8]) -> Result<Formula, TextLoadError>
    requires { length text.now ≤ MAX_FILE_BYTES }
    ensures ok { IfOk result (λ formula. Spells text.now formula) }
    ensures err { IfErr result (ClausesFail (Some text.now) ⊥) }
{
    match read_dimacs(alloc, text) {
        Ok(formula) => Ok(formula),
        Err(error) => Err(TextLoadError::Read(error)),
    }
}

/// Fetches the file at the path and checks it as a refutation of the clauses.
pub(crate) fn check_file<S: Shelf>(
    alloc: Global,
    formula: &Formula,
    shelf: &mut S,
    path: &str,
) -> Result<Verified, TextLoadError>
    ensures ok { IfOk result (λ verified. IfSome (S.held shelf.old path.now) (λ text. Refutes formula.now text verified.lines)) }
    ensures refuted { OnOk result (Unsatisfiable formula.now.clauses) }
    ensures err { IfErr result (ProofFails formula.now (S.held shelf.old path.now) (Rose (S.faults shelf.old path.now) (S.faults shelf.new path.now))) }
    ensures keeps { SameHeld (S.held shelf.old) (S.held shelf.new) }
    ensures later { NoneFell (S.faults shelf.old) (S.faults shelf.new) }
    ensures served { S.serves shelf.old path.now → IsErrOf result (TextLoadError.Fetch FetchError.Failed) → ⊥ }
    ensures serving { (other : List ℕ) → S.serves shelf.old other → S.serves shelf.new other }
{
    let text = match fetch(alloc, shelf, path, MAX_FILE_BYTES) {
        Ok(text) => text,
        Err(error) => return Err(TextLoadError::Fetch(error)),
    };
    check_text(alloc, formula, text.as_slice())
}

/// Checks a text as a refutation of the clauses.
fn check_text(alloc: Global, formula: &Formula, text: &[u8]) -> Result<Verified, TextLoadError>
    requires { length text.now ≤ MAX_FILE_BYTES }
    ensures ok { IfOk result (λ verified. Refutes formula.now text.now verified.lines) }
    ensures refuted { OnOk result (Unsatisfiable formula.now.clauses) }
    ensures err { IfErr result (ProofFails formula.now (Some text.now) ⊥) }
{
    match check_lrat(alloc, formula, text) {
        Ok(verified) => Ok(verified),
        Err(error) => Err(TextLoadError::Read(error)),
    }
}
