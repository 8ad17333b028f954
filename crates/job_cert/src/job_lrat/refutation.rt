//! A refutation is checked.

ghost use Rattle.std.specs.Prelude.{◌≡◌, ℕ, List, IsErrOf, IfOk, IfErr, MatchResult};
ghost use Rattle.base_shelves.specs.Outside.{SameHeld, NoneFell};
ghost use Rattle.job_cert.specs.job_lrat.Ends.{LratFound, text_end, verified_end};
ghost use Rattle.job_cert.specs.job_lrat.Found.{verified_text};

use crate::job_lrat::loading::{TextLoadError, check_file, load_clauses};
use base_shelves::{FetchError, Shelf};
use job_base::{File, Finding, LineFault, Refusal, Stop};
use lrat_core::lrat_text::TextError;
use sec_base::{NoMemory, Seq, Text, put};
use std::alloc::Global;

/// The paths of clauses and of a text that refutes them.
#[derive(Clone, Copy)]
pub struct Refutation<'a> {
    /// A text in the DIMACS format.
    pub clauses: &'a str,
    /// A text in the LRAT format.
    pub proof: &'a str,
}

/// What is found where a text isn't loaded.
fn text_end(file: File, error: TextLoadError) -> Result<Finding, Stop>
    ensures { result ≡ text_end file error }
{
    match error {
        TextLoadError::Fetch(FetchError::Failed) => Err(Stop::ReadFault),
        TextLoadError::Fetch(FetchError::TooLong) => Ok(Finding::Refused(Refusal::TooLong(file))),
        TextLoadError::Fetch(FetchError::NoMemory) => Err(Stop::NoMemory),
        TextLoadError::Read(TextError::At { line, kind }) => {
            let fault = LineFault::Clauses(kind);
            Ok(Finding::Refused(Refusal::Text(file, line, fault)))
        }
        TextLoadError::Read(TextError::NoMemory) => Err(Stop::NoMemory),
    }
}

/// The report that the refutation is accepted.
fn verified_report(alloc: Global) -> Result<Text, NoMemory>
    ensures { IfOk result (λ text. text ≡ verified_text) }
{
    let mut text = Vec::new(alloc);
    put(&mut text, b"verified\n")?;
    Ok(Seq::from_vec(text))
}

/// What is found where the refutation is accepted.
fn verified_end(made: Result<Text, NoMemory>) -> Result<Finding, Stop>
    ensures { result ≡ verified_end made }
{
    match made {
        Ok(text) => Ok(Finding::Done(text)),
        Err(NoMemory) => Err(Stop::NoMemory),
    }
}

/// Loads the clauses, then the text, and checks it against them.
pub fn check_refutation<S: Shelf>(
    alloc: Global,
    refutation: &Refutation<'_>,
    shelf: &mut S,
) -> Result<Finding, Stop>
    ensures found { LratFound (S.held shelf.old) (S.faults shelf.old) (S.faults shelf.new) refutation.now.clauses.now refutation.now.proof.now result }
    ensures keeps { SameHeld (S.held shelf.old) (S.held shelf.new) }
    ensures later { NoneFell (S.faults shelf.old) (S.faults shelf.new) }
    ensures served { S.serves shelf.old refutation.now.clauses.now → S.serves shelf.old refutation.now.proof.now → IsErrOf result Stop.ReadFault → ⊥ }
    ensures serving { (other : List ℕ) → S.serves shelf.old other → S.serves shelf.new other }
{
    let formula = match load_clauses(alloc, shelf, refutation.clauses) {
        Ok(formula) => formula,
        Err(error) => return text_end(File::A, error),
    };
    match check_file(alloc, &formula, shelf, refutation.proof) {
        Ok(_) => verified_end(verified_report(alloc)),
        Err(error) => text_end(File::B, error),
    }
}
