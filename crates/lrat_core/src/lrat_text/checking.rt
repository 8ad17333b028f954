//! Checks an LRAT text.

ghost use Rattle.std.specs.Prelude.{◌≡◌, ◌≤◌, ◌^◌, length, OnOk, MatchResult};
ghost use Rattle.proof_check.specs.Clauses.{Unsatisfiable};
ghost use Rattle.lrat_core.specs.States.{state_of};
ghost use Rattle.lrat_core.specs.lrat_text.Spellings.{spelling_of};
ghost use Rattle.lrat_core.specs.lrat_text.Verdicts.{IsChecked};
ghost use Rattle.lrat_core.specs.lrat_text.Parts.{IsStep, IsFault, error_at};

use crate::dimacs_text::Formula;
use crate::lrat_text::line::{Buffers, Form};
use crate::{Checker, LineError};
use sec_base::MAX_FILE_BYTES;
use std::alloc::Global;
use text_numbers::{NumberedLines, TextError, TextKind};

/// An accepted text.
#[derive(Clone, Copy)]
pub struct Verified {
    /// The number of the line that adds the empty clause.
    pub lines: u32,
}

/// Takes a line; true where it adds the empty clause.
fn take_line(
    checker: &mut Checker,
    buffers: &mut Buffers,
    limit: u32,
    line: &[u8],
) -> Result<bool, LineError>
    requires { limit ≤ 2 ^ 30 }
    ensures { MatchResult result (λ ends. IsStep (spelling_of limit line.now) (state_of checker.old) (state_of checker.new) ends) (IsFault (spelling_of limit line.now) (state_of checker.old)) }
{
    match buffers.read_line(limit, line)? {
        Form::Nothing => Ok(false),
        Form::Malformed => Err(LineError::Fault(TextKind::BadLine)),
        Form::Addition(id) => {
            let literals = buffers.literals.as_slice();
            match checker.add(id, literals, buffers.hints.as_slice()) {
                Ok(()) => Ok(literals.len() == 0),
                Err(error) => Err(error),
            }
        }
        Form::Deletion => match checker.delete(buffers.ids.as_slice()) {
            Ok(()) => Ok(false),
            Err(error) => Err(error),
        },
    }
}

/// The error of the numbered line.
fn at_line(line: u32, error: LineError) -> TextError
    ensures { result ≡ error_at line error }
{
    match error {
        LineError::Fault(kind) => TextError::At { line, kind },
        LineError::NoMemory => TextError::NoMemory,
    }
}

/// Checks an LRAT text against the clauses of the formula, up to the first line that adds the empty clause; what follows isn't read.
/// Ok is the number of this line, where it and all lines before it are accepted; then no assignment meets all clauses. An error
/// names the first faulty line with what is first wrong with it: `BadLine`, `BadId`, `NegativeHint`, `BadHint`, `NotUnit`,
/// `NoConflict`; or it is `NoEmpty` with line 0.
pub fn check_lrat(alloc: Global, formula: &Formula, text: &[u8]) -> Result<Verified, TextError>
    requires { length text.now ≤ MAX_FILE_BYTES }
    ensures verdict { IsChecked formula.now text.now result }
    ensures unsatisfiable { OnOk result (Unsatisfiable formula.now.clauses) }
{
    let mut checker = Checker::new(alloc, formula.clauses())?;
    let mut buffers = Buffers::new(alloc);
    let mut lines = NumberedLines::new(text);
    while let Some(line) = lines.next_line() {
        match take_line(&mut checker, &mut buffers, formula.variables(), line) {
            Ok(ends) => {
                if ends {
                    return Ok(Verified {
                        lines: lines.number,
                    });
                }
            }
            Err(error) => return Err(at_line(lines.number, error)),
        }
    }
    Err(TextError::At {
        line: 0,
        kind: TextKind::NoEmpty,
    })
}
