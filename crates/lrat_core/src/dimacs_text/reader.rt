//! Clauses out of DIMACS texts.

ghost use Rattle.std.specs.Prelude.{◌≤◌, ◌^◌, length, IfOk};
ghost use Rattle.text_numbers.specs.Answers.{IsGiven};
ghost use Rattle.lrat_core.specs.dimacs_text.Dimacs.{formula_of};

use crate::dimacs_text::body::Body;
use crate::dimacs_text::formula::Formula;
use crate::dimacs_text::header::read_header;
use sec_base::MAX_FILE_BYTES;
use std::alloc::Global;
use text_numbers::{NumberedLines, TextError};

/// Reads clauses: a header `p cnf V C`, and then C clauses of literals of the variables 1 to V, each ended by a 0, over lines as
/// they like. Lines without tokens and those that begin with `c` are passed over. An error names the first faulty line with its
/// kind: `BadHeader`, `BadNumber`, `BadCount`. V and C are at most 2^30.
pub fn read_dimacs(alloc: Global, text: &[u8]) -> Result<Formula, TextError>
    requires { length text.now ≤ MAX_FILE_BYTES }
    ensures formula { IsGiven (formula_of text.now) result }
    ensures small { IfOk result (λ formula. formula.variables ≤ 2 ^ 30) }
{
    let mut lines = NumberedLines::new(text);
    let header = match read_header(&mut lines) {
        Ok(header) => header,
        Err(error) => return Err(error),
    };
    let mut body = Body::new(alloc, header);
    while let Some(line) = lines.next_line() {
        match body.take_line(line, lines.number) {
            Ok(()) => {}
            Err(error) => return Err(error),
        }
    }
    body.finish(alloc)
}
