//! The clauses of a query as a text.

ghost use Rattle.std.specs.Prelude.{◌≡◌, IfOk};
ghost use Rattle.lrat_core.specs.dimacs_text.dimacs_writer.Laws.{AreWritable};
ghost use Rattle.lrat_core.specs.certificate_writer.Texts.{SpellsClauses};

use crate::dimacs_text::dimacs_writer::{write_clauses, written_is_spelled};
use pair_decide::cnf_encode::Cnf;
use sec_base::{NoMemory, Text};
use std::alloc::Global;

/// The clauses as a text in the DIMACS format, which spells exactly them: the header `p cnf V C`, then a line for each clause with
/// a 0 at its end.
pub fn write_dimacs(alloc: Global, cnf: &Cnf) -> Result<Text, NoMemory>
    requires { AreWritable cnf.now.variables cnf.now.clauses }
    ensures { IfOk result (SpellsClauses cnf.now) }
{
    written_is_spelled();
    write_clauses(alloc, cnf.variables, &cnf.clauses)
}
