//! What a written text spells. Each law is the contract of a function that does nothing.

ghost use Rattle.lrat_core.specs.dimacs_text.dimacs_writer.Laws.{WrittenIsSpelled, UnitsAreWritable};

/// The text of clauses spells exactly these clauses.
pub fn written_is_spelled()
    ensures { WrittenIsSpelled }
{}

/// Clauses that meet the premises of `written_is_spelled`, one of each sign.
pub fn written_meets_premises()
    ensures { UnitsAreWritable }
{}
