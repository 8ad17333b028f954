//! The clauses that a chain may name.

ghost use Rattle.std.specs.Prelude.{◌≡◌, [], slice_index_or};
ghost use Rattle.lrat_core.specs.certificate_writer.Hinting.{all_known};

use proof_check::{Clause, Clauses, Literal};

/// Given clauses, and those that were derived from them. Their numbers count through both, from 0.
#[derive(Drop)]
pub(crate) struct Known<'a> {
    pub(crate) given: &'a Clauses,
    pub(crate) derived: &'a [Clause],
}

impl Known<'_> {
    /// The literals of the clause of this number, none where no clause has it.
    pub(crate) fn clause(&self, number: u32) -> &[Literal]
        ensures { result.now ≡ slice_index_or (all_known self.now) number [] }
    {
        let number = number as usize;
        if number < self.given.len() {
            return self.given.as_slice()[number].as_slice();
        }
        let later = number - self.given.len();
        if later < self.derived.len() {
            return self.derived[later].as_slice();
        }
        &[]
    }
}
