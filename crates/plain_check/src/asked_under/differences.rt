//! The query of a difference, and the sequence that shows it.

ghost use Rattle.std.specs.Prelude.{◌≡◌, length, All};
ghost use Rattle.plain_asked.specs.Sequences.{IsQueryAt};
ghost use Rattle.plain_check.specs.asked_under.Differences.{HasQueryAt, HasRows};

use obligations::outcome::{Stimulus, Witness};
use obligations::{Difference, Obligation};
use pair_decide::Query;
use sec_base::BitRows;

/// The obligation of a difference, and its query.
pub(crate) fn query_at<'a>(
    asked: &'a [Obligation],
    difference: &Difference,
) -> (&'a Obligation, &'a Query)
    requires { HasQueryAt asked.now difference.now }
    ensures { IsQueryAt asked.now difference.now result.0.now result.1.now }
{
    let obligation = &asked[difference.pair];
    let query = &obligation.queries.as_slice()[difference.query];
    (obligation, query)
}

/// The witness with these rows.
pub(crate) fn with_rows(witness: Witness, rows: BitRows) -> Witness
    requires { All (λ row. length row ≡ length witness.stimulus.names) rows }
    ensures { HasRows witness rows result }
{
    let Witness {
        pair,
        cycle,
        left,
        right,
        stimulus,
    } = witness;
    let Stimulus { names, rows: _ } = stimulus;
    Witness {
        pair,
        cycle,
        left,
        right,
        stimulus: Stimulus { names, rows },
    }
}
