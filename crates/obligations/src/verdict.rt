//! Which obligation gives the verdict.

ghost use Rattle.std.specs.Prelude.{◌≡◌, List, IfOk};
ghost use Rattle.obligations.specs.declared.outcome.verdict.PairResult.{PairResult};
ghost use Rattle.obligations.specs.Verdict.{IsVerdictAt, IsFirstLimit, greatest_size};

use crate::obligation::Difference;
use crate::outcome::{PairAnswer, PairResult};

/// The verdict, and the obligation that gives it.
#[derive(Drop)]
pub enum VerdictAt {
    /// All agree.
    Equal,
    /// The first difference that shows that the circuits differ.
    Different(Difference),
    /// The first obligation that met the limit of conflicts, by its place.
    Limit(usize),
    /// The first difference, none of which shows that the circuits differ.
    NotShown(Difference),
}

/// The verdict by the first difference of each kind and the results: different before the limit, and that before not shown.
pub fn verdict_at(
    different: Option<Difference>,
    not_shown: Option<Difference>,
    results: &[PairResult],
) -> VerdictAt
    ensures { IsVerdictAt different not_shown results.now result }
{
    if let Some(difference) = different {
        return VerdictAt::Different(difference);
    }
    if let Some(place) = first_limit(results) {
        return VerdictAt::Limit(place);
    }
    match not_shown {
        Some(difference) => VerdictAt::NotShown(difference),
        None => VerdictAt::Equal,
    }
}

/// The place of the first that met its limit.
fn first_limit(results: &[PairResult]) -> Option<usize>
    ensures { IsFirstLimit results.now result }
{
    for i in 0..results.len() {
        if results[i].answer == PairAnswer::Limit {
            return Some(i);
        }
    }
    None
}

/// The greatest of the sizes.
pub fn greatest_size(results: &[PairResult]) -> u32
    ensures { result ≡ greatest_size results.now }
{
    results.iter().fold(0, |size, pair| size.max(pair.size))
}
