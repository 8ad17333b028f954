//! The cares of pairs, with an assumption on the inputs and without one.

ghost use Rattle.std.specs.Prelude.{◌≡◌, ◌≤◌, ℕ, List, length, All, IfOk};
ghost use Rattle.std.specs.List.{AllZip};
ghost use Rattle.flat_net.specs.View.{NetView};
ghost use Rattle.assume_queries.specs.assume_sequences.Assumed.{CanBeAssumed, IsAssumedBy};
ghost use Rattle.assume_laws.specs.assume_shape.Shape.{assumption_of};
ghost use Rattle.event_form.specs.Asked.{IsPairOf};
ghost use Rattle.event_form.specs.event_agreement.pair_events.View.{IsWithinLimits, side_of_both};
ghost use Rattle.event_form.specs.event_findings.unshown_pairs.class_events.Separated.{AreSeparated};
ghost use Rattle.event_settles.specs.Cares.{CareFits, CareFitsUnder};

use crate::cares::PairCares;
use crate::deciding::decide_cares;
use crate::telling::tell_idle;
use assume_queries::assume_sequences::Premise;
use event_classes::Apart;
use event_form::event_findings::EventPairs;
use event_form::{Events, ask_pairs};
use event_under::event_under_form::questions_of;
use sec_base::{MAX_CONFLICTS, NoMemory};
use std::alloc::Global;

/// Of each pair, in order, whether some frame has care for both its sides, each decided with at most so many conflicts. The pairs are unfolded
/// once more for that; where a number were passed by it, it is want of memory. Where a pair has none, it is looked for a class whose loads can't happen.
pub fn settle_pairs(
    alloc: Global,
    events: &mut Events,
    aparts: &[Apart],
    compared: &EventPairs<'_>,
    conflicts: u32,
) -> Result<PairCares, NoMemory>
    requires separated { AreSeparated events.old aparts.now }
    requires pairs { All (IsPairOf events.old) compared.now.pairs.now }
    requires within { IsWithinLimits events.old }
    requires conflicts { conflicts ≤ MAX_CONFLICTS }
    ensures { IfOk result (λ cares. AllZip (CareFits (side_of_both events.old) conflicts) compared.now.pairs.now cares) }
{
    events.keeps();
    let Ok(asked) = ask_pairs(alloc, events, compared.pairs, compared.cut) else {
        return Err(NoMemory);
    };
    events.keeps();
    let cares = decide_cares(alloc, events.aig(), asked.as_slice(), conflicts)?;
    tell_idle(alloc, events, aparts, cares, conflicts)
}

/// The same of frames that meet the assumption of this premise, too, at each event node that has a variable of the pair. What is told of classes is said
/// without it.
pub fn settle_pairs_under(
    alloc: Global,
    events: &mut Events,
    aparts: &[Apart],
    compared: &EventPairs<'_>,
    premise: &Premise,
    conflicts: u32,
) -> Result<PairCares, NoMemory>
    requires separated { AreSeparated events.old aparts.now }
    requires pairs { All (IsPairOf events.old) compared.now.pairs.now }
    requires within { IsWithinLimits events.old }
    requires premise { CanBeAssumed premise.now (length compared.now.names.now) }
    requires conflicts { conflicts ≤ MAX_CONFLICTS }
    ensures { IfOk result (λ cares. (n : NetView) (inputs : List ℕ) (output size : ℕ) → IsAssumedBy premise.now (length compared.now.names.now) n inputs output size →
        AllZip (CareFitsUnder (assumption_of n inputs output) (side_of_both events.old) conflicts) compared.now.pairs.now cares) }
{
    events.keeps();
    let Ok(asked) = ask_pairs(alloc, events, compared.pairs, compared.cut) else {
        return Err(NoMemory);
    };
    events.keeps();
    let Ok(questions) = questions_of(alloc, events, compared, premise, asked.as_slice()) else {
        return Err(NoMemory);
    };
    questions.aig.keeps();
    let under = questions.asked.as_slice();
    let cares = decide_cares(alloc, &questions.aig, under, conflicts)?;
    tell_idle(alloc, events, aparts, cares, conflicts)
}
