//! What a hint does.

ghost use Rattle.std.specs.Prelude.{◌≡◌, IsTrue, ◌↔◌};
ghost use Rattle.lrat_core.specs.States.{live_of};
ghost use Rattle.lrat_core.specs.Answers.{IsOutside, HintDoes};

use crate::falsified::Falsified;
use crate::hints::Hint;
use crate::live::LiveClauses;
use proof_check::Literal;
use text_numbers::TextKind;

/// The literals of a clause that aren't false.
#[derive(Clone, Copy)]
pub(crate) enum Outside {
    Nothing,
    One(Literal),
    More,
}

/// What a hint does.
#[derive(Clone, Copy)]
pub(crate) enum Effect {
    /// It is faulty.
    Fails(TextKind),
    /// Its clause is false.
    Conflicts,
    /// Its clause makes this literal true.
    Forces(Literal),
}

/// The literals of the clause that aren't false.
pub(crate) fn look_at_clause(falsified: &Falsified, clause: &[Literal]) -> Outside
    ensures { IsOutside falsified.now clause.now result }
{
    let mut found = Outside::Nothing;
    for literal in clause {
        if falsified.contains(*literal) {
            continue;
        }
        match found {
            Outside::Nothing => found = Outside::One(*literal),
            Outside::One(first) => {
                if !same(first, *literal) {
                    return Outside::More;
                }
            }
            Outside::More => return Outside::More,
        }
    }
    found
}

/// Whether two literals are one.
fn same(left: Literal, right: Literal) -> bool
    ensures { IsTrue result ↔ (left ≡ right) }
{
    left.variable() == right.variable() && left.is_positive() == right.is_positive()
}

/// What the hint does where these clauses are live and these literals are false.
pub(crate) fn look_at_hint(live: &LiveClauses, falsified: &Falsified, hint: Hint) -> Effect
    ensures { HintDoes (live_of live.now) falsified.now hint result }
{
    let Hint::Clause(id) = hint else {
        return Effect::Fails(TextKind::NegativeHint);
    };
    let Some(clause) = live.get(id) else {
        return Effect::Fails(TextKind::BadHint);
    };
    match look_at_clause(falsified, clause) {
        Outside::Nothing => Effect::Conflicts,
        Outside::One(literal) => Effect::Forces(literal),
        Outside::More => Effect::Fails(TextKind::NotUnit),
    }
}
