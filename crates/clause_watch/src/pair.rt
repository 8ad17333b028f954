//! The two literals that a clause watches.

ghost use Rattle.std.specs.Prelude.{◌≡◌, ◌↔◌, ◌<◌, ◌≤◌, length, IsTrue};
ghost use Rattle.clause_base.specs.Literals.{negation};
ghost use Rattle.clause_watch.specs.Range.{AllInRange};
ghost use Rattle.clause_watch.specs.Watching.{IsOther, IsNextWatch};

use crate::entry::Truth;
use crate::trail::Trail;
use clause_base::Literal;

/// The two literals that a clause watches. Those of a clause of fewer literals mean nothing.
#[derive(Clone, Copy)]
pub struct Pair {
    pub first: Literal,
    pub second: Literal,
}

/// What became of a clause that was visited.
#[derive(Clone, Copy)]
pub(crate) enum Visit {
    /// It goes on to watch the literal.
    Stays,
    /// It doesn't watch the literal any more.
    Gone,
    /// This clause is false.
    Conflict(u32),
}

/// Whether the two literals are the same.
pub(crate) fn are_same(left: Literal, right: Literal) -> bool
    ensures { IsTrue result ↔ (left ≡ right) }
{
    left == right
}

/// That of the two which isn't the literal, or none where neither is.
pub(crate) fn other_of(pair: Pair, literal: Literal) -> Option<Literal>
    ensures { IsOther pair literal result }
{
    if are_same(pair.first, literal) {
        return Some(pair.second);
    }
    if are_same(pair.second, literal) {
        return Some(pair.first);
    }
    None
}

/// A literal of another variable than that of `other` that isn't false.
pub(crate) fn next_watch(clause: &[Literal], trail: &Trail, other: Literal) -> Option<Literal>
    requires { AllInRange trail.now.variables clause.now }
    ensures { IsNextWatch trail.now.entries clause.now other result }
{
    for literal in clause {
        if literal.variable() != other.variable() {
            match trail.truth(*literal) {
                Truth::False => {}
                _ => return Some(*literal),
            }
        }
    }
    None
}
