//! The literals of queries as the roots of a sweep, three for each query.

ghost use Rattle.std.specs.Prelude.{◌≡◌, ◌*◌, ◌++◌, [], ◌∷◌, length, IfOk, OnOk};
ghost use Rattle.swept_queries.specs.Roots.{three, roots_for, IsMoved, AreMade};

use crate::sides::{Known, Sides};
use crate::sweep::{Lit, Lits, NoMemory};
use std::alloc::Global;

/// The roots. A query that isn't swept has the literal 0 three times.
pub(crate) fn roots_of(alloc: Global, asked: &[Known]) -> Result<Lits, NoMemory>
    ensures { IfOk result (λ roots. roots ≡ roots_for asked.now) }
{
    let mut roots = Vec::new(alloc);
    for i in 0..asked.len() {
        put_three(&mut roots, asked[i])?;
    }
    Ok(Lits::from_vec(roots))
}

/// Puts the three roots of a query behind the others.
fn put_three(roots: &mut Vec<Lit>, known: Known) -> Result<(), NoMemory>
    ensures { OnOk result (roots.new.items ≡ roots.old.items ++ three known) }
{
    let sides = sides_or_zero(known);
    roots.extend_from_slice(&[sides.left, sides.right, sides.care])?;
    Ok(())
}

/// The literals of a query that is swept, or the literal 0 three times.
fn sides_or_zero(known: Known) -> Sides
    ensures { three known ≡ result.left ∷ result.right ∷ result.care ∷ [] }
{
    match known {
        Known::Swept(sides) => sides,
        _ => Sides {
            left: Lit::FALSE,
            right: Lit::FALSE,
            care: Lit::FALSE,
        },
    }
}

/// What is known after the sweep: for the queries that are swept the literals that stand in the place of their roots.
pub(crate) fn known_after(
    alloc: Global,
    asked: &[Known],
    lits: &[Lit],
) -> Result<Vec<Known>, NoMemory>
    requires { length lits.now ≡ 3 * length asked.now }
    ensures { IfOk result (λ made. AreMade asked.now lits.now made.items) }
{
    let mut made = Vec::new(alloc);
    for i in 0..asked.len() {
        let sides = Sides {
            left: lits[3 * i],
            right: lits[3 * i + 1],
            care: lits[3 * i + 2],
        };
        made.push(moved(asked[i], sides))?;
    }
    Ok(made)
}

/// The same with these literals in the place of the query's, if it is swept.
fn moved(known: Known, sides: Sides) -> Known
    ensures { IsMoved known sides result }
{
    match known {
        Known::Swept(_) => Known::Swept(sides),
        other => other,
    }
}
