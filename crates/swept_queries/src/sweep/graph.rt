//! The whole sweep.

ghost use Rattle.std.specs.Prelude.{◌≡◌, ◌*◌, ◌<◌, length, All, IfOk};
ghost use Rattle.aig.specs.Graph.{vars_of};
ghost use Rattle.swept_queries.specs.sweep.Grown.{IsGrown};
ghost use Rattle.swept_queries.specs.sweep.Swept.{IsSwept, AreLiteralsFor};

use crate::node_agreement::{Effort, leads_of, variables};
use crate::sweep::growth::{Growth, Role, grown, literal_for};
use aig::{Aig, Lit, Lits, MAX_TABLE_VARIABLES, NoMemory};
use std::alloc::Global;

/// A new graph, and a literal in it for each root.
#[derive(Drop)]
pub struct Swept {
    pub aig: Aig,
    pub lits: Lits,
}

/// A new graph of the same variables, with inputs for those of the graph alone, in which nodes that are proved to agree are one, and a literal for each root. Where there are
/// inputs for at most 16 variables, roots that agree get one literal. `words` has eight words for each variable, of its values under
/// 512 assignments: nodes whose values don't differ there are tried. A search for a proof has at most a twentieth of these conflicts,
/// and those that fail together at most all of them.
pub fn sweep(
    alloc: Global,
    aig: &Aig,
    roots: &Lits,
    conflicts: u32,
    words: &[u64],
) -> Result<Swept, NoMemory>
    requires roots { All (λ l. l.0 < 2 * length aig.now) roots.now }
    requires words { length words.now ≡ 8 * vars_of aig.now }
    ensures { IfOk result (IsSwept aig.now roots.now) }
{
    let effort = Effort {
        conflicts,
        searches: true,
    };
    sweep_across(alloc, aig, roots, roots.as_slice(), &[], effort, words)
}

/// The same with such an effort. Only nodes that `tried` reaches are tried. Where there are searches, none of these that `kept`
/// reaches is: others are merged with them.
pub fn sweep_across(
    alloc: Global,
    aig: &Aig,
    roots: &Lits,
    tried: &[Lit],
    kept: &[Lit],
    effort: Effort,
    words: &[u64],
) -> Result<Swept, NoMemory>
    requires roots { All (λ l. l.0 < 2 * length aig.now) roots.now }
    requires tried { All (λ l. l.0 < 2 * length aig.now) tried.now }
    requires kept { All (λ l. l.0 < 2 * length aig.now) kept.now }
    requires words { length words.now ≡ 8 * vars_of aig.now }
    ensures { IfOk result (IsSwept aig.now roots.now) }
{
    let leads = leads_of(alloc, aig, roots.as_slice())?;
    let roles = roles_of(alloc, aig, tried, kept, effort.searches)?;
    let growth = grown(alloc, aig, roles.as_slice(), effort, words)?;
    let lits = literals_for(alloc, growth.map.as_slice(), leads.as_slice())?;
    Ok(Swept {
        aig: growth.graph,
        lits: Lits::from_vec(lits),
    })
}

/// What is done with each node. In a graph of few variables that is nothing. Without searches all nodes are tried, since two of them
/// on one side may be the same.
fn roles_of(
    alloc: Global,
    aig: &Aig,
    tried: &[Lit],
    kept: &[Lit],
    searches: bool,
) -> Result<Vec<Role>, NoMemory>
    requires tried { All (λ l. l.0 < 2 * length aig.now) tried.now }
    requires kept { All (λ l. l.0 < 2 * length aig.now) kept.now }
{
    let mut roles = vec![in alloc; Role::Outside; aig.size() as usize]?;
    if variables(alloc, aig)?.len() <= MAX_TABLE_VARIABLES {
        return Ok(roles);
    }
    mark(alloc, aig, tried, Role::Tried, roles.as_mut_slice())?;
    if searches {
        mark(alloc, aig, kept, Role::Kept, roles.as_mut_slice())?;
    }
    Ok(roles)
}

/// Gives the nodes that these literals reach the role.
fn mark(
    alloc: Global,
    aig: &Aig,
    lits: &[Lit],
    role: Role,
    roles: &mut [Role],
) -> Result<(), NoMemory>
    requires { All (λ l. l.0 < 2 * length aig.now) lits.now }
{
    let nodes = aig.cone(alloc, lits)?;
    for n in nodes.as_slice() {
        let n = *n as usize;
        if n < roles.len() {
            roles[n] = role;
        }
    }
    Ok(())
}

/// The literals for these of the old graph.
fn literals_for(alloc: Global, map: &[Lit], leads: &[Lit]) -> Result<Vec<Lit>, NoMemory>
    requires { All (λ l. l.0 < 2 * length map.now) leads.now }
    ensures { IfOk result (λ made. AreLiteralsFor map.now leads.now made.items) }
{
    let mut made = Vec::new(alloc);
    for i in 0..leads.len() {
        made.push(literal_for(map, leads[i]))?;
    }
    Ok(made)
}
