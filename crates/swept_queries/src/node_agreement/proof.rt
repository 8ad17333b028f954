//! Proving that two literals of a graph agree.

ghost use Rattle.std.specs.Prelude.{◌≡◌, ℕ, ◌*◌, ◌<◌, ◌≤◌, List, length, IfOk, IfSome};
ghost use Rattle.swept_queries.specs.node_agreement.Standing.{AreChosen};
ghost use Rattle.aig.specs.declared.node.Node.{Node};
ghost use Rattle.aig.specs.lane_eval.root_classes.Agreeing.{Agree};
ghost use Rattle.sweep_candidates.specs.declared.models.Model.{Model};
ghost use Rattle.swept_queries.specs.declared.node_agreement.proof.Proved.TheVariants as proved;
ghost use Rattle.swept_queries.specs.node_agreement.Answers.{DifferAt, IsToldOf, IsProved};

use crate::node_agreement::budget::Budget;
use crate::node_agreement::facts::care_of;
use crate::node_agreement::models::model_of;
use crate::node_agreement::question::{Tried, ask};
use crate::node_agreement::small::{find, small_graph};
use aig::lane_eval::root_classes::{Aig, Lit, NoMemory};
use std::alloc::Global;
use sweep_candidates::case_split::agree_by_cases;
use sweep_candidates::{
    Guide, Model, Part, cut_of, part_with_facts, plain_part, small_cone_of, stage_of, window_of,
};

/// After how many steps windows end.
const WINDOWS: [usize; 2] = [100, 300];

/// What came of all attempts.
#[derive(Drop)]
pub enum Proved {
    Same,
    /// They differ where the graph's variables have these bits, and others 0.
    Apart(Model),
    Open,
}

impl Proved {
    /// Whether something was found.
    fn is_told(&self) -> bool {
        !matches!(self, Proved::Open)
    }
}

/// Tries to prove that two literals agree: over a cut of few leaves, by cases, over the stage, over windows, and over their whole cones. Where they differ over the
/// whole cones, it tells where.
pub fn prove(
    alloc: Global,
    graph: &Aig,
    levels: &[u32],
    x: Lit,
    k: Lit,
    budget: &mut Budget,
) -> Result<Proved, NoMemory>
    requires x { x.0 < 2 * length graph.now }
    requires k { k.0 < 2 * length graph.now }
    ensures same { IfOk result (λ p. p ≡ proved.Same → Agree graph.now x.0 k.0) }
    ensures apart { IfOk result (λ p. (m : Model) → p ≡ proved.Apart m → DifferAt graph.now x.0 k.0 m.vars.items m.bits.items) }
{
    let guide = Guide {
        levels,
        leaves: &[],
        merged: &[],
    };
    prove_by(alloc, graph, &guide, &[], x, k, budget)
}

/// The same where more is known of the graph, and for each of its first nodes a literal of the same value.
pub(crate) fn prove_by(
    alloc: Global,
    graph: &Aig,
    guide: &Guide,
    chosen: &[Lit],
    x: Lit,
    k: Lit,
    budget: &mut Budget,
) -> Result<Proved, NoMemory>
    requires chosen { AreChosen graph.now chosen.now }
    requires x { x.0 < 2 * length graph.now }
    requires k { k.0 < 2 * length graph.now }
    ensures { IfOk result (IsProved graph.now x.0 k.0) }
{
    let near = prove_nearby(alloc, graph, guide.levels, x, k, budget)?;
    if near.is_told() || !budget.may_search() {
        return Ok(near);
    }
    let stage = prove_in_stage(alloc, graph, guide, chosen, x, k, budget)?;
    if stage.is_told() || !budget.may_search() {
        return Ok(stage);
    }
    let window = prove_in_window(alloc, graph, guide.levels, x, k, budget)?;
    if window.is_told() || !budget.may_search() {
        return Ok(window);
    }
    prove_wholly(alloc, graph, guide, chosen, x, k, budget)
}

/// Tries it over a cut, and by cases. Where no conflicts are allowed there is none.
fn prove_nearby(
    alloc: Global,
    graph: &Aig,
    levels: &[u32],
    x: Lit,
    k: Lit,
    budget: &mut Budget,
) -> Result<Proved, NoMemory>
    ensures { IfOk result (IsProved graph.now x.0 k.0) }
{
    if budget.each == 0 {
        return Ok(Proved::Open);
    }
    let cut = cut_of(alloc, graph, levels, x, k)?;
    let told = prove_over(alloc, graph, cut, x, k, budget)?;
    if told.is_told() || !budget.may_search() {
        return Ok(told);
    }
    prove_by_cases(alloc, graph, x, k, budget)
}

/// Tries it by cases of the variables that most nodes read. An attempt that fails costs a walk over the graph: where 16 failed one
/// after the other, one of 16 is made.
fn prove_by_cases(
    alloc: Global,
    graph: &Aig,
    x: Lit,
    k: Lit,
    budget: &mut Budget,
) -> Result<Proved, NoMemory>
    ensures { IfOk result (IsProved graph.now x.0 k.0) }
{
    let may_split = budget.in_vain < 16 || budget.in_vain % 16 == 0;
    if !may_split {
        budget.note_split(false, 0);
        return Ok(Proved::Open);
    }
    let same = agree_by_cases(alloc, graph, x, k)?;
    budget.note_split(same, graph.size());
    if same {
        return Ok(Proved::Same);
    }
    Ok(Proved::Open)
}

/// Tries it over some windows, each wider than the one before. Where no conflicts are allowed there is none.
fn prove_in_window(
    alloc: Global,
    graph: &Aig,
    levels: &[u32],
    x: Lit,
    k: Lit,
    budget: &mut Budget,
) -> Result<Proved, NoMemory>
    ensures { IfOk result (IsProved graph.now x.0 k.0) }
{
    if budget.each == 0 {
        return Ok(Proved::Open);
    }
    for i in 0..WINDOWS.len() {
        let window = window_of(alloc, graph, levels, x, k, WINDOWS[i])?;
        let told = prove_over(alloc, graph, window, x, k, budget)?;
        if told.is_told() {
            return Ok(told);
        }
    }
    Ok(Proved::Open)
}

/// Tries it over the stage round them, with what is known beside it. Where that failed 16 times one after the other, one of 16 is tried.
fn prove_in_stage(
    alloc: Global,
    graph: &Aig,
    guide: &Guide,
    chosen: &[Lit],
    x: Lit,
    k: Lit,
    budget: &mut Budget,
) -> Result<Proved, NoMemory>
    requires { AreChosen graph.now chosen.now }
    ensures { IfOk result (IsProved graph.now x.0 k.0) }
{
    if budget.each == 0 || !budget.may_try_stage() {
        return Ok(Proved::Open);
    }
    let Some(stage) = stage_of(alloc, graph, guide.leaves, x, k)? else {
        return Ok(Proved::Open);
    };
    budget.note_walk(stage.len() as u64);
    let part = part_with_facts(alloc, graph, guide, chosen, stage)?;
    let told = prove_in(alloc, graph, &part, chosen, x, k, budget)?;
    budget.note_stage(told.is_told());
    Ok(told)
}

/// Tries it over the whole cones, with what is known beside them. Where no conflicts are allowed these are looked at only if they are small.
pub(crate) fn prove_wholly(
    alloc: Global,
    graph: &Aig,
    guide: &Guide,
    chosen: &[Lit],
    x: Lit,
    k: Lit,
    budget: &mut Budget,
) -> Result<Proved, NoMemory>
    requires chosen { AreChosen graph.now chosen.now }
    requires x { x.0 < 2 * length graph.now }
    requires k { k.0 < 2 * length graph.now }
    ensures { IfOk result (IsProved graph.now x.0 k.0) }
{
    if budget.each == 0 {
        return match small_cone_of(alloc, graph, &[], x, k)? {
            Some(cone) => prove_over(alloc, graph, cone, x, k, budget),
            None => Ok(Proved::Open),
        };
    }
    let cone = graph.cone(alloc, &[x, k])?;
    budget.note_cone(cone.len(), graph.size());
    let part = part_with_facts(alloc, graph, guide, chosen, cone.into_vec())?;
    prove_in(alloc, graph, &part, chosen, x, k, budget)
}

/// Tries it over the small graph of these nodes alone.
fn prove_over(
    alloc: Global,
    graph: &Aig,
    numbers: Vec<u32>,
    x: Lit,
    k: Lit,
    budget: &mut Budget,
) -> Result<Proved, NoMemory>
    ensures { IfOk result (IsProved graph.now x.0 k.0) }
{
    let part = plain_part(alloc, numbers);
    prove_in(alloc, graph, &part, &[], x, k, budget)
}

/// Tries it over the small graph of this part, where its facts hold. Where the literals differ there, so they do in the graph if its variables are the
/// graph's own. A search that fails is paid for.
fn prove_in(
    alloc: Global,
    graph: &Aig,
    part: &Part,
    chosen: &[Lit],
    x: Lit,
    k: Lit,
    budget: &mut Budget,
) -> Result<Proved, NoMemory>
    requires { AreChosen graph.now chosen.now }
    ensures { IfOk result (IsProved graph.now x.0 k.0) }
{
    let conflicts = budget.conflicts();
    let tried = try_small(alloc, graph, part, chosen, x, k, conflicts)?;
    budget.note(&tried, conflicts);
    match tried {
        Tried::Same(_) => Ok(Proved::Same),
        Tried::Differs(vars, bits) => {
            let found = model_of(alloc, graph, vars.as_slice(), bits)?;
            Ok(apart_by(found))
        }
        _ => Ok(Proved::Open),
    }
}

/// They differ by the model, if there is one.
fn apart_by(found: Option<Model>) -> Proved
    ensures { (g : List Node) (x y : ℕ) → IfSome found (λ m. DifferAt g x y m.vars.items m.bits.items) → IsProved g x y result }
{
    match found {
        Some(model) => Proved::Apart(model),
        None => Proved::Open,
    }
}

/// Tries to prove that two literals agree over the small graph of this part, where its facts hold.
fn try_small(
    alloc: Global,
    graph: &Aig,
    part: &Part,
    chosen: &[Lit],
    x: Lit,
    k: Lit,
    conflicts: u32,
) -> Result<Tried, NoMemory>
    requires chosen { AreChosen graph.now chosen.now }
    requires conflicts { conflicts ≤ 200000 }
    ensures { IfOk result (IsToldOf graph.now x.0 k.0) }
{
    graph.keeps();
    let numbers = part.numbers.as_slice();
    let mut small = small_graph(alloc, graph, numbers)?;
    let care = care_of(&mut small, graph, part, chosen)?;
    small.graph.keeps();
    let lits = small.lits.as_slice();
    let (Some(left), Some(right)) = (find(numbers, lits, x), find(numbers, lits, k)) else {
        return Ok(Tried::Open);
    };
    ask(alloc, &small.graph, left, right, care, conflicts)
}
