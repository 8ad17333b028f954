//! Comparing two circuits by cycles.

ghost use Rattle.std.specs.Prelude.{◌≡◌, ◌≤◌, true, false, length, IfOk, None};
ghost use Rattle.circuit_theory.specs.Interface.{shared_inputs};
ghost use Rattle.flat_net.specs.Comparable.{IsComparable};
ghost use Rattle.flat_net.specs.View.{ports_of};
ghost use Rattle.sec_setup.specs.Choosing.{IsChosen};
ghost use Rattle.sec_setup.specs.Cuts.{AreCutBy, AreCutOpen};
ghost use Rattle.sec_setup.specs.Matching.{InterfacesMatch};
ghost use Rattle.sec_setup.specs.Setup.{AreGraphed};
ghost use Rattle.plain_check.specs.under_base.compare_base.Compared.{Compared};
ghost use Rattle.plain_check.specs.Verdicts.{verdict_of};

use crate::plain_form::{Findings, PlainError, compare_plain};
use crate::under_base::compare_base::CompareError;
use base_tables::NameTable;
use flat_net::Net;
use obligations::outcome::{LimitAt, Outcome, Settings, Verdict};
use reset_form::{ResetError, ResetFindings, ResetVerdict, compare_reset};
use sec_base::{MAX_CONFLICTS, NoMemory};
use sec_setup::cut_points::Exposure;
use sec_setup::{Nets, Setup, choose, graph_of, set_up, shared_names};
use std::alloc::Global;

/// Compares the circuits by unfolding their outputs into functions of the inputs at earlier cycles. Where latches may be cut open, a
/// minimal cut of them becomes inputs, and what they take over is compared as the outputs are. With `reset` runs begin with the latches'
/// initial values, and the outputs are compared in each cycle up to their depth; then no latch may be cut open. It refuses, in this order:
/// interfaces that don't match; a cycle of A's latches, a cycle of B's, or where latches may be cut open one that no latch breaks that
/// both circuits name; an unfolding of A that is too large, one of B.
pub fn compare_plainly(
    alloc: Global,
    a: &Net,
    b: &Net,
    settings: &Settings,
) -> Result<Outcome, CompareError>
    requires uncut { settings.now.reset ≡ true → settings.now.expose ≡ false }
    requires conflicts { settings.now.conflicts ≤ MAX_CONFLICTS }
    requires left { IsComparable a.now }
    requires right { IsComparable b.now }
    ensures { Compared a.now b.now settings.now result }
{
    let shared = shared_names(alloc, a, b)?;
    let left_graph = graph_of(alloc, a)?;
    let right_graph = graph_of(alloc, b)?;
    let nets = Nets {
        left: a,
        right: b,
        left_graph: &left_graph,
        right_graph: &right_graph,
    };
    compare_matching(alloc, &nets, &shared, settings)
}

/// Compares circuits whose interfaces match, by the names of the inputs that they share.
fn compare_matching(
    alloc: Global,
    nets: &Nets<'_>,
    shared: &NameTable,
    settings: &Settings,
) -> Result<Outcome, CompareError>
    requires uncut { settings.now.reset ≡ true → settings.now.expose ≡ false }
    requires conflicts { settings.now.conflicts ≤ MAX_CONFLICTS }
    requires left { IsComparable nets.now.left.now }
    requires right { IsComparable nets.now.right.now }
    requires graphs { AreGraphed nets.now }
    requires matches { InterfacesMatch nets.now.left.now nets.now.right.now }
    requires shared { shared.now ≡ shared_inputs (ports_of nets.now.left.now) (ports_of nets.now.right.now) }
    ensures { Compared nets.now.left.now nets.now.right.now settings.now result }
{
    let exposure = choose(alloc, nets, settings.expose)?;
    if settings.reset {
        return compare_from(alloc, nets, shared, &exposure, settings);
    }
    if exposure.names.len() == 0 {
        return compare_nets(
            alloc, nets.left, nets.right, nets, shared, &exposure, settings,
        );
    }
    compare_exposed(alloc, nets, shared, &exposure, settings)
}

/// Compares the circuits where runs begin with the latches' initial values. No latch is cut open.
fn compare_from(
    alloc: Global,
    nets: &Nets<'_>,
    shared: &NameTable,
    exposure: &Exposure,
    settings: &Settings,
) -> Result<Outcome, CompareError>
    requires reset { settings.now.reset ≡ true }
    requires uncut { settings.now.expose ≡ false }
    requires conflicts { settings.now.conflicts ≤ MAX_CONFLICTS }
    requires left { IsComparable nets.now.left.now }
    requires right { IsComparable nets.now.right.now }
    requires graphs { AreGraphed nets.now }
    requires matches { InterfacesMatch nets.now.left.now nets.now.right.now }
    requires shared { shared.now ≡ shared_inputs (ports_of nets.now.left.now) (ports_of nets.now.right.now) }
    requires chosen { IsChosen nets.now.left.now nets.now.right.now settings.now.expose exposure.now }
    ensures { Compared nets.now.left.now nets.now.right.now settings.now result }
{
    nets.left.keeps();
    nets.right.keeps();
    let setup = set_up(alloc, nets.left, nets.right, nets, shared, exposure)?;
    match compare_reset(alloc, &setup, settings.conflicts) {
        Ok(findings) => Ok(outcome_of(nets.left, nets.right, setup, findings_of(findings))),
        Err(ResetError::TooLarge(side)) => Err(CompareError::TooLarge(side)),
        Err(ResetError::NoMemory) => Err(CompareError::NoMemory),
    }
}

/// What is found from the initial values, with its verdict as an outcome has it.
fn findings_of(findings: ResetFindings) -> Findings
    ensures { result ≡ record { pairs = findings.pairs; through = findings.through; verdict = verdict_of findings.verdict } }
{
    let ResetFindings {
        pairs,
        through,
        verdict,
    } = findings;
    Findings {
        pairs,
        through,
        verdict: verdict_of(verdict),
    }
}

/// The verdict from the initial values, as an outcome has it.
fn verdict_of(verdict: ResetVerdict) -> Verdict
    ensures { result ≡ verdict_of verdict }
{
    match verdict {
        ResetVerdict::Equal => Verdict::Equal,
        ResetVerdict::Different(witness) => Verdict::DifferentFrom(witness),
        ResetVerdict::Limit(name) => Verdict::Limit(LimitAt::Pair(name)),
    }
}

/// Compares the circuits by the nets in which the exposed latches are cut out.
fn compare_exposed(
    alloc: Global,
    nets: &Nets<'_>,
    shared: &NameTable,
    exposure: &Exposure,
    settings: &Settings,
) -> Result<Outcome, CompareError>
    requires settling { settings.now.reset ≡ false }
    requires conflicts { settings.now.conflicts ≤ MAX_CONFLICTS }
    requires left { IsComparable nets.now.left.now }
    requires right { IsComparable nets.now.right.now }
    requires matches { InterfacesMatch nets.now.left.now nets.now.right.now }
    requires shared { shared.now ≡ shared_inputs (ports_of nets.now.left.now) (ports_of nets.now.right.now) }
    requires chosen { IsChosen nets.now.left.now nets.now.right.now settings.now.expose exposure.now }
    ensures { Compared nets.now.left.now nets.now.right.now settings.now result }
{
    let cut = cut_nets(alloc, nets.left, nets.right, exposure)?;
    compare_cut(
        alloc, nets, &cut.left, &cut.right, shared, exposure, settings,
    )
}

/// Both nets with the exposed latches cut out.
struct CutNets {
    left: Net,
    right: Net,
}

/// It is let go by one call: an owner isn't taken apart field by field at each way out.
impl Drop for CutNets {
    fn drop(self) {
        let CutNets { left: _, right: _ } = self;
    }
}

/// Cuts the exposed latches out of both nets.
fn cut_nets(alloc: Global, a: &Net, b: &Net, exposure: &Exposure) -> Result<CutNets, NoMemory>
    requires left { IsComparable a.now }
    requires right { IsComparable b.now }
    requires exposed { AreCutOpen a.now b.now exposure.now }
    ensures { IfOk result (λ c. AreCutBy a.now b.now exposure.now c.left c.right) }
{
    let left = a.cut(alloc, &exposure.left)?;
    let right = b.cut(alloc, &exposure.right)?;
    Ok(CutNets { left, right })
}

/// Compares the circuits by these nets, in which the exposed latches are cut out.
fn compare_cut(
    alloc: Global,
    nets: &Nets<'_>,
    left: &Net,
    right: &Net,
    shared: &NameTable,
    exposure: &Exposure,
    settings: &Settings,
) -> Result<Outcome, CompareError>
    requires settling { settings.now.reset ≡ false }
    requires conflicts { settings.now.conflicts ≤ MAX_CONFLICTS }
    requires left { IsComparable nets.now.left.now }
    requires right { IsComparable nets.now.right.now }
    requires matches { InterfacesMatch nets.now.left.now nets.now.right.now }
    requires shared { shared.now ≡ shared_inputs (ports_of nets.now.left.now) (ports_of nets.now.right.now) }
    requires chosen { IsChosen nets.now.left.now nets.now.right.now settings.now.expose exposure.now }
    requires cut { AreCutBy nets.now.left.now nets.now.right.now exposure.now left.now right.now }
    ensures { Compared nets.now.left.now nets.now.right.now settings.now result }
{
    let left_graph = graph_of(alloc, left)?;
    let right_graph = graph_of(alloc, right)?;
    let cut = Nets {
        left,
        right,
        left_graph: &left_graph,
        right_graph: &right_graph,
    };
    compare_nets(
        alloc, nets.left, nets.right, &cut, shared, exposure, settings,
    )
}

/// Compares the circuits by the nets in which the exposed latches are cut out, which are the circuits' own where none is.
fn compare_nets(
    alloc: Global,
    a: &Net,
    b: &Net,
    cut: &Nets<'_>,
    shared: &NameTable,
    exposure: &Exposure,
    settings: &Settings,
) -> Result<Outcome, CompareError>
    requires settling { settings.now.reset ≡ false }
    requires conflicts { settings.now.conflicts ≤ MAX_CONFLICTS }
    requires left { IsComparable a.now }
    requires right { IsComparable b.now }
    requires matches { InterfacesMatch a.now b.now }
    requires shared { shared.now ≡ shared_inputs (ports_of a.now) (ports_of b.now) }
    requires chosen { IsChosen a.now b.now settings.now.expose exposure.now }
    requires cut { AreCutBy a.now b.now exposure.now cut.now.left.now cut.now.right.now }
    requires graphs { AreGraphed cut.now }
    ensures { Compared a.now b.now settings.now result }
{
    a.keeps();
    b.keeps();
    let setup = set_up(alloc, a, b, cut, shared, exposure)?;
    match compare_plain(alloc, &setup, settings.conflicts) {
        Ok(findings) => Ok(outcome_of(a, b, setup, findings)),
        Err(PlainError::TooLarge(side)) => Err(CompareError::TooLarge(side)),
        Err(PlainError::NoMemory) => Err(CompareError::NoMemory),
    }
}

/// The outcome by what is found of the pairs of a setup of these nets.
fn outcome_of(a: &Net, b: &Net, setup: Setup<'_>, findings: Findings) -> Outcome
    ensures { result ≡ record { inputs = setup.entry.inputs; left_latches = length a.now.latches; right_latches = length b.now.latches; assumed = None; exposed = setup.entry.exposed; classes = 0; pairs = findings.pairs; through = findings.through; verdict = findings.verdict } }
{
    a.keeps();
    b.keeps();
    Outcome {
        inputs: setup.inputs,
        left_latches: a.latches().len() as u32,
        right_latches: b.latches().len() as u32,
        assumed: None,
        exposed: setup.into_exposed(),
        classes: 0,
        pairs: findings.pairs,
        through: findings.through,
        verdict: findings.verdict,
    }
}
