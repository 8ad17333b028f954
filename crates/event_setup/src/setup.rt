//! All that two circuits are compared by in the event form, as one value.

ghost use Rattle.std.specs.Prelude.{◌≡◌, IfOk, OnOk};
ghost use Rattle.std.specs.List.{AllZip};
ghost use Rattle.circuit_theory.specs.Interface.{shared_inputs};
ghost use Rattle.flat_net.specs.Comparable.{IsComparable};
ghost use Rattle.flat_net.specs.View.{ports_of};
ghost use Rattle.sec_setup.specs.ports.Pairing.{ArePairs};
ghost use Rattle.sec_setup.specs.Cuts.{is_cut};
ghost use Rattle.sec_setup.specs.Matching.{InterfacesMatch};
ghost use Rattle.event_setup.specs.Choosing.{AreOpened};
ghost use Rattle.event_setup.specs.Cutting.{AreMarkedCuts};
ghost use Rattle.event_setup.specs.Recovered.{AreBothMarked};
ghost use Rattle.event_setup.specs.Setup.{HaveDepths, IsPairDepthIn, IsSetupBy, SetsUpEvents};

use crate::choice::{choose_latches, event_graph};
use crate::circuits::{NumberedCircuits, number_circuits};
use crate::cutting::{CutNets, cut_both};
use crate::depths::{have_depths, pair_depths};
use crate::enables::EnabledLatches;
use base_tables::NameTable;
use event_nodes::EventCircuit;
use flat_net::Net;
use sec_base::{Ids, NoMemory, Words};
use sec_setup::cut_points::Exposure;
use sec_setup::ports::{SignalPairs, pairs_of};
use sec_setup::{Nets, SetupError};
use std::alloc::Global;

/// What two circuits are compared by in the event form.
#[derive(Drop)]
pub struct EventSetup {
    /// A with the exposed latches cut out, its inputs numbered. Its enabled latches are those of A that are left, and all are of class 0 so far.
    pub left: EventCircuit,
    /// B likewise.
    pub right: EventCircuit,
    /// How many inputs the circuits share.
    pub inputs: u32,
    /// The names of the exposed latches, in A's order.
    pub exposed: Words,
    /// The names of the numbers: the shared inputs, then the exposed latches.
    pub columns: Words,
    /// The outputs of one name, then what the exposed latches take over.
    pub pairs: SignalPairs,
    /// The depth of each pair, in cycles.
    pub depths: Ids,
}

impl EventSetup {
    /// Whether latches are cut open, so that a pair that differs isn't shown to differ.
    pub fn is_cut(&self) -> bool
        ensures { result ≡ is_cut self.now.exposed }
    {
        self.exposed.len() > 0
    }
}

/// What the circuits are compared by, where their interfaces match, these are the names of the inputs that they share, and these of their latches
/// are enabled. Where latches may be cut open they are a minimal cut; a cycle that none of those breaks that both circuits name is refused, A's
/// first. Where none may be, a cycle is refused, A's first. Self-edges of enabled latches don't count as cycles.
pub fn set_up_events(
    alloc: Global,
    a: &Net,
    b: &Net,
    enabled: &EnabledLatches,
    shared: &NameTable,
    may_cut: bool,
) -> Result<EventSetup, SetupError>
    requires left { IsComparable a.now }
    requires right { IsComparable b.now }
    requires matches { InterfacesMatch a.now b.now }
    requires shared { shared.now ≡ shared_inputs (ports_of a.now) (ports_of b.now) }
    requires enabled { AreBothMarked a.now b.now enabled.now }
    ensures { SetsUpEvents a.now b.now may_cut result }
{
    let exposure = choose_latches(alloc, a, b, enabled, may_cut)?;
    let cut = cut_both(alloc, a, b, enabled, &exposure)?;
    let setup = set_up_cut(alloc, a, b, shared, exposure, cut)?;
    Ok(setup)
}

/// What the circuits are compared by, where these latches are cut out in these nets.
fn set_up_cut(
    alloc: Global,
    a: &Net,
    b: &Net,
    shared: &NameTable,
    exposure: Exposure,
    cut: CutNets,
) -> Result<EventSetup, NoMemory>
    requires left { IsComparable a.now }
    requires right { IsComparable b.now }
    requires matches { InterfacesMatch a.now b.now }
    requires shared { shared.now ≡ shared_inputs (ports_of a.now) (ports_of b.now) }
    requires opened { AreOpened a.now b.now exposure }
    requires cut { AreMarkedCuts a.now b.now exposure cut }
    ensures { IfOk result (IsSetupBy a.now b.now exposure) }
{
    a.keeps();
    b.keeps();
    cut.left.net.keeps();
    let paired = pair_up(alloc, a, b, &cut, &exposure)?;
    let circuits = number_circuits(alloc, a, b, shared, &exposure, cut)?;
    let Paired { pairs, depths } = paired;
    let NumberedCircuits {
        left,
        right,
        columns,
    } = circuits;
    let Exposure {
        names,
        left: _,
        right: _,
    } = exposure;
    Ok(EventSetup {
        left,
        right,
        inputs: shared.len(),
        exposed: names,
        columns,
        pairs,
        depths,
    })
}

/// Pairs of signals with their depths.
#[derive(Drop)]
struct Paired {
    pairs: SignalPairs,
    depths: Ids,
}

/// The pairs of both circuits, with their depths in the cut nets.
fn pair_up(
    alloc: Global,
    a: &Net,
    b: &Net,
    cut: &CutNets,
    exposure: &Exposure,
) -> Result<Paired, NoMemory>
    requires right { IsComparable b.now }
    requires matches { InterfacesMatch a.now b.now }
    requires opened { AreOpened a.now b.now exposure.now }
    requires cut { AreMarkedCuts a.now b.now exposure.now cut.now }
    ensures pairs { IfOk result (λ p. ArePairs a.now b.now exposure.now.names exposure.now.left exposure.now.right p.pairs) }
    ensures depths { IfOk result (λ p. AllZip (IsPairDepthIn cut.now.left.net cut.now.right.net) p.pairs p.depths) }
    ensures left_depths { OnOk result (HaveDepths cut.now.left.net) }
    ensures right_depths { OnOk result (HaveDepths cut.now.right.net) }
{
    a.keeps();
    b.keeps();
    cut.left.net.keeps();
    cut.right.net.keeps();
    let left_graph = event_graph(alloc, &cut.left.net, &cut.left.enabled)?;
    let right_graph = event_graph(alloc, &cut.right.net, &cut.right.enabled)?;
    let nets = Nets {
        left: &cut.left.net,
        right: &cut.right.net,
        left_graph: &left_graph,
        right_graph: &right_graph,
    };
    have_depths(nets.left, nets.left_graph);
    have_depths(nets.right, nets.right_graph);
    let pairs = pairs_of(
        alloc,
        a,
        b,
        &exposure.names,
        &exposure.left,
        &exposure.right,
    )?;
    let depths = pair_depths(alloc, &nets, pairs.as_slice())?;
    Ok(Paired { pairs, depths })
}
