//! The cut nets as circuits, before their latches are given classes.

ghost use Rattle.std.specs.Prelude.{◌≡◌, ◌++◌, replicate, IfOk};
ghost use Rattle.circuit_theory.specs.Interface.{shared_inputs};
ghost use Rattle.flat_net.specs.Comparable.{IsComparable};
ghost use Rattle.flat_net.specs.View.{ports_of};
ghost use Rattle.event_setup.specs.Choosing.{AreOpened};
ghost use Rattle.event_setup.specs.Cutting.{AreMarkedCuts};
ghost use Rattle.event_setup.specs.Numbering.{AreBegun, IsBegun, IsOrder};
ghost use Rattle.event_setup.specs.Recovered.{AreMarked};
ghost use Rattle.event_setup.specs.Setup.{HaveDepths};

use crate::cutting::{CutNets, MarkedNet};
use crate::numbering::{Numbering, number};
use base_tables::NameTable;
use class_search::event_order::signal_depths;
use event_nodes::EventCircuit;
use flat_net::Net;
use sec_base::{Ids, NoMemory, Orders, Seq, Words};
use sec_setup::cut_points::Exposure;
use std::alloc::Global;

/// Both circuits, their inputs numbered, and the names of the numbers.
#[derive(Drop)]
pub(crate) struct NumberedCircuits {
    pub(crate) left: EventCircuit,
    pub(crate) right: EventCircuit,
    pub(crate) columns: Words,
}

/// The cut nets as circuits, all of whose latches are of class 0. Their inputs are numbered by the columns.
pub(crate) fn number_circuits(
    alloc: Global,
    a: &Net,
    b: &Net,
    shared: &NameTable,
    exposure: &Exposure,
    cut: CutNets,
) -> Result<NumberedCircuits, NoMemory>
    requires left { IsComparable a.now }
    requires right { IsComparable b.now }
    requires shared { shared.now ≡ shared_inputs (ports_of a.now) (ports_of b.now) }
    requires opened { AreOpened a.now b.now exposure.now }
    requires cut { AreMarkedCuts a.now b.now exposure.now cut }
    requires left_depths { HaveDepths cut.left.net }
    requires right_depths { HaveDepths cut.right.net }
    ensures columns { IfOk result (λ c. c.columns ≡ shared.now ++ exposure.now.names) }
    ensures circuits { IfOk result (AreBegun cut) }
{
    let Numbering { orders, columns } = number(alloc, a, b, &cut, shared, exposure)?;
    let CutNets { left, right } = cut;
    let Orders {
        left: left_order,
        right: right_order,
    } = orders;
    let left = begun(alloc, left, left_order)?;
    let right = begun(alloc, right, right_order)?;
    Ok(NumberedCircuits {
        left,
        right,
        columns,
    })
}

/// The net as a circuit, all of whose latches are of class 0.
fn begun(alloc: Global, marked: MarkedNet, order: Ids) -> Result<EventCircuit, NoMemory>
    requires marked { AreMarked marked.net marked.enabled }
    requires depths { HaveDepths marked.net }
    requires order { IsOrder marked.net order }
    ensures { IfOk result (IsBegun marked.net order) }
{
    let classes = zeros(alloc, marked.net.latches().len())?;
    let depths = signal_depths(alloc, &marked.net, &marked.enabled)?;
    let MarkedNet { net, enabled } = marked;
    Ok(EventCircuit::new(net, enabled, order, classes, depths))
}

/// So many zeros.
fn zeros(alloc: Global, count: usize) -> Result<Ids, NoMemory>
    ensures { IfOk result (λ made. made ≡ replicate count 0) }
{
    Ok(Seq::from_vec(vec![in alloc; 0; count]?))
}
