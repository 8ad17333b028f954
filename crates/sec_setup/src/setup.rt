//! All that two circuits are compared by, as one value.

ghost use Rattle.std.specs.Prelude.{◌≡◌, ◌++◌, ◌+◌, ◌<◌, ◌^◌, length, IfOk};
ghost use Rattle.circuit_theory.specs.Interface.{shared_inputs};
ghost use Rattle.base_tables.specs.Table.{AreDistinct};
ghost use Rattle.sec_setup.specs.ports.flat_net.Comparable.{IsComparable};
ghost use Rattle.sec_setup.specs.ports.flat_net.View.{ports_of};
ghost use Rattle.sec_setup.specs.ports.Numbered.{AreNumbered};
ghost use Rattle.sec_setup.specs.Cuts.{is_cut, AreCutBy, AreCutOpen};
ghost use Rattle.sec_setup.specs.Matching.{InterfacesMatch};
ghost use Rattle.sec_setup.specs.Setup.{AreGraphed, IsSetupOf};

use crate::cut_points::{Exposure, LatchGraph};
use crate::nets::Nets;
use crate::ports::{NameTable, Net, NoMemory, Orders, SignalPairs, Words, orders_of, pairs_of};
use std::alloc::Global;

/// What two circuits are compared by: the nets in which the exposed latches are cut out, which are the circuits' own nets where none
/// is exposed; the numbers of their inputs; and the pairs of their outputs.
pub struct Setup<'a> {
    /// A's net with the exposed latches cut out.
    pub left: &'a Net,
    /// B's net likewise.
    pub right: &'a Net,
    pub left_graph: &'a LatchGraph,
    pub right_graph: &'a LatchGraph,
    /// How many inputs the circuits share.
    pub inputs: u32,
    /// The names of the exposed latches, in A's order.
    pub exposed: Words,
    /// The numbers of the inputs of both nets.
    pub orders: Orders,
    /// The names of the numbers: the shared inputs, then the exposed latches.
    pub columns: Words,
    /// The outputs of one name, then what the exposed latches take over.
    pub pairs: SignalPairs,
}

/// It is let go by one call: an owner isn't taken apart field by field at each way out.
impl Drop for Setup<'_> {
    fn drop(self) {
        let Setup {
            left: _,
            right: _,
            left_graph: _,
            right_graph: _,
            inputs: _,
            exposed: _,
            orders: _,
            columns: _,
            pairs: _,
        } = self;
    }
}

impl<'a> Setup<'a> {
    /// Whether latches are cut open, so that a pair that differs isn't shown to differ.
    pub fn is_cut(&self) -> bool
        ensures { result ≡ is_cut self.now.exposed }
    {
        self.exposed.len() > 0
    }

    /// The names of the exposed latches.
    pub fn into_exposed(self) -> Words
        ensures { result ≡ self.entry.exposed }
    {
        let Setup {
            left: _,
            right: _,
            left_graph: _,
            right_graph: _,
            inputs: _,
            exposed,
            orders: _,
            columns: _,
            pairs: _,
        } = self;
        exposed
    }
}

/// What the circuits `a` and `b` are compared by, where their interfaces match, these are the names of the inputs that they share,
/// and these latches are cut open. `cut` are the nets in which they are cut out.
pub fn set_up<'a>(
    alloc: Global,
    a: &Net,
    b: &Net,
    cut: &Nets<'a>,
    shared: &NameTable,
    exposure: &Exposure,
) -> Result<Setup<'a>, NoMemory>
    requires left { IsComparable a.now }
    requires right { IsComparable b.now }
    requires matches { InterfacesMatch a.now b.now }
    requires shared { shared.now ≡ shared_inputs (ports_of a.now) (ports_of b.now) }
    requires exposed { AreCutOpen a.now b.now exposure.now }
    requires cut { AreCutBy a.now b.now exposure.now cut.now.left.now cut.now.right.now }
    requires graphs { AreGraphed cut.now }
    ensures setup { IfOk result (IsSetupOf a.now b.now) }
    ensures exposed { IfOk result (λ s. s.exposed ≡ exposure.now.names) }
{
    a.keeps();
    b.keeps();
    cut.left.keeps();
    let exposed = exposure.names.copy()?;
    let pairs = pairs_of(
        alloc,
        a,
        b,
        &exposure.names,
        &exposure.left,
        &exposure.right,
    )?;
    let numbering = number(alloc, a, b, cut, shared, exposure)?;
    let Numbering { orders, columns } = numbering;
    Ok(Setup {
        left: cut.left,
        right: cut.right,
        left_graph: cut.left_graph,
        right_graph: cut.right_graph,
        inputs: shared.len(),
        exposed,
        orders,
        columns,
        pairs,
    })
}

/// The numbers of the inputs of both nets, and the names of the numbers.
#[derive(Drop)]
struct Numbering {
    orders: Orders,
    columns: Words,
}

/// Numbers the inputs of the cut nets: the shared inputs, then the exposed latches, then all others.
fn number(
    alloc: Global,
    a: &Net,
    b: &Net,
    cut: &Nets<'_>,
    shared: &NameTable,
    exposure: &Exposure,
) -> Result<Numbering, NoMemory>
    requires left { IsComparable a.now }
    requires right { IsComparable b.now }
    requires shared { shared.now ≡ shared_inputs (ports_of a.now) (ports_of b.now) }
    requires exposed { AreCutOpen a.now b.now exposure.now }
    requires cut { AreCutBy a.now b.now exposure.now cut.now.left.now cut.now.right.now }
    ensures columns { IfOk result (λ n. n.columns ≡ shared.now ++ exposure.now.names) }
    ensures orders { IfOk result (λ n. AreNumbered cut.now.left.now cut.now.right.now n.columns n.orders) }
{
    a.keeps();
    b.keeps();
    cut.left.keeps();
    let table = columns_of(alloc, shared, &exposure.names)?;
    let orders = orders_of(alloc, cut.left, cut.right, &table)?;
    let columns = table.into_words(alloc)?;
    Ok(Numbering { orders, columns })
}

/// The columns of a sequence: the shared inputs, then the exposed latches.
fn columns_of(alloc: Global, shared: &NameTable, exposed: &Words) -> Result<NameTable, NoMemory>
    requires { AreDistinct (shared.now ++ exposed.now) }
    ensures { IfOk result (λ columns. columns ≡ shared.now ++ exposed.now) }
{
    let mut columns = shared.copy(alloc)?;
    for name in exposed.as_slice() {
        columns.add(alloc, name.as_slice())?;
    }
    Ok(columns)
}
