//! An assumption's function on a graph of its own.

ghost use Rattle.std.specs.Prelude.{◌≡◌, ◌<◌, [], ◌∷◌, length, IfOk, OnOk};
ghost use Rattle.circuit_theory.specs.Sizes.{IsOver};
ghost use Rattle.sec_base.specs.declared.limits.TheConstants.{MAX_WEIGHT};
ghost use Rattle.flat_net.specs.View.{circuit_of};
ghost use Rattle.cbf_unfold.specs.View.{IsOrderOf};
ghost use Rattle.cbf_unfold.specs.Unfolded.{IsUnfolded};
ghost use Rattle.cbf_unfold.specs.declared.unfold_places.error.UnfoldError.TheVariants as unfold_error;
ghost use Rattle.assume_queries.specs.assume_functions.Functions.{IsOwnFunction, IsWeighed};

use aig::Aig;
use base_tables::PlaceTable;
use cbf_unfold::{LatchGraph, UnfoldError, Unfolded, Unfolder};
use flat_net::{Net, Signal};
use sec_base::Ids;
use std::alloc::Global;

/// The function of a signal on a graph that has nothing else. Its variables are inputs by their numbers, each with the place 0.
pub struct OwnFunction {
    pub aig: Aig,
    pub places: PlaceTable,
    pub function: Unfolded,
}

/// It is let go by one call: an owner isn't taken apart field by field at each way out.
impl Drop for OwnFunction {
    fn drop(self) {
        let OwnFunction {
            aig: _,
            places: _,
            function: _,
        } = self;
    }
}

/// The function of a signal of a net without latches. The graph of the net's latches is lent, and isn't looked at. `TooLarge` comes
/// exactly where what the signal reads weighs more than 2,000,000.
pub fn own_function(
    alloc: Global,
    net: &Net,
    graph: &LatchGraph,
    order: &Ids,
    output: Signal,
) -> Result<OwnFunction, UnfoldError>
    requires order { IsOrderOf net.now order.now }
    requires output { output.0 < length net.now.drivers }
    ensures own { IfOk result (IsOwnFunction net.now order.now output.0) }
    ensures over { result ≡ Err unfold_error.TooLarge → IsOver (circuit_of net.now) (output.0 ∷ []) MAX_WEIGHT }
{
    let mut aig = Aig::new(alloc)?;
    let mut places = PlaceTable::new(alloc);
    let function = unfold_output(alloc, net, graph, order, output, &mut aig, &mut places)?;
    aig.keeps();
    places.keeps();
    Ok(OwnFunction {
        aig,
        places,
        function,
    })
}

/// Unfolds the signal on an empty graph and table.
fn unfold_output(
    alloc: Global,
    net: &Net,
    graph: &LatchGraph,
    order: &Ids,
    output: Signal,
    aig: &mut Aig,
    places: &mut PlaceTable,
) -> Result<Unfolded, UnfoldError>
    requires order { IsOrderOf net.now order.now }
    requires output { output.0 < length net.now.drivers }
    requires nodes { length aig.old ≡ 1 }
    requires entries { length places.old ≡ 0 }
    ensures unfolded { IfOk result (λ u. IsUnfolded net.now order.now aig.new places.new output.0 u.lit.0 u.vars) }
    ensures over { result ≡ Err unfold_error.TooLarge → IsOver (circuit_of net.now) (output.0 ∷ []) MAX_WEIGHT }
    ensures weighed { OnOk result (IsWeighed net.now output.0 aig.new places.new) }
{
    let mut unfolder = Unfolder::new(alloc, net, graph, order)?;
    let unfolded = unfolder.unfold(alloc, aig, places, output)?;
    Ok(unfolded)
}
