//! The clauses of a pair.

ghost use Rattle.std.specs.Prelude.{◌≡◌, ◌⊎◌, false, IfOk};
ghost use Rattle.circuit_theory.specs.Interface.{AreOrders};
ghost use Rattle.flat_net.specs.Comparable.{IsComparable};
ghost use Rattle.flat_net.specs.View.{circuit_of, ports_of};
ghost use Rattle.cbf_unfold.specs.View.{IsOrderOf};
ghost use Rattle.plain_asked.specs.Pairs.{IsFunctionOf};
ghost use Rattle.sec_setup.specs.Choosing.{IsChosen};
ghost use Rattle.sec_setup.specs.Matching.{InterfacesMatch};
ghost use Rattle.sec_setup.specs.Setup.{AreGraphed};
ghost use Rattle.plain_check.specs.declared.under_base.compare_base.error.CompareError.TheVariants as refused;
ghost use Rattle.job_cert.specs.pair_clauses.Clauses.{PairGives, AreEncoded, TellDifference};
ghost use Rattle.job_cert.specs.declared.pair_clauses.error.CertError.TheVariants.{Compare, Pair};

use crate::pair_clauses::error::CertError;
use crate::pair_clauses::named::place_of;
use aig::Lit;
use cbf_unfold::Unfolded;
use cbf_unfold::shift_variables::merge_variables;
use flat_net::Net;
use pair_decide::cnf_encode::{Cnf, encode};
use plain_asked::{Functions, unfold_pairs};
use sec_base::{NoMemory, Orders};
use sec_setup::cut_points::Exposure;
use sec_setup::ports::name_tables::word_of;
use sec_setup::ports::{SignalPair, pairs_of};
use sec_setup::{Nets, choose, graph_of, interface};
use std::alloc::Global;
use tree_graph::{Rooted, graph_of_trees};

/// The clauses that say that the outputs of this name differ, as functions of the inputs at earlier cycles: some values meet all of
/// them exactly where the functions differ. It refuses what `compare` refuses where no latch may be cut open, in the same order, and
/// then a name that no output has.
pub fn pair_clauses(alloc: Global, a: &Net, b: &Net, pair: &[u8]) -> Result<Cnf, CertError>
    requires left { IsComparable a.now }
    requires right { IsComparable b.now }
    ensures { PairGives a.now b.now pair.now result }
{
    let orders = interface(alloc, a, b)?;
    let left_graph = graph_of(alloc, a)?;
    let right_graph = graph_of(alloc, b)?;
    let nets = Nets {
        left: a,
        right: b,
        left_graph: &left_graph,
        right_graph: &right_graph,
    };
    clauses_of_matching(alloc, &nets, &orders, pair)
}

/// The clauses of circuits whose interfaces match, by the numbers of their inputs.
fn clauses_of_matching(
    alloc: Global,
    nets: &Nets<'_>,
    orders: &Orders,
    pair: &[u8],
) -> Result<Cnf, CertError>
    requires left { IsComparable nets.now.left.now }
    requires right { IsComparable nets.now.right.now }
    requires graphs { AreGraphed nets.now }
    requires matches { InterfacesMatch nets.now.left.now nets.now.right.now }
    requires orders { AreOrders (ports_of nets.now.left.now) (ports_of nets.now.right.now) orders.now.left orders.now.right }
    ensures { PairGives nets.now.left.now nets.now.right.now pair.now result }
{
    let exposure = choose(alloc, nets, false)?;
    clauses_of_acyclic(alloc, nets, orders, &exposure, pair)
}

/// The clauses of circuits without cycles of latches, of which none is cut open.
fn clauses_of_acyclic(
    alloc: Global,
    nets: &Nets<'_>,
    orders: &Orders,
    exposure: &Exposure,
    pair: &[u8],
) -> Result<Cnf, CertError>
    requires left { IsComparable nets.now.left.now }
    requires right { IsComparable nets.now.right.now }
    requires matches { InterfacesMatch nets.now.left.now nets.now.right.now }
    requires orders { AreOrders (ports_of nets.now.left.now) (ports_of nets.now.right.now) orders.now.left orders.now.right }
    requires chosen { IsChosen nets.now.left.now nets.now.right.now false exposure.now }
    ensures { PairGives nets.now.left.now nets.now.right.now pair.now result }
{
    nets.left.keeps();
    nets.right.keeps();
    let pairs = pairs_of(
        alloc,
        nets.left,
        nets.right,
        &exposure.names,
        &exposure.left,
        &exposure.right,
    )?;
    let functions = unfold_pairs(
        alloc,
        nets.left,
        nets.right,
        nets.left_graph,
        nets.right_graph,
        orders,
        pairs.as_slice(),
    )?;
    let Some(place) = place_of(pairs.as_slice(), pair) else {
        return Err(unnamed(alloc, pair));
    };
    let cnf = clauses_of_pair(
        alloc,
        nets,
        orders,
        &functions,
        &pairs.as_slice()[place],
        &functions.left[place],
        &functions.right[place],
    )?;
    Ok(cnf)
}

/// The clauses of two functions. They are made anew on a graph of their own, whose nodes are numbered by both trees alone, so whoever
/// asks for the clauses of the pair has the same.
fn clauses_of_pair(
    alloc: Global,
    nets: &Nets<'_>,
    orders: &Orders,
    functions: &Functions,
    pair: &SignalPair,
    left: &Unfolded,
    right: &Unfolded,
) -> Result<Cnf, NoMemory>
    requires left_order { IsOrderOf nets.now.left.now orders.now.left }
    requires right_order { IsOrderOf nets.now.right.now orders.now.right }
    requires left { IsFunctionOf nets.now.left.now orders.now.left functions.now.aig functions.now.places pair.now.left.0 left.now }
    requires right { IsFunctionOf nets.now.right.now orders.now.right functions.now.aig functions.now.places pair.now.right.0 right.now }
    ensures encoded { IfOk result (AreEncoded (circuit_of nets.now.left.now) (circuit_of nets.now.right.now) orders.now.left orders.now.right pair.now.left.0 pair.now.right.0) }
    ensures tell { IfOk result (TellDifference (circuit_of nets.now.left.now) (circuit_of nets.now.right.now) orders.now.left orders.now.right pair.now.left.0 pair.now.right.0) }
{
    nets.left.keeps();
    nets.right.keeps();
    functions.aig.keeps();
    functions.places.keeps();
    let places = &functions.places;
    let vars = merge_variables(alloc, places, left.vars.as_slice(), right.vars.as_slice())?;
    let a = Rooted {
        net: nets.left,
        order: &orders.left,
        root: pair.left,
    };
    let b = Rooted {
        net: nets.right,
        order: &orders.right,
        root: pair.right,
    };
    let graph = graph_of_trees(alloc, &a, &b, places, vars.as_slice())?;
    graph.aig.keeps();
    let cnf = encode(alloc, &graph.aig, graph.left, graph.right, Lit::TRUE)?;
    Ok(cnf)
}

/// Why there are no clauses where no output has the name.
fn unnamed(alloc: Global, name: &[u8]) -> CertError
    ensures { (result ≡ Pair name.now) ⊎ (result ≡ Compare refused.NoMemory) }
{
    match word_of(alloc, name) {
        Ok(word) => CertError::Pair(word),
        Err(error) => CertError::from(error),
    }
}
