//! The last cycle of a search behind the rows of a stimulus.

ghost use Rattle.std.specs.Prelude.{◌≡◌, map};
ghost use Rattle.circuit_theory.specs.declared.Mode.TheVariants.{Plain};
ghost use Rattle.flat_net.specs.Comparable.{IsComparable};
ghost use Rattle.flat_net.specs.View.{circuit_of};
ghost use Rattle.sec_setup.specs.Setup.{IsSetup};
ghost use Rattle.sec_setup.specs.ports.Pairs.{places_of};
ghost use Rattle.job_after.specs.Last.{IsGreatestDepth, DecidesAll, EndsIn};

use crate::fault::AfterFault;
use cycle_search::set_up_cycles;
use flat_net::Net;
use sec_setup::{Nets, Setup, SetupError, choose, graph_of, pair_depth, shared_names};
use std::alloc::Global;

/// The last cycle that is to be compared: the wanted one. Without one it is the greatest depth of a pair of outputs, since pairs that are
/// equal up to there are equal in every cycle; then interfaces that don't match are refused, and a latch of A that lies on a cycle, or one
/// of B.
pub(crate) fn last_cycle(
    alloc: Global,
    a: &Net,
    b: &Net,
    wanted: Option<u32>,
) -> Result<u32, AfterFault>
    requires left { IsComparable a.now }
    requires right { IsComparable b.now }
    ensures { EndsIn a.now b.now wanted result }
{
    match wanted {
        Some(last) => Ok(last),
        None => {
            let last = depth_of_all(alloc, a, b)?;
            Ok(last)
        }
    }
}

/// The greatest depth of a pair of outputs, where no latch lies on a cycle.
fn depth_of_all(alloc: Global, a: &Net, b: &Net) -> Result<u32, SetupError>
    requires left { IsComparable a.now }
    requires right { IsComparable b.now }
    ensures { DecidesAll a.now b.now result }
{
    let shared = shared_names(alloc, a, b)?;
    let left_graph = graph_of(alloc, a)?;
    let right_graph = graph_of(alloc, b)?;
    let nets = Nets {
        left: a,
        right: b,
        left_graph: &left_graph,
        right_graph: &right_graph,
    };
    let _uncut = choose(alloc, &nets, false)?;
    let setup = set_up_cycles(alloc, &nets, &shared)?;
    Ok(greatest_depth(&setup))
}

/// The greatest depth of a pair, 0 without pairs.
fn greatest_depth(setup: &Setup<'_>) -> u32
    requires { IsSetup setup.now }
    ensures { IsGreatestDepth (circuit_of setup.now.left.now) (circuit_of setup.now.right.now) (map places_of setup.now.pairs) result }
{
    setup.left.keeps();
    setup.right.keeps();
    let mut greatest = 0;
    for pair in setup.pairs.as_slice() {
        let depth = pair_depth(setup, pair.left, pair.right);
        greatest = depth.max(greatest);
    }
    greatest
}
