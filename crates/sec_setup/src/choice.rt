//! The choice of the latches that are cut open.

ghost use Rattle.std.specs.Prelude.{true};
ghost use Rattle.circuit_theory.specs.declared.Mode.{Mode};
ghost use Rattle.sec_setup.specs.Choosing.{ChosenIn};
ghost use Rattle.sec_setup.specs.Setup.{AreGraphedIn};

use crate::cut_points::{ExposeError, Exposure, expose};
use crate::cycles::find_cycle;
use crate::error::SetupError;
use crate::nets::Nets;
use crate::ports::{Ids, Side, Words};
use std::alloc::Global;

/// The latches that are cut open, by their names and their positions in both nets, in A's order: a minimal cut where latches may be
/// cut open, and else none. The cycles are those of the mode whose graphs these are: in the event mode the self-edges of enabled
/// latches are no cycles. `Cyclic` comes exactly where none may be cut open and a latch lies on a cycle, and `Unpaired` exactly where
/// some may be and a cycle is left without all latches that both circuits have under one name, A's before B's. `Interface` never
/// comes.
pub fn choose(alloc: Global, nets: &Nets<'_>, may_cut: bool) -> Result<Exposure, SetupError>
    ghost mode: { Mode }
    requires { AreGraphedIn mode nets.now }
    ensures { ChosenIn mode nets.now.left.now nets.now.right.now may_cut result }
{
    if may_cut {
        return choose_cut(alloc, nets);
    }
    if let Some(names) = find_cycle(alloc, nets.left, nets.left_graph)? {
        return Err(SetupError::Cyclic(Side::A, names));
    }
    if let Some(names) = find_cycle(alloc, nets.right, nets.right_graph)? {
        return Err(SetupError::Cyclic(Side::B, names));
    }
    Ok(Exposure {
        names: Words::new(alloc),
        left: Ids::new(alloc),
        right: Ids::new(alloc),
    })
}

/// A minimal cut of both nets.
fn choose_cut(alloc: Global, nets: &Nets<'_>) -> Result<Exposure, SetupError>
    ghost mode: { Mode }
    requires { AreGraphedIn mode nets.now }
    ensures { ChosenIn mode nets.now.left.now nets.now.right.now true result }
{
    match expose(
        alloc,
        nets.left,
        nets.right,
        nets.left_graph,
        nets.right_graph,
    ) {
        Ok(exposure) => Ok(exposure),
        Err(ExposeError::Unpaired(side, names)) => Err(SetupError::Unpaired(side, names)),
        Err(ExposeError::NoMemory) => Err(SetupError::NoMemory),
    }
}
