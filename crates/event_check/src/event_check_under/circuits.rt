//! What is compared, and its outcome.

ghost use Rattle.std.specs.Prelude.{◌≡◌, ◌<◌, [], ◌∷◌, length, Some, IfOk};
ghost use Rattle.flat_net.specs.declared.parts.Port.{Port};

use crate::event_answers::{Found, Settled, outcome_of};
use base_tables::NameTable;
use flat_net::Net;
use sec_base::{NoMemory, Words};

/// Two circuits, a third that is assumed of their inputs, and the names of the inputs that the two share.
#[derive(Clone, Copy)]
pub(crate) struct Circuits<'a> {
    pub left: &'a Net,
    pub right: &'a Net,
    pub assumed: &'a Net,
    pub shared: &'a NameTable,
}

/// The outcome by what is found of the two circuits, with the latches of these names exposed. It has the name of the assumption's output.
pub(crate) fn outcome_under(
    circuits: &Circuits<'_>,
    exposed: Words,
    found: Found,
) -> Result<Settled, NoMemory>
    requires { 0 < length circuits.now.assumed.now.outputs }
    ensures { IfOk result (λ o. (p : Port) → circuits.now.assumed.now.outputs ≡ p ∷ [] → o ≡ record { outcome = record { inputs = length circuits.now.shared.now; left_latches = length circuits.now.left.now.latches; right_latches = length circuits.now.right.now.latches; assumed = Some p.name; exposed = exposed; classes = found.classes; pairs = found.pairs; through = 0; verdict = found.verdict }; cares = found.cares }) }
{
    let name = circuits.assumed.outputs()[0].name.copy()?;
    let inputs = circuits.shared.len();
    Ok(outcome_of(
        circuits.left,
        circuits.right,
        inputs,
        Some(name),
        exposed,
        found,
    ))
}
