//! The report of a circuit's run over a stimulus.

ghost use Rattle.std.specs.Prelude.{◌≡◌, ◌^◌, ◌<◌, None, length, option_map};
ghost use Rattle.circuit_report.specs.sim_report.Checks.{first_misfit};
ghost use Rattle.circuit_report.specs.graph_report.Jobs.{Simulates, Runs};

use crate::sim_report::{Misfit, misfit_of, sim_report};
use circuit_theory::Mode;
use flat_net::Net;
use latch_kinds::{KindsError, kinds_in};
use pair_decide::Proof;
use sec_base::{DEFAULT_CONFLICTS, NoMemory, Text, Word};
use signal_graph::inner_cone::latch_cone::enabled_among;
use std::alloc::Global;
use witness_report::Stimulus;

/// Why there is no report of a run.
#[derive(Drop)]
pub enum SimulateError {
    /// The stimulus or the power word doesn't fit the circuit.
    Misfit(Misfit),
    /// A latch is in its own cone, and that cone weighs more than 2,000,000.
    TooLarge,
    /// The name of the latch whose query wasn't decided within the limit of conflicts, and the query's proof of that.
    Limit(Word, Proof),
    /// Memory was wanted and couldn't be had.
    NoMemory,
}

impl From<NoMemory> for SimulateError {
    ghost use Rattle.std.specs.Prelude.{◌≡◌};
    ghost use Rattle.circuit_report.specs.declared.graph_report.runs.SimulateError.TheVariants.{NoMemory};

    ghost from_gives = { λ _ e. e ≡ NoMemory };

    fn from(_error: NoMemory) -> SimulateError {
        SimulateError::NoMemory
    }
}

impl From<KindsError> for SimulateError {
    ghost use Rattle.std.specs.Prelude.{◌≡◌};
    ghost use Rattle.circuit_report.specs.graph_report.Jobs.{simulate_error};

    ghost from_gives = { λ error e. e ≡ simulate_error error };

    fn from(error: KindsError) -> SimulateError {
        match error {
            KindsError::TooLarge => SimulateError::TooLarge,
            KindsError::Limit(name, proof) => SimulateError::Limit(name, proof),
            KindsError::NoMemory => SimulateError::NoMemory,
        }
    }
}

/// The report of the net's run over the stimulus in the mode, from the power word, with `reset` from the initial values before it.
/// First what doesn't fit is refused, and last it is found out what the latches are.
pub fn simulate(
    alloc: Global,
    net: &Net,
    stimulus: &Stimulus,
    power: Option<&[u8]>,
    reset: bool,
    mode: Mode,
) -> Result<Text, SimulateError>
    requires { length stimulus.now.rows < 2 ^ 32 }
    ensures { Simulates mode net.now stimulus.now.names stimulus.now.rows (option_map (λ word. word.now) power.entry) reset result }
{
    if let Some(misfit) = misfit_of(alloc, net, stimulus, power)? {
        return Err(SimulateError::Misfit(misfit));
    }
    run(alloc, net, stimulus, power, reset, mode)
}

/// The same, where all fits.
fn run(
    alloc: Global,
    net: &Net,
    stimulus: &Stimulus,
    power: Option<&[u8]>,
    reset: bool,
    mode: Mode,
) -> Result<Text, SimulateError>
    requires few { length stimulus.now.rows < 2 ^ 32 }
    requires fits { first_misfit net.now stimulus.now.names (option_map (λ word. word.now) power) ≡ None }
    ensures { Runs mode net.now stimulus.now.names stimulus.now.rows (option_map (λ word. word.now) power.entry) reset result }
{
    let kinds = kinds_in(alloc, net, mode, DEFAULT_CONFLICTS)?;
    let enabled = enabled_among(alloc, kinds.as_slice())?;
    Ok(sim_report(alloc, net, stimulus, power, reset, &enabled)?)
}
