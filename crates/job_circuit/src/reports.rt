//! The jobs that report on one circuit.

ghost use Rattle.std.specs.Prelude.{◌≡◌, ℕ, List, option_map, IsErrOf};
ghost use Rattle.base_shelves.specs.Outside.{SameHeld, NoneFell};
ghost use Rattle.job_circuit.specs.Ends.{GraphFound, SimFound, graph_end, sim_end};

use base_shelves::Shelf;
use circuit_report::graph_report::{KindsError, SimulateError, simulate as run_circuit, tell};
use circuit_theory::Mode;
use job_base::sec_files::job_files::{load_end, stimulus_end};
use job_base::sec_files::{load, load_stimulus};
use job_base::{File, Finding, Refusal, Stop};
use sec_base::{Side, Text};
use std::alloc::Global;

/// The paths of a circuit and of a stimulus for it, the mode, the power word, and whether initial values go before that.
#[derive(Clone, Copy)]
pub struct Simulation<'a> {
    pub circuit: &'a str,
    pub stimulus: &'a str,
    pub mode: Mode,
    pub power: Option<&'a [u8]>,
    pub reset: bool,
}

/// Loads the circuit and reports its latch graph.
pub fn tell_graph<S: Shelf>(
    alloc: Global,
    circuit: &str,
    mode: Mode,
    shelf: &mut S,
) -> Result<Finding, Stop>
    ensures found { GraphFound (S.held shelf.old) (S.faults shelf.old) (S.faults shelf.new) circuit.now mode result }
    ensures keeps { SameHeld (S.held shelf.old) (S.held shelf.new) }
    ensures later { NoneFell (S.faults shelf.old) (S.faults shelf.new) }
    ensures served { S.serves shelf.old circuit.now → IsErrOf result Stop.ReadFault → ⊥ }
    ensures serving { (other : List ℕ) → S.serves shelf.old other → S.serves shelf.new other }
{
    let net = match load(alloc, shelf, circuit) {
        Ok(net) => net,
        Err(error) => return load_end(File::A, error),
    };
    let told = tell(alloc, &net, mode);
    graph_end(told)
}

/// What is found of a latch graph.
fn graph_end(told: Result<Text, KindsError>) -> Result<Finding, Stop>
    ensures { result ≡ graph_end told }
{
    match told {
        Ok(text) => Ok(Finding::Done(text)),
        Err(KindsError::TooLarge) => Ok(Finding::Refused(Refusal::TooLarge(Side::A))),
        Err(KindsError::Limit(name, proof)) => Ok(Finding::Undecided(Side::A, name, proof)),
        Err(KindsError::NoMemory) => Err(Stop::NoMemory),
    }
}

/// What is found by a simulation.
pub(crate) fn sim_end(simulated: Result<Text, SimulateError>) -> Result<Finding, Stop>
    ensures { result ≡ sim_end simulated }
{
    match simulated {
        Ok(text) => Ok(Finding::Done(text)),
        Err(SimulateError::Misfit(misfit)) => Ok(Finding::Refused(Refusal::Misfit(misfit))),
        Err(SimulateError::TooLarge) => Ok(Finding::Refused(Refusal::TooLarge(Side::A))),
        Err(SimulateError::Limit(name, proof)) => Ok(Finding::Undecided(Side::A, name, proof)),
        Err(SimulateError::NoMemory) => Err(Stop::NoMemory),
    }
}

/// Loads the circuit, then the stimulus, and reports the circuit's run over it.
pub fn simulate<S: Shelf>(
    alloc: Global,
    simulation: &Simulation<'_>,
    shelf: &mut S,
) -> Result<Finding, Stop>
    ensures found { SimFound (S.held shelf.old) (S.faults shelf.old) (S.faults shelf.new) simulation.now.circuit.now simulation.now.stimulus.now simulation.now.mode (option_map (λ digits. digits.now) simulation.now.power) simulation.now.reset result }
    ensures keeps { SameHeld (S.held shelf.old) (S.held shelf.new) }
    ensures later { NoneFell (S.faults shelf.old) (S.faults shelf.new) }
    ensures served { S.serves shelf.old simulation.now.circuit.now → S.serves shelf.old simulation.now.stimulus.now → IsErrOf result Stop.ReadFault → ⊥ }
    ensures serving { (other : List ℕ) → S.serves shelf.old other → S.serves shelf.new other }
{
    let net = match load(alloc, shelf, simulation.circuit) {
        Ok(net) => net,
        Err(error) => return load_end(File::A, error),
    };
    let stimulus = match load_stimulus(alloc, shelf, simulation.stimulus) {
        Ok(stimulus) => stimulus,
        Err(error) => return stimulus_end(error),
    };
    let simulated = run_circuit(
        alloc,
        &net,
        &stimulus,
        simulation.power,
        simulation.reset,
        simulation.mode,
    );
    sim_end(simulated)
}
