//! The job that runs a circuit over a stimulus behind the rows of another one, whatever it powers up with.

ghost use Rattle.std.specs.Prelude.{◌≡◌, ◌<◌, ◌^◌, ◌++◌, ℕ, List, length, codes, option_map, IfOk, IsErrOf};
ghost use Rattle.base_shelves.specs.Outside.{SameHeld, NoneFell};
ghost use Rattle.restart.specs.Report.{after_line, unknown_line};
ghost use Rattle.job_circuit.specs.Ends.{sim_end};
ghost use Rattle.job_circuit.specs.SimBehind.{RunsBehind, SimBehindFound};

use crate::reports::sim_end;
use base_shelves::Shelf;
use circuit_report::graph_report::{SimulateError, simulate};
use circuit_report::sim_report::misfit_of;
use circuit_theory::Mode;
use flat_net::Net;
use job_base::sec_files::job_files::{load_end, stimulus_end};
use job_base::sec_files::{load, load_stimulus};
use job_base::{File, Finding, Stop};
use restart::{begin, put_after, put_unknown};
use sec_base::{NoMemory, Seq, Text, put};
use sec_setup::ports::name_tables::table_of_names;
use std::alloc::Global;
use witness_report::Stimulus;

/// The paths of a circuit, of the stimulus behind whose rows it begins, and of the one that it runs over, and the power word.
#[derive(Clone, Copy)]
pub struct SimulationBehind<'a> {
    pub circuit: &'a str,
    pub before: &'a str,
    pub stimulus: &'a str,
    pub power: Option<&'a [u8]>,
}

/// The report of a run, behind how many rows the stimulus has and what isn't known of the net.
fn report_behind(
    alloc: Global,
    net: &Net,
    rows: u64,
    known: &[Option<bool>],
    told: &Text,
) -> Result<Text, NoMemory>
    requires { length known.now ≡ length net.now.latches }
    ensures { IfOk result (λ text. text ≡ after_line rows ++ unknown_line (codes "unknown A ") net.now known.now ++ told.now) }
{
    let mut text = Vec::new(alloc);
    put_after(alloc, &mut text, rows)?;
    put_unknown(alloc, &mut text, b"unknown A ", net, known)?;
    put(&mut text, told.as_slice())?;
    Ok(Seq::from_vec(text))
}

/// The report of the net's run over the second stimulus from what is known behind the rows of the first. What doesn't fit is refused, of the
/// first stimulus first.
fn run_behind(
    alloc: Global,
    mut net: Net,
    before: &Stimulus,
    stimulus: &Stimulus,
    power: Option<&[u8]>,
) -> Result<Text, SimulateError>
    requires { length stimulus.now.rows < 2 ^ 32 }
    ensures { RunsBehind net before.now.names before.now.rows stimulus.now.names stimulus.now.rows (option_map (λ word. word.now) power.entry) result }
{
    if let Some(misfit) = misfit_of(alloc, &net, before, None)? {
        return Err(SimulateError::Misfit(misfit));
    }
    let names = table_of_names(alloc, &before.names)?;
    let known = begin(alloc, &mut net, &names, &before.rows)?;
    let told = simulate(alloc, &net, stimulus, power, true, Mode::Plain)?;
    let rows = before.rows.len() as u64;
    let text = report_behind(alloc, &net, rows, &known, &told)?;
    Ok(text)
}

/// Loads the circuit, then the stimulus behind whose rows it begins, then the one that it runs over, and reports that run.
pub fn simulate_behind<S: Shelf>(
    alloc: Global,
    simulation: &SimulationBehind<'_>,
    shelf: &mut S,
) -> Result<Finding, Stop>
    ensures found { SimBehindFound (S.held shelf.old) (S.faults shelf.old) (S.faults shelf.new) simulation.now.circuit.now simulation.now.before.now simulation.now.stimulus.now (option_map (λ digits. digits.now) simulation.now.power) result }
    ensures keeps { SameHeld (S.held shelf.old) (S.held shelf.new) }
    ensures later { NoneFell (S.faults shelf.old) (S.faults shelf.new) }
    ensures served { S.serves shelf.old simulation.now.circuit.now → S.serves shelf.old simulation.now.before.now → S.serves shelf.old simulation.now.stimulus.now → IsErrOf result Stop.ReadFault → ⊥ }
    ensures serving { (other : List ℕ) → S.serves shelf.old other → S.serves shelf.new other }
{
    let net = match load(alloc, shelf, simulation.circuit) {
        Ok(net) => net,
        Err(error) => return load_end(File::A, error),
    };
    let before = match load_stimulus(alloc, shelf, simulation.before) {
        Ok(before) => before,
        Err(error) => return stimulus_end(error),
    };
    let stimulus = match load_stimulus(alloc, shelf, simulation.stimulus) {
        Ok(stimulus) => stimulus,
        Err(error) => return stimulus_end(error),
    };
    let simulated = run_behind(alloc, net, &before, &stimulus, simulation.power);
    sim_end(simulated)
}
