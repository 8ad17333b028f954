//! The report of a simulation.

ghost use Rattle.std.specs.Prelude.{◌≡◌, ◌^◌, ◌<◌, [], ◌∷◌, ◌++◌, None, codes, length, map, option_map, IfOk, OnOk};
ghost use Rattle.circuit_theory.specs.declared.Mode.{Mode};
ghost use Rattle.signal_graph.specs.inner_cone.latch_cone.Cones.{MarksEnabled};
ghost use Rattle.witness_report.specs.Text.{names_text};
ghost use Rattle.circuit_report.specs.sim_report.Checks.{first_misfit};
ghost use Rattle.circuit_report.specs.sim_report.Report.{IsSimReport};

use crate::sim_report::checks::{first_misfit, word_bits};
use crate::sim_report::columns::columns_of;
use crate::sim_report::cycles::{PowerUp, put_cycles};
use crate::sim_report::refusal::Misfit;
use crate::sim_report::text::put_ports;
use base_tables::NameTable;
use flat_net::Net;
use sec_base::{Bits, NoMemory, Seq, Text, put};
use sec_setup::ports::name_tables::table_of_names;
use std::alloc::Global;
use witness_report::Stimulus;

/// The first that doesn't fit the net: a name of the header that is no input, an input that the header lacks, or a power word that
/// hasn't one digit for each latch. None exactly where all fits.
pub fn misfit_of(
    alloc: Global,
    net: &Net,
    stimulus: &Stimulus,
    power: Option<&[u8]>,
) -> Result<Option<Misfit>, NoMemory>
    ensures { IfOk result (λ misfit. misfit ≡ first_misfit net.now stimulus.now.names (option_map (λ word. word.now) power.entry)) }
{
    let names = table_of_names(alloc, &stimulus.names)?;
    first_misfit(alloc, net, &names, power)
}

/// The report of a net's run over a stimulus that fits it: a line `outputs` with their names, then for each cycle a line with the
/// values of the outputs and their marks, each line ended by a line feed. The latches power up with the digits of the power word,
/// in the net's order of latches, and with 0 where there is none; with `reset` those with the initial value 0 or 1 power up with
/// that. The latches whose bits are set count as enabled; the marks are those of each mode whose enabled latches are exactly these.
/// A net with 2^32 outputs or more answers want of memory.
pub fn sim_report(
    alloc: Global,
    net: &Net,
    stimulus: &Stimulus,
    power: Option<&[u8]>,
    reset: bool,
    enabled: &Bits,
) -> Result<Text, NoMemory>
    requires few { length stimulus.now.rows < 2 ^ 32 }
    requires enabled { length enabled.now ≡ length net.now.latches }
    requires fits { first_misfit net.now stimulus.now.names (option_map (λ word. word.now) power) ≡ None }
    ensures { (mode : Mode) → MarksEnabled mode net.now enabled.now → IfOk result (λ text. IsSimReport mode net.now stimulus.now.names stimulus.now.rows (option_map (λ word. word.now) power.entry) reset text) }
{
    let names = table_of_names(alloc, &stimulus.names)?;
    fitting_report(alloc, net, stimulus, &names, power, reset, enabled)
}

/// The report. The table is that of the stimulus' names.
fn fitting_report(
    alloc: Global,
    net: &Net,
    stimulus: &Stimulus,
    names: &NameTable,
    power: Option<&[u8]>,
    reset: bool,
    enabled: &Bits,
) -> Result<Text, NoMemory>
    requires few { length stimulus.now.rows < 2 ^ 32 }
    requires table { names.now ≡ stimulus.now.names }
    requires enabled { length enabled.now ≡ length net.now.latches }
    requires fits { first_misfit net.now stimulus.now.names (option_map (λ word. word.now) power) ≡ None }
    ensures { (mode : Mode) → MarksEnabled mode net.now enabled.now → IfOk result (λ text. IsSimReport mode net.now stimulus.now.names stimulus.now.rows (option_map (λ word. word.now) power.entry) reset text) }
{
    net.keeps();
    let mut text = Vec::new(alloc);
    put_head(&mut text, net)?;
    let columns = columns_of(alloc, net, names)?;
    let bits = word_bits(alloc, net, power)?;
    put_cycles(
        alloc,
        &mut text,
        net,
        PowerUp { bits, reset },
        enabled,
        columns.as_slice(),
        stimulus.rows.as_slice(),
    )?;
    Ok(Seq::from_vec(text))
}

/// Puts the line of the names of the outputs.
fn put_head(text: &mut Vec<u8>, net: &Net) -> Result<(), NoMemory>
    ensures { OnOk result (text.new.items ≡ text.old.items ++ (codes "outputs" ++ names_text (map (λ port. port.name) net.now.outputs) ++ 10 ∷ [])) }
{
    put(text, b"outputs")?;
    put_ports(text, net.outputs())?;
    put(text, b"\n")
}
