//! Runs of a circuit whose latches power up with 1.

ghost use Rattle.std.specs.Prelude.{◌≡◌, ◌<◌, IfOk};

use cycle_sim::{MarkedSim, Power};
use flat_net::Net;
use sec_base::NoMemory;
use signal_graph::inner_cone::latch_cone::none_enabled;
use std::alloc::Global;
use std::rt::HostRuntime;
use text_rows::row_text::{show, split_at};

/// The net with each latch at 1, none of them enabled.
fn at_ones(alloc: Global, net: &Net) -> Result<MarkedSim<'_>, NoMemory>
    ensures { IfOk result (λ marked. marked.sim.net ≡ net.now) }
{
    let enabled = none_enabled(alloc, net)?;
    MarkedSim::new(alloc, net, &Power::Ones, &enabled)
}

/// Shows the values and the marks of the outputs in each cycle of the run.
pub(crate) fn show_ones(rt: &HostRuntime, net: &Net, rows: &[u8]) {
    let Ok(mut marked) = at_ones(rt.alloc(), net) else {
        return show(rt, b"lost\n");
    };
    let mut rest = rows;
    for _ in 0..rows.len() {
        let (row, later) = split_at(b' ', rest);
        if !row.is_empty() {
            show_cycle(rt, net, &mut marked, row);
        }
        rest = later;
    }
}

/// Takes one cycle over the row of digits, and shows the values and the marks of the outputs in it.
fn show_cycle(rt: &HostRuntime, net: &Net, marked: &mut MarkedSim<'_>, row: &[u8])
    requires { marked.old.sim.net ≡ net.now }
    ensures { marked.new.sim.net ≡ marked.old.sim.net }
{
    let mut bits = [false; 100];
    let count = row.len().min(100);
    for place in 0..count {
        bits[place] = row[place] == b'1';
    }
    if count != net.inputs().len() || marked.cycles() > 1_000 {
        return show(rt, b"lost\n");
    }
    marked.step(&bits[..count]);
    show_outputs(rt, net, marked);
}

/// Shows the values and the marks of the outputs in the latest cycle.
fn show_outputs(rt: &HostRuntime, net: &Net, marked: &MarkedSim<'_>)
    requires net { marked.now.sim.net ≡ net.now }
    requires begun { 0 < marked.now.sim.cycles }
{
    show(rt, b"values");
    for place in 0..net.outputs().len() {
        if let Ok(output) = u32::try_from(place) {
            show(rt, if marked.output(output) { b" 1" } else { b" 0" });
        }
    }
    show(rt, b" marks");
    for place in 0..net.outputs().len() {
        if let Ok(output) = u32::try_from(place) {
            show(rt, if marked.mark(output) { b" 1" } else { b" 0" });
        }
    }
    show(rt, b"\n");
}
