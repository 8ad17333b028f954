//! The replay of a stimulus on two circuits.

ghost use Rattle.std.specs.Prelude.{◌≡◌, ◌^◌, ◌<◌, map, length};
ghost use Rattle.circuit_theory.specs.declared.Mode.{Mode};
ghost use Rattle.base_tables.specs.Table.{AreDistinct};
ghost use Rattle.signal_graph.specs.inner_cone.latch_cone.Cones.{MarksEnabled};
ghost use Rattle.sec_setup.specs.Matching.{InterfacesMatch};
ghost use Rattle.job_circuit.specs.replay.Replay.{Replays, HasFitting, IsFitting, FindsReplay};

use crate::replay::cut_sides::{cut_side, pairs_of};
use crate::replay::replay_header::{ReplayError, opened_by};
use base_tables::NameTable;
use cycle_sim::pair_runs::{Replayed, Side, run_pairs};
use flat_net::Net;
use sec_base::{Bits, NoMemory};
use sec_setup::ports::name_tables::table_of_names;
use std::alloc::Global;
use witness_report::Stimulus;

/// The differences that two circuits show on a stimulus, where both power up with zeros: by cycle and then by pair, each pair that is
/// settled in both and differs. And of each pair, in order, the first cycle in which it is settled in both. The names of the stimulus that are no inputs are those of latches of both circuits, which are cut
/// open: each takes its values from the stimulus, and what it takes over is compared behind the outputs. The latches whose bits are
/// set count as enabled; the differences are those of each mode whose enabled latches are exactly these. Whichever bits are set, first a name
/// is refused that is neither an input of one of the circuits nor a latch of both, then an input of both that the stimulus lacks. An input that
/// isn't shared is read by nothing and has no effect. The outputs of the second circuit have distinct names. Circuits with 2^32
/// outputs or more, the cut latches among them, answer want of memory.
pub fn replay(
    alloc: Global,
    a: &Net,
    b: &Net,
    enabled_a: &Bits,
    enabled_b: &Bits,
    stimulus: &Stimulus,
) -> Result<Replayed, ReplayError>
    requires distinct { AreDistinct (map (λ p. p.name) b.now.outputs) }
    requires matches { InterfacesMatch a.now b.now }
    requires left_bits { length enabled_a.now ≡ length a.now.latches }
    requires right_bits { length enabled_b.now ≡ length b.now.latches }
    requires few { length stimulus.now.rows < 2 ^ 32 }
    ensures fits { HasFitting a.now b.now stimulus.now.names result }
    ensures replays { (mode : Mode) → MarksEnabled mode a.now enabled_a.now → MarksEnabled mode b.now enabled_b.now → Replays mode a.now b.now stimulus.now.names stimulus.now.rows result }
{
    let header = table_of_names(alloc, &stimulus.names)?;
    let names = opened_by(alloc, a, b, &header)?;
    let left = Side {
        net: a,
        enabled: enabled_a,
    };
    let right = Side {
        net: b,
        enabled: enabled_b,
    };
    let replayed = replay_fitting(alloc, &left, &right, &names, &header, stimulus)?;
    Ok(replayed)
}

/// What both circuits show, where the header fits both, and these are the latches that it names.
fn replay_fitting(
    alloc: Global,
    a: &Side<'_>,
    b: &Side<'_>,
    names: &NameTable,
    header: &NameTable,
    stimulus: &Stimulus,
) -> Result<Replayed, NoMemory>
    requires { IsFitting a.now.net.now b.now.net.now a.now.enabled.now b.now.enabled.now header.now names.now stimulus.now.names stimulus.now.rows }
    ensures { FindsReplay a.now.net.now b.now.net.now a.now.enabled.now b.now.enabled.now stimulus.now.names stimulus.now.rows result }
{
    if names.len() == 0 {
        return replay_whole(alloc, a, b, names, header, stimulus);
    }
    replay_cut(alloc, a, b, names, header, stimulus)
}

/// The same, where no latch is cut open.
fn replay_whole(
    alloc: Global,
    a: &Side<'_>,
    b: &Side<'_>,
    names: &NameTable,
    header: &NameTable,
    stimulus: &Stimulus,
) -> Result<Replayed, NoMemory>
    requires none { length names.now ≡ 0 }
    requires fitting { IsFitting a.now.net.now b.now.net.now a.now.enabled.now b.now.enabled.now header.now names.now stimulus.now.names stimulus.now.rows }
    ensures { FindsReplay a.now.net.now b.now.net.now a.now.enabled.now b.now.enabled.now stimulus.now.names stimulus.now.rows result }
{
    a.net.keeps();
    b.net.keeps();
    let pairs = pairs_of(alloc, a.net, b.net, names)?;
    run_pairs(alloc, a, b, pairs.as_slice(), header, stimulus)
}

/// The same, with the latches of these names cut open.
fn replay_cut(
    alloc: Global,
    a: &Side<'_>,
    b: &Side<'_>,
    names: &NameTable,
    header: &NameTable,
    stimulus: &Stimulus,
) -> Result<Replayed, NoMemory>
    requires { IsFitting a.now.net.now b.now.net.now a.now.enabled.now b.now.enabled.now header.now names.now stimulus.now.names stimulus.now.rows }
    ensures { FindsReplay a.now.net.now b.now.net.now a.now.enabled.now b.now.enabled.now stimulus.now.names stimulus.now.rows result }
{
    a.net.keeps();
    b.net.keeps();
    let pairs = pairs_of(alloc, a.net, b.net, names)?;
    let left = cut_side(alloc, a, names)?;
    let right = cut_side(alloc, b, names)?;
    left.net.keeps();
    right.net.keeps();
    let left_side = left.side();
    let right_side = right.side();
    run_pairs(
        alloc,
        &left_side,
        &right_side,
        pairs.as_slice(),
        header,
        stimulus,
    )
}
