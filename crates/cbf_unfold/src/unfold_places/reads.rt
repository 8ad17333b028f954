//! What a place reads.

ghost use Rattle.std.specs.Prelude.{◌≡◌, ℕ, ◌+◌, ◌-◌, ◌^◌, ◌<◌, ◌≤◌, length, OnOk, All, Contains};
ghost use Rattle.flat_net.specs.View.{circuit_of};
ghost use Rattle.flat_net.specs.declared.signals.Signal.{Signal};
ghost use Rattle.cbf_unfold.specs.unfold_places.Places.{Steps};
ghost use Rattle.flat_net.specs.Weights.{weight_at};
ghost use Rattle.aig.specs.Adds.{Adds};
ghost use Rattle.cbf_unfold.specs.unfold_places.Reach.{IsThere};

use crate::unfold_places::memo::Memo;
use flat_net::{Driver, Net, NoMemory, PlaceTable, Signal, gate_of, latch_of};

/// Puts the places that this one reads into the table, if they haven't been met. In cycle 0 a latch reads none.
pub fn add_read(
    net: &Net,
    memo: &Memo,
    table: &mut PlaceTable,
    cycle: u32,
    s: Signal,
) -> Result<(), NoMemory>
    requires signal { s.0 < length net.now.drivers }
    requires room { length table.old + weight_at net.now s.0 < 2 ^ 32 }
    ensures adds { Adds (Steps (circuit_of net.now) (cycle, s.0)) table.old table.new }
    ensures all { OnOk result ((q : ℕ × ℕ) → Steps (circuit_of net.now) (cycle, s.0) q → IsThere memo.now table.new q) }
    ensures few { length table.new ≤ length table.old + weight_at net.now s.0 }
{
    net.keeps();
    match net.driver(s) {
        Driver::Input(_) => Ok(()),
        Driver::Gate(j) => add_fanins(memo, table, cycle, gate_of(net, j).fanins.as_slice()),
        Driver::Latch(j) => {
            if cycle == 0 {
                return Ok(());
            }
            add(memo, table, cycle - 1, latch_of(net, j).next)
        }
    }
}

/// Puts the place into the table, if it hasn't been met.
pub fn add(memo: &Memo, table: &mut PlaceTable, cycle: u32, s: Signal) -> Result<(), NoMemory>
    requires { length table.old + 1 < 2 ^ 32 }
    ensures adds { Adds (λ q. q ≡ (cycle, s.0)) table.old table.new }
    ensures here { OnOk result (IsThere memo.now table.new (cycle, s.0)) }
    ensures few { length table.new ≤ length table.old + 1 }
{
    if let Some(_) = memo.get((cycle, s.0)) {
        return Ok(());
    }
    table.intern(cycle, s.0)?;
    Ok(())
}

fn add_fanins(
    memo: &Memo,
    table: &mut PlaceTable,
    cycle: u32,
    fanins: &[Signal],
) -> Result<(), NoMemory>
    requires { length table.old + length fanins.now + 1 < 2 ^ 32 }
    ensures adds { Adds (λ q. (f : Signal) × Contains fanins.now f × ((cycle, f.0) ≡ q)) table.old table.new }
    ensures all { OnOk result (All (λ f. IsThere memo.now table.new (cycle, f.0)) fanins.now) }
    ensures few { length table.new ≤ length table.old + length fanins.now }
{
    for fanin in fanins {
        add(memo, table, cycle, *fanin)?;
    }
    Ok(())
}
