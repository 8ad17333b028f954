//! Places, and tables of them.

ghost use Rattle.std.specs.Prelude.{◌≡◌, ◌+◌, ◌^◌, ◌<◌, ◌≤◌, length, OnOk, Contains};
ghost use Rattle.aig.specs.Adds.{Adds};

use flat_net::{NoMemory, PlaceTable, Signal};

/// The number of an event node or of a frame, and that of a signal.
pub type Place = (u32, u32);

/// Puts the place into the table.
pub fn add(table: &mut PlaceTable, frame: u32, s: Signal) -> Result<(), NoMemory>
    requires { length table.old + 1 < 2 ^ 32 }
    ensures adds { Adds (λ q. q ≡ (frame, s.0)) table.old table.new }
    ensures here { OnOk result (Contains table.new (frame, s.0)) }
    ensures few { length table.new ≤ length table.old + 1 }
{
    table.intern(frame, s.0)?;
    Ok(())
}
