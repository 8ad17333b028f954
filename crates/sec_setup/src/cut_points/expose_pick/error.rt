//! Why no latches are picked.

use latch_graph::{Ids, NoMemory, Side};

/// Why no latches are picked.
#[derive(Drop)]
pub enum PickError {
    /// A cycle of this circuit is left without all common latches, by the positions of its latches: each is read by the
    /// next, the last by the first, and no latch of the cycle has a name before the first one's in byte order.
    Unpaired { side: Side, cycle: Ids },
    /// Memory was wanted and couldn't be had.
    NoMemory,
}

impl From<NoMemory> for PickError {
    ghost use Rattle.std.specs.Prelude.{◌≡◌};
    ghost use Rattle.sec_setup.specs.declared.cut_points.expose_pick.error.PickError.TheVariants as pick_error;

    ghost from_gives = { λ _ e. e ≡ pick_error.NoMemory };

    fn from(_error: NoMemory) -> PickError {
        PickError::NoMemory
    }
}
