//! Frames: an event node, and the latch that is read as a constant there.

ghost use Rattle.std.specs.Prelude.{◌≡◌, ◌⊎◌, IfSome, IfNone};
ghost use Rattle.circuit_theory.specs.Frame.{NotPut};
ghost use Rattle.edbf_unfold.specs.declared.event_literals.event_walk.frames.Put.TheVariants.{Low, High};
ghost use Rattle.edbf_unfold.specs.event_literals.event_walk.Ready.{put_of, put_beside};

use base_tables::{Key, UniqueTable, mixed};
use event_nodes::Lit;

/// The latch that is read as a constant.
#[derive(Clone, Copy, PartialEq, Eq)]
pub enum Put {
    /// No latch.
    Free,
    /// The latch that drives this signal, as 0.
    Low(u32),
    /// The same as 1.
    High(u32),
}

/// The constant that the latch at this signal is read as; None exactly where it isn't put.
pub fn constant(put: Put, signal: u32) -> Option<Lit>
    ensures here { IfSome result (λ x. ((put ≡ Low signal) × (x.0 ≡ 0)) ⊎ ((put ≡ High signal) × (x.0 ≡ 1))) }
    ensures free { IfNone result (NotPut (put_of put) signal) }
{
    match put {
        Put::Free => None,
        Put::Low(latch) => {
            if latch == signal {
                Some(Lit::FALSE)
            } else {
                None
            }
        }
        Put::High(latch) => {
            if latch == signal {
                Some(Lit::TRUE)
            } else {
                None
            }
        }
    }
}

/// What is put in the frame beside: the latch as 1 where it is put as 0, and else the same.
pub fn beside(put: Put) -> Put
    ensures { result ≡ put_beside put }
{
    match put {
        Put::Free => Put::Free,
        Put::Low(latch) => Put::High(latch),
        Put::High(latch) => Put::High(latch),
    }
}

/// An event node by its number, and the latch that is put there.
#[derive(Clone, Copy)]
pub struct Frame {
    pub node: u32,
    pub put: Put,
}

impl Key for Frame {
    ghost use Rattle.edbf_unfold.specs.event_literals.event_walk.FramePlaces.{frame_place};

    ghost place_at = { frame_place };

    fn place(self, step: u32) -> u32 {
        let put = match self.put {
            Put::Free => 0,
            Put::Low(latch) => mixed(1, latch),
            Put::High(latch) => mixed(2, latch),
        };
        mixed(self.node, put).wrapping_add(step)
    }

    #[tactic(auto, using(crate::proofs::event_literals::event_walk::FrameKeys::same_frame))]
    fn is(self, other: Frame) -> bool {
        self.node == other.node && self.put == other.put
    }
}

/// A signal that is to be unfolded in a frame. Steps go by rank and then by signal: what is read comes before.
#[derive(Clone, Copy, PartialEq, Eq, PartialOrd, Ord)]
pub struct Step {
    /// The lower, the later the event node was made.
    pub rank: u32,
    pub signal: u32,
    /// The number of the frame.
    pub frame: u32,
    /// The number of the frame in which the signal's latch takes over its data, if it is one that isn't put.
    pub onward: u32,
    /// That of the frame beside it with the latch as 1, if the latch is enabled.
    pub high: u32,
}

/// The frames in which a place goes on, by their numbers: where its latch takes over its data, and, if that is an enabled one, the frame
/// beside it with the latch as 1. At other places they say nothing.
#[derive(Clone, Copy)]
pub struct Ways {
    pub onward: u32,
    pub high: u32,
}

/// Frames in the order in which they first came. A contract sees the list.
pub(crate) type Frames = UniqueTable<Frame>;
