//! Where a node is looked for in the table of nodes.

ghost use Rattle.std.specs.Prelude.{◌≡◌};
ghost use Rattle.aig.specs.Ways.{and_place};

use crate::node::{Lit, Node};
use base_tables::{Key, mixed};

/// How many places near one another a node is looked for at.
const NEAR: u32 = 8;

/// The place of a step of the search for an and: first near the place of its greater operand, so that nodes that are made one after
/// the other stand side by side in memory, and then at places all over the table, since many nodes may read one.
#[tactic(auto, unfolding(crate::specs::Ways::and_place))]
fn and_place(l: Lit, r: Lit, step: u32) -> u32
    ensures { result ≡ and_place l.0 r.0 step }
{
    if step < NEAR {
        let spread = (l.0.wrapping_mul(0x9E37_79B9)) >> 24;
        (r.0 - r.0 % 2).wrapping_add(spread).wrapping_add(step)
    } else {
        mixed(mixed(l.0, r.0), step)
    }
}

impl Key for Node {
    ghost use Rattle.aig.specs.Places.{node_place};

    ghost place_at = { node_place };

    fn place(self, step: u32) -> u32 {
        match self {
            Node::Constant => step,
            Node::Input(v) => mixed(mixed(0, v), step),
            Node::And(l, r) => and_place(l, r, step),
        }
    }

    #[tactic(auto, using(crate::proofs::Nodes::same_node))]
    fn is(self, other: Node) -> bool {
        self == other
    }
}
