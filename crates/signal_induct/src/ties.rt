//! What signals are tied to.

ghost use Rattle.std.specs.Prelude.{◌≡◌, ◌+◌, ◌<◌, ◌^◌, if◌then◌else◌};
ghost use Rattle.signal_refine.specs.Asking;
ghost use Rattle.signal_induct.specs.Tied.{anchor_at, same_anchor, is_tied, ties_from};

use circuit_laws::signal_laws::Anchor;

/// What the signal at the place is tied to; of itself, where it is tied to nothing.
pub(crate) fn anchor_at(anchors: &[Anchor], place: usize) -> Anchor
    ensures { result ≡ anchor_at anchors.now place }
{
    match anchors.get(place) {
        Some(anchor) => *anchor,
        None => Anchor::Place {
            place,
            flipped: false,
        },
    }
}

/// Whether both are one anchor.
pub(crate) fn same_anchor(one: Anchor, other: Anchor) -> bool
    ensures { result ≡ same_anchor one other }
{
    match one {
        Anchor::Bit(bit) => match other {
            Anchor::Bit(second) => same_bit(bit, second),
            Anchor::Place { .. } => false,
        },
        Anchor::Place { place, flipped } => match other {
            Anchor::Bit(_) => false,
            Anchor::Place {
                place: second,
                flipped: turned,
            } => place == second && same_bit(flipped, turned),
        },
    }
}

/// Whether both bits are one.
fn same_bit(one: bool, other: bool) -> bool
    ensures { result ≡ Asking.same_bit one other }
{
    if one { other } else { !other }
}

/// Whether the signal at the place is tied to another or to a bit, where this is its anchor.
pub(crate) fn is_tied(place: usize, anchor: Anchor) -> bool
    ensures { result ≡ is_tied place anchor }
{
    match anchor {
        Anchor::Bit(_) => true,
        Anchor::Place {
            place: other,
            flipped,
        } => flipped || other != place,
    }
}

/// How many signals are tied.
pub(crate) fn tie_count(anchors: &[Anchor]) -> usize
    ensures { result ≡ ties_from 0 anchors.now }
{
    let mut count = 0;
    for place in 0..anchors.len() {
        let tied = is_tied(place, anchors[place]);
        count = counted(count, tied);
    }
    count
}

/// One more than the count, where the signal is tied.
fn counted(count: usize, tied: bool) -> usize
    requires { count + 1 < 2 ^ 64 }
    ensures { result ≡ (if tied then 1 else 0) + count }
{
    if tied { count + 1 } else { count }
}
