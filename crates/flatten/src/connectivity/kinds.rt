//! What flat statements are.

ghost use Rattle.std.specs.Prelude.{◌≡◌, ◌≢◌, ℕ, [], IsTrue, ◌↔◌};
ghost use Rattle.elaborate.specs.Flat.{kind_of};
ghost use Rattle.elaborate.specs.declared.flat.FlatKind.TheVariants as kind;
ghost use Rattle.flatten.specs.connectivity.Wiring.{some_of, control_by, with_edge, typed_by};

use elaborate::FlatKind;
use sec_base::Edge;

/// The clock of a latch, where one is written.
pub(crate) fn control_of(what: FlatKind) -> Option<u32>
    ensures { control_by (kind_of [] what) ≡ some_of result }
{
    match what {
        FlatKind::Latch {
            edge: _,
            control,
            init: _,
        } => control,
        _ => None,
    }
}

/// The edge of a latch, where one is written.
pub(crate) fn edge_of(what: FlatKind) -> Option<Edge>
    ensures { (out : ℕ) → typed_by out (kind_of [] what) ≡ with_edge out result }
{
    match what {
        FlatKind::Latch {
            edge,
            control: _,
            init: _,
        } => edge,
        _ => None,
    }
}

/// Whether it is a port.
pub(crate) fn is_port(what: FlatKind) -> bool
    ensures { IsTrue result ↔ (what ≡ kind.Port) }
{
    match what {
        FlatKind::Port => true,
        _ => false,
    }
}

/// Whether two edges differ.
pub(crate) fn differ(left: Edge, right: Edge) -> bool
    ensures { IsTrue result ↔ (left ≢ right) }
{
    match left {
        Edge::Rising => match right {
            Edge::Rising => false,
            Edge::Falling => true,
        },
        Edge::Falling => match right {
            Edge::Rising => true,
            Edge::Falling => false,
        },
    }
}
