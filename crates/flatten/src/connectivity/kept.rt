//! What the numbers of a flat design keep.

ghost use Rattle.flatten.specs.connectivity.Solid.{IsSolid};

use elaborate::Flat;

/// Tells a proof what the numbers of a flat design keep. It does nothing.
pub(crate) fn keeps(flat: &Flat)
    ensures { IsSolid flat.now }
{
    let _ = flat.names.len();
}
