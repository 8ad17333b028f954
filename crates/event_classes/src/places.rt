//! A latch is given its class.

ghost use Rattle.std.specs.Prelude.{◌≡◌, [], ◌∷◌, ◌++◌, OnOk};
ghost use Rattle.class_search.specs.event_order.Order.{IsTagOf};
ghost use Rattle.event_classes.specs.Map.{IsClassSet};

use crate::map::ClassMap;
use sec_base::{NoMemory, Side, Tag};

/// The latch is taken, and is of this class.
pub(crate) fn take_latch(map: &mut ClassMap, tag: Tag, class: u32) -> Result<(), NoMemory>
    requires { IsTagOf map.old.left.net map.old.right.net tag }
    ensures set { OnOk result (IsClassSet map.old.left map.old.right map.new.left map.new.right tag class) }
    ensures taken { OnOk result (map.new.taken.items ≡ map.old.taken.items ++ tag ∷ []) }
    ensures rest { map.new ≡ record map.old { left = map.new.left; right = map.new.right; taken = map.new.taken } }
{
    give_class(map, tag, class);
    map.taken.push(tag)?;
    Ok(())
}

/// The latch is of this class.
fn give_class(map: &mut ClassMap, tag: Tag, class: u32)
    requires { IsTagOf map.old.left.net map.old.right.net tag }
    ensures set { IsClassSet map.old.left map.old.right map.new.left map.new.right tag class }
    ensures rest { map.new ≡ record map.old { left = map.new.left; right = map.new.right } }
{
    match tag.side {
        Side::A => map.left.set_class(tag.latch, class),
        Side::B => map.right.set_class(tag.latch, class),
    }
}
