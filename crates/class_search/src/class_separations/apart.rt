//! What tells two classes apart.

ghost use Rattle.std.specs.Prelude.{◌≡◌, ◌≤◌, All, IfOk, OnOk};
ghost use Rattle.class_search.specs.class_separations.Telling.{IsToldIn, AreToldIn, IsApartOf, HasKept};

use crate::class_separations::cone_values::value_in_cone;
use crate::{Class, Difference, EventGraph, Told};
use sec_base::{Bits, Ids, NoMemory, Tag};
use std::alloc::Global;

/// What tells two classes apart: an assignment under which both enables have care, and their values differ.
pub struct Apart {
    /// The first latch of the lower class, in order of joining, from which the founder of the higher class differs; None for `always`.
    pub low: Option<Tag>,
    /// The founder of the higher class.
    pub high: Tag,
    /// The values of their enables; that of `always` is 1.
    pub left: bool,
    pub right: bool,
    /// The variables of both enables, in their order.
    pub vars: Ids,
    /// A bit for each.
    pub bits: Bits,
}

/// It is let go by one call: an owner isn't taken apart field by field at each way out.
impl Drop for Apart {
    fn drop(self) {
        let Apart {
            low: _,
            high: _,
            left: _,
            right: _,
            vars: _,
            bits: _,
        } = self;
    }
}

/// Puts behind the others what tells the latch from `always`, and then what tells it from each class.
pub fn keep_apart(
    alloc: Global,
    events: &EventGraph,
    classes: &[Class],
    latch: Tag,
    always: Difference,
    told: &[Told],
    aparts: &mut Vec<Apart>,
) -> Result<(), NoMemory>
    requires told { AreToldIn events.now classes.now told.now }
    ensures { OnOk result (HasKept events.now classes.now latch always told.now aparts.old.items aparts.new.items) }
{
    aparts.push(Apart {
        low: None,
        high: latch,
        left: true,
        right: false,
        vars: always.vars,
        bits: always.bits,
    })?;
    for place in 0..told.len() {
        let one = apart_of(alloc, events, &classes[place], latch, &told[place])?;
        aparts.push(one)?;
    }
    Ok(())
}

/// What tells the latch from this class.
fn apart_of(
    alloc: Global,
    events: &EventGraph,
    class: &Class,
    latch: Tag,
    told: &Told,
) -> Result<Apart, NoMemory>
    requires { IsToldIn events.now class.now told.now }
    ensures { IfOk result (IsApartOf events.now class.now latch told.now) }
{
    let enable = &class.enables[told.member];
    let vars = told.difference.vars.as_slice();
    let bits = told.difference.bits.as_slice();
    let left = value_in_cone(alloc, events.aig(), enable.value, vars, bits)?;
    let vars = told.difference.vars.copy()?;
    let bits = told.difference.bits.copy()?;
    Ok(Apart {
        low: Some(class.tags[told.member]),
        high: latch,
        left,
        right: !left,
        vars,
        bits,
    })
}
