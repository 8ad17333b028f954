//! Cares with the first latch of a class whose loads can't happen.

ghost use Rattle.std.specs.Prelude.{◌≡◌, ◌≤◌, false, All, IfOk};
ghost use Rattle.std.specs.List.{AllZip};
ghost use Rattle.event_form.specs.event_agreement.pair_events.View.{side_of_both};
ghost use Rattle.event_form.specs.event_findings.unshown_pairs.class_events.Separated.{AreSeparated};
ghost use Rattle.event_settles.specs.Idle.{IdleIs, IsNotNever, IsToldWith, ToldWith};

use crate::cares::{Care, IdleLatch, PairCare, PairCares};
use crate::idle::first_idle;
use event_classes::Apart;
use event_form::Events;
use sec_base::{MAX_CONFLICTS, NoMemory};
use std::alloc::Global;

/// The same cares. Where some pair has none, it is looked for a class whose loads can't happen, whose first latch then stands with each such pair.
pub(crate) fn tell_idle(
    alloc: Global,
    events: &Events,
    aparts: &[Apart],
    cares: PairCares,
    conflicts: u32,
) -> Result<PairCares, NoMemory>
    requires separated { AreSeparated events.now aparts.now }
    requires conflicts { conflicts ≤ MAX_CONFLICTS }
    ensures { IfOk result (λ told. AllZip (IsToldWith (side_of_both events.now) conflicts) cares told) }
{
    if has_never(cares.as_slice()) {
        let idle = first_idle(alloc, events, aparts, conflicts)?;
        return told_with(alloc, cares, &idle);
    }
    Ok(cares)
}

/// Whether some pair has no care.
fn has_never(cares: &[PairCare]) -> bool
    ensures { result ≡ false → All IsNotNever cares.now }
{
    for care in cares {
        if let Care::Never(_) = &care.care {
            return true;
        }
    }
    false
}

/// The same cares, with this latch behind each pair without care.
fn told_with(
    alloc: Global,
    cares: PairCares,
    idle: &Option<IdleLatch>,
) -> Result<PairCares, NoMemory>
    ensures { IfOk result (λ told. AllZip (ToldWith idle.now) cares told) }
{
    let mut told = PairCares::new(alloc);
    for care in cares.into_vec() {
        let one = told_care(care, idle)?;
        told.push(one)?;
    }
    Ok(told)
}

fn told_care(care: PairCare, idle: &Option<IdleLatch>) -> Result<PairCare, NoMemory>
    ensures { IfOk result (ToldWith idle.now care) }
{
    let PairCare { name, care } = care;
    let care = match care {
        Care::Never(_) => Care::Never(copied(idle)?),
        other => other,
    };
    Ok(PairCare { name, care })
}

fn copied(idle: &Option<IdleLatch>) -> Result<Option<IdleLatch>, NoMemory>
    ensures { IfOk result (λ copy. copy ≡ idle.now) }
{
    match idle {
        Some(latch) => Ok(Some(IdleLatch {
            side: latch.side,
            name: latch.name.copy()?,
        })),
        None => Ok(None),
    }
}
