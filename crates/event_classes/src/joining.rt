//! The next latch joins a class.

ghost use Rattle.std.specs.Prelude.{◌≡◌, ◌<◌, ◌≤◌, ℕ, suc, List, ◌∷◌, length, Option, Err, true, is_ok, OnOk};
ghost use Rattle.circuit_theory.specs.declared.Side.{Side};
ghost use Rattle.circuit_theory.specs.Joined.{Either};
ghost use Rattle.class_search.specs.Comparing.{IsReadyEnable};
ghost use Rattle.class_search.specs.event_order.Order.{IsTagOf};
ghost use Rattle.class_search.specs.class_fits.Members.{class_of_fit};
ghost use Rattle.class_search.specs.declared.search.Fit.TheVariants as fit_is;
ghost use Rattle.class_search.specs.pair_decide.Proof.{Proof};
ghost use Rattle.sec_base.specs.declared.basics.Tag.{Tag};
ghost use Rattle.event_classes.specs.declared.error.EventError.TheVariants as event_error;
ghost use Rattle.event_classes.specs.Limits.{IsNamed, IsErrorOf};
ghost use Rattle.event_classes.specs.Map.{IsMade, IsEnableAt, IsOwnAt, AreToldAt, AreToldBy, IsAbsent, FitsIn, GoesOn, places_in, taken_of, with_next};
ghost use Rattle.event_classes.specs.Steps.{IsWeightOver, IsClassOver, IsOverAt, IsLimitAt, IsLimitWithin};

use crate::enables::next_enable;
use crate::error::EventError;
use crate::map::ClassMap;
use crate::places::take_latch;
use class_search::class_fits::{Class, Difference, Enable, Fit, Told, Unfit, first_fit};
use class_search::class_separations::keep_apart;
use sec_base::{MAX_CONFLICTS, MAX_EVENT_CLASSES, NoMemory, Tag};
use std::alloc::Global;

/// The next latch is given its class.
pub(crate) fn join_next(
    alloc: Global,
    map: &mut ClassMap,
    tag: Tag,
    conflicts: u32,
) -> Result<(), EventError>
    requires latch { IsTagOf map.old.left.net map.old.right.net tag }
    requires made { (rest : List (Either ℕ ℕ)) × IsMade map.old (places_in map.old tag ∷ rest) }
    requires conflicts { conflicts ≤ MAX_CONFLICTS }
    ensures goes_on { OnOk result (GoesOn map.old map.new tag (taken_of map.old)) }
    ensures many { result ≡ Err event_error.TooManyEvents → IsOverAt map.old tag }
    ensures large { (side : Side) → result ≡ Err (event_error.TooLarge side) → IsWeightOver map.old tag side }
    ensures limit { (latch : Tag) (other : Option Tag) (proof : Proof) → result ≡ Err (event_error.Limit latch other proof) → IsLimitWithin map.old tag latch other conflicts proof }
{
    map.events.keeps();
    let enable = next_enable(alloc, map, tag)?;
    map.left.keeps();
    map.right.keeps();
    map.events.keeps();
    map.left_count.keeps();
    map.right_count.keeps();
    if let Some(class) = map.table.class_of(enable.value, enable.care) {
        return of_memory(take_latch(map, tag, class));
    }
    join_asked(alloc, map, tag, enable, conflicts)
}

/// The next latch is given its class, where no earlier latch has the literals of its enable.
fn join_asked(
    alloc: Global,
    map: &mut ClassMap,
    tag: Tag,
    enable: Enable,
    conflicts: u32,
) -> Result<(), EventError>
    requires latch { IsTagOf map.old.left.net map.old.right.net tag }
    requires made { (rest : List (Either ℕ ℕ)) × IsMade map.old (places_in map.old tag ∷ rest) }
    requires enable { IsEnableAt map.old tag enable }
    requires own { IsOwnAt map.old tag enable }
    requires ready { IsReadyEnable map.old.events enable }
    requires absent { IsAbsent map.old enable }
    requires conflicts { conflicts ≤ MAX_CONFLICTS }
    ensures goes_on { OnOk result (GoesOn map.old map.new tag (with_next map.old tag)) }
    ensures many { result ≡ Err event_error.TooManyEvents → IsClassOver map.old tag }
    ensures large { (side : Side) → result ≡ Err (event_error.TooLarge side) → ⊥ }
    ensures limit { (latch : Tag) (other : Option Tag) (proof : Proof) → result ≡ Err (event_error.Limit latch other proof) → IsLimitAt map.old tag latch other conflicts proof }
{
    map.left.keeps();
    map.right.keeps();
    map.events.keeps();
    match first_fit(
        alloc,
        &mut map.events,
        map.classes.as_slice(),
        &enable,
        conflicts,
    ) {
        Ok(fit) => join_fit(alloc, map, tag, enable, fit),
        Err(unfit) => Err(limit_of(map.classes.as_slice(), tag, unfit)),
    }
}

/// Why the latch is given no class.
fn limit_of(classes: &[Class], tag: Tag, unfit: Unfit) -> EventError
    requires { IsNamed classes.now unfit }
    ensures { IsErrorOf classes.now tag result unfit }
{
    match unfit {
        Unfit::Always(proof) => EventError::Limit {
            latch: tag,
            other: None,
            proof,
        },
        Unfit::Member(place, member, proof) => EventError::Limit {
            latch: tag,
            other: Some(classes[place].tags[member]),
            proof,
        },
        Unfit::NoMemory => EventError::NoMemory,
    }
}

/// The latch is given the class that was found.
fn join_fit(
    alloc: Global,
    map: &mut ClassMap,
    tag: Tag,
    enable: Enable,
    fit: Fit,
) -> Result<(), EventError>
    requires latch { IsTagOf map.old.left.net map.old.right.net tag }
    requires made { (rest : List (Either ℕ ℕ)) × IsMade map.old (places_in map.old tag ∷ rest) }
    requires enable { IsEnableAt map.old tag enable }
    requires own { IsOwnAt map.old tag enable }
    requires ready { IsReadyEnable map.old.events enable }
    requires absent { IsAbsent map.old enable }
    requires fits { FitsIn map.old tag (class_of_fit map.old.classes.items fit) }
    requires place { (place : ℕ) → fit ≡ fit_is.Joins place → place < length map.old.classes.items }
    requires told { AreToldBy map.old tag fit }
    ensures goes_on { OnOk result (GoesOn map.old map.new tag (with_next map.old tag)) }
    ensures many { result ≡ Err event_error.TooManyEvents → IsClassOver map.old tag }
    ensures large { (side : Side) → result ≡ Err (event_error.TooLarge side) → ⊥ }
    ensures limit { (latch : Tag) (other : Option Tag) (proof : Proof) → result ≡ Err (event_error.Limit latch other proof) → ⊥ }
{
    match fit {
        Fit::Always => of_memory(join_always(map, tag, &enable)),
        Fit::Joins(place) => of_memory(join_class(map, tag, enable, place)),
        Fit::Founds(always, told) => {
            found_class(alloc, map, tag, enable, always, told.as_slice())
        }
    }
}

/// What is done, or that memory was wanted.
fn of_memory(done: Result<(), NoMemory>) -> Result<(), EventError>
    ensures done { OnOk result (is_ok done ≡ true) }
    ensures many { result ≡ Err event_error.TooManyEvents → ⊥ }
    ensures large { (side : Side) → result ≡ Err (event_error.TooLarge side) → ⊥ }
    ensures limit { (latch : Tag) (other : Option Tag) (proof : Proof) → result ≡ Err (event_error.Limit latch other proof) → ⊥ }
{
    match done {
        Ok(()) => Ok(()),
        Err(_) => Err(EventError::NoMemory),
    }
}

/// The latch joins class 0.
fn join_always(map: &mut ClassMap, tag: Tag, enable: &Enable) -> Result<(), NoMemory>
    requires latch { IsTagOf map.old.left.net map.old.right.net tag }
    requires enable { IsEnableAt map.old tag enable.now }
    requires absent { IsAbsent map.old enable.now }
    requires fits { FitsIn map.old tag 0 }
    ensures { OnOk result (GoesOn map.old map.new tag (with_next map.old tag)) }
{
    map.left.keeps();
    map.right.keeps();
    map.events.keeps();
    map.table.put(enable.value, enable.care, 0)?;
    take_latch(map, tag, 0)
}

/// It joins the class at this place.
fn join_class(map: &mut ClassMap, tag: Tag, enable: Enable, place: usize) -> Result<(), NoMemory>
    requires latch { IsTagOf map.old.left.net map.old.right.net tag }
    requires made { (rest : List (Either ℕ ℕ)) × IsMade map.old (places_in map.old tag ∷ rest) }
    requires enable { IsEnableAt map.old tag enable }
    requires own { IsOwnAt map.old tag enable }
    requires ready { IsReadyEnable map.old.events enable }
    requires absent { IsAbsent map.old enable }
    requires fits { FitsIn map.old tag (suc place) }
    requires place { place < length map.old.classes.items }
    ensures { OnOk result (GoesOn map.old map.new tag (with_next map.old tag)) }
{
    map.left.keeps();
    map.right.keeps();
    map.events.keeps();
    let class = place as u32 + 1;
    map.table.put(enable.value, enable.care, class)?;
    take_latch(map, tag, class)?;
    map.classes[place].join(tag, enable)
}

/// It founds the next class.
fn found_class(
    alloc: Global,
    map: &mut ClassMap,
    tag: Tag,
    enable: Enable,
    always: Difference,
    told: &[Told],
) -> Result<(), EventError>
    requires latch { IsTagOf map.old.left.net map.old.right.net tag }
    requires enable { IsEnableAt map.old tag enable }
    requires own { IsOwnAt map.old tag enable }
    requires ready { IsReadyEnable map.old.events enable }
    requires absent { IsAbsent map.old enable }
    requires fits { FitsIn map.old tag (suc (length map.old.classes.items)) }
    requires told { AreToldAt map.old tag always told.now }
    ensures goes_on { OnOk result (GoesOn map.old map.new tag (with_next map.old tag)) }
    ensures many { result ≡ Err event_error.TooManyEvents → IsClassOver map.old tag }
    ensures large { (side : Side) → result ≡ Err (event_error.TooLarge side) → ⊥ }
    ensures limit { (latch : Tag) (other : Option Tag) (proof : Proof) → result ≡ Err (event_error.Limit latch other proof) → ⊥ }
{
    if map.classes.len() >= MAX_EVENT_CLASSES {
        return Err(EventError::TooManyEvents);
    }
    of_memory(put_founded(alloc, map, tag, enable, always, told))
}

/// The same, where there is room for one more.
fn put_founded(
    alloc: Global,
    map: &mut ClassMap,
    tag: Tag,
    enable: Enable,
    always: Difference,
    told: &[Told],
) -> Result<(), NoMemory>
    requires latch { IsTagOf map.old.left.net map.old.right.net tag }
    requires enable { IsEnableAt map.old tag enable }
    requires own { IsOwnAt map.old tag enable }
    requires ready { IsReadyEnable map.old.events enable }
    requires absent { IsAbsent map.old enable }
    requires fits { FitsIn map.old tag (suc (length map.old.classes.items)) }
    requires told { AreToldAt map.old tag always told.now }
    requires few { length map.old.classes.items < 500 }
    ensures { OnOk result (GoesOn map.old map.new tag (with_next map.old tag)) }
{
    map.left.keeps();
    map.right.keeps();
    map.events.keeps();
    let class = map.classes.len() as u32 + 1;
    keep_apart(
        alloc,
        &map.events,
        map.classes.as_slice(),
        tag,
        always,
        told,
        &mut map.aparts,
    )?;
    map.table.put(enable.value, enable.care, class)?;
    take_latch(map, tag, class)?;
    let mut founded = Class::new(alloc);
    founded.join(tag, enable)?;
    map.classes.push(founded)?;
    Ok(())
}
