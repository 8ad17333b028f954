//! Which literals of a clause follow from its others, by their reasons and the reasons of those
//! (Sorensson and Biere, minimising learned clauses). No contract speaks of it: what is found here
//! is only where it is worth to resolve.

ghost use Rattle.std.specs.Prelude.{◌≡◌, ◌<◌, ◌≤◌, length, None, IfSome};

use crate::analysis::first_decision;
use clause_watch::{ClauseDb, NoMemory, Trail};
use proof_check::Resolver;
use std::alloc::Global;

/// How many reasons are followed one after the other.
const DEPTH: u32 = 30;

/// Why a variable has its value.
#[derive(Clone, Copy)]
struct Reason {
    /// Where it stands on the trail.
    place: u32,
    /// The number of the clause.
    clause: u32,
}

/// What was found out about variables.
#[derive(Drop)]
struct Redundancy {
    /// By a variable's number whether its literal stands in the clause or follows from it.
    found: Vec<Option<bool>>,
    /// Where the literals that follow became false.
    places: Vec<u32>,
    /// The entries before this place were forced before the first decision.
    fixed: u32,
    /// The least place after those at which a literal of the clause became false.
    floor: u32,
    /// The place of the last decision.
    decision: u32,
}

impl Redundancy {
    /// Nothing was found out.
    fn new(alloc: Global, trail: &Trail, decision: u32) -> Result<Redundancy, NoMemory> {
        let count = trail.variables() as usize + 1;
        Ok(Redundancy {
            found: vec![in alloc; None; count]?,
            places: Vec::new(alloc),
            fixed: first_decision(trail, 0, trail.len()),
            floor: u32::MAX,
            decision,
        })
    }

    /// Notes whether the variable's literal follows.
    fn note(&mut self, variable: u32, follows: bool) {
        if (variable as usize) < self.found.len() {
            self.found[variable as usize] = Some(follows);
        }
    }

    /// Notes the variables of the clause.
    fn note_all(&mut self, trail: &Trail, resolver: &Resolver) {
        for variable in resolver.seen() {
            if let Some(place) = place_in(trail, resolver, *variable) {
                self.note(*variable, true);
                if self.fixed <= place && place < self.floor {
                    self.floor = place;
                }
            }
        }
    }

    /// Follows the reasons of the clause's literals.
    fn follow_all(
        &mut self,
        store: &ClauseDb,
        trail: &Trail,
        resolver: &Resolver,
    ) -> Result<(), NoMemory> {
        for variable in resolver.seen() {
            if let Some(_place) = place_in(trail, resolver, *variable) {
                let _ = self.follows(store, trail, *variable, DEPTH)?;
            }
        }
        Ok(())
    }

    /// Whether all other literals of the variable's reason stand in the clause, or follow from it by
    /// reasons of at most so many steps.
    fn follows(
        &mut self,
        store: &ClauseDb,
        trail: &Trail,
        variable: u32,
        depth: u32,
    ) -> Result<bool, NoMemory> {
        let Some(reason) = self.reason(store, trail, variable) else {
            return Ok(false);
        };
        for literal in store.clause(reason.clause) {
            let other = literal.variable();
            let follows = match self.known(variable, other, depth) {
                Some(follows) => follows,
                None => {
                    let follows = self.follows(store, trail, other, depth - 1)?;
                    self.note(other, follows);
                    follows
                }
            };
            if !follows {
                return Ok(false);
            }
        }
        self.places.push(reason.place)?;
        Ok(true)
    }

    /// Whether another literal of the variable's reason stands in the clause or follows. None where that
    /// isn't known, and reasons may still be followed.
    fn known(&self, variable: u32, other: u32, depth: u32) -> Option<bool>
        ensures { result ≡ None → 0 < depth }
    {
        if other == variable {
            return Some(true);
        }
        match self.found.get(other as usize) {
            Some(Some(follows)) => Some(*follows),
            _ => { if depth == 0 { Some(false) } else { None } }
        }
    }

    /// Whether a literal may follow that became false at the place.
    fn is_open(&self, place: u32) -> bool {
        place < self.decision && (place < self.fixed || self.floor <= place)
    }

    /// The reason of a variable, where it became false before the last decision, and not before all
    /// that was decided for the clause.
    fn reason(&self, store: &ClauseDb, trail: &Trail, variable: u32) -> Option<Reason>
        ensures { IfSome result (λ reason. reason.clause < length store.now) }
    {
        let place = place_of(trail, variable)?;
        if !self.is_open(place) {
            return None;
        }
        let clause = trail.entry(place).reason?;
        if clause as usize >= store.len() {
            return None;
        }
        Some(Reason { place, clause })
    }
}

/// Where the variable's literal became false, if the clause has it.
fn place_in(trail: &Trail, resolver: &Resolver, variable: u32) -> Option<u32> {
    if variable == 0 || variable > trail.variables() {
        return None;
    }
    let _literal = resolver.literal(variable)?;
    place_of(trail, variable)
}

/// Where the variable stands on the trail.
pub(crate) fn place_of(trail: &Trail, variable: u32) -> Option<u32>
    ensures { IfSome result (λ place. place < length trail.now.entries) }
{
    if variable == 0 || variable > trail.variables() {
        return None;
    }
    let place = trail.place(variable)?;
    if place >= trail.len() {
        return None;
    }
    Some(place)
}

/// The places at which literals became false that follow from the others of the clause, and of those
/// that they follow from, the least first.
pub(crate) fn redundant_places(
    alloc: Global,
    store: &ClauseDb,
    trail: &Trail,
    resolver: &Resolver,
    decision: u32,
) -> Result<Vec<u32>, NoMemory> {
    let mut redundancy = Redundancy::new(alloc, trail, decision)?;
    redundancy.note_all(trail, resolver);
    redundancy.follow_all(store, trail, resolver)?;
    let mut places = redundancy.places;
    places.sort_unstable();
    Ok(places)
}
