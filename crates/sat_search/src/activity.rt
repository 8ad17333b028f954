//! Which variable is decided next: no contract speaks of it but that it is free.

ghost use Rattle.std.specs.Prelude.{◌-◌, ◌<◌, ◌≤◌, ◌^◌, length};
ghost use Rattle.sat_search.specs.Answers.{IsChoice, IsFreeOne, IsFirstFree};

use crate::lesson::Learnt;
use clause_watch::{Literal, NoMemory, Trail};
use std::alloc::Global;

/// How much more a conflict counts than the one before it.
const GROWTH: f64 = 1.05;

/// Scores are made smaller where the next one would pass this.
const TOP: f64 = 1e100;

/// How many levels a heap has at most.
const LEVELS: u32 = 64;

/// How many conflicts come before the first restart.
const UNIT: u32 = 1000;

/// What is known of a variable.
#[derive(Clone, Copy)]
struct Rank {
    score: f64,
    /// Its last sign.
    sign: bool,
    /// Where it stands in the list of all variables.
    place: usize,
}

/// Scores of variables by the conflicts in which they took part, the late ones counting most, and
/// the last sign of each. Variable k + 1 has number k here.
pub(crate) struct Activity {
    ranks: Vec<Rank>,
    /// All variables. The first ones are a heap by their scores, and each free one is among them.
    heap: Vec<u32>,
    /// How many are in the heap.
    size: usize,
    step: f64,
    /// How many conflicts are left before the next restart.
    left: u32,
    /// Which restart that is, and for how many units of conflicts it waits (Luby, Sinclair and
    /// Zuckerman; by Knuth's rule).
    restart: u32,
    units: u32,
}

/// It is let go by one call: an owner isn't taken apart field by field at each way out.
impl Drop for Activity {
    fn drop(self) {
        let Activity {
            ranks: _,
            heap: _,
            size: _,
            step: _,
            left: _,
            restart: _,
            units: _,
        } = self;
    }
}

impl Activity {
    /// All variables alike.
    pub(crate) fn new(alloc: Global, variables: u32) -> Result<Activity, NoMemory> {
        let mut made = Activity {
            ranks: Vec::new(alloc),
            heap: Vec::new(alloc),
            size: variables as usize,
            step: 1.0,
            left: UNIT,
            restart: 1,
            units: 1,
        };
        for index in 0..variables {
            made.add(index)?;
        }
        Ok(made)
    }

    /// Puts a variable last.
    fn add(&mut self, index: u32) -> Result<(), NoMemory> {
        self.heap.push(index)?;
        self.ranks.push(Rank {
            score: 0.0,
            sign: false,
            place: index as usize,
        })?;
        Ok(())
    }

    /// The free variable of the greatest score, with its last sign.
    pub(crate) fn choose(&mut self, trail: &Trail) -> Option<Literal>
        ensures { IsChoice trail.now result }
    {
        if let Some(variable) = self.take_free(trail) {
            return Some(Literal::new(variable, self.rank(variable - 1).sign));
        }
        match first_free(trail) {
            Some(variable) => Some(Literal::new(variable, self.rank(variable - 1).sign)),
            None => None,
        }
    }

    /// Takes variables from the heap up to a free one.
    fn take_free(&mut self, trail: &Trail) -> Option<u32>
        ensures free { IsFreeOne trail.now result }
        ensures small { trail.now.variables ≤ 2 ^ 30 }
    {
        let variables = trail.variables();
        for _turn in 0..variables {
            if self.size == 0 {
                return None;
            }
            let index = self.take_top();
            if index < variables {
                if let None = trail.place(index + 1) {
                    return Some(index + 1);
                }
            }
        }
        None
    }

    /// Counts the conflict for the variables of the learnt clause and of its chain, and keeps the
    /// signs of the entries that will be cut.
    pub(crate) fn learn(&mut self, trail: &Trail, learnt: &Learnt)
        requires { learnt.now.keep ≤ length trail.now.entries }
    {
        for literal in learnt.clause.as_slice() {
            self.bump(literal.variable());
        }
        for step in learnt.chain.steps.as_slice() {
            self.bump(step.pivot);
        }
        self.step = self.step * GROWTH;
        if self.step > TOP {
            self.shrink();
        }
        self.release(trail, learnt.keep);
    }

    /// Takes back the variables of the entries from a place on, which will be cut, and keeps their
    /// signs.
    pub(crate) fn release(&mut self, trail: &Trail, keep: u32)
        requires { keep ≤ length trail.now.entries }
    {
        for place in keep..trail.len() {
            let literal = trail.entry(place).literal;
            self.keep_sign(literal);
            self.put_back(literal.variable());
        }
    }

    /// Counts a conflict, and tells whether it is time to begin again.
    pub(crate) fn is_due(&mut self) -> bool {
        if self.left > 1 {
            self.left -= 1;
            return false;
        }
        let lowest_bit = self.restart & !self.restart.wrapping_sub(1);
        if lowest_bit == self.units {
            self.restart = self.restart.wrapping_add(1);
            self.units = 1;
        } else {
            self.units = self.units.wrapping_mul(2);
        }
        self.left = self.units.wrapping_mul(UNIT);
        true
    }

    /// Makes all scores smaller alike.
    fn shrink(&mut self) {
        for rank in self.ranks.iter_mut() {
            rank.score = rank.score / TOP;
        }
        self.step = self.step / TOP;
    }

    fn bump(&mut self, variable: u32) {
        let index = (variable as usize).wrapping_sub(1);
        if index < self.ranks.len() {
            let mut rank = self.ranks[index];
            rank.score = rank.score + self.step;
            self.ranks[index] = rank;
            if rank.place < self.size {
                self.rise(rank.place);
            }
        }
    }

    fn keep_sign(&mut self, literal: Literal) {
        let index = literal.variable() as usize;
        if index <= self.ranks.len() {
            self.ranks[index - 1].sign = literal.is_positive();
        }
    }

    /// Puts a variable into the heap, where it isn't there.
    fn put_back(&mut self, variable: u32)
        requires { 0 < variable }
    {
        let place = self.rank(variable - 1).place;
        let last = self.size;
        if last <= place && last < self.heap.len() {
            self.exchange(place, last);
            self.size = last + 1;
            self.rise(last);
        }
    }

    /// Takes the first variable from the heap.
    fn take_top(&mut self) -> u32 {
        let top = self.at(0);
        if 0 < self.size {
            let last = self.size - 1;
            self.exchange(0, last);
            self.size = last;
            self.sink();
        }
        top
    }

    /// Lets the variable at a place rise to where none of a lower score stands above it.
    fn rise(&mut self, from: usize) {
        let index = self.at(from);
        let score = self.rank(index).score;
        let mut place = from;
        for _level in 0..LEVELS {
            if place == 0 {
                break;
            }
            let above = (place - 1) / 2;
            let parent = self.at(above);
            if self.rank(parent).score >= score {
                break;
            }
            self.set(place, parent);
            place = above;
        }
        self.set(place, index);
    }

    /// Lets the first variable sink to where none of a greater score stands below it.
    fn sink(&mut self) {
        let index = self.at(0);
        let score = self.rank(index).score;
        let mut place = 0;
        for _level in 0..LEVELS {
            if place >= self.size / 2 {
                break;
            }
            let below = self.greater_child(place);
            let child = self.at(below);
            if self.rank(child).score <= score {
                break;
            }
            self.set(place, child);
            place = below;
        }
        self.set(place, index);
    }

    /// That of the two places below this one which has the greater score.
    fn greater_child(&self, place: usize) -> usize
        requires { place < 2 ^ 63 - 1 }
    {
        let left = 2 * place + 1;
        let right = left + 1;
        if right < self.size && self.rank(self.at(right)).score >= self.rank(self.at(left)).score {
            right
        } else {
            left
        }
    }

    /// Exchanges the variables at two places.
    fn exchange(&mut self, first: usize, second: usize) {
        let left = self.at(first);
        let right = self.at(second);
        self.set(first, right);
        self.set(second, left);
    }

    fn set(&mut self, place: usize, index: u32) {
        if place < self.heap.len() {
            self.heap[place] = index;
        }
        if (index as usize) < self.ranks.len() {
            self.ranks[index as usize].place = place;
        }
    }

    fn at(&self, place: usize) -> u32 {
        self.heap.get(place).copied().unwrap_or(0)
    }

    fn rank(&self, index: u32) -> Rank {
        let none = Rank {
            score: 0.0,
            sign: false,
            place: 0,
        };
        self.ranks.get(index as usize).copied().unwrap_or(none)
    }
}

/// The first free variable.
fn first_free(trail: &Trail) -> Option<u32>
    ensures free { IsFirstFree trail.now result }
    ensures small { trail.now.variables ≤ 2 ^ 30 }
{
    for index in 0..trail.variables() {
        match trail.place(index + 1) {
            Some(_) => {}
            None => return Some(index + 1),
        }
    }
    None
}
