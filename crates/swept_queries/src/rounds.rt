//! Where some query is told apart, more assignments are drawn for the others: what seldom differs is told by one of them, and isn't searched.

ghost use Rattle.std.specs.Prelude.{◌≡◌, ◌*◌, length, All, IfOk};
ghost use Rattle.swept_queries.specs.sweep.aig.Graph.{vars_of};
ghost use Rattle.swept_queries.specs.InStead.{MayBeWithin};

use crate::choice::chosen;
use crate::sides::{Known, Sides};
use crate::sweep::{Aig, NoMemory};
use crate::targets::is_any_left;
use crate::words::bit_at;
use rand_core::SeedableRng;
use rand_core::utils::NextWord;
use rand_xoshiro::Xoshiro256PlusPlus;
use std::alloc::Global;

/// How many times words are drawn, at most.
const ROUNDS: u32 = 64;

/// How many nodes are walked for that, at most.
const WALKS: u32 = 1 << 19;

/// The words, where some of the first 64 assignments gave way to others that tell further queries apart.
pub(crate) fn more_words(
    alloc: Global,
    aig: &Aig,
    given: &[Option<Sides>],
    first: Vec<u64>,
) -> Result<Vec<u64>, NoMemory>
    requires within { All (MayBeWithin aig.now) given.now }
    requires words { length first.items ≡ 8 * vars_of aig.now }
    ensures { IfOk result (λ words. length words.items ≡ 8 * vars_of aig.now) }
{
    let mut words = first;
    let mut known = chosen(alloc, aig, given, words.as_slice())?;
    let mut place = 0u32;
    let rounds = (WALKS / aig.size().max(1)).min(ROUNDS);
    for round in 0..rounds {
        if place >= 64 || !is_any_left(known.as_slice()) {
            break;
        }
        let drawn = drawn_words(alloc, aig.vars(), u64::from(round).saturating_add(2))?;
        let told = chosen(alloc, aig, given, drawn.as_slice())?;
        let next = put_told(
            words.as_mut_slice(),
            drawn.as_slice(),
            aig.vars(),
            known.as_slice(),
            told.as_slice(),
            place,
        );
        if next != place {
            place = next;
            known = chosen(alloc, aig, given, words.as_slice())?;
        }
    }
    Ok(words)
}

/// Eight words for each of so many variables, drawn with this seed.
fn drawn_words(alloc: Global, variables: u32, seed: u64) -> Result<Vec<u64>, NoMemory>
    ensures { IfOk result (λ words. length words.items ≡ 8 * variables) }
{
    let mut generator = Xoshiro256PlusPlus::seed_from_u64(seed);
    let mut words = Vec::new(alloc);
    for _n in 0..8 * (variables as usize) {
        words.push(generator.next_word())?;
    }
    Ok(words)
}

/// Puts the drawn assignments that tell apart what wasn't told into the first words, from this place on. It gives the place behind them.
fn put_told(
    words: &mut [u64],
    drawn: &[u64],
    variables: u32,
    known: &[Known],
    told: &[Known],
    from: u32,
) -> u32
    ensures { length words.new ≡ length words.old }
{
    let mut place = from;
    let mut last = 512u32;
    for i in 0..known.len().min(told.len()) {
        if let Some(lane) = lane_for(known[i], told[i])
            && lane != last
            && place < 64
        {
            put_lane(words, drawn, variables, lane, place);
            place += 1;
            last = lane;
        }
    }
    place
}

/// The assignment that tells the query apart, if it wasn't told.
fn lane_for(known: Known, told: Known) -> Option<u32> {
    match (known, told) {
        (Known::Swept(_), Known::Apart(lane)) => Some(lane),
        _ => None,
    }
}

/// Gives each variable as this bit of its first word its bit under the drawn assignment of this number.
fn put_lane(words: &mut [u64], drawn: &[u64], variables: u32, lane: u32, place: u32)
    ensures { length words.new ≡ length words.old }
{
    let bit = 1u64 << (place % 64);
    for v in 0..variables {
        let at = 8 * (v as usize);
        if at < words.len() {
            let others = words[at] & !bit;
            words[at] = if bit_at(drawn, v, lane) {
                others | bit
            } else {
                others
            };
        }
    }
}
