//! Which signals visit which places: a word for each place that was met, with a bit for each of up to 64 signals. One pass over
//! the places serves 64 signals, whose cones may have most of their places in common.

ghost use Rattle.std.specs.Prelude.{◌≡◌, ◌≢◌, ℕ, ◌+◌, ◌-◌, ◌^◌, ◌<◌, ◌≤◌, Bool, List, map, length, take, slice_get, slice_index_or, Some, All, Contains, IfOk};
ghost use Rattle.std.specs.List.{AllPairs, AllZip};
ghost use Rattle.flat_net.specs.declared.signals.Signal.{Signal};
ghost use Rattle.flat_net.specs.View.{circuit_of};
ghost use Rattle.aig.specs.declared.node.Lit.{Lit};
ghost use Rattle.cbf_unfold.specs.unfold_places.Reach.{IsMet};
ghost use Rattle.cbf_unfold.specs.unfold_places.InputOrder.{IsOrderOf};
ghost use Rattle.cbf_unfold.specs.unfold_places.Planned.{IsPlanned};
ghost use Rattle.cbf_unfold.specs.unfold_places.Visitors.{AreMet, AreReads, AreLinks, Gives, AreMarked, ArePassed, AreVisitors, AreInputNumbers, ArePlacesAt, with_bits, has_bit};

use crate::unfold_places::memo::{Memo, Place};
use crate::unfold_places::variables::input_number;
use flat_net::{Driver, Ids, Net, NoMemory, Signal, gate_of, latch_of};
use std::alloc::Global;

/// For each place that was met the numbers of the places that it reads.
pub fn links_of(alloc: Global, net: &Net, memo: &Memo) -> Result<Vec<Ids>, NoMemory>
    requires few { length memo.now < 2 ^ 32 }
    requires within { All (λ e. e.0.1 < length net.now.drivers) memo.now }
    requires planned { IsPlanned (circuit_of net.now) memo.now }
    ensures { IfOk result (λ links. AreLinks (circuit_of net.now) memo.now links.items) }
{
    let mut links = Vec::with_capacity(alloc, memo.len())?;
    for number in 0..memo.len() {
        links.push(reads_of(alloc, net, memo, number)?)?;
    }
    Ok(links)
}

/// The numbers of the places that the place with this number reads.
fn reads_of(alloc: Global, net: &Net, memo: &Memo, number: usize) -> Result<Ids, NoMemory>
    requires number { number < length memo.now }
    requires few { length memo.now < 2 ^ 32 }
    requires within { All (λ e. e.0.1 < length net.now.drivers) memo.now }
    requires planned { IsPlanned (circuit_of net.now) memo.now }
    ensures { IfOk result (λ reads. (e : (ℕ × ℕ) × Lit) → slice_get memo.now number ≡ Some e → AreReads (circuit_of net.now) memo.now e.0 reads) }
{
    net.keeps();
    let (cycle, signal) = memo.place(number);
    match net.driver(Signal(signal)) {
        Driver::Input(_) => Ok(Ids::new(alloc)),
        Driver::Gate(j) => {
            let reads = numbers_in(alloc, memo, cycle, gate_of(net, j).fanins.as_slice())?;
            Ok(reads)
        }
        Driver::Latch(j) => {
            let next = [latch_of(net, j).next];
            let reads = numbers_in(alloc, memo, cycle - 1, &next)?;
            Ok(reads)
        }
    }
}

/// The numbers of these signals' places in the cycle.
fn numbers_in(alloc: Global, memo: &Memo, cycle: u32, signals: &[Signal]) -> Result<Ids, NoMemory>
    requires few { length memo.now < 2 ^ 32 }
    requires met { All (λ f. IsMet memo.now (cycle, f.0)) signals.now }
    ensures { IfOk result (λ numbers. AllZip (λ f n. (x : Lit) × (slice_get memo.now n ≡ Some ((cycle, f.0), x))) signals.now numbers) }
{
    let mut numbers = Ids::new(alloc);
    for s in signals {
        numbers.push(memo.number((cycle, s.0)) as u32)?;
    }
    Ok(numbers)
}

/// A word for each place that was met: bit k is set exactly where the unfolding of the k-th of these signals visits it.
pub fn visitors_of(
    alloc: Global,
    net: &Net,
    memo: &Memo,
    links: &[Ids],
    last: u32,
    signals: &[Signal],
) -> Result<Vec<u64>, NoMemory>
    requires few { length signals.now ≤ 64 }
    requires links { AreLinks (circuit_of net.now) memo.now links.now }
    requires planned { IsPlanned (circuit_of net.now) memo.now }
    requires met { AreMet (circuit_of net.now) last signals.now memo.now }
    ensures { IfOk result (λ words. AreVisitors (circuit_of net.now) last signals.now memo.now words.items) }
{
    let mut words = vec![in alloc; 0u64; memo.len()]?;
    mark_roots(net, memo, last, signals, words.as_mut_slice());
    pass_all(net, memo, links, last, signals, words.as_mut_slice());
    Ok(words)
}

/// Sets each signal's bit at its own place.
fn mark_roots(net: &Net, memo: &Memo, last: u32, signals: &[Signal], words: &mut [u64])
    requires few { length signals.now ≤ 64 }
    requires met { AreMet (circuit_of net.now) last signals.now memo.now }
    requires none { AreMarked (circuit_of net.now) last signals.now memo.now 0 words.old }
    ensures { AreMarked (circuit_of net.now) last signals.now memo.now (length signals.now) words.new }
{
    memo.keeps();
    for k in 0..signals.len() {
        give(words, memo.number((last, signals[k].0)), 1 << k);
    }
}

/// Passes the bits of all places on to the places that these read, from the last place to the first.
fn pass_all(net: &Net, memo: &Memo, links: &[Ids], last: u32, signals: &[Signal], words: &mut [u64])
    requires links { AreLinks (circuit_of net.now) memo.now links.now }
    requires planned { IsPlanned (circuit_of net.now) memo.now }
    requires marked { AreMarked (circuit_of net.now) last signals.now memo.now (length signals.now) words.old }
    ensures marked { AreMarked (circuit_of net.now) last signals.now memo.now (length signals.now) words.new }
    ensures passed { ArePassed (circuit_of net.now) memo.now 0 words.new }
{
    memo.keeps();
    let mut at = memo.len();
    while at > 0 {
        at -= 1;
        pass_on(links, words, at);
    }
}

/// Passes the bits of the place with this number on to the places that it reads.
fn pass_on(links: &[Ids], words: &mut [u64], at: usize)
    requires at { at < length words.old }
    requires size { length words.old ≡ length links.now }
    requires within { (numbers : List ℕ) → slice_get links.now at ≡ Some numbers → All (λ n. n < length words.old) numbers }
    ensures { (numbers : List ℕ) → slice_get links.now at ≡ Some numbers → Gives (Contains numbers) (slice_index_or words.old at 0) words.old words.new }
{
    let word = words[at];
    if word == 0 {
        return;
    }
    let reads = &links[at];
    give_all(words, reads.as_slice(), word);
}

/// Gives the words with these numbers the bits.
fn give_all(words: &mut [u64], numbers: &[u32], word: u64)
    requires { All (λ n. n < length words.old) numbers.now }
    ensures { Gives (Contains numbers.now) word words.old words.new }
{
    for number in numbers {
        give(words, *number as usize, word);
    }
}

/// Gives the word with this number the bits.
fn give(words: &mut [u64], number: usize, word: u64)
    requires { number < length words.old }
    ensures { Gives (λ n. n ≡ number) word words.old words.new }
{
    words[number] = words[number] | word;
}

/// The numbers of the places that are inputs, in order.
pub fn input_numbers(
    alloc: Global,
    net: &Net,
    order: &[u32],
    memo: &Memo,
) -> Result<Vec<usize>, NoMemory>
    requires order { IsOrderOf net.now order.now }
    requires within { All (λ e. e.0.1 < length net.now.drivers) memo.now }
    ensures { IfOk result (λ numbers. AreInputNumbers (circuit_of net.now) order.now memo.now numbers.items) }
{
    let mut numbers = Vec::new(alloc);
    for number in 0..memo.len() {
        let (_, signal) = memo.place(number);
        let Some(_) = input_number(net, order, Signal(signal)) else {
            continue;
        };
        numbers.push(number)?;
    }
    Ok(numbers)
}

/// Those of the numbers whose words have a bit of the mask.
pub fn with_bits(
    alloc: Global,
    words: &[u64],
    numbers: &[usize],
    mask: u64,
) -> Result<Vec<usize>, NoMemory>
    requires { All (λ i. i < length words.now) numbers.now }
    ensures { IfOk result (λ found. found.items ≡ with_bits words.now mask numbers.now) }
{
    let mut found = Vec::new(alloc);
    for number in numbers {
        if !has_bit(words, *number, mask) {
            continue;
        }
        found.push(*number)?;
    }
    Ok(found)
}

/// Whether the word with this number has a bit of the mask.
fn has_bit(words: &[u64], number: usize, mask: u64) -> bool
    requires { number < length words.now }
    ensures { result ≡ has_bit words.now mask number }
{
    words[number] & mask != 0
}

/// The places with these numbers.
pub fn places_at(alloc: Global, memo: &Memo, numbers: &[usize]) -> Result<Vec<Place>, NoMemory>
    requires { All (λ i. i < length memo.now) numbers.now }
    ensures { IfOk result (λ places. ArePlacesAt memo.now numbers.now places.items) }
{
    let mut places = Vec::with_capacity(alloc, numbers.len())?;
    for number in numbers {
        places.push(memo.place(*number))?;
    }
    Ok(places)
}
