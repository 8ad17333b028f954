//! What two circuits show of their pairs of outputs, as far as it is known.

ghost use Rattle.std.specs.Prelude.{◌≡◌, ◌||◌, ◌<◌, ◌^◌, ◌+◌, ◌++◌, [], None, false, length, map, replicate, slice_index_or, IfOk, OnOk};
ghost use Rattle.sec_setup.specs.ports.Pairs.{places_of};
ghost use Rattle.job_known.specs.Course.{IsFirst, IsSized, Steps};
ghost use Rattle.job_known.specs.Pairs.{both_known, difference_of, differences_in, some_known, ShowsKnown};
ghost use Rattle.job_known.specs.Cycle.{marked, AreWithin, PutsCycle};

use crate::course::Course;
use base_tables::NameTable;
use cycle_sim::pair_runs::{Difference, Differences};
use flat_net::{Net, Signal};
use sec_base::{Bits, NoMemory};
use sec_setup::ports::SignalPair;
use std::alloc::Global;
use witness_report::PairName;

/// What two circuits show on a stimulus, as far as it is known.
pub struct KnownReplay {
    /// The differences of pairs that are known in both, by cycle and then by pair, in the first circuit's order of outputs.
    pub differences: Differences,
    /// Of each pair whether it is known in both in some cycle.
    pub seen: Vec<bool>,
    /// In how many cycles some pair is known in both.
    pub cycles: u32,
}

/// It is let go by one call: an owner isn't taken apart field by field at each way out.
impl Drop for KnownReplay {
    fn drop(self) {
        let KnownReplay {
            differences: _,
            seen: _,
            cycles: _,
        } = self;
    }
}

/// What is known of the signal.
fn known_of(values: &[Option<bool>], signal: Signal) -> Option<bool>
    requires { signal.0 < length values.now }
    ensures { result ≡ slice_index_or values.now signal.0 None }
{
    values[signal.0 as usize]
}

/// Whether both values are known.
fn both_known(left: Option<bool>, right: Option<bool>) -> bool
    ensures { result ≡ both_known left right }
{
    match left {
        Some(_) => right.is_some(),
        None => false,
    }
}

/// The mark, or whether both values are known.
fn or_known(mark: bool, left: Option<bool>, right: Option<bool>) -> bool
    ensures { result ≡ (mark || both_known left right) }
{
    mark || both_known(left, right)
}

fn copy_name(name: &PairName) -> Result<PairName, NoMemory>
    ensures { IfOk result (λ made. made ≡ name.now) }
{
    match name {
        PairName::Output(word) => Ok(PairName::Output(word.copy()?)),
        PairName::Next(word) => Ok(PairName::Next(word.copy()?)),
    }
}

/// Puts the pair behind the differences, if both its values are known and aren't one.
fn put_difference(
    cycle: u32,
    name: &PairName,
    left: Option<bool>,
    right: Option<bool>,
    found: &mut Differences,
) -> Result<(), NoMemory>
    ensures { OnOk result (found.new ≡ found.old ++ difference_of cycle name.now left right) }
{
    let (Some(left), Some(right)) = (left, right) else {
        return Ok(());
    };
    if left == right {
        return Ok(());
    }
    found.push(Difference {
        cycle,
        pair: copy_name(name)?,
        left,
        right,
    })
}

/// Puts the differences of a cycle behind those found, in the order of the pairs.
fn put_differences(
    cycle: u32,
    left: &[Option<bool>],
    right: &[Option<bool>],
    pairs: &[SignalPair],
    found: &mut Differences,
) -> Result<(), NoMemory>
    requires { AreWithin (length left.now) (length right.now) pairs.now }
    ensures { OnOk result (found.new ≡ found.old ++ differences_in cycle (λ s. slice_index_or left.now s None) (λ s. slice_index_or right.now s None) (map places_of pairs.now)) }
{
    for pair in pairs {
        let a = known_of(left, pair.left);
        let b = known_of(right, pair.right);
        put_difference(cycle, &pair.name, a, b, found)?;
    }
    Ok(())
}

/// Marks each pair that is known in both circuits.
fn mark_known(
    left: &[Option<bool>],
    right: &[Option<bool>],
    pairs: &[SignalPair],
    seen: &mut [bool],
)
    requires within { AreWithin (length left.now) (length right.now) pairs.now }
    requires size { length seen.old ≡ length pairs.now }
    ensures { seen.new ≡ marked (λ s. slice_index_or left.now s None) (λ s. slice_index_or right.now s None) (map places_of pairs.now) seen.old }
{
    for (j, pair) in pairs.iter().enumerate() {
        let a = known_of(left, pair.left);
        let b = known_of(right, pair.right);
        seen[j] = or_known(seen[j], a, b);
    }
}

/// Whether some pair is known in both circuits.
fn some_known(left: &[Option<bool>], right: &[Option<bool>], pairs: &[SignalPair]) -> bool
    requires { AreWithin (length left.now) (length right.now) pairs.now }
    ensures { result ≡ some_known (λ s. slice_index_or left.now s None) (λ s. slice_index_or right.now s None) (map places_of pairs.now) }
{
    for pair in pairs {
        if both_known(known_of(left, pair.left), known_of(right, pair.right)) {
            return true;
        }
    }
    false
}

/// Puts what a cycle shows behind what was found before.
fn put_cycle(
    cycle: u32,
    left: &[Option<bool>],
    right: &[Option<bool>],
    pairs: &[SignalPair],
    found: &mut KnownReplay,
) -> Result<(), NoMemory>
    requires within { AreWithin (length left.now) (length right.now) pairs.now }
    requires size { length found.old.seen.items ≡ length pairs.now }
    requires room { found.old.cycles + 1 < 2 ^ 32 }
    ensures { OnOk result (PutsCycle cycle (λ s. slice_index_or left.now s None) (λ s. slice_index_or right.now s None) (map places_of pairs.now) found.old found.new) }
{
    put_differences(cycle, left, right, pairs, &mut found.differences)?;
    mark_known(left, right, pairs, &mut found.seen);
    if some_known(left, right, pairs) {
        found.cycles += 1;
    }
    Ok(())
}

/// Of so many pairs none is known in both circuits yet.
fn nothing_found(alloc: Global, count: usize) -> Result<KnownReplay, NoMemory>
    ensures differences { IfOk result (λ found. found.differences ≡ []) }
    ensures seen { IfOk result (λ found. found.seen.items ≡ replicate count false) }
    ensures cycles { IfOk result (λ found. found.cycles ≡ 0) }
{
    let seen = vec![in alloc; false; count]?;
    Ok(KnownReplay {
        differences: Differences::new(alloc),
        seen,
        cycles: 0,
    })
}

/// What is known of both circuits in the course of their runs.
struct Courses {
    left: Course,
    right: Course,
}

/// It is let go by one call: an owner isn't taken apart field by field at each way out.
impl Drop for Courses {
    fn drop(self) {
        let Courses { left: _, right: _ } = self;
    }
}

impl Courses {
    /// Both nets before their first cycle, with their initial values.
    fn new(alloc: Global, a: &Net, b: &Net, names: &NameTable) -> Result<Courses, NoMemory>
        ensures left { IfOk result (λ both. IsFirst a.now names.now both.left) }
        ensures right { IfOk result (λ both. IsFirst b.now names.now both.right) }
    {
        let left = Course::new(alloc, a, names)?;
        let right = Course::new(alloc, b, names)?;
        Ok(Courses { left, right })
    }

    /// Computes the next cycle of both from a row. It takes no memory.
    fn step(&mut self, a: &Net, b: &Net, row: &[bool])
        requires left { IsSized a.now self.old.left }
        requires right { IsSized b.now self.old.right }
        ensures left { Steps a.now row.now self.old.left self.new.left }
        ensures right { Steps b.now row.now self.old.right self.new.right }
    {
        self.left.step(a, row);
        self.right.step(b, row);
    }
}

/// What both circuits show of these pairs over the rows from their initial values, by the names of the rows' columns.
pub(crate) fn known_replay(
    alloc: Global,
    a: &Net,
    b: &Net,
    pairs: &[SignalPair],
    names: &NameTable,
    rows: &[Bits],
) -> Result<KnownReplay, NoMemory>
    requires within { AreWithin (length a.now.drivers) (length b.now.drivers) pairs.now }
    requires few { length rows.now < 2 ^ 32 }
    ensures { IfOk result (ShowsKnown a.now b.now (map places_of pairs.now) names.now rows.now) }
{
    a.keeps();
    b.keeps();
    let mut both = Courses::new(alloc, a, b, names)?;
    let mut found = nothing_found(alloc, pairs.len())?;
    for (t, row) in rows.iter().enumerate() {
        both.step(a, b, row.as_slice());
        let (left, right) = (&both.left.values, &both.right.values);
        put_cycle(t as u32, left, right, pairs, &mut found)?;
    }
    Ok(found)
}
