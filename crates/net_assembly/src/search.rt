//! The order in which numbered signals can be evaluated, or a round of signals that read each other.

ghost use Rattle.std.specs.Prelude.{◌≡◌, ◌≢◌, ◌+◌, ◌-◌, ◌^◌, ◌<◌, ℕ, [], ◌∷◌, ◌++◌, length, replicate, take, slice_get, slice_set, slice_index_or, Some, All, IfOk, IfSome, IfNone, OnOk, IsTrue, ◌↔◌, ◌==◌};
ghost use Rattle.std.specs.List.{position};
ghost use Rattle.net_assembly.specs.Order.{IsOrder, IsRound, reads_of};
ghost use Rattle.net_assembly.specs.Searched.{IsMet, IsSearch, IsClosed, IsTurn, looked_at};

use sec_base::{Ids, NoMemory, Seq};
use std::alloc::Global;

/// How far the search has come with a number.
#[derive(Clone, Copy)]
enum Mark {
    New,
    /// It stands on the way, and so many of its reads were looked at.
    Entered(usize),
    Done,
}

/// What a search ends with.
#[derive(Drop)]
pub enum Found {
    /// All numbers, each behind those that it reads.
    Order(Ids),
    /// Numbers each of which is read by the next, and the last by the first.
    Round(Ids),
}

/// A search through what numbers read.
#[derive(Drop)]
struct Search {
    marks: Vec<Mark>,
    /// The numbers on the way: each reads the next.
    way: Vec<u32>,
    /// The numbers that are done.
    order: Vec<u32>,
}

impl Search {
    fn new(alloc: Global, size: usize) -> Result<Search, NoMemory>
        ensures { IfOk result (λ s. (s.marks.items ≡ replicate size Mark.New) × (s.way.items ≡ []) × (s.order.items ≡ [])) }
    {
        Ok(Search {
            marks: vec![in alloc; Mark::New; size]?,
            way: Vec::new(alloc),
            order: Vec::new(alloc),
        })
    }

    /// The last number on the way.
    fn last(&self) -> Option<u32>
        ensures { result ≡ slice_get self.now.way.items (length self.now.way.items - 1) }
    {
        self.way.last().copied()
    }

    fn is_met(&self, number: u32) -> bool
        requires { number < length self.now.marks.items }
        ensures { IsTrue result ↔ IsMet self.now.marks.items number }
    {
        !matches!(self.marks[number as usize], Mark::New)
    }

    /// How many reads of a number on the way were looked at.
    fn looked(&self, number: u32) -> usize
        requires { number < length self.now.marks.items }
        ensures { IfSome (slice_get self.now.marks.items number) (λ m. result ≡ looked_at m) }
    {
        match self.marks[number as usize] {
            Mark::Entered(looked) => looked,
            _ => 0,
        }
    }

    /// Puts a new number last on the way.
    fn enter(&mut self, number: u32) -> Result<(), NoMemory>
        requires { number < length self.old.marks.items }
        ensures marks { OnOk result (self.new.marks.items ≡ slice_set self.old.marks.items number (Mark.Entered 0)) }
        ensures way { OnOk result (self.new.way.items ≡ self.old.way.items ++ number ∷ []) }
        ensures order { OnOk result (self.new.order.items ≡ self.old.order.items) }
    {
        self.way.push(number)?;
        self.marks[number as usize] = Mark::Entered(0);
        Ok(())
    }

    /// Takes the last number off the way: all that it reads is done.
    fn leave(&mut self, number: u32) -> Result<(), NoMemory>
        requires { number < length self.old.marks.items }
        ensures marks { OnOk result (self.new.marks.items ≡ slice_set self.old.marks.items number Mark.Done) }
        ensures way { OnOk result (self.new.way.items ≡ take (length self.old.way.items - 1) self.old.way.items) }
        ensures order { OnOk result (self.new.order.items ≡ self.old.order.items ++ number ∷ []) }
    {
        self.order.push(number)?;
        self.way.pop();
        self.marks[number as usize] = Mark::Done;
        Ok(())
    }

    /// Looks at one read of the last number on the way; or leaves it, where none is left. Gives a read that stands on the
    /// way itself.
    fn turn(&mut self, graph: &[Ids], last: u32) -> Result<Option<u32>, NoMemory>
        requires within { All (λ reads. All (λ r. r < length graph.now) reads) graph.now }
        requires search { IsSearch graph.now self.old.marks.items self.old.way.items self.old.order.items }
        requires last { slice_get self.old.way.items (length self.old.way.items - 1) ≡ Some last }
        ensures goes_on { IfOk result (λ o. IfNone o (IsTurn graph.now self.old.marks.items self.new.marks.items self.new.way.items self.new.order.items)) }
        ensures closed { IfOk result (λ o. IfSome o (IsClosed graph.now self.new.way.items)) }
    {
        let looked = self.looked(last);
        let reads = graph[last as usize].as_slice();
        if looked >= reads.len() {
            self.leave(last)?;
            return Ok(None);
        }
        let read = reads[looked];
        match self.marks[read as usize] {
            Mark::New => {
                self.enter(read)?;
                Ok(None)
            }
            Mark::Entered(_) => Ok(Some(read)),
            Mark::Done => {
                self.marks[last as usize] = Mark::Entered(looked + 1);
                Ok(None)
            }
        }
    }

    /// Searches from a number until all that it reads is done. Gives a read that closes a round.
    fn run(&mut self, graph: &[Ids], start: u32) -> Result<Option<u32>, NoMemory>
        requires start { start < length graph.now }
        requires within { All (λ reads. All (λ r. r < length graph.now) reads) graph.now }
        requires search { IsSearch graph.now self.old.marks.items self.old.way.items self.old.order.items }
        requires empty { self.old.way.items ≡ [] }
        ensures search { IfOk result (λ o. IfNone o (IsSearch graph.now self.new.marks.items self.new.way.items self.new.order.items)) }
        ensures empty { IfOk result (λ o. IfNone o (self.new.way.items ≡ [])) }
        ensures met { IfOk result (λ o. IfNone o ((n : ℕ) → IsMet self.old.marks.items n → IsMet self.new.marks.items n)) }
        ensures start { IfOk result (λ o. IfNone o (IsMet self.new.marks.items start)) }
        ensures closed { IfOk result (λ o. IfSome o (IsClosed graph.now self.new.way.items)) }
    {
        if self.is_met(start) {
            return Ok(None);
        }
        self.enter(start)?;
        while let Some(last) = self.last() {
            if let Some(read) = self.turn(graph, last)? {
                return Ok(Some(read));
            }
        }
        Ok(None)
    }

    /// The round that a read on the way closes: from the last number on the way back to it.
    fn round(&self, alloc: Global, graph: &[Ids], read: u32) -> Result<Ids, NoMemory>
        requires { IsClosed graph.now self.now.way.items read }
        ensures { IfOk result (λ numbers. IsRound graph.now numbers) }
    {
        let place = place_in(self.way.as_slice(), read).unwrap_or(0);
        let mut numbers = Vec::from_slice(alloc, &self.way[place..])?;
        numbers.reverse();
        Ok(Seq::from_vec(numbers))
    }
}

/// The first place of the number.
fn place_in(numbers: &[u32], number: u32) -> Option<usize>
    ensures { result ≡ position (λ n. n == number) numbers.now }
{
    numbers.iter().position(|n| *n == number)
}

/// All numbers, each behind those that it reads; or a round of numbers that read each other.
pub fn order_of(alloc: Global, graph: &[Ids]) -> Result<Found, NoMemory>
    requires few { length graph.now < 2 ^ 32 }
    requires within { All (λ reads. All (λ r. r < length graph.now) reads) graph.now }
    ensures order { IfOk result (λ found. (order : _) → found ≡ Found.Order order → IsOrder graph.now order) }
    ensures round { IfOk result (λ found. (numbers : _) → found ≡ Found.Round numbers → IsRound graph.now numbers) }
{
    let mut search = Search::new(alloc, graph.len())?;
    for start in 0..graph.len() as u32 {
        if let Some(read) = search.run(graph, start)? {
            return Ok(Found::Round(search.round(alloc, graph, read)?));
        }
    }
    let Search {
        marks: _,
        way: _,
        order,
    } = search;
    Ok(Found::Order(Seq::from_vec(order)))
}
