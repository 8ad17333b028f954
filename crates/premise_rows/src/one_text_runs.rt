//! What follows from the contract of a run: of one that compares a text with itself, and of a second one over the same shelf.

pub mod one_text;

ghost use Rattle.std.specs.Prelude.{◌≡◌, ◌≢◌, IfOk, map, string_bytes};
ghost use Rattle.std.specs.List.{All};
ghost use Rattle.command_line.specs.Jobs.{job_of};
ghost use Rattle.premise_rows.specs.one_text_runs.one_text.check_texts.Texts.{AreComparable};
ghost use Rattle.sec_run.specs.Job.{paths_in};
ghost use Rattle.sec_run.specs.Answer.{IsCutOff};
ghost use Rattle.sec_run.specs.Promises.{IsComplete};
ghost use Rattle.premise_rows.specs.one_text_runs.one_text.Itself.{OfCheck, OfOneText, IsEqualAnswer};

use base_shelves::{MemShelf, MemSink, Shelf, Sink};
use circuit_theory::Mode;
use command_line::Task;
use sec_base::{FilePath, NoMemory, Seq};
use sec_run::{Status, StatusName, run, run_job};
use std::alloc::Global;

/// Does as `run`. What its contract adds follows from that of `run`: a text that can be compared with itself is equal to itself.
pub fn run_on_one_text<S: Shelf, W: Sink>(
    alloc: Global,
    words: &[String],
    shelf: &mut S,
    out: &mut W,
) -> Status
    ensures { OfCheck (job_of (map (λ w. string_bytes w) words.now)) (λ check. OfOneText (S.held shelf.old) check (λ x. AreComparable x x check.settings.expose check.settings.reset))
        → result.name ≢ StatusName.ReadFault → result.name ≢ StatusName.WriteFault → IsEqualAnswer result.name }
{
    run(alloc, words, shelf, out)
}

/// Does the job of the words twice over one shelf, each time with a sink of its own, and ends as the second run does. What its
/// contract says follows from that of `run`: what can be done is done the second time too, and no read fails where the shelf
/// served the job's paths before the first run.
pub fn run_again<S: Shelf, W: Sink>(
    alloc: Global,
    words: &[String],
    shelf: &mut S,
    out: &mut W,
    again: &mut W,
) -> Status
    ensures complete { result.name ≢ StatusName.ReadFault → result.name ≢ StatusName.WriteFault → IsComplete (S.held shelf.old) (job_of (map (λ w. string_bytes w) words.now)) result.name }
    ensures served { All (S.serves shelf.old) (paths_in (job_of (map (λ w. string_bytes w) words.now))) → result.name ≢ StatusName.ReadFault }
    ensures accepted { result.name ≡ StatusName.WriteFault → IsCutOff (W.accepts again.old) (W.taken again.old) (W.taken again.new) (S.held shelf.old) (job_of (map (λ w. string_bytes w) words.now)) result.proofs }
{
    run(alloc, words, shelf, out);
    run(alloc, words, shelf, again)
}

/// Tells the latch graph of a text twice, from a shelf in memory that isn't told to fail: the second run reads it too.
pub fn tell_again<W: Sink>(
    alloc: Global,
    text: &[u8],
    out: &mut W,
    again: &mut W,
) -> Result<Status, NoMemory>
    ensures { IfOk result (λ status. status.name ≢ StatusName.ReadFault) }
{
    let task = Task::Graph {
        a: FilePath::from_str(alloc, "a")?,
        mode: Mode::Plain,
    };
    let mut shelf = MemShelf::new(alloc, Seq::new(alloc));
    shelf.put(alloc, "a", text)?;
    run_job(alloc, &task, &mut shelf, out);
    Ok(run_job(alloc, &task, &mut shelf, again))
}

/// Tells a sink in memory with room for 14 bytes that no words are no job: those are the bytes of the report, and no write fails.
pub fn tell_no_job(alloc: Global) -> Result<Status, NoMemory>
    ensures { IfOk result (λ status. status.name ≢ StatusName.WriteFault) }
{
    let mut shelf = MemShelf::new(alloc, Seq::new(alloc));
    let mut out = MemSink::new(alloc, 14, None, 0)?;
    Ok(run(alloc, &[], &mut shelf, &mut out))
}
