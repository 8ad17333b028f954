//! The files of two circuits and of a stimulus.

ghost use Rattle.std.specs.Prelude.{◌≡◌, ℕ, List, Err};
ghost use Rattle.base_shelves.specs.Outside.{SameHeld, NoneFell};
ghost use Rattle.job_base.specs.declared.finding.Stop.TheVariants as stop;
ghost use Rattle.job_after.specs.Read.{IsRead};

use base_shelves::Shelf;
use flat_net::Net;
use job_base::sec_files::job_files::{load_end, stimulus_end};
use job_base::sec_files::{load, load_stimulus};
use job_base::{File, Finding, Stop};
use std::alloc::Global;
use witness_report::Stimulus;

/// The paths of two circuits and of a stimulus.
#[derive(Clone, Copy)]
pub struct AfterPaths<'a> {
    pub left: &'a str,
    pub right: &'a str,
    pub stimulus: &'a str,
}

/// The two circuits and the stimulus, or how the work ends where one of them isn't loaded.
#[derive(Drop)]
pub enum ReadFiles {
    Whole(Net, Net, Stimulus),
    Ended(Result<Finding, Stop>),
}

/// Loads both circuits, A first, and then the stimulus.
pub fn read_files<S: Shelf>(alloc: Global, paths: &AfterPaths<'_>, shelf: &mut S) -> ReadFiles
    ensures read { IsRead (S.held shelf.old) (S.faults shelf.old) (S.faults shelf.new) paths.now.left.now paths.now.right.now paths.now.stimulus.now result }
    ensures keeps { SameHeld (S.held shelf.old) (S.held shelf.new) }
    ensures later { NoneFell (S.faults shelf.old) (S.faults shelf.new) }
    ensures served { S.serves shelf.old paths.now.left.now → S.serves shelf.old paths.now.right.now → S.serves shelf.old paths.now.stimulus.now → result ≡ ReadFiles.Ended (Err stop.ReadFault) → ⊥ }
    ensures serving { (other : List ℕ) → S.serves shelf.old other → S.serves shelf.new other }
{
    let a = match load(alloc, shelf, paths.left) {
        Ok(a) => a,
        Err(error) => return ReadFiles::Ended(load_end(File::A, error)),
    };
    let b = match load(alloc, shelf, paths.right) {
        Ok(b) => b,
        Err(error) => return ReadFiles::Ended(load_end(File::B, error)),
    };
    match load_stimulus(alloc, shelf, paths.stimulus) {
        Ok(stimulus) => ReadFiles::Whole(a, b, stimulus),
        Err(error) => ReadFiles::Ended(stimulus_end(error)),
    }
}
