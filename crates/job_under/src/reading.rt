//! The files of two circuits and of the assumption on their inputs.

ghost use Rattle.std.specs.Prelude.{◌≡◌, ℕ, List, Err};
ghost use Rattle.base_shelves.specs.Outside.{SameHeld, NoneFell};
ghost use Rattle.job_base.specs.declared.finding.Stop.TheVariants as stop;
ghost use Rattle.job_under.specs.Ends.{IsRead};

use base_shelves::Shelf;
use flat_net::Net;
use job_base::sec_files::job_files::load_end;
use job_base::sec_files::load;
use job_base::{File, Finding, Stop};
use std::alloc::Global;

/// The paths of two circuits and of the assumption.
#[derive(Clone, Copy)]
pub struct UnderPaths<'a> {
    pub left: &'a str,
    pub right: &'a str,
    pub assumed: &'a str,
}

/// The three circuits, or how the work ends where one of them isn't loaded.
#[derive(Drop)]
pub enum ReadThree {
    Whole(Net, Net, Net),
    Ended(Result<Finding, Stop>),
}

/// Loads both circuits, A first, and then the assumption.
pub fn read_three<S: Shelf>(alloc: Global, paths: &UnderPaths<'_>, shelf: &mut S) -> ReadThree
    ensures read { IsRead (S.held shelf.old) (S.faults shelf.old) (S.faults shelf.new) paths.now.left.now paths.now.right.now paths.now.assumed.now result }
    ensures keeps { SameHeld (S.held shelf.old) (S.held shelf.new) }
    ensures later { NoneFell (S.faults shelf.old) (S.faults shelf.new) }
    ensures served { S.serves shelf.old paths.now.left.now → S.serves shelf.old paths.now.right.now → S.serves shelf.old paths.now.assumed.now → result ≡ ReadThree.Ended (Err stop.ReadFault) → ⊥ }
    ensures serving { (other : List ℕ) → S.serves shelf.old other → S.serves shelf.new other }
{
    let a = match load(alloc, shelf, paths.left) {
        Ok(a) => a,
        Err(error) => return ReadThree::Ended(load_end(File::A, error)),
    };
    let b = match load(alloc, shelf, paths.right) {
        Ok(b) => b,
        Err(error) => return ReadThree::Ended(load_end(File::B, error)),
    };
    match load(alloc, shelf, paths.assumed) {
        Ok(c) => ReadThree::Whole(a, b, c),
        Err(error) => ReadThree::Ended(load_end(File::C, error)),
    }
}
