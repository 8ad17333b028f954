//! The files of two circuits, of the assumption on their inputs and of a stimulus.

ghost use Rattle.std.specs.Prelude.{◌≡◌, ℕ, List, Err};
ghost use Rattle.base_shelves.specs.Outside.{SameHeld, NoneFell};
ghost use Rattle.job_base.specs.declared.finding.Stop.TheVariants as stop;
ghost use Rattle.job_after_under.specs.Ends.{IsRead};

use base_shelves::Shelf;
use flat_net::Net;
use job_base::sec_files::job_files::stimulus_end;
use job_base::sec_files::load_stimulus;
use job_base::{Finding, Stop};
use job_under::{ReadThree, UnderPaths, read_three};
use std::alloc::Global;
use witness_report::Stimulus;

/// The paths of two circuits, of the assumption and of a stimulus.
#[derive(Clone, Copy)]
pub(crate) struct AfterUnderPaths<'a> {
    pub(crate) left: &'a str,
    pub(crate) right: &'a str,
    pub(crate) assumed: &'a str,
    pub(crate) stimulus: &'a str,
}

/// The three circuits and the stimulus, or how the work ends where one of them isn't loaded.
#[derive(Drop)]
pub(crate) enum ReadFour {
    Whole(Net, Net, Net, Stimulus),
    Ended(Result<Finding, Stop>),
}

/// Loads both circuits, A first, then the assumption and then the stimulus.
pub(crate) fn read_four<S: Shelf>(
    alloc: Global,
    paths: &AfterUnderPaths<'_>,
    shelf: &mut S,
) -> ReadFour
    ensures read { IsRead (S.held shelf.old) (S.faults shelf.old) (S.faults shelf.new) paths.now.left.now paths.now.right.now paths.now.assumed.now paths.now.stimulus.now result }
    ensures keeps { SameHeld (S.held shelf.old) (S.held shelf.new) }
    ensures later { NoneFell (S.faults shelf.old) (S.faults shelf.new) }
    ensures served { S.serves shelf.old paths.now.left.now → S.serves shelf.old paths.now.right.now → S.serves shelf.old paths.now.assumed.now → S.serves shelf.old paths.now.stimulus.now → result ≡ ReadFour.Ended (Err stop.ReadFault) → ⊥ }
    ensures serving { (other : List ℕ) → S.serves shelf.old other → S.serves shelf.new other }
{
    let circuits = UnderPaths {
        left: paths.left,
        right: paths.right,
        assumed: paths.assumed,
    };
    match read_three(alloc, &circuits, shelf) {
        ReadThree::Whole(a, b, c) => match load_stimulus(alloc, shelf, paths.stimulus) {
            Ok(stimulus) => ReadFour::Whole(a, b, c, stimulus),
            Err(error) => ReadFour::Ended(stimulus_end(error)),
        },
        ReadThree::Ended(end) => ReadFour::Ended(end),
    }
}
