//! Two files run over the stimulus of a third, from what is known of both circuits at first.

ghost use Rattle.std.specs.Prelude.{◌≡◌, ℕ, List, IsErrOf};
ghost use Rattle.base_shelves.specs.Outside.{SameHeld, NoneFell};
ghost use Rattle.job_known.specs.Found.{ResetFound, BehindFound};

use crate::replaying::{judge_behind, judge_from_reset};
use base_shelves::Shelf;
use job_after::{AfterPaths, ReadFiles, after_end, read_files};
use job_base::sec_files::job_files::stimulus_end;
use job_base::sec_files::load_stimulus;
use job_base::{Finding, Stop};
use std::alloc::Global;

/// The paths of two circuits and of the stimulus that they are run over.
#[derive(Clone, Copy)]
pub struct KnownPaths<'a> {
    pub left: &'a str,
    pub right: &'a str,
    pub stimulus: &'a str,
}

/// Loads both circuits, A first, and then the stimulus, and runs the circuits over it from their initial values. With `settles` it is told
/// how many pairs are known in both.
pub fn replay_from_reset<S: Shelf>(
    alloc: Global,
    paths: &KnownPaths<'_>,
    settles: bool,
    shelf: &mut S,
) -> Result<Finding, Stop>
    ensures found { ResetFound settles (S.held shelf.old) (S.faults shelf.old) (S.faults shelf.new) paths.now.left.now paths.now.right.now paths.now.stimulus.now result }
    ensures keeps { SameHeld (S.held shelf.old) (S.held shelf.new) }
    ensures later { NoneFell (S.faults shelf.old) (S.faults shelf.new) }
    ensures served { S.serves shelf.old paths.now.left.now → S.serves shelf.old paths.now.right.now → S.serves shelf.old paths.now.stimulus.now → IsErrOf result Stop.ReadFault → ⊥ }
    ensures serving { (other : List ℕ) → S.serves shelf.old other → S.serves shelf.new other }
{
    let files = AfterPaths {
        left: paths.left,
        right: paths.right,
        stimulus: paths.stimulus,
    };
    match read_files(alloc, &files, shelf) {
        ReadFiles::Whole(a, b, stimulus) => {
            let judged = judge_from_reset(alloc, &a, &b, &stimulus, settles);
            after_end(judged)
        }
        ReadFiles::Ended(end) => end,
    }
}

/// Loads both circuits, A first, then the stimulus behind whose rows they begin and then the one that they are run over, and runs them.
pub fn replay_behind<S: Shelf>(
    alloc: Global,
    paths: &KnownPaths<'_>,
    before: &str,
    settles: bool,
    shelf: &mut S,
) -> Result<Finding, Stop>
    ensures found { BehindFound settles (S.held shelf.old) (S.faults shelf.old) (S.faults shelf.new) paths.now.left.now paths.now.right.now before.now paths.now.stimulus.now result }
    ensures keeps { SameHeld (S.held shelf.old) (S.held shelf.new) }
    ensures later { NoneFell (S.faults shelf.old) (S.faults shelf.new) }
    ensures served { S.serves shelf.old paths.now.left.now → S.serves shelf.old paths.now.right.now → S.serves shelf.old before.now → S.serves shelf.old paths.now.stimulus.now → IsErrOf result Stop.ReadFault → ⊥ }
    ensures serving { (other : List ℕ) → S.serves shelf.old other → S.serves shelf.new other }
{
    let files = AfterPaths {
        left: paths.left,
        right: paths.right,
        stimulus: before,
    };
    match read_files(alloc, &files, shelf) {
        ReadFiles::Whole(a, b, first) => match load_stimulus(alloc, shelf, paths.stimulus) {
            Ok(stimulus) => {
                let judged = judge_behind(alloc, a, b, &first, &stimulus, settles);
                after_end(judged)
            }
            Err(error) => stimulus_end(error),
        },
        ReadFiles::Ended(end) => end,
    }
}
