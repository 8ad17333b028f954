//! From the bytes of a file to a stimulus.

ghost use Rattle.std.specs.Prelude.{◌<◌, ◌≤◌, ◌^◌, ℕ, List, length, IfOk, IfErr, IfSome, IsErrOf, Some};
ghost use Rattle.base_shelves.specs.Outside.{Rose, SameHeld, NoneFell};
ghost use Rattle.job_base.specs.sec_files.Stimuli.{IsStimulus, StimulusFails};

use base_shelves::{FetchError, Shelf, fetch};
use sec_base::MAX_FILE_BYTES;
use std::alloc::Global;
use witness_report::{StimError, Stimulus, read_stimulus};

/// Why a stimulus isn't loaded.
#[derive(Drop)]
pub enum StimulusError {
    Fetch(FetchError),
    Read(StimError),
}

/// Fetches the file at the path and reads it as a stimulus. A refusal of one step ends the work.
pub fn load_stimulus<S: Shelf>(
    alloc: Global,
    shelf: &mut S,
    path: &str,
) -> Result<Stimulus, StimulusError>
    ensures ok { IfOk result (λ s. IfSome (S.held shelf.old path.now) (λ text. IsStimulus text s.names s.rows)) }
    ensures few { IfOk result (λ s. length s.rows < 2 ^ 32) }
    ensures err { IfErr result (StimulusFails (S.held shelf.old path.now) (Rose (S.faults shelf.old path.now) (S.faults shelf.new path.now))) }
    ensures keeps { SameHeld (S.held shelf.old) (S.held shelf.new) }
    ensures later { NoneFell (S.faults shelf.old) (S.faults shelf.new) }
    ensures served { S.serves shelf.old path.now → IsErrOf result (StimulusError.Fetch FetchError.Failed) → ⊥ }
    ensures serving { (other : List ℕ) → S.serves shelf.old other → S.serves shelf.new other }
{
    let text = match fetch(alloc, shelf, path, MAX_FILE_BYTES) {
        Ok(text) => text,
        Err(error) => return Err(StimulusError::Fetch(error)),
    };
    read_text(alloc, text.as_slice())
}

/// Reads a text as a stimulus.
fn read_text(alloc: Global, text: &[u8]) -> Result<Stimulus, StimulusError>
    requires { length text.now ≤ MAX_FILE_BYTES }
    ensures ok { IfOk result (λ s. IsStimulus text.now s.names s.rows) }
    ensures few { IfOk result (λ s. length s.rows < 2 ^ 32) }
    ensures err { IfErr result (StimulusFails (Some text.now) ⊥) }
{
    match read_stimulus(alloc, text) {
        Ok(stimulus) => Ok(stimulus),
        Err(error) => Err(StimulusError::Read(error)),
    }
}
