//! What is found where a file isn't loaded.

ghost use Rattle.std.specs.Prelude.{◌≡◌};
ghost use Rattle.job_base.specs.sec_files.job_files.Ends.{load_end, stimulus_end};

use crate::sec_files::{AigerError, FlatError, LoadError, StimulusError};
use crate::{File, Finding, LineFault, Refusal, Stop};
use base_shelves::FetchError;
use blif_read::ReadError;
use witness_report::StimError;

/// What is found where the file of a circuit isn't loaded.
pub fn load_end(file: File, error: LoadError) -> Result<Finding, Stop>
    ensures { result ≡ load_end file error }
{
    match error {
        LoadError::Fetch(FetchError::Failed) => Err(Stop::ReadFault),
        LoadError::Fetch(FetchError::TooLong) => Ok(Finding::Refused(Refusal::TooLong(file))),
        LoadError::Fetch(FetchError::NoMemory) => Err(Stop::NoMemory),
        LoadError::Read(ReadError::At { line, kind }) => {
            let fault = LineFault::Circuit(kind);
            Ok(Finding::Refused(Refusal::Text(file, line, fault)))
        }
        LoadError::Read(ReadError::NoMemory) => Err(Stop::NoMemory),
        LoadError::Flat(FlatError::NoMemory) => Err(Stop::NoMemory),
        LoadError::Flat(fault) => Ok(Finding::Refused(Refusal::Design(file, fault))),
        LoadError::Aiger(AigerError::At { place, kind }) => {
            Ok(Finding::Refused(Refusal::Record(file, place, kind)))
        }
        LoadError::Aiger(AigerError::NoMemory) => Err(Stop::NoMemory),
    }
}

/// What is found where the stimulus isn't loaded.
pub fn stimulus_end(error: StimulusError) -> Result<Finding, Stop>
    ensures { result ≡ stimulus_end error }
{
    match error {
        StimulusError::Fetch(FetchError::Failed) => Err(Stop::ReadFault),
        StimulusError::Fetch(FetchError::TooLong) => {
            Ok(Finding::Refused(Refusal::TooLong(File::S)))
        }
        StimulusError::Fetch(FetchError::NoMemory) => Err(Stop::NoMemory),
        StimulusError::Read(StimError::BadHeader { line }) => {
            let fault = LineFault::BadHeader;
            Ok(Finding::Refused(Refusal::Text(File::S, line, fault)))
        }
        StimulusError::Read(StimError::BadRow { line }) => {
            let fault = LineFault::BadRow;
            Ok(Finding::Refused(Refusal::Text(File::S, line, fault)))
        }
        StimulusError::Read(StimError::NoMemory) => Err(Stop::NoMemory),
    }
}
