//! A pair is made and compared.

ghost use Rattle.std.specs.Prelude.{◌≡◌, ◌≤◌, IsErrOf};
ghost use Rattle.plain_check.specs.under_base.compare_base.Compared.{IsCompared};
ghost use Rattle.job_gen.specs.gen_meaning.Found.{AreTwins, GenFound, settings_of};

use crate::gen_meaning::{Generation, summary};
use crate::pair_gen::{Twins, generate};
use circuit_theory::Mode;
use job_base::{Finding, Stop};
use obligations::outcome::{Outcome, Settings};
use plain_check::{CompareError, compare_plainly};
use sec_base::NoMemory;
use std::alloc::Global;

/// Makes the pair of a number and compares it in the plain form. The outcome comes with its report; it is never refused.
pub fn compare_generated(alloc: Global, generation: &Generation) -> Result<Finding, Stop>
    requires { generation.now.conflicts ≤ 200000 }
    ensures found { GenFound generation.now result }
    ensures no_fault { IsErrOf result Stop.ReadFault → ⊥ }
{
    match generate(alloc, generation.seed, generation.regroup) {
        Ok(twins) => compare_twins(alloc, generation, &twins),
        Err(NoMemory) => Err(Stop::NoMemory),
    }
}

/// Compares a pair.
fn compare_twins(alloc: Global, generation: &Generation, twins: &Twins) -> Result<Finding, Stop>
    requires conflicts { generation.now.conflicts ≤ 200000 }
    requires twins { AreTwins generation.now twins.now.a twins.now.b }
    ensures found { GenFound generation.now result }
    ensures no_fault { IsErrOf result Stop.ReadFault → ⊥ }
{
    let settings = Settings {
        mode: Mode::Plain,
        expose: false,
        conflicts: generation.conflicts,
        reset: false,
    };
    twins.a.keeps();
    twins.b.keeps();
    match compare_plainly(alloc, &twins.a, &twins.b, &settings) {
        Ok(outcome) => tell(alloc, generation, twins, outcome),
        Err(error) => Err(stop_of(error)),
    }
}

/// Why a pair isn't compared: for want of memory, and for nothing else.
fn stop_of(error: CompareError) -> Stop
    requires { error ≡ CompareError.NoMemory }
    ensures { result ≡ Stop.NoMemory }
{
    match error {
        CompareError::NoMemory => Stop::NoMemory,
        _ => unreachable!(),
    }
}

/// The finding of an outcome.
fn tell(
    alloc: Global,
    generation: &Generation,
    twins: &Twins,
    outcome: Outcome,
) -> Result<Finding, Stop>
    requires twins { AreTwins generation.now twins.now.a twins.now.b }
    requires compared { IsCompared twins.now.a twins.now.b (settings_of generation.now) outcome }
    ensures found { GenFound generation.now result }
    ensures no_fault { IsErrOf result Stop.ReadFault → ⊥ }
{
    match summary(alloc, generation, twins, &outcome.verdict) {
        Ok(text) => Ok(Finding::Generated(outcome, text)),
        Err(NoMemory) => Err(Stop::NoMemory),
    }
}
