//! B's net with its latches under the names of A's.

ghost use Rattle.std.specs.Prelude.{◌≡◌, ◌≤◌, length, IfOk, IfErr, OnOk};
ghost use Rattle.net_names.specs.Renamed.{name_on};
ghost use Rattle.job_pair.specs.job_renamed.Texts.{AreNamed, IsRenamedBy, LatchesFail, PairsFail};

use crate::job_renamed::pairs_text::read_pairs;
use flat_net::Net;
use job_base::PairKind;
use net_names::{LatchPair, LatchPairs, PairsError, RenameError, rename_latches};
use sec_base::{MAX_FILE_BYTES, NoMemory, Side};
use std::alloc::{AllocError, Global};

/// Why a text gives the latches of B no names.
#[derive(Clone, Copy)]
pub enum PairsStop {
    /// The number of a faulty line, from 1, and what is wrong with it.
    Line(u32, PairKind),
    /// Memory was wanted and couldn't be had.
    NoMemory,
}

impl From<AllocError> for PairsStop {
    ghost use Rattle.std.specs.Prelude.{◌≡◌};
    ghost use Rattle.job_pair.specs.declared.job_renamed.renamed_net.PairsStop.TheVariants.{NoMemory};

    ghost from_gives = { λ _ e. e ≡ NoMemory };

    fn from(_error: AllocError) -> PairsStop {
        PairsStop::NoMemory
    }
}

impl From<NoMemory> for PairsStop {
    ghost use Rattle.std.specs.Prelude.{◌≡◌};
    ghost use Rattle.job_pair.specs.declared.job_renamed.renamed_net.PairsStop.TheVariants.{NoMemory};

    ghost from_gives = { λ _ e. e ≡ NoMemory };

    fn from(_error: NoMemory) -> PairsStop {
        PairsStop::NoMemory
    }
}

impl From<PairsError> for PairsStop {
    ghost use Rattle.std.specs.Prelude.{◌≡◌};
    ghost use Rattle.job_pair.specs.job_renamed.Texts.{twice_stop};

    ghost from_gives = { λ s e. e ≡ twice_stop s };

    fn from(error: PairsError) -> PairsStop {
        match error {
            PairsError::Twice(line) => PairsStop::Line(line, PairKind::Twice),
            PairsError::NoMemory => PairsStop::NoMemory,
        }
    }
}

impl From<RenameError> for PairsStop {
    ghost use Rattle.std.specs.Prelude.{◌≡◌};
    ghost use Rattle.job_pair.specs.job_renamed.Texts.{rename_stop};

    ghost from_gives = { λ s e. e ≡ rename_stop s };

    fn from(error: RenameError) -> PairsStop {
        match error {
            RenameError::Taken(line) => PairsStop::Line(line, PairKind::Taken),
            RenameError::Order => PairsStop::NoMemory,
            RenameError::NoMemory => PairsStop::NoMemory,
        }
    }
}

/// The pair's name of a latch of this side.
fn name_on(side: Side, pair: &LatchPair) -> &[u8]
    ensures { result.now ≡ name_on side pair.now }
{
    match side {
        Side::A => pair.left.as_slice(),
        Side::B => pair.right.as_slice(),
    }
}

/// Looks for the latches of the circuit of this side.
fn find_latches(net: &Net, side: Side, pairs: &[LatchPair]) -> Result<(), PairsStop>
    ensures ok { OnOk result (AreNamed net.now side pairs.now) }
    ensures err { IfErr result (LatchesFail net.now side pairs.now) }
{
    for pair in pairs {
        if net.latch_named(name_on(side, pair)).is_none() {
            return Err(PairsStop::Line(pair.line, PairKind::Unknown(side)));
        }
    }
    Ok(())
}

/// B's net with the names that the text gives its latches.
pub(crate) fn renamed_net(alloc: Global, a: &Net, b: &Net, text: &[u8]) -> Result<Net, PairsStop>
    requires { length text.now ≤ MAX_FILE_BYTES }
    ensures ok { IfOk result (IsRenamedBy text.now a.now b.now) }
    ensures err { IfErr result (PairsFail text.now a.now b.now) }
{
    let pairs = LatchPairs::new(alloc, read_pairs(alloc, text)?)?;
    find_latches(a, Side::A, pairs.as_slice())?;
    find_latches(b, Side::B, pairs.as_slice())?;
    pairs.keeps();
    Ok(rename_latches(alloc, b, &pairs)?)
}
