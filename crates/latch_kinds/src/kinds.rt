//! The kinds of a net's latches, or why they aren't known.

ghost use Rattle.std.specs.Prelude.{◌≡◌, ◌<◌, ◌≤◌, length, IfOk};
ghost use Rattle.flat_net.specs.Cut.{latch_at};
ghost use Rattle.circuit_theory.specs.declared.Mode.TheVariants.{Plain};
ghost use Rattle.signal_graph.specs.inner_cone.latch_cone.Kinds.{AreKindsIn};
ghost use Rattle.latch_kinds.specs.unate_enable.Recovery.{AreFactsOf};
ghost use Rattle.latch_kinds.specs.Found.{FoundAt, FoundIn, AreFound};

use crate::unate_enable::{NetFacts, Proof, RecoverError, Recovery, facts_of, recover_by};
use circuit_theory::Mode;
use flat_net::Net;
use sec_base::{MAX_CONFLICTS, NoMemory, Seq, Word};
use signal_graph::inner_cone::latch_cone::{LatchKind, all_plain};
use std::alloc::Global;

/// What each latch is, in the net's order of latches.
pub type LatchKinds = Seq<LatchKind>;

/// Why the kinds of a net's latches aren't known.
#[derive(Drop)]
pub enum KindsError {
    /// A latch is in its own cone, and that cone weighs more than 2,000,000.
    TooLarge,
    /// The name of the latch whose query wasn't decided within the limit of conflicts, and the query's proof of that.
    Limit(Word, Proof),
    /// Memory was wanted and couldn't be had.
    NoMemory,
}

impl From<NoMemory> for KindsError {
    ghost use Rattle.std.specs.Prelude.{◌≡◌};
    ghost use Rattle.latch_kinds.specs.declared.kinds.KindsError.TheVariants.{NoMemory};

    ghost from_gives = { λ _ e. e ≡ NoMemory };

    fn from(_error: NoMemory) -> KindsError {
        KindsError::NoMemory
    }
}

/// The kinds of the net's latches in the mode. In the plain mode each counts as plain. In the event mode they are found out in their
/// order, and the first that isn't ends the work.
pub fn kinds_in(
    alloc: Global,
    net: &Net,
    mode: Mode,
    conflicts: u32,
) -> Result<LatchKinds, KindsError>
    requires { conflicts ≤ MAX_CONFLICTS }
    ensures { FoundIn mode net.now conflicts result }
{
    match mode {
        Mode::Plain => Ok(plain_kinds(alloc, net)?),
        Mode::Event => recovered(alloc, net, conflicts),
    }
}

fn plain_kinds(alloc: Global, net: &Net) -> Result<LatchKinds, NoMemory>
    ensures { IfOk result (AreKindsIn Plain net.now) }
{
    let kinds = all_plain(alloc, net)?;
    Ok(Seq::from_vec(kinds))
}

/// Finds out what each latch is.
fn recovered(alloc: Global, net: &Net, conflicts: u32) -> Result<LatchKinds, KindsError>
    requires { conflicts ≤ MAX_CONFLICTS }
    ensures { AreFound net.now conflicts result }
{
    net.keeps();
    let facts = facts_of(alloc, net)?;
    let mut kinds = LatchKinds::new(alloc);
    for j in 0..net.latches().len() {
        let kind = kind_of(alloc, net, &facts, j as u32, conflicts)?;
        kinds.push(kind)?;
    }
    Ok(kinds)
}

/// Finds out what a latch is.
fn kind_of(
    alloc: Global,
    net: &Net,
    facts: &NetFacts,
    latch: u32,
    conflicts: u32,
) -> Result<LatchKind, KindsError>
    requires facts { AreFactsOf net.now facts.now }
    requires latch { latch < length net.now.latches }
    requires conflicts { conflicts ≤ MAX_CONFLICTS }
    ensures { FoundAt net.now latch conflicts result }
{
    match recover_by(alloc, net, facts, latch, conflicts) {
        Ok(Recovery::Plain) => Ok(LatchKind::Plain),
        Ok(Recovery::Enabled) => Ok(LatchKind::Enabled),
        Ok(Recovery::NotUnate(_)) => Ok(LatchKind::NotUnate),
        Ok(Recovery::Limit(proof)) => Err(KindsError::Limit(name_of(net, latch)?, proof)),
        Err(RecoverError::TooLarge) => Err(KindsError::TooLarge),
        Err(RecoverError::NoMemory) => Err(KindsError::NoMemory),
    }
}

/// The latch's name.
fn name_of(net: &Net, latch: u32) -> Result<Word, NoMemory>
    requires { latch < length net.now.latches }
    ensures { IfOk result (λ name. name ≡ (latch_at net.now latch).name) }
{
    net.latches()[latch as usize].name.copy()
}
