//! The pair of a name.

ghost use Rattle.std.specs.Prelude.{◌≡◌, IsTrue, ◌↔◌, slice_get, Some, All, MatchOption};
ghost use Rattle.sec_setup.specs.declared.ports.pairs.SignalPair.{SignalPair};
ghost use Rattle.witness_report.specs.declared.witness.PairName.TheVariants.{Output};
ghost use Rattle.job_cert.specs.pair_clauses.Clauses.{IsPairNamed};

use sec_setup::ports::SignalPair;
use witness_report::PairName;

/// The place of the outputs of this name, if they are there.
pub(crate) fn place_of(pairs: &[SignalPair], name: &[u8]) -> Option<usize>
    ensures { MatchOption result (All (λ p. p.name ≡ Output name.now → ⊥) pairs.now) (IsPairNamed pairs.now name.now) }
{
    for (place, pair) in pairs.iter().enumerate() {
        if is_output(&pair.name, name) {
            return Some(place);
        }
    }
    None
}

/// Whether these are the outputs of this name.
fn is_output(pair: &PairName, name: &[u8]) -> bool
    ensures { IsTrue result ↔ (pair.now ≡ Output name.now) }
{
    match pair {
        PairName::Output(word) => word.as_slice() == name,
        PairName::Next(_) => false,
    }
}
