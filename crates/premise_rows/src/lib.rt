//! That the premises of what is promised of comparisons and certificates are met. The functions do nothing: each contract is an example.
#![tactic(auto)]

pub mod block_premises;
pub mod certificate_premises;
pub mod event_apart_premises;
pub mod event_assume_rows;
pub mod event_class_premises;
pub mod event_limit_premises;
pub mod event_literal_premises;
pub mod event_outcome_samples;
pub mod event_pair_premises;
pub mod event_premises;
pub mod job_rows;
pub mod one_text_runs;
pub mod search_premises;
pub mod start_premises;

ghost use Rattle.premise_rows.specs.AndFile.{FileIsComparable};
ghost use Rattle.premise_rows.specs.Premises.{AndsAreComparable, RetimedAreComparable, HierarchyIsComparable, CyclicAreComparable, TextsAreAccepted};
ghost use Rattle.premise_rows.specs.RuledOut.{AndsMeetNoLimit, FaultyHasNoVerdict};
ghost use Rattle.premise_rows.specs.Certificates.{CertificatesMeetPremises};

/// Two `and`s, by other rows, can be compared.
pub fn ands_are_comparable()
    ensures { AndsAreComparable }
{}

/// An `and` as an AIGER file and as a BLIF text can be compared.
pub fn file_is_comparable()
    ensures { FileIsComparable }
{}

/// An `and` with a latch behind it, and the same with a latch at each input, can be compared.
pub fn retimed_are_comparable()
    ensures { RetimedAreComparable }
{}

/// A hierarchical circuit and a flat one can be compared.
pub fn hierarchy_is_comparable()
    ensures { HierarchyIsComparable }
{}

/// A circuit with a cycle of latches can be compared with itself, where latches may be cut open.
pub fn cyclic_are_comparable()
    ensures { CyclicAreComparable }
{}

/// All of these texts are accepted.
pub fn texts_are_accepted()
    ensures { TextsAreAccepted }
{}

/// No limit is told of two `and`s.
pub fn ands_meet_no_limit()
    ensures { AndsMeetNoLimit }
{}

/// No verdict is found of a faulty text, whatever is told of the other.
pub fn faulty_has_no_verdict()
    ensures { FaultyHasNoVerdict }
{}

/// Two `and`s, and a circuit with the same retimed, have certificates of their output.
pub fn certificates_meet_premises()
    ensures { CertificatesMeetPremises }
{}
