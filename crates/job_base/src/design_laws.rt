//! What a design says of all of its nets, and what is said of the nets that texts load as, of the circuits that the texts spell. None of
//! these functions does anything: each contract is a law.

pub mod event_designs;
pub mod text_circuits;

ghost use Rattle.job_base.specs.design_laws.Laws.{ClosedCutsBound, NamesAreKept, MarksAreKept, CutRunsAreKept, CyclesAreKept, MinimalCutsAreKept, AgreementIsKept};

/// A closed list of places bounds the unfolding of a design's nets with latches cut out.
pub fn closed_cuts_bound()
    ensures { ClosedCutsBound }
{}

/// The names of a net's ports and latches are its design's.
pub fn names_are_kept()
    ensures { NamesAreKept }
{}

/// What is settled in a design is settled in its nets, and the other way round, also with latches cut out.
pub fn marks_are_kept()
    ensures { MarksAreKept }
{}

/// With latches cut out, the runs of a design's nets are its own.
pub fn cut_runs_are_kept()
    ensures { CutRunsAreKept }
{}

/// The latch graph of a design has the cycles of its nets'.
pub fn cycles_are_kept()
    ensures { CyclesAreKept }
{}

/// The minimal cuts of two designs are those of their nets.
pub fn minimal_cuts_are_kept()
    ensures { MinimalCutsAreKept }
{}

/// Two designs agree onward where their nets do.
pub fn agreement_is_kept()
    ensures { AgreementIsKept }
{}
