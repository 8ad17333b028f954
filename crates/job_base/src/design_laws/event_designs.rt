//! What a design says of all of its nets in the event mode. None of these functions does anything: each contract is a law.

ghost use Rattle.job_base.specs.design_laws.event_designs.Laws.{EnabledAreKept, EventAgreementIsKept, EventCutsAreKept, EventCyclesAreKept};

/// The enabled latches of a design are those of its nets.
pub fn enabled_are_kept()
    ensures { EnabledAreKept }
{}

/// The latch graph of a design, where self-edges of enabled latches don't count, has the cycles of its nets'.
pub fn event_cycles_are_kept()
    ensures { EventCyclesAreKept }
{}

/// The minimal cuts of two designs are those of their nets.
pub fn event_cuts_are_kept()
    ensures { EventCutsAreKept }
{}

/// Two designs agree, and agree onward, where their nets do.
pub fn event_agreement_is_kept()
    ensures { EventAgreementIsKept }
{}
