//! What differences show. None of these functions does anything: each contract is a law.

ghost use Rattle.event_form.specs.event_findings.event_witness.Laws.{AlwaysDifferencesMakeDiffer, DifferencesCanBeShown, DifferencesGrow};

/// Where a pair that reaches class 0 alone differs, the sequence of its query's bits makes both signals differ in all runs of the circuits.
pub fn always_differences_make_differ()
    ensures { AlwaysDifferencesMakeDiffer }
{}

/// What is asked of pairs can be shown where it differs.
pub fn differences_can_be_shown()
    ensures { DifferencesCanBeShown }
{}

/// What differs first differs first while the event graph grows.
pub fn differences_grow()
    ensures { DifferencesGrow }
{}
