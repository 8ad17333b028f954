//! What the verdicts say where no latch may be cut open. The function does nothing: its contract is the law.

ghost use Rattle.plain_check.specs.under_base.Laws.{VerdictsUnder};

/// Where no latch may be cut open, the verdict is equal, and the circuits agree in the runs that meet the assumption; or different, and the
/// sequence meets it in each of its cycles and makes an output differ in all runs; or the limit.
pub fn verdicts_under()
    ensures { VerdictsUnder }
{}
