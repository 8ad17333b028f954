//! How the count of what is unfolded begins, and what stays while the event graph grows. None of these functions does anything: each contract
//! is a law.

ghost use Rattle.event_form.specs.event_findings.unshown_pairs.class_events.Laws.{CountingBegins, ApartStays, SeparatedStay};

/// Where no event node was made and nothing was counted, what was counted is what no start visits.
pub fn counting_begins()
    ensures { CountingBegins }
{}

/// What tells two classes apart stays so while the event graph grows.
pub fn apart_stays()
    ensures { ApartStays }
{}

/// What tells each two classes of two circuits apart stays so while their event graph grows.
pub fn separated_stay()
    ensures { SeparatedStay }
{}
