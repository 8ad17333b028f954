//! What the search for an enable's class gives. None of these functions does anything: each contract is a law, by the definitions that the
//! contracts of the working calls cite.

ghost use Rattle.class_search.specs.class_fits.Laws.{FitIsFirst, LimitIsAsked, AlwaysLimitIsAsked, MembersGrow, MembersStay, MembersJoin};

/// The class that the search finds for a latch is its first fit.
pub fn fit_is_first()
    ensures { FitIsFirst }
{}

/// Where the search meets the limit with `always`, the query was that of the latch's enable and care.
pub fn always_limit_is_asked()
    ensures { AlwaysLimitIsAsked }
{}

/// Where it meets the limit with a member, the latch was asked about that member in its turn, and the query was that of both enables.
pub fn limit_is_asked()
    ensures { LimitIsAsked }
{}

/// The members of a class stay so while the event graph grows.
pub fn members_grow()
    ensures { MembersGrow }
{}

/// They stay so where the next latch joins another class, or this one with the literals of a member.
pub fn members_stay()
    ensures { MembersStay }
{}

/// They go on where it joins this one.
pub fn members_join()
    ensures { MembersJoin }
{}
