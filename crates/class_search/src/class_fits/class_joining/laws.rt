//! How a class map goes on. None of these functions does anything: each contract is a law, by the definitions that the contracts of the
//! working calls cite.

ghost use Rattle.class_search.specs.class_fits.class_joining.Laws.{BothHaveDepths, ClassMapBegins, ClassMapEnds, ClassIsGiven, FoundClassFits, MemberIsApart, MembersAreEqual, TableGoesOn, TableGrows};

/// Side by side the latches of two circuits have depths where those of each have.
pub fn both_have_depths()
    ensures { BothHaveDepths }
{}

/// A class map begins where all latches are of class 0.
pub fn class_map_begins()
    ensures { ClassMapBegins }
{}

/// It is the class map where all enabled latches are taken.
pub fn class_map_ends()
    ensures { ClassMapEnds }
{}

/// Where the next latch is given its first fit, the class map goes on, and what is known of the enables of the latches that were taken
/// stays.
pub fn class_is_given()
    ensures { ClassIsGiven }
{}

/// A class that a table of enables gives for a latch's literals is the latch's first fit.
pub fn found_class_fits()
    ensures { FoundClassFits }
{}

/// A table of enables goes on with the latch that is given its class.
pub fn table_goes_on()
    ensures { TableGoesOn }
{}

/// A table of enables stays right while the event graph grows.
pub fn table_grows()
    ensures { TableGrows }
{}

/// A latch whose enable isn't told apart from that of any of a class's members equals all latches of the class.
pub fn members_are_equal()
    ensures { MembersAreEqual }
{}

/// One whose enable is told apart from that of a member differs from a latch of the class.
pub fn member_is_apart()
    ensures { MemberIsApart }
{}
