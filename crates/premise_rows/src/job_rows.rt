//! That the premises of what is promised of latch graphs, runs, replays and refutations are met, and that a text has one report of each. The
//! functions do nothing: each contract is an example or a law.

pub mod nested_rows;

ghost use Rattle.premise_rows.specs.job_rows.OneReport.{GraphReportsAreOne, SimReportsAreOne};
ghost use Rattle.premise_rows.specs.job_rows.Stimuli.{TwoCanBeRun};
ghost use Rattle.premise_rows.specs.job_rows.Started.{StartedPowersUp};
ghost use Rattle.premise_rows.specs.job_rows.Enables.{EnablesMeetPremises};
ghost use Rattle.premise_rows.specs.job_rows.Replays.{ReplaysMeetPremises};
ghost use Rattle.premise_rows.specs.job_rows.Ring.{RingIsCutOnce};
ghost use Rattle.premise_rows.specs.job_rows.Refutations.{UnitsAreRefuted, PairsAreRefuted};
ghost use Rattle.premise_rows.specs.job_rows.Writing.{UnitsCanBeWritten, DetourCanBeWritten};

/// Two latches in a row can be run over a stimulus, from a power word and without one, and behind the rows of a stimulus.
pub fn two_can_be_run()
    ensures { TwoCanBeRun }
{}

/// Three latches power up with their initial values where they have them, and else with the power word.
pub fn started_powers_up()
    ensures { StartedPowersUp }
{}

/// In the event mode a latch behind an enable can be told as enabled and run, and one that toggles can be told as not unate.
pub fn enables_meet_premises()
    ensures { EnablesMeetPremises }
{}

/// Two circuits can be replayed on a stimulus, in both modes, as they are and with a latch cut open.
pub fn replays_meet_premises()
    ensures { ReplaysMeetPremises }
{}

/// Of two latches that take over each other at most one is cut open.
pub fn ring_is_cut_once()
    ensures { RingIsCutOnce }
{}

/// A variable and its negation, and all clauses of two variables, are refuted by texts.
pub fn refutations_are_checked()
    ensures units { UnitsAreRefuted }
    ensures pairs { PairsAreRefuted }
{}

/// Two sets of clauses are refuted by logs that can be written, of which the second has steps that its text leaves out.
pub fn refutations_can_be_written()
    ensures units { UnitsCanBeWritten }
    ensures detour { DetourCanBeWritten }
{}

/// A text has one report of its latch graph, up to the cycle that is told.
pub fn graph_reports_are_one()
    ensures { GraphReportsAreOne }
{}

/// A text has one report of its run over a stimulus.
pub fn sim_reports_are_one()
    ensures { SimReportsAreOne }
{}
