//! Paths through a chart book, their datings, and the mathematics that decides them.
//!
//! Nothing here computes: each function's contract is a theorem, for the crates above to rest on.
#![tactic(auto)]

ghost use Rattle.paths.specs.Laws.{EventsLaw, SeesEvents, DriftLaw, BoundsLaw, WalkLaw, CycleLaw};
ghost use Rattle.paths.specs.Laws.{ComposeLaw, FirstLaw, ClassLaw, SameClassLaw, BeginningLaw};
ghost use Rattle.paths.specs.Laws.{ProfileLaw, StepProfileLaw, EarliestLaw};
ghost use Rattle.paths.specs.Laws.{ClosedLaw, ChartTableLaw, StepTableLaw, TablesLaw};

/// Each station has one first and one last event in a full chart, and the rules of a dating see the
/// dates of events alone.
pub fn stations_have_events()
    ensures events { EventsLaw }
    ensures sees { SeesEvents }
{}

/// A dating is exactly what keeps all bounds of its charts and links.
pub fn bounds_are_rules()
    ensures drift { DriftLaw }
    ensures bounds { BoundsLaw }
{}

/// A walk of bounds limits a difference of dates, and a cycle below 0 leaves no dating.
pub fn cycles_forbid_datings()
    ensures walk { WalkLaw }
    ensures cycle { CycleLaw }
{}

/// Whether a path followed by a link can be dated, and its profile, depend only on the path's
/// profile, the link and the chart that it enters.
pub fn paths_compose()
    ensures first { FirstLaw }
    ensures compose { ComposeLaw }
    ensures class { ClassLaw }
    ensures same { SameClassLaw }
    ensures beginning { BeginningLaw }
{}

/// A datable path has one profile, with entries within far.
pub fn profiles_exist()
    ensures path { ProfileLaw }
    ensures step { StepProfileLaw }
{}

/// A datable path has one earliest dating, and its dates fit 32 bits.
pub fn earliest_dating_exists()
    ensures { EarliestLaw }
{}

/// A closed table without a bad cycle has solutions that attain its entries; a bad cycle leaves none.
pub fn closed_tables_have_solutions()
    ensures { ClosedLaw }
{}

/// A table of a chart's or a step's bounds, closed, tells the profile, and a bad cycle that there is
/// no dating. There are such tables for every profile.
pub fn tables_decide_steps()
    ensures chart { ChartTableLaw }
    ensures step { StepTableLaw }
    ensures tables { TablesLaw }
{}
