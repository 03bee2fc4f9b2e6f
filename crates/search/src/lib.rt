//! A walk by breadth through the classes of paths, and what its states tell of all paths.
//!
//! Nothing here computes: each function's contract is a theorem, for the crates above to rest on.

#![tactic(auto)]

ghost use Rattle.search.specs.Systems.{System, Lawful, Decided};
ghost use Rattle.search.specs.Laws.{DeterminedLaw, BudgetLaw, ProgressLaw, RowsLaw, TrailLaw, PairsLaw};
ghost use Rattle.search.specs.Laws.{PhaseLaw, EmptyLaw, RunsLaw, SpentLaw, PlaceLaw};

/// What can be walked through: each value stands for links, their paths and the classes of these.
/// (A contract cannot speak of all systems at once, so the theorems are of those of any type.)
pub trait Walkable {
    ghost system: { Self → System };
}

/// As many steps, with as much room, come to one list of rows and one state, and so does a budget.
pub fn walk_is_determined<X: Walkable>()
    ensures walk { (x : X) → Lawful (X.system x) → DeterminedLaw (X.system x) }
    ensures budget { (x : X) → BudgetLaw (X.system x) }
{}

/// Where it can be decided how paths go on, a walk begins, and an open one goes on.
pub fn walk_goes_on<X: Walkable>()
    ensures { (x : X) → Lawful (X.system x) → Decided (X.system x) → ProgressLaw (X.system x) }
{}

/// Rows are different classes, each with the path by which the walk came to it.
pub fn rows_are_classes<X: Walkable>()
    ensures rows { (x : X) → Lawful (X.system x) → RowsLaw (X.system x) }
    ensures trails { (x : X) → TrailLaw (X.system x) }
{}

/// Each pair of a row and a link is tried at most once, so a walk ends.
pub fn pairs_are_tried_once<X: Walkable>()
    ensures { (x : X) → Lawful (X.system x) → PairsLaw (X.system x) }
{}

/// What each state tells of the rows and of all paths.
pub fn states_tell_of_paths<X: Walkable>()
    ensures waiting { (x : X) → Lawful (X.system x) → PhaseLaw (X.system x) }
    ensures empty { (x : X) → Lawful (X.system x) → EmptyLaw (X.system x) }
    ensures runs { (x : X) → Lawful (X.system x) → RunsLaw (X.system x) }
    ensures spent { (x : X) → Lawful (X.system x) → SpentLaw (X.system x) }
{}

/// The next pair alone tells how a walk goes on: what was tried are the pairs before it.
pub fn next_pair_is_enough<X: Walkable>()
    ensures { (x : X) → Lawful (X.system x) → PlaceLaw (X.system x) }
{}
