//! The classes of a book's datable paths, as a system to walk through.
//!
//! Nothing here computes: each function's contract is a theorem, for the crates above to rest on.

#![tactic(auto)]

ghost use Rattle.classes.specs.Classes.{ClassesLaw};
ghost use Rattle.classes.specs.Ranged.{RangedLaw};

/// The classes of a good book are a lawful system: each datable path has one class, and a class and a link lead to one.
pub fn classes_are_lawful()
    ensures { ClassesLaw }
{}

/// They are a lawful system too where steps are made only from entries within range: each class of a datable path has them.
pub fn ranged_classes_are_lawful()
    ensures { RangedLaw }
{}
