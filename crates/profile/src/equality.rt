ghost use Rattle.profile.specs.Equality.{EqualityLaw};

/// `==` of two profiles compares their entries, and so it says whether they are the same.
pub fn equality_decides()
    ensures { EqualityLaw }
{}
