// What a type of weights must offer, and which laws it must keep.
ghost use Rattle.std.specs.Prelude.{◌≡◌, Decides};
ghost use Rattle.closure.specs.Kinds.{Meaning, Laws, most_links};

/// A kind of weight: an order, an operation, its unit and a worst weight.
pub trait Weight: Copy {
    // The weight that each value means, with the order and the operation on such weights.
    ghost meaning: { Meaning Self };

    /// The weight that changes no weight it follows or is followed by.
    fn unit() -> Self
        ensures { meaning.value result ≡ meaning.kind.unit };

    /// The weight of what is not linked: the worst.
    fn none() -> Self
        ensures { meaning.value result ≡ meaning.kind.none };

    /// Whether a table that is to be closed may hold this weight.
    fn is_given(self) -> bool
        ensures { Decides result (meaning.kind.reach 1 (meaning.value self)) };

    /// This weight and then the next.
    fn follow(self, next: Self) -> Self
        requires { (meaning.kind.reach most_links (meaning.value self)) × (meaning.kind.reach most_links (meaning.value next)) }
        ensures { meaning.value result ≡ meaning.kind.follow (meaning.value self) (meaning.value next) };

    /// Whether this weight is better than the other.
    fn is_better(self, other: Self) -> bool
        ensures { result ≡ meaning.kind.better (meaning.value self) (meaning.value other) };

    // What each `impl` must prove.
    ghost laws: { Laws meaning.kind };
}
