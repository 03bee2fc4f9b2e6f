//! Profiles: how far the last dates of the stations can lie apart.
#![tactic(auto)]

ghost use Rattle.std.specs.Prelude.{◌≡◌, Decides};
ghost use Rattle.std.specs.Ordering.{int_eq, on};
ghost use Rattle.std.specs.Cmp.Lexicographic.{pointwise};
ghost use Rattle.std.specs.Cmp.Rules.{comparing};
ghost use Rattle.std.proofs.Common.{rules};

mod equality;

pub use equality::equality_decides;

/// For stations p and q, at 8·p + q: the largest value of p's last date minus q's.
// (One list of 64 and not rows of 8: registers compare and sum them, and C reads them, one by one.)
#[derive(Clone, Copy, Eq, Debug)]
pub struct Profile {
    pub entries: [i16; 64],
}

// Are the entries the same, one by one?
fn agree(one: &[i16; 64], other: &[i16; 64]) -> bool
    ensures { Decides result (one.now ≡ other.now) }
{
    one == other
}

// (By hand: a derived `==` computes the same, and does not say that it decides whether they are one profile.)
impl PartialEq for Profile {
    ghost eq = { on (λ p. p.entries) (pointwise int_eq) };

    ghost laws = { Prim.search (comparing, rules) };

    /// Are they the same profile?
    fn eq(&self, other: &Profile) -> bool
        ensures computed { result ≡ on (λ p. p.entries) (pointwise int_eq) self.now other.now }
        ensures decides { Decides result (self.now ≡ other.now) }
    {
        agree(&self.entries, &other.entries)
    }
}
