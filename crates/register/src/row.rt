// Rows, and what makes two rows the same.
ghost use Rattle.std.specs.Prelude.{◌≡◌, nat_eq, Decides};
ghost use Rattle.std.specs.Ordering.{int_eq, on, eq_of_both};
ghost use Rattle.std.specs.Cmp.Lexicographic.{pointwise};
ghost use Rattle.std.specs.Cmp.Rules.{comparing};
ghost use Rattle.std.proofs.Common.{rules};

use profile::Profile;

/// The identity of a row: two rows with one class count as one row.
#[derive(Clone, Copy, Eq, Debug)]
pub struct Class {
    pub chart: u8,
    pub profile: Profile,
}

/// The place of the row that a row came from, and the link that led on from there.
#[derive(Clone, Copy, Debug)]
pub struct Origin {
    pub row: u16,
    pub link: u8,
}

/// What a register holds. Only the row of the first chart, which no link led to, has no origin.
#[derive(Clone, Copy, Debug)]
pub struct Row {
    pub class: Class,
    pub origin: Option<Origin>,
}

// (By hand: a derived `==` computes the same, and does not say that it decides whether they are one class.)
impl PartialEq for Class {
    ghost eq = { eq_of_both (on (λ c. c.chart) nat_eq) (on (λ c. c.profile.entries) (pointwise int_eq)) };

    ghost laws = { Prim.search (comparing, rules) };

    /// Are they the same class?
    fn eq(&self, other: &Class) -> bool
        ensures computed { result ≡ eq_of_both (on (λ c. c.chart) nat_eq) (on (λ c. c.profile.entries) (pointwise int_eq)) self.now other.now }
        ensures decides { Decides result (self.now ≡ other.now) }
    {
        self.chart == other.chart && self.profile == other.profile
    }
}

impl Row {
    /// Does the row count as one row with each other row of that class?
    pub fn is_of(&self, class: &Class) -> bool
        ensures { Decides result (self.now.class ≡ class.now) }
    {
        self.class == *class
    }
}
