/// What written dates are.
// (An enum of its own: kept or broken is the product's answer, a broken position no failure of the call, and `Option<usize>` would not say which of the two `None` is.)
#[derive(Clone, Copy, PartialEq, Eq, Debug)]
pub enum Judgement {
    /// They keep every rule.
    Kept,
    /// The chart at this position of the path, and at none before it, breaks a rule.
    Broken { position: usize },
}
