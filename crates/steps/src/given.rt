// A profile that is handed in.
ghost use Rattle.std.specs.Prelude.{◌≡◌, ◌<◌};
ghost use Rattle.closure.specs.Tickings.{WithinTicks};
ghost use Rattle.profile.specs.Ranges.{InRange};
ghost use Rattle.steps.specs.Parts.{entries_of};

// A profile that is handed in: its entries are near enough to 0 for a table.
#[derive(Drop)]
pub struct GivenProfile<'a> {
    pub entries: &'a [i16; 64],
    ghost near: { InRange entries.now },
}

impl<'a> GivenProfile<'a> {
    // The largest value of p's last date minus q's.
    pub fn entry(&self, p: usize, q: usize) -> i32
        requires { (p < 8) × (q < 8) }
        ensures is { result ≡ entries_of self.now.entries.now p q }
        ensures near { WithinTicks 10000 result }
    {
        i32::from(self.entries[8 * p + q])
    }
}
