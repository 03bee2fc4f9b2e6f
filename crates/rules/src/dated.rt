ghost use Rattle.std.specs.Prelude.{◌≡◌, length};

use fullchart::FullChart;

/// A full chart with a date for each of its events.
#[derive(Clone, Copy)]
pub struct DatedChart<'a> {
    pub full: &'a FullChart,
    pub dates: &'a [u32],
    pub ghost each: { length dates.now ≡ length full.now.stations.items },
}
