// Along the chain of rows by which a path came.
ghost use Rattle.std.specs.Prelude.{◌≡◌, reverse};
ghost use Rattle.register.specs.Meaning.{row_at};
ghost use Rattle.examination.specs.Chains.{CountsTo, ClimbsTo, LegAt, LinksTo};

use arrayvec::ArrayVec;
use history::Leg;
use register::{Origin, Register};
use routes::MOST_LINKS;
use walk::row_at;

/// Where the row at a place came from.
pub fn origin_at<R: Register>(register: &R, place: u16) -> Option<Origin>
    ensures { result ≡ (row_at (R.rows register.now) place).origin }
{
    row_at(register, place).origin
}

/// How many charts the path to a row has.
pub fn charts_to<R: Register>(register: &R, place: u16) -> usize
    ensures { CountsTo (R.rows register.now) place result }
{
    let mut at = place;
    // (As many turns as there are rows: those that something else wrote may lead round.)
    for climbed in 0..register.count() {
        match origin_at(register, at) {
            Some(origin) => at = origin.row,
            None => return usize::from(climbed) + 1,
        }
    }
    usize::from(register.count())
}

/// The row that is so many levels up from a row.
pub fn climb<R: Register>(register: &R, place: u16, levels: usize) -> u16
    ensures { ClimbsTo (R.rows register.now) place levels result }
{
    let mut at = place;
    // (So many levels, none of which needs its number.)
    for _climbed in 0..levels {
        if let Some(origin) = origin_at(register, at) {
            at = origin.row;
        }
    }
    at
}

/// The leg at a row: its chart, and the link that led to it.
pub fn leg_of<R: Register>(register: &R, place: u16) -> Leg
    ensures { LegAt (R.rows register.now) place result }
{
    let row = row_at(register, place);
    Leg {
        chart: row.class.chart,
        link: row.origin.map(|origin| origin.link),
    }
}

/// The links by which the chain of rows leads down to a row, the last one first.
fn links_up<R: Register>(register: &R, place: u16) -> ArrayVec<u8, MOST_LINKS>
    ensures { LinksTo (R.rows register.now) place (reverse result.items) }
{
    let mut links = ArrayVec::new();
    let mut at = place;
    // (As many turns as there can be links: rows that something else wrote may lead round.)
    for _climbed in 0..MOST_LINKS {
        let Some(origin) = origin_at(register, at) else {
            break;
        };
        links.push(origin.link);
        at = origin.row;
    }
    links
}

/// The links of the path to a row.
pub fn links_to<R: Register>(register: &R, place: u16) -> ArrayVec<u8, MOST_LINKS>
    ensures { LinksTo (R.rows register.now) place result.items }
{
    let mut links = links_up(register, place);
    links.reverse();
    links
}
