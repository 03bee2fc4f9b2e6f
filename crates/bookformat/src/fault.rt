ghost use Rattle.std.specs.Prelude.{◌≡◌, Some};
ghost use Rattle.bookformat.specs.Refusals.{refusal, refused};

use std::fmt;

/// Why a book, a call or a path is refused, with the place.
#[derive(Clone, Copy, Debug)]
pub enum Fault {
    /// A record does not lie wholly in the book.
    RecordCut { place: usize },
    /// The book does not begin with the letters TCM.
    WrongMark,
    WrongVersion,
    /// A field of the header or of a chart's head is out of its range.
    FieldOutOfRange { place: usize },
    /// Bytes follow the last link.
    TrailingBytes { place: usize },
    /// An event's station, kind or pair does not exist, or the two events are no pair.
    BadEvent { place: usize },
    /// A constraint's first event is not directly before its second.
    NotDirectlyBefore { place: usize },
    /// An end of a constraint's interval is too large, or its ends are the wrong way round.
    BadConstraintInterval { place: usize },
    /// The same of a link's interval.
    BadLinkInterval { place: usize },
    /// An event of the chart comes before itself.
    CyclicOrder { place: usize },
    /// A link names a chart that is not there.
    NoSuchChart { place: usize },
    /// A link has an interval for a station that is unused, or silent in either chart.
    IntervalNotDue { place: usize },
    /// A register without room for a row.
    NoCapacity,
    /// No book has been taken yet.
    Idle,
    /// The state is not runs.
    NotRunning,
    /// The position is not on the path, which has so many charts.
    OffPath { charts: usize },
    TooLittleSpace { needed: usize },
    /// A link on a path that does not exist or does not begin where the path stands.
    BadLinkNumber { position: usize },
    WrongDateCount { needed: usize },
}

/// A fault in numbers, as a notice writes it.
#[derive(Clone, Copy, PartialEq, Eq, Debug)]
pub struct Refusal {
    pub number: u8,
    pub layer: u8,
    pub place: usize,
}

impl From<Fault> for Refusal {
    ghost from_gives = { λ fault told. told ≡ refusal fault };

    fn from(fault: Fault) -> Refusal {
        let (number, layer, place) = match fault {
            Fault::RecordCut { place } => (1, 1, place),
            Fault::WrongMark => (2, 1, 0),
            Fault::WrongVersion => (2, 1, 3),
            Fault::FieldOutOfRange { place } => (3, 1, place),
            Fault::TrailingBytes { place } => (4, 1, place),
            Fault::BadEvent { place } => (5, 2, place),
            Fault::NotDirectlyBefore { place } => (6, 2, place),
            Fault::BadConstraintInterval { place } => (7, 2, place),
            Fault::BadLinkInterval { place } => (7, 3, place),
            Fault::CyclicOrder { place } => (8, 2, place),
            Fault::NoSuchChart { place } => (9, 3, place),
            Fault::IntervalNotDue { place } => (10, 3, place),
            Fault::NoCapacity => (11, 4, 0),
            Fault::Idle => (12, 4, 0),
            Fault::NotRunning => (13, 4, 0),
            Fault::OffPath { charts } => (14, 4, charts),
            Fault::TooLittleSpace { needed } => (15, 4, needed),
            Fault::BadLinkNumber { position } => (16, 4, position),
            Fault::WrongDateCount { needed } => (17, 4, needed),
        };
        Refusal {
            number,
            layer,
            place,
        }
    }
}

impl fmt::Display for Refusal {
    ghost output = { λ told. Some (refused told) };

    fn fmt<W: fmt::Write>(&self, f: &mut fmt::Formatter<W>) -> fmt::Result {
        let Refusal {
            number,
            layer,
            place,
        } = *self;
        write!(f, "refused {number} {layer} {place}")
    }
}
