// The same scripts on both registers.
use profile::Profile;
use register::{Class, Entered, MOST_ROWS, Origin, Register, Row, Unmade};
use remainder::{RemainderRegister, class_sum};
use scanned::ScannedRegister;
use std::alloc::Global;
use std::process::Abort;
use std::test::Fail;

// Twelve bits of a number, each in two entries that make up for one another in the sum: unlike rows with one sum.
fn row(chart: u8, number: u16) -> Row {
    let mut entries = [0i16; 64];
    for bit in 0..12usize {
        if (number >> bit) % 2 == 1 {
            entries[2 * bit] = 1;
            entries[2 * bit + 1] = -10_007;
        }
    }
    Row {
        class: Class {
            chart,
            profile: Profile { entries },
        },
        origin: Some(Origin {
            row: number,
            link: chart,
        }),
    }
}

// The charts and numbers of the rows that are entered in turn, with the answers.
const ENTERED: [(u8, u16, Entered); 8] = [
    (0, 0, Entered::New(0)),
    (0, 1, Entered::New(1)),
    (1, 0, Entered::New(2)),
    (0, 0, Entered::Known(0)),
    (1, 1, Entered::Full),
    (0, 1, Entered::Known(1)),
    (1, 0, Entered::Known(2)),
    (1, 1, Entered::Full),
];

const ENTERED_INTO_ONE: [(u8, u16, Entered); 4] = [
    (0, 1, Entered::New(0)),
    (0, 0, Entered::Full),
    (1, 1, Entered::Full),
    (0, 1, Entered::Known(0)),
];

const ENTERED_INTO_NONE: [(u8, u16, Entered); 2] = [(0, 0, Entered::Full), (0, 0, Entered::Full)];

// Plays a script on an empty register, reads each place that is answered, and empties the register.
fn play<R: Register>(rt: &impl Abort, register: &mut R, script: &[(u8, u16, Entered)]) {
    let mut out = row(9, 9);
    assert_eq!(rt; register.count(), 0);
    for (chart, number, answer) in script {
        let entered = row(*chart, *number);
        assert_eq!(rt; register.enter(&entered), *answer);
        if let Entered::Known(place) | Entered::New(place) = *answer {
            assert!(rt; register.read(place, &mut out));
            assert!(rt; out.class == entered.class);
        }
    }
    assert_eq!(rt; register.count(), register.capacity());
    let last = out.class;
    assert!(rt; !register.read(register.count(), &mut out));
    assert!(rt; out.class == last);
    register.clear();
    assert_eq!(rt; register.count(), 0);
}

fn play_twice(
    rt: &impl Abort,
    heap: Global,
    capacity: u16,
    script: &[(u8, u16, Entered)],
) -> Result<(), Fail> {
    let mut scanned = ScannedRegister::new(heap, capacity)?;
    let mut remainder = RemainderRegister::new(heap, capacity)?;
    for _ in 0..2 {
        play(rt, &mut scanned, script);
        play(rt, &mut remainder, script);
    }
    assert_eq!(rt; scanned.capacity(), capacity);
    assert_eq!(rt; remainder.capacity(), capacity);
    Ok(())
}

#[test]
fn scripts(rt: HostRuntime) -> Result<(), Fail> {
    play_twice(&rt, rt.alloc(), 3, &ENTERED)?;
    play_twice(&rt, rt.alloc(), 1, &ENTERED_INTO_ONE)?;
    play_twice(&rt, rt.alloc(), 0, &ENTERED_INTO_NONE)
}

fn fill<R: Register>(rt: &impl Abort, register: &mut R) {
    for number in 0..MOST_ROWS {
        assert_eq!(rt; register.enter(&row(0, number)), Entered::New(number));
    }
    assert_eq!(rt; register.enter(&row(1, 0)), Entered::Full);
    for number in 0..MOST_ROWS {
        assert_eq!(rt; register.enter(&row(0, number)), Entered::Known(number));
    }
}

#[test]
fn one_sum(rt: HostRuntime) -> Result<(), Fail> {
    assert_eq!(rt; class_sum(&row(0, 0).class), class_sum(&row(0, 4095).class));
    fill(&rt, &mut ScannedRegister::new(rt.alloc(), MOST_ROWS)?);
    fill(&rt, &mut RemainderRegister::new(rt.alloc(), MOST_ROWS)?);
    Ok(())
}

#[test]
fn too_many(rt: HostRuntime) {
    let scanned = ScannedRegister::new(rt.alloc(), MOST_ROWS + 1);
    assert_eq!(rt; scanned.err(), Some(Unmade::TooManyRows));
    let remainder = RemainderRegister::new(rt.alloc(), MOST_ROWS + 1);
    assert_eq!(rt; remainder.err(), Some(Unmade::TooManyRows));
}
