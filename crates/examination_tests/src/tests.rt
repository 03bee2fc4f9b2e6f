// Lists of calls on both registers, with what each call answers.
use bookformat::Refusal;
use examination::conduct;
use history::{Answer, Call, State};
use register::Register;
use remainder::RemainderRegister;
use scanned::ScannedRegister;
use std::alloc::Global;
use std::process::Abort;
use std::test::Fail;
use worked_books::{Shelf, Title};

// A call, with the title of a book in place of its bytes: a constant cannot hold those of a book that is changed.
#[derive(Clone, Copy)]
enum Ask {
    Verdict,
    Begin(Title),
    Advance(u16),
    Leg(usize),
    Dates(usize),
}

impl Ask {
    fn call<'a>(self, shelf: &'a Shelf) -> Call<'a> {
        match self {
            Ask::Verdict => Call::Verdict,
            Ask::Begin(title) => Call::Begin(shelf.book(title)),
            Ask::Advance(budget) => Call::Advance(budget),
            Ask::Leg(position) => Call::Leg(position),
            Ask::Dates(space) => Call::Dates(space),
        }
    }
}

// What a call answered, with a fault in numbers: number, layer and place.
#[derive(Clone, Copy, PartialEq, Eq, Debug)]
enum Reply {
    Told(State, usize),
    Begun(State),
    Advanced(u16, u8),
    Shown(u8, Option<u8>),
    Dated(usize),
    Refused(u8, u8, usize),
}

impl From<Answer> for Reply {
    fn from(answer: Answer) -> Reply {
        match answer {
            Answer::Told(verdict) => Reply::Told(verdict.state, verdict.charts),
            Answer::Begun(Ok(state)) => Reply::Begun(state),
            Answer::Advanced(Ok((steps, code))) => Reply::Advanced(steps, code),
            Answer::Shown(Ok(leg)) => Reply::Shown(leg.chart, leg.link),
            Answer::Dated(Ok(count)) => Reply::Dated(count),
            Answer::Begun(Err(fault))
            | Answer::Advanced(Err(fault))
            | Answer::Shown(Err(fault))
            | Answer::Dated(Err(fault)) => {
                let told = Refusal::from(fault);
                Reply::Refused(told.number, told.layer, told.place)
            }
        }
    }
}

// Stands where no date was written.
const UNWRITTEN: u32 = u32::MAX;

// Stands where no answer was written: no call answers it.
const UNANSWERED: Answer = Answer::Dated(Ok(9_999));

// Conducts the calls, compares every answer and all dates that are written, and counts the rows that are left.
fn play<R: Register>(
    rt: &impl Abort,
    heap: Global,
    register: &mut R,
    shelf: &Shelf,
    script: &[(Ask, Reply)],
    dates: &[u32],
    rows: u16,
) -> Result<(), Fail> {
    let mut calls = Vec::new(heap);
    for (ask, _) in script {
        calls.push(ask.call(shelf))?;
    }
    let mut answers = vec![in heap; UNANSWERED; calls.len()]?;
    let mut space = [UNWRITTEN; 64];
    let _ = conduct(
        register,
        calls.as_slice(),
        answers.as_mut_slice(),
        &mut space,
    )?;
    for (answer, (_, want)) in answers.iter().zip(script) {
        assert_eq!(rt; Reply::from(*answer), *want);
    }
    for (date, want) in space.iter().zip(dates) {
        assert_eq!(rt; *date, *want);
    }
    for date in space.iter().skip(dates.len()) {
        assert_eq!(rt; *date, UNWRITTEN);
    }
    assert_eq!(rt; register.count(), rows);
    Ok(())
}

// Plays a script on both registers, empty at first, and then with the rows that it left.
fn play_on_both(
    rt: &impl Abort,
    heap: Global,
    capacity: u16,
    script: &[(Ask, Reply)],
    dates: &[u32],
    rows: u16,
) -> Result<(), Fail> {
    let shelf = Shelf::new();
    let mut scanned = ScannedRegister::new(heap, capacity)?;
    let mut remainder = RemainderRegister::new(heap, capacity)?;
    for _ in 0..2 {
        play(rt, heap, &mut scanned, &shelf, script, dates, rows)?;
        play(rt, heap, &mut remainder, &shelf, script, dates, rows)?;
    }
    Ok(())
}

const NO_CAPACITY: [(Ask, Reply); 7] = [
    (Ask::Verdict, Reply::Told(State::Idle, 0)),
    (Ask::Advance(0), Reply::Refused(12, 4, 0)),
    (Ask::Leg(0), Reply::Refused(12, 4, 0)),
    (Ask::Dates(10), Reply::Refused(12, 4, 0)),
    (Ask::Begin(Title::Countdown), Reply::Refused(11, 4, 0)),
    (Ask::Begin(Title::CountdownCut), Reply::Refused(11, 4, 0)),
    (Ask::Verdict, Reply::Told(State::Idle, 0)),
];

const ONE_ROW: [(Ask, Reply); 12] = [
    (
        Ask::Begin(Title::OneMessageNear0),
        Reply::Begun(State::Empty),
    ),
    (Ask::Advance(1), Reply::Advanced(0, 3)),
    (Ask::Leg(0), Reply::Refused(13, 4, 0)),
    (Ask::Dates(1), Reply::Refused(13, 4, 0)),
    (Ask::Begin(Title::OneMessage), Reply::Begun(State::Runs)),
    (Ask::Verdict, Reply::Told(State::Runs, 1)),
    (Ask::Advance(65_535), Reply::Advanced(0, 2)),
    (Ask::Leg(0), Reply::Shown(0, None)),
    (Ask::Leg(1), Reply::Refused(14, 4, 1)),
    (Ask::Dates(2), Reply::Refused(15, 4, 3)),
    (Ask::Dates(4), Reply::Dated(3)),
    (Ask::Dates(3), Reply::Dated(3)),
];

const FOUR_ROWS: [(Ask, Reply); 11] = [
    (Ask::Begin(Title::Countdown), Reply::Begun(State::Open)),
    (Ask::Advance(65_535), Reply::Advanced(7, 4)),
    (Ask::Advance(65_535), Reply::Advanced(0, 4)),
    (Ask::Verdict, Reply::Told(State::Spent, 0)),
    (Ask::Leg(0), Reply::Refused(13, 4, 0)),
    (Ask::Dates(10), Reply::Refused(13, 4, 0)),
    (
        Ask::Begin(Title::CountdownNear2),
        Reply::Begun(State::Empty),
    ),
    (Ask::Begin(Title::CountdownLate), Reply::Begun(State::Open)),
    (Ask::Advance(6), Reply::Advanced(6, 1)),
    (Ask::Advance(65_535), Reply::Advanced(1, 3)),
    (Ask::Verdict, Reply::Told(State::Empty, 0)),
];

const FIVE_ROWS: [(Ask, Reply); 18] = [
    (Ask::Begin(Title::CountdownLate), Reply::Begun(State::Open)),
    (Ask::Advance(2), Reply::Advanced(2, 1)),
    (Ask::Begin(Title::Countdown), Reply::Begun(State::Open)),
    (Ask::Advance(0), Reply::Advanced(0, 1)),
    (Ask::Advance(1), Reply::Advanced(1, 1)),
    (Ask::Leg(0), Reply::Refused(13, 4, 0)),
    (Ask::Dates(0), Reply::Refused(13, 4, 0)),
    (Ask::Advance(5), Reply::Advanced(5, 1)),
    (Ask::Verdict, Reply::Told(State::Open, 0)),
    (Ask::Advance(65_535), Reply::Advanced(1, 2)),
    (Ask::Verdict, Reply::Told(State::Runs, 5)),
    (Ask::Leg(0), Reply::Shown(0, None)),
    (Ask::Leg(1), Reply::Shown(1, Some(0))),
    (Ask::Leg(2), Reply::Shown(1, Some(1))),
    (Ask::Leg(3), Reply::Shown(1, Some(1))),
    (Ask::Leg(4), Reply::Shown(2, Some(2))),
    (Ask::Leg(5), Reply::Refused(14, 4, 5)),
    (Ask::Dates(10), Reply::Dated(10)),
];

// What is called after a refused begin shows that the state, the rows and the next pair are left.
const REFUSED_BEGINS: [(Ask, Reply); 15] = [
    (Ask::Begin(Title::CountdownCut), Reply::Refused(1, 1, 114)),
    (Ask::Advance(1), Reply::Refused(12, 4, 0)),
    (Ask::Begin(Title::OneMessage), Reply::Begun(State::Runs)),
    (Ask::Begin(Title::CountdownCut), Reply::Refused(1, 1, 114)),
    (Ask::Leg(0), Reply::Shown(0, None)),
    (Ask::Dates(3), Reply::Dated(3)),
    (Ask::Begin(Title::Countdown), Reply::Begun(State::Open)),
    (Ask::Advance(3), Reply::Advanced(3, 1)),
    (
        Ask::Begin(Title::CountdownLonger),
        Reply::Refused(4, 1, 148),
    ),
    (Ask::Verdict, Reply::Told(State::Open, 0)),
    (Ask::Advance(65_535), Reply::Advanced(4, 2)),
    (Ask::Begin(Title::CountdownCut), Reply::Refused(1, 1, 114)),
    (Ask::Verdict, Reply::Told(State::Runs, 5)),
    (Ask::Leg(4), Reply::Shown(2, Some(2))),
    (Ask::Dates(10), Reply::Dated(10)),
];

#[test]
fn scripts(rt: HostRuntime) -> Result<(), Fail> {
    let heap = rt.alloc();
    play_on_both(&rt, heap, 0, &NO_CAPACITY, &[], 0)?;
    // three dates lent in vain, then four and three
    let dates = [UNWRITTEN, UNWRITTEN, UNWRITTEN, 0, 1, 0, UNWRITTEN, 0, 1, 0];
    play_on_both(&rt, heap, 1, &ONE_ROW, &dates, 1)?;
    play_on_both(&rt, heap, 4, &FOUR_ROWS, &[], 4)?;
    play_on_both(&rt, heap, 5, &FIVE_ROWS, &[0, 3, 2, 4, 4, 5, 6, 6, 6, 6], 5)
}

#[test]
fn refused_begins(rt: HostRuntime) -> Result<(), Fail> {
    let dates = [0, 1, 0, 0, 3, 2, 4, 4, 5, 6, 6, 6, 6];
    play_on_both(&rt, rt.alloc(), 5, &REFUSED_BEGINS, &dates, 5)
}

// Conducts calls with space for two answers and five dates, which is too little.
fn conduct_in_vain<R: Register>(
    rt: &impl Abort,
    register: &mut R,
    calls: &[Call<'_>],
    needed: usize,
) {
    let rows = register.count();
    let mut answers = [UNANSWERED; 2];
    let mut space = [UNWRITTEN; 5];
    match conduct(register, calls, &mut answers, &mut space) {
        Ok(_) => assert!(rt; false),
        Err(fault) => assert_eq!(rt;
            Reply::from(Answer::Dated(Err(fault))),
            Reply::Refused(15, 4, needed)
        ),
    }
    for answer in answers {
        assert_eq!(rt; Reply::from(answer), Reply::from(UNANSWERED));
    }
    assert_eq!(rt; space, [UNWRITTEN; 5]);
    assert_eq!(rt; register.count(), rows);
}

#[test]
fn too_little_space(rt: HostRuntime) -> Result<(), Fail> {
    let shelf = Shelf::new();
    let mut register = ScannedRegister::new(rt.alloc(), 4)?;
    play(&rt, rt.alloc(), &mut register, &shelf, &FOUR_ROWS, &[], 4)?;
    let begin = Ask::Begin(Title::OneMessage).call(&shelf);
    conduct_in_vain(
        &rt,
        &mut register,
        &[begin, Call::Verdict, Call::Verdict],
        3,
    );
    conduct_in_vain(&rt, &mut register, &[begin, Call::Dates(6)], 6);
    conduct_in_vain(&rt, &mut register, &[Call::Dates(3), Call::Dates(3)], 6);
    // more than 64 bits can tell
    let most = Call::Dates(usize::MAX);
    conduct_in_vain(&rt, &mut register, &[most, most], usize::MAX);
    Ok(())
}
