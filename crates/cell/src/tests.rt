use crate::{Answer, Call, Cell, State};
use racks::{BayTable, Rack};
use script::examples::END_BAY;
use script::{Ending, Limits, Refusal, RunEnd};
use std::alloc::Global;
use std::test::Fail;

const LIMITS: Limits = Limits { fuel: 8, depth: 1 };

// Made one after another, these lead through all states.
const WAY: [Call<'static>; 4] = [
    Call::Load(END_BAY),
    Call::Compile,
    Call::Arm(LIMITS),
    Call::Run(1000),
];

// A cell after so many calls of the way, each of which is taken.
fn cell_after(
    heap: Global,
    calls: usize,
    words: &mut [i32],
    rack: &mut BayTable,
) -> Result<Cell, Fail> {
    let mut cell = Cell::new(heap)?;
    for call in WAY.iter().take(calls) {
        cell.take(words, rack, *call)?;
    }
    Ok(cell)
}

// Whether a call is refused for the state after so many calls of the way, and leaves state, words and bays.
fn is_refused(heap: Global, calls: usize, call: Call<'_>) -> Result<bool, Fail> {
    let mut words = [9; 7];
    let mut rack = BayTable::new(1);
    let mut cell = cell_after(heap, calls, &mut words, &mut rack)?;
    let state = cell.state();
    let lent = words;
    let bay = rack.read(0);
    let answer = cell.take(&mut words, &mut rack, call);
    Ok(
        answer == Err(Refusal::WrongState)
            && cell.state() == state
            && words == lent
            && rack.read(0) == bay,
    )
}

// Which of load, compile, arm, run and stop are refused there.
fn refused(heap: Global, calls: usize) -> Result<[bool; 5], Fail> {
    Ok([
        is_refused(heap, calls, Call::Load(END_BAY))?,
        is_refused(heap, calls, Call::Compile)?,
        is_refused(heap, calls, Call::Arm(LIMITS))?,
        is_refused(heap, calls, Call::Run(1))?,
        is_refused(heap, calls, Call::Stop)?,
    ])
}

#[test]
fn refusals_by_state(rt: HostRuntime) -> Result<(), Fail> {
    let heap = rt.alloc();
    assert_eq!(rt; refused(heap, 0)?, [false, true, true, true, true]);
    assert_eq!(rt; refused(heap, 1)?, [false, false, true, true, true]);
    assert_eq!(rt; refused(heap, 2)?, [false, true, false, true, true]);
    assert_eq!(rt; refused(heap, 3)?, [true, true, true, false, false]);
    assert_eq!(rt; refused(heap, 4)?, [false, true, false, true, true]);
    Ok(())
}

#[test]
fn states_and_answers(rt: HostRuntime) -> Result<(), Fail> {
    let mut words = [9; 7];
    let mut rack = BayTable::new(3);
    let mut cell = Cell::new(rt.alloc())?;
    let end = RunEnd {
        ending: Ending::Done,
        place: 0,
    };
    assert_eq!(rt; cell.state(), State::Empty);
    assert_eq!(rt; cell.load(END_BAY), Ok(()));
    assert_eq!(rt; cell.state(), State::Loaded);
    assert_eq!(rt; cell.compile(), Ok(()));
    assert_eq!(rt; (cell.state(), cell.globals()), (State::Coded, 1));
    assert_eq!(rt; cell.arm(&mut words, LIMITS), Ok(()));
    assert_eq!(rt; cell.run(&mut words, &mut rack, 86), Ok(Answer::Paused));
    assert_eq!(rt; (cell.state(), cell.end()), (State::Running, None));
    assert_eq!(rt; cell.run(&mut words, &mut rack, 1), Ok(Answer::Ended(end)));
    assert_eq!(rt; (cell.state(), cell.end()), (State::Over, Some(end)));
    assert_eq!(rt; (cell.ticks(), cell.steps()), (8, 87));
    Ok(())
}

#[test]
fn refused_arms(rt: HostRuntime) -> Result<(), Fail> {
    let mut words = [9; 7];
    let mut rack = BayTable::new(3);
    let mut cell = cell_after(rt.alloc(), 2, &mut words, &mut rack)?;
    let much = Limits {
        fuel: 1_000_001,
        depth: 1,
    };
    let deep = Limits { fuel: 8, depth: 64 };
    assert_eq!(rt; cell.arm(&mut words, much), Err(Refusal::FuelOrDepth));
    assert_eq!(rt; cell.arm(&mut words, deep), Err(Refusal::FuelOrDepth));
    assert_eq!(rt;
        cell.arm(&mut words[..6], LIMITS),
        Err(Refusal::TooFewWords(7))
    );
    assert_eq!(rt; (cell.state(), words), (State::Coded, [9; 7]));
    Ok(())
}

#[test]
fn refused_run(rt: HostRuntime) -> Result<(), Fail> {
    let mut words = [9; 7];
    let mut rack = BayTable::new(3);
    let mut cell = cell_after(rt.alloc(), 3, &mut words, &mut rack)?;
    let lent = words;
    let answer = cell.run(&mut words[..6], &mut rack, 1);
    assert_eq!(rt; answer, Err(Refusal::TooFewWords(7)));
    assert_eq!(rt;
        (cell.state(), cell.steps(), words),
        (State::Running, 0, lent)
    );
    Ok(())
}
