// How walks end, and what they leave. A bay table holds every word, so no walk ends with 4, "cannot hold".
use crate::wanted::Wanted;
use crate::{ensure, tables};
use racks::{BayTable, Rack};
use script::examples::END_BAY;
use script::{Ending, Limits, Record};
use std::test::Fail;
use walk::walk;

// A walk over ten names and words, all nine, and some bays, all zero.
fn check(table: &[Record], bays: usize, limits: Limits, wanted: Wanted) -> Result<(), Fail> {
    let mut names = [9; 10];
    let mut words = [9; 10];
    let mut rack = BayTable::new(bays);
    let report = walk(table, &mut names, &mut words, &mut rack, limits)?;
    ensure(report == wanted.report(), "another report")?;
    ensure(names.starts_with(&wanted.names), "other names")?;
    ensure(words.starts_with(&wanted.words), "other words")?;
    ensure(names.iter().skip(3).all(|n| *n == 9), "names behind them")?;
    ensure(words.iter().skip(3).all(|w| *w == 9), "words behind them")?;
    for (slot, bay) in wanted.bays.iter().enumerate() {
        ensure(rack.read(slot) == *bay, "another bay")?;
    }
    Ok(())
}

fn limits(fuel: u32, depth: u32) -> Limits {
    Limits { fuel, depth }
}

const NO_BAYS: [Option<i32>; 3] = [None, None, None];

// The end-bay table: each turn of its while spends two fuel, one of them in a call.
#[test]
fn end_bay() -> Result<(), Fail> {
    check(
        END_BAY,
        3,
        limits(8, 1),
        Wanted {
            ending: Ending::Done,
            place: 0,
            answer: Some(0),
            ticks: 8,
            names: [0, 9, 9],
            words: [4, 9, 9],
            bays: [Some(1), Some(1), Some(1)],
        },
    )?;
    check(
        END_BAY,
        3,
        limits(7, 1),
        Wanted {
            ending: Ending::NoFuel,
            place: 14,
            answer: None,
            ticks: 7,
            names: [0, 9, 9],
            words: [3, 9, 9],
            bays: [Some(1), Some(1), Some(1)],
        },
    )?;
    check(
        END_BAY,
        3,
        limits(0, 1),
        Wanted {
            ending: Ending::NoFuel,
            place: 9,
            answer: None,
            ticks: 0,
            names: [0, 9, 9],
            words: [0, 9, 9],
            bays: [Some(0), Some(0), Some(0)],
        },
    )?;
    check(
        END_BAY,
        3,
        limits(1, 0),
        Wanted {
            ending: Ending::TooDeep,
            place: 14,
            answer: None,
            ticks: 1,
            names: [0, 9, 9],
            words: [0, 9, 9],
            bays: [Some(0), Some(0), Some(0)],
        },
    )?;
    check(
        END_BAY,
        2,
        limits(8, 1),
        Wanted {
            ending: Ending::NoSuchBay,
            place: 16,
            answer: None,
            ticks: 6,
            names: [0, 9, 9],
            words: [3, 9, 9],
            bays: [Some(1), Some(1), None],
        },
    )?;
    Ok(())
}

// Parts run left to right: 1 + 11, and less (2, 4). Dropped parameters stay behind the global.
#[test]
fn order() -> Result<(), Fail> {
    check(
        &tables::variable_then_call(),
        0,
        limits(1, 1),
        Wanted {
            ending: Ending::Done,
            place: 0,
            answer: Some(12),
            ticks: 1,
            names: [0, 9, 9],
            words: [11, 9, 9],
            bays: NO_BAYS,
        },
    )?;
    check(
        &tables::arguments_in_order(),
        0,
        limits(1, 1),
        Wanted {
            ending: Ending::Done,
            place: 0,
            answer: Some(-2),
            ticks: 1,
            names: [0, 1, 2],
            words: [4, 2, 4],
            bays: NO_BAYS,
        },
    )?;
    Ok(())
}

// A block's locals are dropped and stay behind; a bay holds the least word; a call without a return has the value 0.
#[test]
fn values() -> Result<(), Fail> {
    check(
        &tables::block_in_block(),
        0,
        limits(0, 0),
        Wanted {
            ending: Ending::Done,
            place: 0,
            answer: Some(7),
            ticks: 0,
            names: [0, 1, 9],
            words: [7, 5, 9],
            bays: NO_BAYS,
        },
    )?;
    check(
        &tables::least_word_in_bay(),
        1,
        limits(0, 0),
        Wanted {
            ending: Ending::Done,
            place: 0,
            answer: Some(i32::MIN),
            ticks: 0,
            names: [9, 9, 9],
            words: [9, 9, 9],
            bays: [Some(i32::MIN), None, None],
        },
    )?;
    check(
        &tables::call_without_return(),
        0,
        limits(1, 1),
        Wanted {
            ending: Ending::Done,
            place: 0,
            answer: Some(0),
            ticks: 1,
            names: [9, 9, 9],
            words: [9, 9, 9],
            bays: NO_BAYS,
        },
    )?;
    Ok(())
}
