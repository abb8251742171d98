// The states of a cell, the calls on it and what they answer.
use script::{Limits, Record, RunEnd};

// Which calls a cell takes depends on its state.
#[derive(Clone, Copy, PartialEq, Eq, Debug)]
pub enum State {
    // Nothing was loaded yet.
    Empty,
    // A table is kept.
    Loaded,
    // The table's code is made.
    Coded,
    // A run was begun, and has not ended.
    Running,
    // A run has ended.
    Over,
}

#[derive(Clone, Copy, PartialEq, Eq, Debug)]
pub enum Call<'a> {
    Load(&'a [Record]),
    Compile,
    Arm(Limits),
    // At most so many steps.
    Run(u32),
    Stop,
}

// What a call that is taken answers. Three cases, so it is neither an Option nor a Result.
#[derive(Clone, Copy, PartialEq, Eq, Debug)]
pub enum Answer {
    Taken,
    // The run has made all steps granted, and has not ended.
    Paused,
    // The run has ended.
    Ended(RunEnd),
}
