// What a cell keeps.
ghost use Rattle.std.specs.Prelude.{◌≡◌, ◌≤◌, true, vec_capacity};
ghost use Rattle.cell.specs.Accepted.{accepted_in};

use crate::calls::State;
use machine::state::Machine;
use script::{Record, RunEnd};
use translator::Translation;

// Its memory is reserved once, so that no later call can fail for want of it.
#[derive(Drop)]
pub struct Cell {
    pub(crate) state: State,
    pub(crate) table: Vec<Record>,
    // the code of the table, where its functions begin, and the first numbers of its globals
    pub(crate) translation: Translation,
    // the largest frame need
    pub(crate) need: usize,
    pub(crate) machine: Machine,
    // the fuel granted at the last arm, and the steps made since
    pub(crate) fuel: u32,
    pub(crate) steps: u32,
    // how the last run ended: beside the state, since the five states are bare names, as they are asked for
    pub(crate) end: Option<RunEnd>,
    ghost room: { 1024 ≤ vec_capacity table },
    ghost accepted: { accepted_in state table.items ≡ true },
    ghost few: { need ≤ 100 },
}
