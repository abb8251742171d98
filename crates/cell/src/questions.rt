// What a cell is asked.
ghost use Rattle.std.specs.Prelude.{◌≡◌};
ghost use Rattle.cell.specs.Outcomes.{code_told, ticks_told, steps_told, end_told, globals_told};
ghost use Rattle.cell.specs.Outcomes.{words_wanted, words_suffice};
ghost use Rattle.cell.specs.Showing.{shown};

use crate::calls::State;
use crate::memory::Cell;
use code::instruction::Instruction;
use script::refusal::unless;
use script::{Limits, Refusal, RunEnd};

impl Cell {
    pub fn state(&self) -> State
        ensures { result ≡ (shown self.now).state }
    {
        self.state
    }

    // The code of the table; there is none in Empty and Loaded.
    pub fn code(&self) -> &[Instruction]
        ensures { result.now ≡ code_told (shown self.now) }
    {
        match self.state {
            State::Coded | State::Running | State::Over => self.translation.code(),
            State::Empty | State::Loaded => &[],
        }
    }

    // The fuel spent since the last arm, in Running and Over. Outside a run there is nothing to tell, and no Option: the
    // rules give the controller 0.
    pub fn ticks(&self) -> u32
        ensures { result ≡ ticks_told (shown self.now) }
    {
        match self.state {
            State::Running | State::Over => self.fuel.saturating_sub(self.machine.fuel),
            State::Empty | State::Loaded | State::Coded => 0,
        }
    }

    // The instructions made since the last arm, in Running and Over; outside a run 0, as for the ticks.
    pub fn steps(&self) -> u32
        ensures { result ≡ steps_told (shown self.now) }
    {
        match self.state {
            State::Running | State::Over => self.steps,
            State::Empty | State::Loaded | State::Coded => 0,
        }
    }

    // How the run has ended, in Over.
    pub fn end(&self) -> Option<RunEnd>
        ensures { result ≡ end_told (shown self.now) }
    {
        match self.state {
            State::Over => self.end,
            State::Empty | State::Loaded | State::Coded | State::Running => None,
        }
    }

    // How many global variables there are.
    pub fn globals(&self) -> usize
        ensures { result ≡ globals_told (shown self.now) }
    {
        self.translation.globals().len()
    }

    // How many words an arm of this depth wants.
    pub fn words_wanted(&self, depth: u32) -> usize
        ensures { result ≡ words_wanted depth (shown self.now) }
    {
        Limits { fuel: 0, depth }.words_wanted(self.globals(), self.need)
    }

    // Does so long a store suffice for a run of this depth?
    pub(crate) fn check_words(&self, depth: u32, lent: usize) -> Result<(), Refusal>
        ensures { result ≡ words_suffice (words_wanted depth (shown self.now)) lent }
    {
        let wanted = self.words_wanted(depth);
        unless(lent >= wanted, Refusal::TooFewWords(wanted))
    }
}
