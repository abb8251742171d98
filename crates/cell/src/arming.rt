// The call that begins a run.
ghost use Rattle.std.specs.Prelude.{◌≡◌, ◌≤◌, true, length};
ghost use Rattle.cell.specs.declared.calls.State.TheVariants.{Coded};
ghost use Rattle.cell.specs.Outcomes.{arms, either, arm_rules, with_run, with_literals, words_wanted};
ghost use Rattle.cell.specs.Showing.{shown};

use crate::calls::State;
use crate::memory::Cell;
use kinds::NumberKind;
use machine::state::Machine;
use script::{Limits, Refusal};

impl Cell {
    // Begins a run of the code.
    pub(crate) fn begin<W: NumberKind + Copy>(
        &mut self,
        words: &mut [W],
        limits: Limits,
    ) -> Result<(), Refusal>
        requires { arms self.old.state ≡ true }
        ensures answer { result ≡ arm_rules Coded limits
            (words_wanted limits.depth (shown self.old)) (length words.old) }
        ensures cell { shown self.new ≡ either result (with_run limits (shown self.old))
            (shown self.old) }
        ensures words { words.new ≡ either result
            (with_literals W.NumberKind.kind (shown self.old).numbers words.old)
            words.old }
    {
        limits.check()?;
        self.check_words(limits.depth, words.len())?;
        write_literals(self.translation.globals(), words);
        self.machine = Machine::new(self.globals(), limits.depth as usize, limits.fuel);
        self.fuel = limits.fuel;
        self.steps = 0;
        self.end = None;
        self.state = State::Running;
        Ok(())
    }

    // Begins a run of the code over these words, with a limit to its fuel and to the calls open at once.
    pub fn arm<W: NumberKind + Copy>(
        &mut self,
        words: &mut [W],
        limits: Limits,
    ) -> Result<(), Refusal>
        ensures answer { result ≡ arm_rules (shown self.old).state limits
            (words_wanted limits.depth (shown self.old)) (length words.old) }
        ensures cell { shown self.new ≡ either result (with_run limits (shown self.old))
            (shown self.old) }
        ensures words { words.new ≡ either result
            (with_literals W.NumberKind.kind (shown self.old).numbers words.old)
            words.old }
    {
        match self.state {
            State::Coded | State::Over => self.begin(words, limits),
            State::Empty | State::Loaded | State::Running => Err(Refusal::WrongState),
        }
    }
}

// Writes the literals of the numbers into the first words. By an index: `iter_mut` under `zip` was tried, and tells a
// proof nothing of the words written.
fn write_literals<W: NumberKind + Copy>(numbers: &[i32], words: &mut [W])
    requires { length numbers.now ≤ length words.old }
    ensures { words.new ≡ with_literals W.NumberKind.kind numbers.now words.old }
{
    for (i, number) in numbers.iter().enumerate() {
        words[i] = W::literal(*number);
    }
}
