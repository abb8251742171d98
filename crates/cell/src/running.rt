// The call that goes on with a run.
ghost use Rattle.std.specs.Prelude.{◌≡◌};
ghost use Rattle.cell.specs.declared.calls.Call.TheVariants.{Run};
ghost use Rattle.cell.specs.declared.calls.State.TheVariants.{Running};
ghost use Rattle.cell.specs.Outcomes.{run_answer, run_state};
ghost use Rattle.cell.specs.Promises.{Made};
ghost use Rattle.cell.specs.Showing.{world_in};

use crate::calls::{Answer, State};
use crate::memory::Cell;
use racks::Rack;
use script::{Refusal, RunEnd};

fn answer_to(end: Option<RunEnd>) -> Answer
    ensures { result ≡ run_answer end }
{
    end.map_or(Answer::Paused, Answer::Ended)
}

fn state_after(end: Option<RunEnd>) -> State
    ensures { result ≡ run_state end }
{
    end.map_or(State::Running, |_| State::Over)
}

impl Cell {
    // At most `steps` steps of the run that is going on.
    pub(crate) fn go_on<R: Rack>(
        &mut self,
        words: &mut [R::Word],
        rack: &mut R,
        steps: u32,
    ) -> Result<Answer, Refusal>
        requires { self.old.state ≡ Running }
        ensures made { Made R.Word.NumberKind.kind (R.Rack.holds rack.old)
            (world_in self.old words.old (R.Rack.bays rack.old)) (Run steps) result
            (world_in self.new words.new (R.Rack.bays rack.new)) }
        ensures holds { R.Rack.holds rack.new ≡ R.Rack.holds rack.old }
        ensures loan { R.Rack.loan rack.new ≡ R.Rack.loan rack.old }
    {
        // the machine counts in `usize`; its depth is at most 63, so the cast loses nothing
        self.check_words(self.machine.depth as u32, words.len())?;
        let code = self.translation.program();
        let run = self.machine.run(words, rack, code, steps);
        let end = run.end();
        self.steps = self.steps.saturating_add(run.made);
        self.end = end;
        self.state = state_after(end);
        Ok(answer_to(end))
    }
}
