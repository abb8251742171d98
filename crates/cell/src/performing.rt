// Any call, and a list of calls.
ghost use Rattle.std.specs.Prelude.{◌≡◌, MatchResult};
ghost use Rattle.cell.specs.declared.calls.Call.TheVariants.{Run};
ghost use Rattle.cell.specs.Promises.{Made, Performed};
ghost use Rattle.cell.specs.Showing.{world_in};

use crate::calls::{Answer, Call, State};
use crate::memory::Cell;
use racks::Rack;
use script::Refusal;
use std::alloc::{AllocError, Global};

impl Cell {
    // At most `steps` steps of a run: it pauses, or tells its ending and place.
    pub fn run<R: Rack>(
        &mut self,
        words: &mut [R::Word],
        rack: &mut R,
        steps: u32,
    ) -> Result<Answer, Refusal>
        ensures made { Made R.Word.NumberKind.kind (R.Rack.holds rack.old)
            (world_in self.old words.old (R.Rack.bays rack.old)) (Run steps) result
            (world_in self.new words.new (R.Rack.bays rack.new)) }
        ensures holds { R.Rack.holds rack.new ≡ R.Rack.holds rack.old }
        ensures loan { R.Rack.loan rack.new ≡ R.Rack.loan rack.old }
    {
        match self.state {
            State::Running => self.go_on(words, rack, steps),
            State::Empty | State::Loaded | State::Coded | State::Over => Err(Refusal::WrongState),
        }
    }

    // Any call, by the cell's state and the call together, in one match as the rules have it. The five calls above are
    // made alone, each over what it needs, and so test their own row.
    pub fn take<R: Rack>(
        &mut self,
        words: &mut [R::Word],
        rack: &mut R,
        call: Call<'_>,
    ) -> Result<Answer, Refusal>
        ensures made { Made R.Word.NumberKind.kind (R.Rack.holds rack.old)
            (world_in self.old words.old (R.Rack.bays rack.old)) call.entry result
            (world_in self.new words.new (R.Rack.bays rack.new)) }
        ensures holds { R.Rack.holds rack.new ≡ R.Rack.holds rack.old }
        ensures loan { R.Rack.loan rack.new ≡ R.Rack.loan rack.old }
    {
        match (self.state, call) {
            (State::Empty | State::Loaded | State::Coded | State::Over, Call::Load(table)) => {
                self.keep(table)?;
                Ok(Answer::Taken)
            }
            (State::Loaded, Call::Compile) => {
                self.make()?;
                Ok(Answer::Taken)
            }
            (State::Coded | State::Over, Call::Arm(limits)) => {
                self.begin(words, limits)?;
                Ok(Answer::Taken)
            }
            (State::Running, Call::Run(steps)) => self.go_on(words, rack, steps),
            (State::Running, Call::Stop) => {
                self.state = State::Coded;
                Ok(Answer::Taken)
            }
            _ => Err(Refusal::WrongState),
        }
    }

    // Makes the calls one after another, each taken or refused, and hands back each answer. Memory for the answers is
    // taken first: where there is none, no call is made.
    pub fn perform<R: Rack>(
        &mut self,
        heap: Global,
        words: &mut [R::Word],
        rack: &mut R,
        calls: &[Call<'_>],
    ) -> Result<Vec<Result<Answer, Refusal>>, AllocError>
        ensures made { MatchResult result
            (λ given. Performed R.Word.NumberKind.kind (R.Rack.holds rack.old)
            (world_in self.old words.old (R.Rack.bays rack.old))
            calls.now given.items
            (world_in self.new words.new (R.Rack.bays rack.new)))
            (λ _. world_in self.new words.new (R.Rack.bays rack.new)
            ≡ world_in self.old words.old (R.Rack.bays rack.old)) }
        ensures holds { R.Rack.holds rack.new ≡ R.Rack.holds rack.old }
        ensures loan { R.Rack.loan rack.new ≡ R.Rack.loan rack.old }
    {
        let mut answers = Vec::with_capacity(heap, calls.len())?;
        for call in calls {
            let answer = self.take(words, rack, *call);
            answers.push_reserved(answer);
        }
        Ok(answers)
    }
}
