// An unused cell, and the calls that concern the cell alone.
ghost use Rattle.std.specs.Prelude.{◌≡◌, true, IfOk};
ghost use Rattle.cell.specs.declared.calls.State.TheVariants.{Coded};
ghost use Rattle.script.specs.Shape.{shape};
ghost use Rattle.syntax.specs.Typed.{program_of};
ghost use Rattle.names.specs.Names.{name_rules};
ghost use Rattle.cell.specs.Outcomes.{unused, either, compiles, load_rules, compile_rules, stop_rules, with_table, with_code, with_state};
ghost use Rattle.cell.specs.Showing.{shown};

use crate::calls::State;
use crate::memory::Cell;
use machine::state::Machine;
use script::{Record, Refusal, check_shape};
use std::alloc::{AllocError, Global};
use translator::Translation;

impl Cell {
    // An unused cell, with memory for all that it will keep.
    pub fn new(heap: Global) -> Result<Cell, AllocError>
        ensures { IfOk result (λ c. shown c ≡ unused) }
    {
        Ok(Cell {
            state: State::Empty,
            table: Vec::with_capacity(heap, 1024)?,
            translation: Translation::new(heap)?,
            need: 0,
            machine: Machine::new(0, 0, 0),
            fuel: 0,
            steps: 0,
            end: None,
        })
    }

    // Keeps a table of accepted shape; what was made of another is gone.
    pub(crate) fn keep(&mut self, table: &[Record]) -> Result<(), Refusal>
        ensures answer { result ≡ shape table.now }
        ensures after { shown self.new ≡ either (shape table.now)
            (with_table table.now (shown self.old)) (shown self.old) }
    {
        check_shape(table)?;
        self.table.clear();
        // the room is reserved, so this cannot fail
        let _ = self.table.extend_from_slice(table);
        self.translation.clear();
        self.need = 0;
        self.state = State::Loaded;
        Ok(())
    }

    pub fn load(&mut self, table: &[Record]) -> Result<(), Refusal>
        ensures answer { result ≡ load_rules (shown self.old).state table.now }
        ensures after { shown self.new
            ≡ either (load_rules (shown self.old).state table.now)
            (with_table table.now (shown self.old)) (shown self.old) }
    {
        match self.state {
            State::Empty | State::Loaded | State::Coded | State::Over => self.keep(table),
            State::Running => Err(Refusal::WrongState),
        }
    }

    // Makes the code of the table, which is of accepted shape.
    pub(crate) fn make(&mut self) -> Result<(), Refusal>
        requires { compiles self.old.state ≡ true }
        ensures answer { result ≡ name_rules (program_of (shown self.old).table) }
        ensures after { shown self.new ≡ either result
            (with_code (program_of (shown self.old).table) (shown self.old))
            (shown self.old) }
    {
        let summary = self.translation.translate(self.table.as_slice())?;
        self.need = summary.need;
        self.state = State::Coded;
        Ok(())
    }

    pub fn compile(&mut self) -> Result<(), Refusal>
        ensures answer { result ≡ compile_rules (shown self.old).state
            (shown self.old).table }
        ensures after { shown self.new ≡ either result
            (with_code (program_of (shown self.old).table) (shown self.old))
            (shown self.old) }
    {
        match self.state {
            State::Loaded => self.make(),
            State::Empty | State::Coded | State::Running | State::Over => Err(Refusal::WrongState),
        }
    }

    // Ends a run that is going on; the code stays.
    pub fn stop(&mut self) -> Result<(), Refusal>
        ensures answer { result ≡ stop_rules (shown self.old).state }
        ensures after { shown self.new ≡ either (stop_rules (shown self.old).state)
            (with_state Coded (shown self.old)) (shown self.old) }
    {
        match self.state {
            State::Running => {
                self.state = State::Coded;
                Ok(())
            }
            State::Empty | State::Loaded | State::Coded | State::Over => Err(Refusal::WrongState),
        }
    }
}
