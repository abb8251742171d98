// What can be done with a translation.
ghost use Rattle.std.specs.Prelude.{◌≡◌, ◌*◌, ◌≤◌, map, length, IfOk};
ghost use Rattle.syntax.specs.Syntax.{name_of, functions_of, globals_of};
ghost use Rattle.syntax.specs.Typed.{program_of};
ghost use Rattle.names.specs.Names.{signature};
ghost use Rattle.names.specs.Tables.{main_at, table_rules};
ghost use Rattle.translator.specs.Translations.{held, nothing_held, translated, translation_of};

use crate::emitter::Emitter;
use crate::translation::Translation;
use code::instruction::{Code, FunctionEntry, Instruction, Operation};
use names::{Context, Declared, Room, SoundTable, Summary, check_names};
use script::{Record, Refusal};
use stack::Stack;
use std::alloc::{AllocError, Global};

impl Translation {
    // An empty translation. It is the only call that needs memory.
    pub fn new(heap: Global) -> Result<Translation, AllocError>
        ensures { IfOk result (λ t. held t ≡ nothing_held) }
    {
        let code = Vec::with_capacity(heap, 4096)?;
        let entries = Vec::with_capacity(heap, 128)?;
        let globals = Vec::with_capacity(heap, 128)?;
        Ok(Translation {
            code,
            entries,
            globals,
        })
    }

    // Checks a table, and translates it where nothing is wrong with it; a refusal leaves all as it was.
    pub fn translate(&mut self, table: &[Record]) -> Result<Summary, Refusal>
        ensures answer { result ≡ table_rules table.now }
        ensures after { held self.new ≡ translated table.now (held self.old) }
        ensures short { IfOk result
            (λ _. length (held self.new).code ≤ 4 * length table.now) }
    {
        let table = SoundTable::new(table)?;
        let mut room = Room::new();
        let mut declared = Declared::new(&mut room);
        let summary = check_names(table, &mut declared)?;
        self.fill(declared.context(table), summary.main);
        Ok(summary)
    }

    // Writes the code of a whole program, whose statement is at `main`: four instructions a record suffice. Each name in
    // scope has a record of its own, so there is room for all; an array, since no call but `new` allocates.
    fn fill(&mut self, context: Context<'_>, main: usize)
        requires after { main ≡ main_at context.table.records.now }
        requires variables { context.globals.now
            ≡ map name_of (globals_of (program_of context.table.records.now)) }
        requires signatures { context.functions.now
            ≡ map signature (functions_of (program_of context.table.records.now).declarations) }
        ensures made { held self.new ≡ translation_of (program_of context.entry.table.records.now) }
        ensures short { length (held self.new).code ≤ 4 * length context.entry.table.records.now }
    {
        self.clear();
        let mut names: [u16; 1024] = [0; 1024];
        let mut scope = Stack::new(&mut names, 0);
        let mut emitter = Emitter {
            context,
            scope: &mut scope,
            code: &mut self.code,
            leave: Operation::Halt,
        };
        emitter.statement(main);
        emitter.append(Operation::Halt, 0);
        let count = context.table.records[0].a as usize;
        emitter.declarations(count, 1, &mut self.entries, &mut self.globals);
    }

    pub fn clear(&mut self)
        ensures { held self.new ≡ nothing_held }
    {
        self.code.clear();
        self.entries.clear();
        self.globals.clear();
    }

    // The code and the entries together.
    pub fn program(&self) -> Code<'_>
        ensures instructions { result.instructions.now ≡ (held self.now).code }
        ensures entries { result.entries.now ≡ (held self.now).entries }
    {
        Code {
            instructions: self.code.as_slice(),
            entries: self.entries.as_slice(),
        }
    }

    pub fn code(&self) -> &[Instruction]
        ensures { result.now ≡ (held self.now).code }
    {
        self.code.as_slice()
    }

    pub fn entries(&self) -> &[FunctionEntry]
        ensures { result.now ≡ (held self.now).entries }
    {
        self.entries.as_slice()
    }

    pub fn globals(&self) -> &[i32]
        ensures { result.now ≡ (held self.now).globals }
    {
        self.globals.as_slice()
    }
}
