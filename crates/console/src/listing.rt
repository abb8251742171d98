// The code of an accepted table, one line an instruction, and where each function begins.
use code::instruction::{Instruction, Operation};
use script::Record;
use std::{fmt, io};
use translator::Translation;

// A word of the listing, and no wording of the crate of operations.
fn name_of(operation: Operation) -> &'static str {
    match operation {
        Operation::Lit(_) => "LIT",
        Operation::GetL(_) => "GETL",
        Operation::SetL(_) => "SETL",
        Operation::GetG(_) => "GETG",
        Operation::SetG(_) => "SETG",
        Operation::Add => "ADD",
        Operation::Sub => "SUB",
        Operation::Gt => "GT",
        Operation::Pop => "POP",
        Operation::Jz(_) => "JZ",
        Operation::Jmp(_) => "JMP",
        Operation::Tick => "TICK",
        Operation::Call(_) => "CALL",
        Operation::Ret => "RET",
        Operation::BayR => "BAYR",
        Operation::BayW => "BAYW",
        Operation::Halt => "HALT",
    }
}

#[derive(Clone, Copy)]
struct Listed(Instruction);

impl fmt::Display for Listed {
    fn fmt<W: fmt::Write>(&self, f: &mut fmt::Formatter<W>) -> fmt::Result {
        let Instruction { operation, place } = self.0;
        let name = name_of(operation);
        write!(f, "{name} {}, place {place}", operation.argument())
    }
}

pub fn print_code(rt: &impl Print, code: &[Instruction]) -> io::Result<()> {
    for (index, instruction) in code.iter().enumerate() {
        println!(rt; "code {index}: {}", Listed(*instruction))?;
    }
    Ok(())
}

// Gives the number of global variables. Prints nothing for a table that is refused: the walk tells why.
pub fn list_code(
    rt: &(impl Print + AllocGlobal),
    table: &[Record],
) -> anyhow::Result<Option<usize>> {
    let mut translation = Translation::new(rt.alloc())?;
    if translation.translate(table).is_err() {
        return Ok(None);
    }
    print_code(rt, translation.code())?;
    for (index, entry) in translation.entries().iter().enumerate() {
        println!(rt;
            "function {index} begins at {}, parameters {}",
            entry.start, entry.parameters
        )?;
    }
    Ok(Some(translation.globals().len()))
}
