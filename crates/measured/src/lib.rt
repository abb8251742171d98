// One fixed script on the machine, to be called from outside: bench/ measures it.
#![tactic(auto)]

use code::instruction::{Code, Instruction, Operation};
use machine::state::Machine;
use racks::BayTable;

// while (1 > 0) { i = i + 1; bay(0) = i; }: seventeen instructions for each fuel, until the fuel is spent.
#[rattlefmt::skip]
const COUNTING: &[Instruction; 19] = &[
    Instruction { operation: Operation::Tick, place: 1 },
    Instruction { operation: Operation::Lit(1), place: 3 },
    Instruction { operation: Operation::Lit(0), place: 4 },
    Instruction { operation: Operation::Gt, place: 2 },
    Instruction { operation: Operation::Jz(17), place: 1 },
    Instruction { operation: Operation::GetG(0), place: 9 },
    Instruction { operation: Operation::Lit(1), place: 10 },
    Instruction { operation: Operation::Add, place: 8 },
    Instruction { operation: Operation::SetG(0), place: 7 },
    Instruction { operation: Operation::Pop, place: 5 },
    Instruction { operation: Operation::Lit(0), place: 13 },
    Instruction { operation: Operation::GetG(0), place: 14 },
    Instruction { operation: Operation::BayW, place: 12 },
    Instruction { operation: Operation::Pop, place: 5 },
    Instruction { operation: Operation::Lit(0), place: 5 },
    Instruction { operation: Operation::Pop, place: 1 },
    Instruction { operation: Operation::Jmp(0), place: 1 },
    Instruction { operation: Operation::Lit(0), place: 1 },
    Instruction { operation: Operation::Halt, place: 0 },
];

// Runs the script with this much fuel, at most so many steps, and gives the steps made.
pub fn tuzsompa_counting_steps(fuel: u32, steps: u32) -> u32 {
    let mut words = [0i32; 16];
    let mut bays = BayTable::new(1);
    let mut machine = Machine::new(1, 0, fuel);
    let code = Code {
        instructions: COUNTING,
        entries: &[],
    };
    machine.run(&mut words, &mut bays, code, steps).made
}
