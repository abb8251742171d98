use crate::Translation;
use code::instruction::{FunctionEntry, Instruction, Operation};
use script::Record;
use std::test::Fail;

// A table with every kind of node: a global, a function of one parameter with a local, and a while as main.
#[rattlefmt::skip]
const EVERY_KIND: &[Record; 31] = &[
    Record { kind: 27, a: 2, v: 0 },
    Record { kind: 24, a: 7, v: 5 },
    Record { kind: 25, a: 3, v: 1 }, Record { kind: 26, a: 8, v: 0 },
    Record { kind: 20, a: 1, v: 2 }, Record { kind: 24, a: 9, v: 4 },
    Record { kind: 16, a: 0, v: 0 }, Record { kind: 6, a: 9, v: 0 },
    Record { kind: 8, a: 0, v: 0 }, Record { kind: 2, a: 8, v: 0 },
    Record { kind: 17, a: 0, v: 0 },
    Record { kind: 5, a: 0, v: 0 }, Record { kind: 2, a: 9, v: 0 }, Record { kind: 2, a: 7, v: 0 },
    Record { kind: 19, a: 0, v: 0 },
    Record { kind: 4, a: 0, v: 0 }, Record { kind: 2, a: 9, v: 0 }, Record { kind: 1, a: 0, v: 1 },
    Record { kind: 16, a: 0, v: 0 }, Record { kind: 1, a: 0, v: 0 },
    Record { kind: 18, a: 0, v: 0 },
    Record { kind: 5, a: 0, v: 0 }, Record { kind: 1, a: 0, v: 3 },
    Record { kind: 7, a: 3, v: 1 },
    Record { kind: 3, a: 0, v: 0 }, Record { kind: 2, a: 7, v: 0 }, Record { kind: 1, a: 0, v: 2 },
    Record { kind: 16, a: 0, v: 0 },
    Record { kind: 9, a: 0, v: 0 }, Record { kind: 1, a: 0, v: 0 }, Record { kind: 1, a: 0, v: 1 },
];

// Its code, worked out from the scheme by hand.
#[rattlefmt::skip]
const CODE: &[Instruction; 36] = &[
    Instruction { operation: Operation::Tick, place: 20 },
    Instruction { operation: Operation::Lit(3), place: 22 },
    Instruction { operation: Operation::GetG(0), place: 25 },
    Instruction { operation: Operation::Lit(2), place: 26 },
    Instruction { operation: Operation::Add, place: 24 },
    Instruction { operation: Operation::Call(0), place: 23 },
    Instruction { operation: Operation::Gt, place: 21 },
    Instruction { operation: Operation::Jz(13), place: 20 },
    Instruction { operation: Operation::Lit(0), place: 29 },
    Instruction { operation: Operation::Lit(1), place: 30 },
    Instruction { operation: Operation::BayW, place: 28 },
    Instruction { operation: Operation::Pop, place: 20 },
    Instruction { operation: Operation::Jmp(0), place: 20 },
    Instruction { operation: Operation::Lit(0), place: 20 },
    Instruction { operation: Operation::Halt, place: 0 },
    Instruction { operation: Operation::Lit(4), place: 4 },
    Instruction { operation: Operation::GetL(0), place: 9 },
    Instruction { operation: Operation::BayR, place: 8 },
    Instruction { operation: Operation::SetL(1), place: 7 },
    Instruction { operation: Operation::Pop, place: 4 },
    Instruction { operation: Operation::GetL(1), place: 12 },
    Instruction { operation: Operation::GetG(0), place: 13 },
    Instruction { operation: Operation::Gt, place: 11 },
    Instruction { operation: Operation::Jz(29), place: 10 },
    Instruction { operation: Operation::GetL(1), place: 16 },
    Instruction { operation: Operation::Lit(1), place: 17 },
    Instruction { operation: Operation::Sub, place: 15 },
    Instruction { operation: Operation::Ret, place: 14 },
    Instruction { operation: Operation::Jmp(30), place: 10 },
    Instruction { operation: Operation::Lit(0), place: 19 },
    Instruction { operation: Operation::Pop, place: 4 },
    Instruction { operation: Operation::Pop, place: 4 },
    Instruction { operation: Operation::Lit(0), place: 4 },
    Instruction { operation: Operation::Pop, place: 2 },
    Instruction { operation: Operation::Lit(0), place: 2 },
    Instruction { operation: Operation::Ret, place: 2 },
];

#[test]
fn every_kind_is_translated(rt: HostRuntime) -> Result<(), Fail> {
    let mut translation = Translation::new(rt.alloc())?;
    assert!(rt; translation.translate(EVERY_KIND).is_ok());
    let function = FunctionEntry {
        start: 15,
        parameters: 1,
    };
    assert_eq!(rt; translation.code(), CODE.as_slice());
    assert_eq!(rt; translation.entries(), [function].as_slice());
    assert_eq!(rt; translation.globals(), [5].as_slice());
    Ok(())
}

#[test]
fn a_refusal_writes_nothing(rt: HostRuntime) -> Result<(), Fail> {
    let mut translation = Translation::new(rt.alloc())?;
    assert!(rt; translation.translate(EVERY_KIND).is_ok());
    assert!(rt; translation.translate(&[]).is_err());
    assert_eq!(rt; translation.code(), CODE.as_slice());
    translation.clear();
    assert!(rt; translation.code().is_empty() && translation.entries().is_empty());
    Ok(())
}
