// What is printed of a record, a refusal and an ending, for the technician who drew the table: each in a struct of its
// own, since its type is of another crate, which does not print.
use script::rows::{NodeKind, Operator, row_of};
use script::{Ending, Record, Refusal, RunEnd};
use std::fmt;

// A record: which node it is, and the fields that have a meaning there.
#[derive(Clone, Copy)]
pub struct Described(pub Record);

impl fmt::Display for Described {
    fn fmt<W: fmt::Write>(&self, f: &mut fmt::Formatter<W>) -> fmt::Result {
        let a = self.0.a;
        let v = self.0.v;
        match row_of(self.0.kind).node {
            NodeKind::Unknown => write!(f, "unknown"),
            NodeKind::Number => write!(f, "number {v}"),
            NodeKind::Variable => write!(f, "variable {a}"),
            NodeKind::TwoPart(Operator::Sum) => write!(f, "sum"),
            NodeKind::TwoPart(Operator::Difference) => write!(f, "difference"),
            NodeKind::TwoPart(Operator::Greater) => write!(f, "greater"),
            NodeKind::Assignment => write!(f, "assignment to variable {a}"),
            NodeKind::Call => write!(f, "call of function {a}, arguments {v}"),
            NodeKind::BayRead => write!(f, "bay read"),
            NodeKind::BayWrite => write!(f, "bay write"),
            NodeKind::ExpressionStatement => write!(f, "expression statement"),
            NodeKind::If => write!(f, "if"),
            NodeKind::While => write!(f, "while"),
            NodeKind::Return => write!(f, "return"),
            NodeKind::Block => write!(f, "block, locals {a}, statements {v}"),
            NodeKind::VariableDeclaration => write!(f, "variable declaration {a}, value {v}"),
            NodeKind::Function => write!(f, "function {a}, parameters {v}"),
            NodeKind::Parameter => write!(f, "parameter {a}"),
            NodeKind::Program => write!(f, "program, declarations {a}"),
        }
    }
}

// A refusal as a sentence.
#[derive(Clone, Copy)]
pub struct Explained(pub Refusal);

impl fmt::Display for Explained {
    fn fmt<W: fmt::Write>(&self, f: &mut fmt::Formatter<W>) -> fmt::Result {
        match self.0 {
            Refusal::TableSize => write!(f, "a table has 1 to 1024 records"),
            Refusal::UnexpectedKind(record) => {
                write!(
                    f,
                    "record {record} has a kind that is unknown, or that cannot stand there"
                )
            }
            Refusal::FieldOutOfBounds(record) => {
                write!(
                    f,
                    "record {record} has a field outside the bounds of its kind; a field without a meaning is 0"
                )
            }
            Refusal::EndsEarly(count) => {
                write!(
                    f,
                    "the table ends after {count} records, and a part of the program is still missing"
                )
            }
            Refusal::LeftOver(record) => write!(
                f,
                "the program ends before record {record}, and nothing may follow it"
            ),
            Refusal::DeclaredTwice(record) => {
                write!(
                    f,
                    "record {record} declares a name that is declared before it, where it would be seen twice"
                )
            }
            Refusal::Undeclared(record) => write!(
                f,
                "record {record} uses a name that is not declared where it stands"
            ),
            Refusal::ArgumentCount(record) => {
                write!(
                    f,
                    "record {record} calls its function with more or fewer arguments than it has parameters"
                )
            }
            Refusal::FrameNeed => write!(
                f,
                "a function or the main statement needs more than 100 words in its frame"
            ),
            Refusal::FuelOrDepth => write!(f, "fuel is 0 to 1000000 and depth is 0 to 63"),
            Refusal::TooFewWords(wanted) => write!(
                f,
                "a slice that is lent is too short: {wanted} elements are wanted"
            ),
            Refusal::WrongState => write!(
                f,
                "the cell does not take this call in the state that it is in"
            ),
        }
    }
}

pub fn print_refusal(rt: &impl Print, refusal: Refusal) -> anyhow::Result<()> {
    println!(rt; "{}", Numbers(refusal))?;
    println!(rt; "{}", Explained(refusal))?;
    Ok(())
}

// An ending and its place as a sentence.
#[derive(Clone, Copy)]
pub struct Ended(pub RunEnd);

impl fmt::Display for Ended {
    fn fmt<W: fmt::Write>(&self, f: &mut fmt::Formatter<W>) -> fmt::Result {
        let RunEnd { ending, place } = self.0;
        match ending {
            Ending::Done => write!(f, "the program came to its end"),
            Ending::NoFuel => write!(f, "the fuel was spent at record {place}"),
            Ending::TooDeep => write!(
                f,
                "record {place} calls a function while as many calls are open as the depth allows"
            ),
            Ending::NoSuchBay => write!(f, "record {place} names a bay that there is not"),
            Ending::CannotHold => write!(
                f,
                "record {place} writes a word that its bay cannot hold"
            ),
        }
    }
}

// A refusal or an ending by the numbers that it is known by.
#[derive(Clone, Copy)]
pub struct Numbers<T>(pub T);

impl fmt::Display for Numbers<Refusal> {
    fn fmt<W: fmt::Write>(&self, f: &mut fmt::Formatter<W>) -> fmt::Result {
        write!(f, "refusal {}, tells {}", self.0.number(), self.0.tells())
    }
}

impl fmt::Display for Numbers<RunEnd> {
    fn fmt<W: fmt::Write>(&self, f: &mut fmt::Formatter<W>) -> fmt::Result {
        let RunEnd { ending, place } = self.0;
        write!(f, "ending {}, place {place}", ending.number())
    }
}

#[cfg(test)]
mod tests {
    use super::*;
    use std::test::Fail;

    // Two sentences that only a job comes to, which tells them on standard error.
    #[test]
    fn sentences_of_jobs_alone(rt: HostRuntime) -> Result<(), Fail> {
        assert_eq!(rt;
            Explained(Refusal::WrongState)
                .to_string(rt.alloc())?
                .as_str(),
            "the cell does not take this call in the state that it is in"
        );
        let end = RunEnd {
            ending: Ending::CannotHold,
            place: 16,
        };
        assert_eq!(rt;
            Ended(end).to_string(rt.alloc())?.as_str(),
            "record 16 writes a word that its bay cannot hold"
        );
        Ok(())
    }
}
