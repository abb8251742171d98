// Makes a job's calls on an unused cell, and prints the answers and what is then held.
use crate::listing::print_code;
use crate::printing::{print_bays, print_list};
use crate::wording::{Ended, Explained, Numbers};
use cell::{Answer, Call, Cell, State};
use kinds::NumberKind;
use racks::{BayTable, OccupancyRack, Rack, RailRack};
use script::{Ending, Record, Refusal};
use std::{fmt, io};
use texts::job::{CallLine, Job, RackChoice};

// By hand, since a `From` would stand in a crate of one of the two types, and has no records beside the line.
fn call_of(records: &[Record], line: CallLine) -> Call<'_> {
    match line {
        CallLine::Load { from, to } => Call::Load(records.get(from..to).unwrap_or(&[])),
        CallLine::Compile => Call::Compile,
        CallLine::Arm(limits) => Call::Arm(limits),
        CallLine::Run(steps) => Call::Run(steps),
        CallLine::Stop => Call::Stop,
    }
}

// How the console calls it: a word of the output, and no wording of the type's own crate.
fn name_of(line: CallLine) -> &'static str {
    match line {
        CallLine::Load { .. } => "load",
        CallLine::Compile => "compile",
        CallLine::Arm(_) => "arm",
        CallLine::Run(_) => "run",
        CallLine::Stop => "stop",
    }
}

// The answer on standard output; a refusal and an ending also as a sentence on standard error.
fn print_answer(
    rt: &(impl Print + Eprint),
    name: &str,
    answer: Result<Answer, Refusal>,
) -> io::Result<()> {
    match answer {
        Ok(Answer::Taken) => println!(rt; "{name}: taken"),
        Ok(Answer::Paused) => println!(rt; "{name}: paused"),
        Ok(Answer::Ended(end)) => {
            println!(rt; "{name}: {}", Numbers(end))?;
            eprintln!(rt; "{}", Ended(end))
        }
        Err(refusal) => {
            println!(rt; "{name}: {}", Numbers(refusal))?;
            eprintln!(rt; "{name}: {}", Explained(refusal))
        }
    }
}

// As `name_of`.
fn state_name(state: State) -> &'static str {
    match state {
        State::Empty => "empty",
        State::Loaded => "loaded",
        State::Coded => "coded",
        State::Running => "running",
        State::Over => "over",
    }
}

// Makes the calls, and prints each answer.
fn make_calls<R: Rack>(
    rt: &(impl Print + Eprint + AllocGlobal),
    records: &[Record],
    lines: &[CallLine],
    words: &mut [R::Word],
    rack: &mut R,
) -> anyhow::Result<Cell> {
    let mut cell = Cell::new(rt.alloc())?;
    let calls = lines.iter().map(|line: &CallLine| call_of(records, *line));
    let calls = calls.collect::<Vec<_>>(rt.alloc())?;
    let answers = cell.perform(rt.alloc(), words, rack, &calls)?;
    for (line, answer) in lines.iter().zip(answers.iter()) {
        print_answer(rt, name_of(*line), *answer)?;
    }
    Ok(cell)
}

fn print_cell(rt: &impl Print, cell: &Cell) -> io::Result<()> {
    println!(rt; "state {}", state_name(cell.state()))?;
    print_code(rt, cell.code())?;
    println!(rt; "ticks {}", cell.ticks())?;
    println!(rt; "steps {}", cell.steps())
}

// Ending and answer in Over, and the globals where there is a run.
fn print_run<W: fmt::Display>(rt: &impl Print, cell: &Cell, words: &[W]) -> io::Result<()> {
    let globals = cell.globals();
    if let Some(end) = cell.end() {
        println!(rt; "{}", Numbers(end))?;
        if end.ending == Ending::Done
            && let Some(answer) = words.get(globals)
        {
            println!(rt; "answer {answer}")?;
        }
    }
    match (cell.state(), words.get(..globals)) {
        (State::Running | State::Over, Some(found)) => print_list(rt, "globals", found.iter()),
        _ => Ok(()),
    }
}

// Makes the calls over this rack and so many words, and prints what is then held.
fn perform<W: NumberKind + Copy + fmt::Display, R: Rack<Word = W>>(
    rt: &(impl Print + Eprint + AllocGlobal),
    records: &[Record],
    lines: &[CallLine],
    count: usize,
    rack: &mut R,
) -> anyhow::Result<()> {
    let mut words = vec![in rt.alloc(); W::literal(0); count]?;
    let cell = make_calls(rt, records, lines, &mut words, rack)?;
    print_cell(rt, &cell)?;
    print_run(rt, &cell, &words)?;
    print_bays(rt, rack)?;
    print_list(rt, "words", words.iter())?;
    Ok(())
}

pub fn perform_job(rt: &(impl Print + Eprint + AllocGlobal), job: Job) -> anyhow::Result<()> {
    let Job {
        rack,
        mut lengths,
        words,
        records,
        calls,
    } = job;
    match rack {
        RackChoice::Bays(count) => {
            perform(rt, &records, &calls, words, &mut BayTable::new(count))
        }
        RackChoice::Occupancy(count) => {
            perform(rt, &records, &calls, words, &mut OccupancyRack::new(count))
        }
        RackChoice::Rail => {
            perform(
                rt,
                &records,
                &calls,
                words,
                &mut RailRack::new(&mut lengths),
            )
        }
    }
}
