// Makes the calls of a job on a cell; with an argument it checks or walks a node table instead.
#![tactic(auto)]

use anyhow::anyhow;
use console::{check_table, perform_job, walk_table};
use std::env;
use std::io::{BufRead, BufReader};
use std::process::ExitCode;
use texts::LineReader;
use texts::job::JobReader;
use texts::table::TableReader;

const HELP: &str = "aisle: standard input is a job, one call a line; # begins a comment
  rack bays N | rack occupancy N | rack rail W W ..   the first line
  words N                                             the second line
  load K A V  K A V ..   compile   arm FUEL DEPTH   run STEPS   stop
aisle check: standard input is a node table, three numbers a record; its shape is checked and its outline printed
aisle walk: the same, then its code, and a walk over a bay table; bays N, fuel N, depth N and slices N may stand between records
aisle help: this text";

// Line by line: the first line that cannot be read is told at once, and no more of the text is held than one line.
fn read_input<R: LineReader>(rt: &HostRuntime, mut reader: R) -> anyhow::Result<R::Text> {
    for line in BufReader::new(rt.alloc(), rt.stdin())?.lines(rt.alloc()) {
        reader.take_line(line?.as_str())?;
    }
    Ok(reader.finish()?)
}

fn run(rt: &HostRuntime) -> anyhow::Result<()> {
    let Some(word) = env::args(rt)?.nth(1) else {
        return perform_job(rt, read_input(rt, JobReader::new(rt.alloc()))?);
    };
    match word.as_str() {
        "check" => check_table(rt, read_input(rt, TableReader::new(rt.alloc()))?),
        "walk" => walk_table(rt, read_input(rt, TableReader::new(rt.alloc()))?),
        "help" => Ok(rt.println(HELP)?),
        _ => Err(anyhow!("the argument is check, walk or help, or there is none")),
    }
}

// A text that cannot be read is told on standard error, and the program then ends with status 1.
// (An `Err` from here would be told a second time, so the status is given by itself.)
fn main(rt: HostRuntime) -> ExitCode {
    match run(&rt) {
        Ok(()) => ExitCode::SUCCESS,
        Err(error) => {
            // where standard error cannot be written either, the status alone is left to tell
            let _ = eprintln!(rt; "aisle: {error}");
            ExitCode::FAILURE
        }
    }
}
