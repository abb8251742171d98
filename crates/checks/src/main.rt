// Makes many cases, one after another, and prints what `aisle` prints for each. In standard input a case begins with a
// line `== MODE NAME`; up to the next such line follows the text that `aisle` would be given in that mode.
#![tactic(auto)]

use anyhow::anyhow;
use console::{check_table, perform_job, walk_table};
use std::io;
use texts::job::JobReader;
use texts::read_text;
use texts::table::TableReader;

// The modes are words of this input: `aisle` has no word for a job.
fn print_case(
    rt: &(impl Print + Eprint + AllocGlobal),
    mode: &str,
    text: &str,
) -> anyhow::Result<()> {
    match mode {
        "job" => perform_job(rt, read_text(JobReader::new(rt.alloc()), text)?),
        "check" => check_table(rt, read_text(TableReader::new(rt.alloc()), text)?),
        "walk" => walk_table(rt, read_text(TableReader::new(rt.alloc()), text)?),
        _ => Err(anyhow!("a case begins with == job, == check or == walk")),
    }
}

// A text that cannot be read is told on standard output here, and the next case is made.
fn main(rt: HostRuntime) -> anyhow::Result<()> {
    let input = io::read_to_string(rt.alloc(), rt.stdin())?;
    for case in input.split("== ").skip(1) {
        let (heading, text) = case.split_once('\n').unwrap_or((case, ""));
        println!(rt; "== {heading}")?;
        let mode = heading.split_once(' ').map_or(heading, |(mode, _)| mode);
        if let Err(error) = print_case(&rt, mode, text) {
            println!(rt; "{error}")?;
        }
    }
    Ok(())
}
