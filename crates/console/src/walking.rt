// Walks a node table over a bay table, and prints what the run came to.
use crate::checking::check;
use crate::listing::list_code;
use crate::printing::{print_bays, print_list};
use crate::wording::{Ended, Numbers, print_refusal};
use racks::BayTable;
use std::io;
use texts::table::{Settings, TableJob};
use walk::{Report, walk};

fn print_report(rt: &impl Print, report: Report) -> io::Result<()> {
    println!(rt; "{}", Numbers(report.end))?;
    println!(rt; "{}", Ended(report.end))?;
    if let Some(word) = report.answer {
        println!(rt; "answer {word}")?;
    }
    println!(rt; "ticks {}", report.ticks)
}

// Of an accepted table the number of globals is known.
fn walk_job(
    rt: &(impl Print + AllocGlobal),
    job: &TableJob,
    globals: Option<usize>,
) -> anyhow::Result<()> {
    let Settings {
        bays,
        limits,
        slices,
    } = job.settings;
    let heap = rt.alloc();
    let mut names = vec![in heap; 0u16; slices as usize]?;
    let mut words = vec![in heap; 0i32; slices as usize]?;
    let mut bays = BayTable::new(bays as usize);
    match walk(&job.table, &mut names, &mut words, &mut bays, limits) {
        Ok(report) => {
            print_report(rt, report)?;
            if let Some(globals) = globals.and_then(|count| words.get(..count)) {
                print_list(rt, "globals", globals.iter())?;
            }
            print_bays(rt, &bays)?;
            Ok(())
        }
        Err(refusal) => print_refusal(rt, refusal),
    }
}

// Checks the table; then lists its code and walks it.
pub fn walk_table(rt: &(impl Print + AllocGlobal), job: TableJob) -> anyhow::Result<()> {
    if check(rt, &job.table)? {
        let globals = list_code(rt, &job.table)?;
        walk_job(rt, &job, globals)?;
    }
    Ok(())
}
