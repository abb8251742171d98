// Checks the shape of a node table, and prints its outline.
use crate::outline::outline;
use crate::wording::print_refusal;
use script::{Record, check_shape};
use texts::table::TableJob;

// Prints the outline of a table, and says whether its shape is accepted.
pub(crate) fn check(rt: &(impl Print + AllocGlobal), table: &[Record]) -> anyhow::Result<bool> {
    if let Err(refusal) = check_shape(table) {
        print_refusal(rt, refusal)?;
        return Ok(false);
    }
    println!(rt; "accepted, records {}", table.len())?;
    rt.print(outline(rt.alloc(), table)?.as_str())?;
    Ok(true)
}

pub fn check_table(rt: &(impl Print + AllocGlobal), job: TableJob) -> anyhow::Result<()> {
    check(rt, &job.table)?;
    Ok(())
}
