// The run of a whole table that was accepted.
ghost use Rattle.std.specs.Prelude.{◌≡◌, ◌≤◌, length, Ok};
ghost use Rattle.kinds.specs.Counter.{counter};
ghost use Rattle.racks.specs.Makes.{table_bays};
ghost use Rattle.syntax.specs.Typed.{program_of};
ghost use Rattle.treerun.specs.TreeRun.{run_program, unbound};
ghost use Rattle.walk.specs.Lent.{every};
ghost use Rattle.walk.specs.Ready.{Accepted};
ghost use Rattle.walk.specs.Walked.{room_for, leaves, walked_by};

use crate::report::{Report, report_on};
use crate::walker::Walker;
use racks::BayTable;
use script::{Limits, Record};

// Binds the globals and runs the program's statement.
pub fn run_table(
    table: &[Record],
    names: &mut [u16],
    words: &mut [i32],
    bays: &mut BayTable,
    limits: Limits,
) -> Report
    requires accepted { Accepted table.now }
    requires names { room_for (program_of table.now) limits.depth ≤ length names.old }
    requires words { room_for (program_of table.now) limits.depth ≤ length words.old }
    ensures { leaves (Ok result) names.new words.new (table_bays bays.new)
        ≡ walked_by limits.fuel (run_program counter every (program_of table.now) limits.depth
        (unbound names.old words.old (table_bays bays.old) limits.fuel)) }
{
    let mut walker = Walker {
        table,
        depth: limits.depth as usize,
        names,
        words,
        bays,
        bound: 0,
        fuel: limits.fuel,
    };
    let main = walker.globals();
    let outcome = walker.statement(main, 0);
    report_on(outcome, limits.fuel - walker.fuel)
}
