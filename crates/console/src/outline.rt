// The outline of a table of accepted shape: one line a record, indented by nesting.
ghost use Rattle.console.specs.Nesting.{IsWaiting};
ghost use Rattle.std.specs.Prelude.{◌≡◌, OnOk, vec_len};

use crate::wording::Described;
use script::Record;
use script::rows::part_count;
use std::alloc::{AllocError, Global};
use std::fmt::Write;

// How deeply the next record is nested, by the parts that the records around it still want.
#[derive(Drop)]
pub struct Nesting {
    wanted: Vec<usize>,
}

impl Nesting {
    pub fn new(heap: Global) -> Nesting {
        Nesting {
            wanted: Vec::new(heap),
        }
    }

    pub fn depth(&self) -> usize
        ensures { result ≡ vec_len self.now.wanted }
    {
        self.wanted.len()
    }

    // The next record takes the place of a part, and its own parts come next. Records that want none more are dropped.
    pub fn enter(&mut self, record: Record) -> Result<(), AllocError>
        ensures { OnOk result (IsWaiting self.new.wanted.items) }
    {
        if let Some(wanted) = self.wanted.last_mut() {
            *wanted = wanted.saturating_sub(1);
        }
        self.wanted.push(part_count(record))?;
        while let Some(0) = self.wanted.last() {
            let _ = self.wanted.pop();
        }
        Ok(())
    }
}

// The lines of the outline.
pub fn outline(heap: Global, table: &[Record]) -> Result<String, AllocError> {
    let mut text = String::new(heap);
    let mut nesting = Nesting::new(heap);
    for (index, record) in table.iter().enumerate() {
        write!(text, "{index:>4} ")?;
        for _ in 0..nesting.depth() {
            text.push_str("  ")?;
        }
        writeln!(text, "{}", Described(*record))?;
        nesting.enter(*record)?;
    }
    Ok(text)
}
