// Why a text cannot be read.
use std::alloc::AllocError;
use thiserror::Error;

// What can be wrong with a text of one sort.
pub trait TextProblem: std::error::Error + Copy {
    // what a text of this sort is
    const SORT: &'static str;
}

#[derive(Clone, Copy, PartialEq, Eq, Debug, Error)]
pub enum TextError<P: TextProblem> {
    // a problem, and the line that has it, counted from 1; 0 where the text has none
    #[error("line {line}: {problem}")]
    Fault { line: usize, problem: P },
    #[error("there is not enough memory for the {sort}", sort = P::SORT)]
    NoMemory(#[from(alloc)] AllocError),
}

pub(crate) fn fault<P: TextProblem>(line: usize, problem: P) -> TextError<P> {
    TextError::Fault { line, problem }
}

#[cfg(test)]
mod tests {
    use super::*;
    use crate::job::{JobError, JobProblem};
    use crate::table::{TableError, TableProblem};
    use std::test::Fail;

    #[test]
    fn errors_are_worded(rt: HostRuntime) -> Result<(), Fail> {
        let job: JobError = fault(7, JobProblem::BadNumber);
        assert_eq!(rt;
            job.to_string(rt.alloc())?.as_str(),
            "line 7: a number is missing, or does not fit"
        );
        let table: TableError = fault(1, TableProblem::KindRange);
        assert_eq!(rt;
            table.to_string(rt.alloc())?.as_str(),
            "line 1: a kind is a number from 0 to 255"
        );
        Ok(())
    }

    #[test]
    fn want_of_memory_is_worded(rt: HostRuntime) -> Result<(), Fail> {
        let job: JobError = AllocError.into();
        assert_eq!(rt;
            job.to_string(rt.alloc())?.as_str(),
            "there is not enough memory for the job"
        );
        let table: TableError = AllocError.into();
        assert_eq!(rt;
            table.to_string(rt.alloc())?.as_str(),
            "there is not enough memory for the table"
        );
        Ok(())
    }
}
