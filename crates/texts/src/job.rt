// Reads a job: a rack, its words, and then one call a line.
use crate::error::{TextError, TextProblem, fault};
use crate::reader::{LineReader, without_comment};
use script::{Limits, Record};
use std::alloc::Global;
use std::str::SplitWhitespace;
use thiserror::Error;

// Why a text is no job.
#[derive(Clone, Copy, PartialEq, Eq, Debug, Error)]
pub enum JobProblem {
    // the first line is no rack
    #[error("a job begins with rack bays N, rack occupancy N or rack rail W W ..")]
    NoRack,
    // the second line does not say how many words there are
    #[error("the second line of a job is words N")]
    NoWords,
    // a line that is no call, or a call with other words than it takes
    #[error("a call is load, compile, arm FUEL DEPTH, run STEPS or stop")]
    NoCall,
    // a number is missing, is none, or does not fit
    #[error("a number is missing, or does not fit")]
    BadNumber,
    // a record of a table that is loaded is not three numbers in their ranges
    #[error("a record is kind 0 to 255, a 0 to 65535 and v of 32 bits")]
    BadRecord,
    // the text ends before the second line
    #[error("a job begins with a rack and its words")]
    TooShort,
}

impl TextProblem for JobProblem {
    const SORT: &'static str = "job";
}

pub type JobError = TextError<JobProblem>;

// Which rack the job runs over: how many bays it has. A rail rack's words are kept apart, so that a choice is copied.
#[derive(Clone, Copy, PartialEq, Eq, Debug)]
pub enum RackChoice {
    Bays(usize),
    Occupancy(usize),
    Rail,
}

// One call. A table is a part of the records read, by where it begins and ends: a call is copied, and however many
// tables a job loads, their records lie in one vector.
#[derive(Clone, Copy, PartialEq, Eq, Debug)]
pub enum CallLine {
    Load { from: usize, to: usize },
    Compile,
    Arm(Limits),
    Run(u32),
    Stop,
}

// A text that was read.
#[derive(Drop)]
pub struct Job {
    pub rack: RackChoice,
    // the words in a rail rack's bays; none for the others
    pub lengths: Vec<f64>,
    // how many words there are
    pub words: usize,
    // of all tables that are loaded
    pub records: Vec<Record>,
    pub calls: Vec<CallLine>,
}

// What was read so far; `None` where it was not read yet.
#[derive(Drop)]
pub struct JobReader {
    rack: Option<RackChoice>,
    lengths: Vec<f64>,
    words: Option<usize>,
    records: Vec<Record>,
    calls: Vec<CallLine>,
    // the number of the last line
    line: usize,
}

impl JobReader {
    pub fn new(heap: Global) -> JobReader {
        JobReader {
            rack: None,
            lengths: Vec::new(heap),
            words: None,
            records: Vec::new(heap),
            calls: Vec::new(heap),
            line: 0,
        }
    }
}

impl LineReader for JobReader {
    type Text = Job;

    type Problem = JobProblem;

    // A line without words says nothing.
    fn take_line(&mut self, text: &str) -> Result<(), JobError> {
        self.line = self.line.saturating_add(1);
        let Some(line) = Line::of(self.line, text) else {
            return Ok(());
        };
        if self.rack.is_none() {
            self.rack = Some(line.rack(&mut self.lengths)?);
        } else if self.words.is_none() {
            self.words = Some(line.words()?);
        } else {
            self.calls.push(line.call(&mut self.records)?)?;
        }
        Ok(())
    }

    fn finish(self) -> Result<Job, JobError> {
        let (Some(rack), Some(words)) = (self.rack, self.words) else {
            return Err(fault(self.line, JobProblem::TooShort));
        };
        Ok(Job {
            rack,
            lengths: self.lengths,
            words,
            records: self.records,
            calls: self.calls,
        })
    }
}

// A line that has words.
#[derive(Drop)]
struct Line<'a> {
    // counted from 1
    number: usize,
    first: &'a str,
    // those that were not read yet
    rest: SplitWhitespace<'a>,
}

impl<'a> Line<'a> {
    fn of(number: usize, text: &'a str) -> Option<Line<'a>> {
        let mut rest = without_comment(text).split_whitespace();
        let first = rest.next()?;
        Some(Line {
            number,
            first,
            rest,
        })
    }

    // The line must end here.
    fn end(mut self, otherwise: JobProblem) -> Result<(), JobError> {
        if self.rest.next().is_some() {
            return Err(fault(self.number, otherwise));
        }
        Ok(())
    }

    fn take_number(&mut self) -> Result<u32, JobError> {
        let number = self.rest.next().and_then(|word| word.parse::<u32>().ok());
        number.ok_or(fault(self.number, JobProblem::BadNumber))
    }

    fn rack(mut self, lengths: &mut Vec<f64>) -> Result<RackChoice, JobError> {
        let rack = match (self.first, self.rest.next()) {
            ("rack", Some("bays")) => RackChoice::Bays(self.take_number()? as usize),
            ("rack", Some("occupancy")) => RackChoice::Occupancy(self.take_number()? as usize),
            ("rack", Some("rail")) => return self.rail(lengths),
            _ => return Err(fault(self.number, JobProblem::NoRack)),
        };
        self.end(JobProblem::NoRack)?;
        Ok(rack)
    }

    fn rail(self, lengths: &mut Vec<f64>) -> Result<RackChoice, JobError> {
        for word in self.rest {
            let length = word.parse::<f64>();
            lengths.push(length.map_err(|_| fault(self.number, JobProblem::BadNumber))?)?;
        }
        Ok(RackChoice::Rail)
    }

    fn words(mut self) -> Result<usize, JobError> {
        if self.first != "words" {
            return Err(fault(self.number, JobProblem::NoWords));
        }
        let words = self.take_number()? as usize;
        self.end(JobProblem::NoWords)?;
        Ok(words)
    }

    fn call(mut self, records: &mut Vec<Record>) -> Result<CallLine, JobError> {
        let call = match self.first {
            "load" => return self.load(records),
            "compile" => CallLine::Compile,
            "arm" => CallLine::Arm(Limits {
                fuel: self.take_number()?,
                depth: self.take_number()?,
            }),
            "run" => CallLine::Run(self.take_number()?),
            "stop" => CallLine::Stop,
            _ => return Err(fault(self.number, JobProblem::NoCall)),
        };
        self.end(JobProblem::NoCall)?;
        Ok(call)
    }

    fn load(self, records: &mut Vec<Record>) -> Result<CallLine, JobError> {
        let from = records.len();
        let mut rest = self.rest;
        while let Some(kind) = rest.next() {
            let record = record_of(kind, rest.next(), rest.next());
            records.push(record.ok_or(fault(self.number, JobProblem::BadRecord))?)?;
        }
        let to = records.len();
        Ok(CallLine::Load { from, to })
    }
}

fn record_of(kind: &str, a: Option<&str>, v: Option<&str>) -> Option<Record> {
    Some(Record {
        kind: kind.parse().ok()?,
        a: a?.parse().ok()?,
        v: v?.parse().ok()?,
    })
}

#[cfg(test)]
mod tests {
    use super::*;
    use crate::read_text;
    use std::test::Fail;

    #[test]
    fn calls_are_read(rt: HostRuntime) -> Result<(), Fail> {
        let text =
            "# none yet\n\nrack rail 1 -2.5 # two\n\twords 3\nload 1 0 -7  255 65535 2\nload\ncompile\narm 8 1\nrun 4294967295\nstop";
        let job = read_text(JobReader::new(rt.alloc()), text)?;
        assert_eq!(rt; job.rack, RackChoice::Rail);
        assert_eq!(rt; job.lengths.as_slice(), [1.0, -2.5].as_slice());
        assert_eq!(rt; job.words, 3);
        let table = [
            Record {
                kind: 1,
                a: 0,
                v: -7,
            },
            Record {
                kind: 255,
                a: 65535,
                v: 2,
            },
        ];
        assert_eq!(rt; job.records.as_slice(), table.as_slice());
        let limits = Limits { fuel: 8, depth: 1 };
        let wanted = [
            CallLine::Load { from: 0, to: 2 },
            CallLine::Load { from: 2, to: 2 },
            CallLine::Compile,
            CallLine::Arm(limits),
            CallLine::Run(4294967295),
            CallLine::Stop,
        ];
        assert_eq!(rt; job.calls.as_slice(), wanted.as_slice());
        Ok(())
    }

    #[test]
    fn racks_are_read(rt: HostRuntime) -> Result<(), Fail> {
        let bays = read_text(JobReader::new(rt.alloc()), "rack bays 0\nwords 0")?;
        assert_eq!(rt; bays.rack, RackChoice::Bays(0));
        let occupancy = read_text(JobReader::new(rt.alloc()), "rack occupancy 5\nwords 0")?;
        assert_eq!(rt; occupancy.rack, RackChoice::Occupancy(5));
        Ok(())
    }

    #[test]
    fn bad_text_is_told_by_line(rt: HostRuntime) {
        for (text, line, problem) in [
            ("words 3", 1, JobProblem::NoRack),
            ("# c\nrack", 2, JobProblem::NoRack),
            ("rack tub 3", 1, JobProblem::NoRack),
            ("rack bays 3 4", 1, JobProblem::NoRack),
            ("rack bays", 1, JobProblem::BadNumber),
            ("\nrack occupancy -1", 2, JobProblem::BadNumber),
            ("rack rail 1 x", 1, JobProblem::BadNumber),
            ("rack bays 3\nload", 2, JobProblem::NoWords),
            ("rack bays 3\nwords 2 3", 2, JobProblem::NoWords),
            ("rack bays 3\nwords", 2, JobProblem::BadNumber),
            ("rack bays 3\nwords 2\n\njump", 4, JobProblem::NoCall),
            ("rack bays 3\nwords 2\nstop now", 3, JobProblem::NoCall),
            ("rack bays 3\nwords 2\narm 8", 3, JobProblem::BadNumber),
            (
                "rack bays 3\nwords 2\nrun 4294967296",
                3,
                JobProblem::BadNumber,
            ),
            ("rack bays 3\nwords 2\nload 1 0", 3, JobProblem::BadRecord),
            (
                "rack bays 3\nwords 2\nload 256 0 0",
                3,
                JobProblem::BadRecord,
            ),
            (
                "rack bays 3\nwords 2\nload 1 65536 0",
                3,
                JobProblem::BadRecord,
            ),
            (
                "rack bays 3\nwords 2\nload 1 0 2147483648",
                3,
                JobProblem::BadRecord,
            ),
            ("rack bays 3\n# end", 2, JobProblem::TooShort),
            ("", 0, JobProblem::TooShort),
        ] {
            let found = read_text(JobReader::new(rt.alloc()), text).err();
            assert_eq!(rt; found, Some(fault(line, problem)), "{text}");
        }
    }
}
