// Reads a node table as text: three numbers a record, white space between them, `#` begins a comment. Between
// records a word and a number set what the table is walked with.
use crate::error::{TextError, TextProblem, fault};
use crate::reader::{LineReader, without_comment};
use script::{Limits, Record};
use std::alloc::Global;
use std::str::FromStr;
use thiserror::Error;

// Why a text is no table.
#[derive(Clone, Copy, PartialEq, Eq, Debug, Error)]
pub enum TableProblem {
    // a word is no number, or a number that no field holds
    #[error("a record is three whole numbers, and this word is none")]
    NotANumber,
    #[error("a kind is a number from 0 to 255")]
    KindRange,
    #[error("the second number of a record is from 0 to 65535")]
    NameRange,
    #[error("the third number of a record is from -2147483648 to 2147483647")]
    ValueRange,
    #[error("a setting is a number from 0 to 4294967295")]
    SettingRange,
    #[error("the text ends within a record, which is three numbers, or within a setting")]
    Incomplete,
}

impl TextProblem for TableProblem {
    const SORT: &'static str = "table";
}

pub type TableError = TextError<TableProblem>;

// What a table is walked with.
#[derive(Clone, Copy, PartialEq, Eq, Debug)]
pub struct Settings {
    // how many bays there are
    pub bays: u32,
    pub limits: Limits,
    // how many names and words the two slices have
    pub slices: u32,
}

impl Default for Settings {
    // The slices are as long as any accepted table can want: 128 globals, and 64 frames of 100 words.
    fn default() -> Settings {
        Settings {
            bays: 16,
            limits: Limits {
                fuel: 10000,
                depth: 63,
            },
            slices: 6528,
        }
    }
}

impl Settings {
    // A method that gives the field as a `&mut` would be the same match, with a borrow besides.
    fn set(&mut self, setting: Setting, value: u32) {
        match setting {
            Setting::Bays => self.bays = value,
            Setting::Fuel => self.limits.fuel = value,
            Setting::Depth => self.limits.depth = value,
            Setting::Slices => self.slices = value,
        }
    }
}

#[derive(Clone, Copy)]
enum Setting {
    Bays,
    Fuel,
    Depth,
    Slices,
}

// A word that names no setting.
#[derive(Drop)]
struct NoSetting;

impl FromStr for Setting {
    type Err = NoSetting;

    fn from_str(word: &str) -> Result<Setting, NoSetting> {
        match word {
            "bays" => Ok(Setting::Bays),
            "fuel" => Ok(Setting::Fuel),
            "depth" => Ok(Setting::Depth),
            "slices" => Ok(Setting::Slices),
            _ => Err(NoSetting),
        }
    }
}

// How far the record or the setting that is being read has come.
#[derive(Clone, Copy)]
enum Begun {
    Nothing,
    Setting(Setting),
    Kind(u8),
    KindAndName(u8, u16),
}

// A text that was read.
#[derive(Drop)]
pub struct TableJob {
    pub table: Vec<Record>,
    pub settings: Settings,
}

// A whole number in the range of its type.
fn number<N: TryFrom<i64>>(
    line: usize,
    word: &str,
    out_of_range: TableProblem,
) -> Result<N, TableError>
where
    N::Error: Drop,
{
    let number = word
        .parse::<i64>()
        .map_err(|_| fault(line, TableProblem::NotANumber))?;
    N::try_from(number).map_err(|_| fault(line, out_of_range))
}

// The records read so far, the settings, what is begun, and the number of the last line.
#[derive(Drop)]
pub struct TableReader {
    records: Vec<Record>,
    settings: Settings,
    begun: Begun,
    line: usize,
}

impl TableReader {
    pub fn new(heap: Global) -> TableReader {
        TableReader {
            records: Vec::new(heap),
            settings: Settings::default(),
            begun: Begun::Nothing,
            line: 0,
        }
    }

    fn take_word(&mut self, word: &str) -> Result<(), TableError> {
        let line = self.line;
        self.begun = match self.begun {
            Begun::Nothing => match word.parse() {
                Ok(setting) => Begun::Setting(setting),
                Err(NoSetting) => Begun::Kind(number(line, word, TableProblem::KindRange)?),
            },
            Begun::Setting(setting) => {
                let value = number(line, word, TableProblem::SettingRange)?;
                self.settings.set(setting, value);
                Begun::Nothing
            }
            Begun::Kind(kind) => {
                Begun::KindAndName(kind, number(line, word, TableProblem::NameRange)?)
            }
            Begun::KindAndName(kind, a) => {
                let v = number(line, word, TableProblem::ValueRange)?;
                self.records.push(Record { kind, a, v })?;
                Begun::Nothing
            }
        };
        Ok(())
    }
}

impl LineReader for TableReader {
    type Text = TableJob;

    type Problem = TableProblem;

    fn take_line(&mut self, text: &str) -> Result<(), TableError> {
        self.line = self.line.saturating_add(1);
        for word in without_comment(text).split_whitespace() {
            self.take_word(word)?;
        }
        Ok(())
    }

    // The text must not end within a record or a setting.
    fn finish(self) -> Result<TableJob, TableError> {
        let Begun::Nothing = self.begun else {
            return Err(fault(self.line, TableProblem::Incomplete));
        };
        Ok(TableJob {
            table: self.records,
            settings: self.settings,
        })
    }
}

#[cfg(test)]
mod tests {
    use super::*;
    use crate::read_text;
    use std::test::Fail;

    #[test]
    fn records_are_read(rt: HostRuntime) -> Result<(), Fail> {
        let text = "# none yet\n 1 0 -7 fuel\n9 2 # a variable\n\n\t255 0\n";
        let job = read_text(TableReader::new(rt.alloc()), text)?;
        let limits = Limits { fuel: 9, depth: 63 };
        let wanted = Settings {
            limits,
            ..Settings::default()
        };
        assert_eq!(rt; job.settings, wanted);
        let table = [
            Record {
                kind: 1,
                a: 0,
                v: -7,
            },
            Record {
                kind: 2,
                a: 255,
                v: 0,
            },
        ];
        assert_eq!(rt; job.table.as_slice(), table.as_slice());
        Ok(())
    }

    #[test]
    fn bad_text_is_told_by_line(rt: HostRuntime) {
        for (text, line, problem) in [
            ("1 0 0\n1 x 0", 2, TableProblem::NotANumber),
            ("256 0 0", 1, TableProblem::KindRange),
            ("1\n65536 0", 2, TableProblem::NameRange),
            ("1 0 2147483648", 1, TableProblem::ValueRange),
            ("fuel -1", 1, TableProblem::SettingRange),
            ("1 0 0\n1 0\n", 2, TableProblem::Incomplete),
        ] {
            let found = read_text(TableReader::new(rt.alloc()), text).err();
            assert_eq!(rt; found, Some(fault(line, problem)), "{text}");
        }
    }
}
