// The texts that the program reads: a node table with what it is walked with, and a job of calls.
#![tactic(auto)]

pub mod error;
pub mod job;
pub mod reader;
pub mod table;

pub use error::{TextError, TextProblem};
pub use reader::{LineReader, read_text};
