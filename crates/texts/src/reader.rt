// Reading a text line by line.
use crate::error::{TextError, TextProblem};

// What reads the texts of one sort, and keeps what was read so far. It counts the lines, so that whoever has a text
// line by line, as from standard input, need not hold the whole of it.
pub trait LineReader: Drop {
    type Text;

    type Problem: TextProblem;

    // The next line of the text, without its end.
    fn take_line(&mut self, text: &str) -> Result<(), TextError<Self::Problem>>;

    // What was read, where the text may end here.
    fn finish(self) -> Result<Self::Text, TextError<Self::Problem>>;
}

// A whole text.
pub fn read_text<R: LineReader>(
    mut reader: R,
    text: &str,
) -> Result<R::Text, TextError<R::Problem>> {
    for line in text.lines() {
        reader.take_line(line)?;
    }
    reader.finish()
}

// What stands before a `#`.
pub(crate) fn without_comment(text: &str) -> &str {
    text.split_once('#').map_or(text, |(before, _)| before)
}
