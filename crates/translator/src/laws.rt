// What is proved of the code scheme beside the translation.
ghost use Rattle.translator.specs.Length.{AtMostFourARecord};

// A program's code has at most four instructions a record, so that 4,096 suffice for the largest table.
pub fn code_is_short()
    ensures { AtMostFourARecord }
{}
