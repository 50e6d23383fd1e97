// An answer on a line of its own.
ghost use Rattle.std.specs.Prelude.{◌≡◌, ◌++◌, string_bytes, OnOk};
ghost use Rattle.printing.specs.Printed.{answer_line};

use crate::answer::Answer;
use std::fmt;

// Puts an answer's line behind what is printed so far.
pub fn append(printed: &mut String, answer: &Answer) -> fmt::Result
    ensures { OnOk result (string_bytes printed.new ≡ string_bytes printed.old ++ answer_line answer.now) }
{
    writeln!(printed, "{answer}")?;
    Ok(())
}
