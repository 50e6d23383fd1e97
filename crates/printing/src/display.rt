// The printed form of an answer.
ghost use Rattle.std.specs.Prelude.{◌≡◌, Some};
ghost use Rattle.printing.specs.Printed.{end_word, state_word, last_part, answer_form};

use crate::answer::Answer;
use parts::verdict::EndWord;
use rules::request::{End, Told};
use rules::station::State;
use std::fmt;

// The word of an end as it is printed. This and the next are no `Display` of their types, which stand below, in crates
// that know nothing of printed lines.
pub fn end_text(word: EndWord) -> &'static str
    ensures { result.now ≡ end_word word }
{
    match word {
        EndWord::NoAccess => "noaccess",
        EndWord::Unknown => "unknown",
        EndWord::Lost => "lost",
        EndWord::Withdrawn => "withdrawn",
        EndWord::Denied => "denied",
        EndWord::Overload => "overload",
        EndWord::Accepted => "accepted",
        EndWord::Unavailable => "unavailable",
        EndWord::Granted => "granted",
    }
}

// A state as it is printed.
pub fn state_text(state: State) -> &'static str
    ensures { result.now ≡ state_word state }
{
    match state {
        State::Seeking => "search",
        State::Idle => "idle",
        State::Trying => "try",
        State::Waiting => "wait",
    }
}

// How an answer closes: with the end of a request, where one ended.
#[derive(Clone, Copy)]
struct Closing {
    end: Option<End>,
}

impl fmt::Display for Closing {
    ghost output = { λ c. Some (last_part c.end) };

    fn fmt<W: fmt::Write>(&self, f: &mut fmt::Formatter<W>) -> fmt::Result {
        match self.end {
            None => write!(f, ")"),
            Some(end) => {
                let End {
                    word,
                    transmissions,
                    age,
                } = end;
                let word = end_text(word);
                write!(f, " (end {word} {transmissions} {age}))")
            }
        }
    }
}

impl fmt::Display for Answer {
    ghost output = { λ a. Some (answer_form a) };

    fn fmt<W: fmt::Write>(&self, f: &mut fmt::Formatter<W>) -> fmt::Result {
        match *self {
            Answer::Done { end } => write!(f, "(done{}", Closing { end }),
            Answer::Heard(Told { state, ready, end }) => {
                let state = state_text(state);
                let closing = Closing { end };
                if ready {
                    write!(f, "(heard {state} (open){closing}")
                } else {
                    write!(f, "(heard {state}{closing}")
                }
            }
            Answer::Empty => write!(f, "(none)"),
            Answer::Refused(refusal) => write!(f, "(no {})", refusal.number()),
            Answer::No { number } => write!(f, "(no {number})"),
            Answer::Bad(fault) => write!(f, "(bad {} {})", fault.number(), fault.place()),
        }
    }
}
