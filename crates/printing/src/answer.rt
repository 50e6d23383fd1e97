// The answers to the lines of a script.
use rules::request::{End, Told};
use script::fault::Fault;
use signalling::refusal::Refusal;

// The answer to one line.
#[derive(Clone, Copy)]
pub enum Answer {
    // the call was granted; a request may have ended by it
    Done { end: Option<End> },
    // a slot was heard, and this was told of it
    Heard(Told),
    // there was no permit to take
    Empty,
    // the call was refused
    Refused(Refusal),
    // a refusal that is none of a set's, by its number: a host may have some of its own
    No { number: u32 },
    // the line is no form, or out of turn
    Bad(Fault),
}
