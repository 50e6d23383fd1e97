// What a set keeps of a request.
use crate::station::{State, Station};
use parts::verdict::EndWord;

// How a request ended: its word, its transmissions and the slots that it was open for.
#[derive(Clone, Copy)]
pub struct End {
    pub word: EndWord,
    pub transmissions: u32,
    pub age: u32,
}

// An open request: its service, its age in slots, its transmissions, and the slots since the last of them (or
// since it was opened).
#[derive(Clone, Copy, Drop)]
pub struct Live<S> {
    pub service: S,
    pub age: u32,
    pub sends: u32,
    pub since: u32,
}

// The return slot that a request is to be sent in: none chosen; chosen, so many slots ahead; the next one, with
// a permit ready; or the next one, with its permit handed over. An `Option` round the three chosen cases would be no
// plainer: each rule would match twice where it reads one of four.
#[derive(Clone, Copy, PartialEq, Eq)]
pub enum Choice {
    Unchosen,
    Ahead(u32),
    Ready,
    Out,
}

// What a set is about: no request; one that tries for access, with what is left of its response window; or one
// that waits for further signalling. An `Option` of a request with a phase would be no plainer: each rule would match
// twice where it reads one of three cases.
#[derive(Clone, Copy, Drop)]
pub enum Job<S> {
    Free,
    Trying {
        live: Live<S>,
        window: u32,
        choice: Choice,
    },
    Waiting {
        live: Live<S>,
    },
}

// What a heard slot is answered: the state after it, whether a permit is ready, and the end that came.
#[derive(Clone, Copy)]
pub struct Told {
    pub state: State,
    pub ready: bool,
    pub end: Option<End>,
}

// What a set's calls change: its station, what it is about, and its draw source.
#[derive(Clone, Copy, Drop)]
pub struct Condition<D, S> {
    pub station: Station,
    pub job: Job<S>,
    pub source: D,
}
