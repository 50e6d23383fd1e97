// How a request ends, and what a heard content means to it.

// The word of an end.
#[derive(Clone, Copy, PartialEq, Eq)]
pub enum EndWord {
    // no slot came in time, and nothing was sent
    NoAccess,
    // the network said nothing final in time
    Unknown,
    // the control channel was lost
    Lost,
    // the host withdrew the request
    Withdrawn,
    // the network denied the request
    Denied,
    // the network is overloaded
    Overload,
    // the network accepted a registration
    Accepted,
    // the called party cannot be had
    Unavailable,
    // a traffic channel was granted
    Granted,
}

// What a heard content means to a request: nothing, that it is to wait, or its end. An `Option` round the other two
// would be no plainer: each caller reads one of three cases.
#[derive(Clone, Copy, PartialEq, Eq)]
pub enum Verdict {
    Nothing,
    Interim,
    End(EndWord),
}
