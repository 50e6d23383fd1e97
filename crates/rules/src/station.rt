// What a set keeps of the channel that it follows.
use signalling::content::{Function, Noted};

// What a set tells of itself: seeking a control channel, or active on one with no request, with a request
// that tries for access, or with one that waits for further signalling.
#[derive(Clone, Copy, PartialEq, Eq)]
pub enum State {
    Seeking,
    Idle,
    Trying,
    Waiting,
}

// A frame that a heard slot marked: its function, and its return slots, 1 or more. A `FrameLength` would be no plainer
// than the number: the definitions count with it, and would show its range each time they name a frame.
#[derive(Clone, Copy)]
pub struct Mark {
    pub function: Function,
    pub slots: u32,
}

// What each of the newest 32 slots of a stay marked, if it marked a frame: the slot heard last has its record at
// `place`, the one before it at the place before, and so on around the table. It has a fixed size, so that a set
// needs no heap, and one place of it is written for each slot.
#[derive(Clone, Copy)]
pub struct Frames {
    pub marks: [Option<Mark>; 32],
    pub place: u32,
}

// A stay: the time for which a set is active on one control channel.
#[derive(Clone, Copy)]
pub struct Stay {
    // so many more slots in a row without a system code end the stay
    pub patience: u32,
    // what the newest Aloha message of the stay had the set note
    pub noted: Noted,
    pub frames: Frames,
}

// The channel that the set is tuned to, and its stay there, where it is active.
#[derive(Clone, Copy)]
pub struct Station {
    pub channel: u32,
    pub stay: Option<Stay>,
}
