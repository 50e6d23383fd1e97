// Making and reading a frame length.
ghost use Rattle.std.specs.Prelude.{◌≡◌};
ghost use Rattle.signalling.specs.Frames.{slots_of, kept_length};

use crate::frame_length::FrameLength;

impl FrameLength {
    // The frame length of so many slots, where a frame can have so many. No `TryFrom`: its error could say no more than
    // `None` does.
    pub fn new(slots: u32) -> Option<FrameLength>
        ensures { slots_of result ≡ kept_length slots }
    {
        if (1..=32).contains(&slots) {
            Some(FrameLength { slots })
        } else {
            None
        }
    }

    // How many return slots the frame has.
    pub fn slots(self) -> u32
        ensures { result ≡ self.slots }
    {
        self.slots
    }
}
