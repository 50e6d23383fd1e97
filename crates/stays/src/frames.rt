// The frames that run side by side: one record for each of the newest 32 slots.
ghost use Rattle.std.specs.Prelude.{◌≡◌};
ghost use Rattle.rules.specs.Frames.{no_frames, marking};

use rules::station::{Frames, Mark};

// No frames: as a stay begins.
pub(crate) fn no_frames() -> Frames
    ensures { result ≡ no_frames }
{
    Frames {
        marks: [None; 32],
        place: 0,
    }
}

// Writes what one more slot marked, at its own place: the record of 32 slots ago goes.
pub(crate) fn enter(frames: &mut Frames, mark: Option<Mark>)
    ensures { frames.new ≡ marking frames.old mark }
{
    let place = (frames.place % 32 + 1) % 32;
    frames.marks[place as usize] = mark;
    frames.place = place;
}
