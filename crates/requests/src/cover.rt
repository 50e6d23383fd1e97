// Whether a frame that runs covers the next return slot.
ghost use Rattle.std.specs.Prelude.{◌≡◌};
ghost use Rattle.rules.specs.Frames.{slots_back, covers, covered};

use parts::service::Service;
use rules::station::{Frames, Mark};

// How many slots before the newest one the record at an index was heard.
fn slots_back(place: u32, index: usize) -> usize
    ensures { result ≡ slots_back place index }
{
    (place as usize % 32 + 32).saturating_sub(index) % 32
}

// Whether the record of the slot so many back is of a frame that covers the next return slot and invites the service.
fn covers<S: Service>(service: &S, back: usize, mark: Option<Mark>) -> bool
    ensures { result ≡ covers (S.invites service.now) back mark }
{
    mark.is_some_and(|mark| service.is_invited(mark.function) && back < mark.slots as usize)
}

// Whether one of the records does.
pub(crate) fn is_covered<S: Service>(service: &S, frames: &Frames) -> bool
    ensures { result ≡ covered (S.invites service.now) frames.now }
{
    frames.marks.iter().enumerate().any(|(index, mark)| covers(
        service,
        slots_back(frames.place, index),
        *mark,
    ))
}
