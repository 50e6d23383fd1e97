// What the laws of the parts give to code that is written once for all of them.
ghost use Rattle.std.specs.Prelude.{◌≡◌, ◌≤◌, true, false};

use crate::service::Service;
use crate::source::DrawSource;
use signalling::content::Function;
use signalling::frame_length::FrameLength;

// A slot of a frame, drawn from any source: it lies in the frame.
pub fn slot_of<D: DrawSource>(source: &mut D, frame: FrameLength) -> u32
    ensures value { result ≡ D.ready source.old frame.slots }
    ensures after { source.new ≡ D.drawn source.old frame.slots }
    ensures least { 1 ≤ result }
    ensures most { result ≤ frame.slots }
{
    source.draw(frame)
}

// Whether a service is invited by ALHE alone if it is an emergency: every service is.
pub fn heeds_alhe<S: Service>(service: &S) -> bool
    ensures { result ≡ true }
{
    service.is_emergency() || !service.is_invited(Function::Alhe)
}

// Whether fall-back mode or an unknown function invites a service: none is invited so.
pub fn is_invited_unknown<S: Service>(service: &S) -> bool
    ensures { result ≡ false }
{
    service.is_invited(Function::Alhf) || service.is_invited(Function::Unknown)
}
