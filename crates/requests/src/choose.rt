// How a request in try chooses a return slot, and when a permit is ready for it. No choice asks which system codes a
// plan accepts: the clauses hold for any codes. The own address goes beside what it is compared with, since public
// functions take the two so; a struct of them would be no plainer.
ghost use Rattle.std.specs.Prelude.{◌≡◌, ℕ, Bool, ◌&&◌, if◌then◌else◌, ◌==◌};
ghost use Rattle.signalling.specs.Division.{admits};
ghost use Rattle.signalling.specs.Frames.{slots_of};
ghost use Rattle.signalling.specs.Reading.{marked, leaves_free};
ghost use Rattle.rules.specs.Choosing.{may_choose, draws, chosen, permitted, choosing, source_after};
ghost use Rattle.rules.specs.Frames.{covered};
ghost use Rattle.rules.specs.Meanings.{meaning_of};

use crate::cover::is_covered;
use parts::service::Service;
use parts::source::DrawSource;
use rules::request::{Choice, Job, Live};
use rules::station::Stay;
use signalling::content::{Content, Noted};
use signalling::frame_length::FrameLength;

// Whether the noted division lets a service in. The definition `let_in` would be no plainer in this clause and the next
// two: it takes the meaning of all three parts, and here is a service alone.
fn is_let_in<S: Service>(service: &S, noted: Noted, own: u32) -> bool
    ensures { result ≡ admits (S.emergency service.now) noted.division own }
{
    noted.division.admits(service.is_emergency(), own)
}

// Whether a frame marked now is suitable for a service: its function invites it and the division lets it in.
fn is_suitable<S: Service>(service: &S, noted: Noted, own: u32) -> bool
    ensures { result ≡ (S.invites service.now noted.function && admits (S.emergency service.now) noted.division own) }
{
    service.is_invited(noted.function) && is_let_in(service, noted, own)
}

// The first-try option: at the first slot after a request was opened, a running frame may cover the next one.
fn is_first_try<S: Service>(live: &Live<S>, stay: &Stay, own: u32) -> bool
    ensures { result ≡ (live.now.age == 1 && (admits (S.emergency live.now.service) stay.now.noted.division own && covered (S.invites live.now.service) stay.now.frames)) }
{
    live.age == 1
        && is_let_in(&live.service, stay.noted, own)
        && is_covered(&live.service, &stay.frames)
}

// Chooses a slot: one drawn from the frame marked now, or the next by the first-try option.
fn pick<D: DrawSource, S: Service>(
    source: &mut D,
    live: &Live<S>,
    stay: &Stay,
    frame: Option<FrameLength>,
    own: u32,
) -> Choice
    ensures choice { (codes : ℕ → Bool) → result ≡ chosen (meaning_of D.DrawSource S.Service codes) own source.old live.now stay.now (slots_of frame) }
    ensures after { (codes : ℕ → Bool) → source.new ≡ (if draws (meaning_of D.DrawSource S.Service codes) own live.now.service stay.now (slots_of frame) then D.drawn source.old (slots_of frame) else source.old) }
{
    match frame {
        Some(frame) if is_suitable(&live.service, stay.noted, own) => {
            Choice::Ahead(source.draw(frame))
        }
        _ if is_first_try(live, stay, own) => Choice::Ahead(1),
        _ => Choice::Unchosen,
    }
}

// A request may choose where it has neither a choice nor a window.
fn may_choose(window: u32, choice: Choice) -> bool
    ensures { result ≡ may_choose window choice }
{
    choice == Choice::Unchosen && window == 0
}

// A chosen slot that comes next is permitted where it is free; where it is withdrawn the choice is dropped.
fn permit(free: bool, choice: Choice) -> Choice
    ensures { result ≡ permitted free choice }
{
    match choice {
        Choice::Ahead(1) if free => Choice::Ready,
        Choice::Ahead(1) => Choice::Unchosen,
        other => other,
    }
}

// A request in try chooses; any other is left as it is.
pub fn choose<D: DrawSource, S: Service>(
    source: &mut D,
    job: &mut Job<S>,
    stay: &Stay,
    content: &Content,
    own: u32,
)
    ensures job { (codes : ℕ → Bool) → job.new ≡ choosing (meaning_of D.DrawSource S.Service codes) own (leaves_free content.now own) source.old job.old stay.now (marked content.now) }
    ensures after { (codes : ℕ → Bool) → source.new ≡ source_after (meaning_of D.DrawSource S.Service codes) own source.old job.old stay.now (marked content.now) }
{
    if let Job::Trying {
        live,
        window,
        choice,
    } = job
    {
        if may_choose(*window, *choice) {
            *choice = pick(source, live, stay, content.marks(), own);
        }
        *choice = permit(content.leaves_free(own), *choice);
    }
}
