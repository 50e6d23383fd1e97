// Reading a request, and what a set tells of it.
ghost use Rattle.std.specs.Prelude.{◌≡◌};
ghost use Rattle.rules.specs.Slots.{is_ready, is_out, is_free, state_of, end_in, left};

use rules::request::{Choice, End, Job};
use rules::station::{State, Stay};

// Whether a permit is ready. This and the next are one pattern each; a function over both would only have each caller
// name the choice.
pub fn is_ready<S>(job: &Job<S>) -> bool
    ensures { result ≡ is_ready job.now }
{
    matches!(
        job,
        Job::Trying {
            choice: Choice::Ready,
            ..
        }
    )
}

// Whether a permit is handed over.
pub fn is_out<S>(job: &Job<S>) -> bool
    ensures { result ≡ is_out job.now }
{
    matches!(
        job,
        Job::Trying {
            choice: Choice::Out,
            ..
        }
    )
}

// Whether no request is open.
pub fn is_free<S>(job: &Job<S>) -> bool
    ensures { result ≡ is_free job.now }
{
    matches!(job, Job::Free)
}

// What a set tells of itself.
pub fn state_of<S>(stay: &Option<Stay>, job: &Job<S>) -> State
    ensures { result ≡ state_of stay.now job.now }
{
    match (stay, job) {
        (None, _) => State::Seeking,
        (Some(_), Job::Free) => State::Idle,
        (Some(_), Job::Trying { .. }) => State::Trying,
        (Some(_), Job::Waiting { .. }) => State::Waiting,
    }
}

// The end that came, if one came.
pub fn end_in<S>(progress: &Result<Job<S>, End>) -> Option<End>
    ensures { result ≡ end_in progress.now }
{
    progress.as_ref().err().copied()
}

// What is left of a request once an end is told.
pub fn left_of<S: Drop>(progress: Result<Job<S>, End>) -> Job<S>
    ensures { result ≡ left progress }
{
    progress.unwrap_or(Job::Free)
}
