// What a heard slot does to a request, step by step, before a slot is chosen for it.
ghost use Rattle.std.specs.Prelude.{◌≡◌};
ghost use Rattle.rules.specs.Jobs.{end_of, passed, lapsed, lost, aged, answered, tried, waited, through};

use parts::service::Service;
use parts::verdict::{EndWord, Verdict};
use rules::card::Card;
use rules::request::{Choice, End, Job, Live};
use signalling::content::Content;

// The end of a request: its word, its transmissions and its age.
pub fn end_of<S: Drop>(word: EndWord, live: Live<S>) -> End
    ensures { result ≡ end_of word live }
{
    End {
        word,
        transmissions: live.sends,
        age: live.age,
    }
}

// A chosen slot comes nearer; a permit that was ready and not taken lapses with its choice.
fn pass(choice: Choice) -> Choice
    ensures { result ≡ passed choice }
{
    match choice {
        Choice::Ahead(slots) => Choice::Ahead(slots.saturating_sub(1)),
        Choice::Ready => Choice::Unchosen,
        other => other,
    }
}

// A request in try as the next slot is heard: its choice passes.
fn lapse<S>(job: &mut Job<S>)
    ensures { job.new ≡ lapsed job.old }
{
    if let Job::Trying { choice, .. } = job {
        *choice = pass(*choice);
    }
}

// The end of a stay ends an open request as lost.
pub fn lose<S: Drop>(job: Job<S>) -> Result<Job<S>, End>
    ensures { result ≡ lost job }
{
    match job {
        Job::Free => Ok(Job::Free),
        Job::Trying { live, .. } | Job::Waiting { live } => Err(end_of(EndWord::Lost, live)),
    }
}

// A request a slot later.
fn age<S: Drop>(live: Live<S>) -> Live<S>
    ensures { result ≡ aged live }
{
    Live {
        age: live.age.saturating_add(1),
        since: live.since.saturating_add(1),
        ..live
    }
}

// An open request ages, and is judged: an interim answer has it wait, an end ends it.
fn judge<S: Drop>(verdict: Verdict, job: Job<S>) -> Result<Job<S>, End>
    ensures { result ≡ answered (λ _. verdict) job }
{
    match (job, verdict) {
        (Job::Free, _) => Ok(Job::Free),
        // two arms: tried as one pattern beside the word, which is not taken where the job is moved out of
        (Job::Trying { live, .. }, Verdict::End(word)) => Err(end_of(word, age(live))),
        (Job::Waiting { live }, Verdict::End(word)) => Err(end_of(word, age(live))),
        (
            Job::Trying {
                live,
                window,
                choice,
            },
            Verdict::Nothing,
        ) => Ok(Job::Trying {
            live: age(live),
            window,
            choice,
        }),
        (Job::Trying { live, .. } | Job::Waiting { live }, _) => Ok(Job::Waiting {
            live: age(live),
        }),
    }
}

// An open request ages, and heeds what the content means to its service.
fn answer<S: Service + Drop>(job: Job<S>, content: &Content, own: u32) -> Result<Job<S>, End>
    ensures { result ≡ answered (λ s. S.verdict s content.now own) job }
{
    let verdict = match &job {
        Job::Free => Verdict::Nothing,
        Job::Trying { live, .. } | Job::Waiting { live } => live.service.judge(content, own),
    };
    judge(verdict, job)
}

// A request in try: once its window is over with NR transmissions made it waits. At the access time-out TC one of
// which nothing was sent ends, and another waits.
fn try_on<S: Drop>(card: Card, job: Job<S>) -> Result<Job<S>, End>
    ensures { result ≡ tried card job }
{
    match job {
        Job::Trying { live, window, .. } if window <= 1 && live.sends >= card.nr => {
            Ok(Job::Waiting { live })
        }
        Job::Trying { live, .. } if live.age >= card.tc && live.sends == 0 => {
            Err(end_of(EndWord::NoAccess, live))
        }
        Job::Trying { live, .. } if live.age >= card.tc => Ok(Job::Waiting { live }),
        Job::Trying {
            live,
            window,
            choice,
        } => Ok(Job::Trying {
            live,
            window: window.saturating_sub(1),
            choice,
        }),
        other => Ok(other),
    }
}

// A request in wait ends as unknown once TJ slots were heard since the last transmission.
fn wait<S: Drop>(card: Card, job: Job<S>) -> Result<Job<S>, End>
    ensures { result ≡ waited card job }
{
    match job {
        Job::Waiting { live } if live.since >= card.tj => Err(end_of(EndWord::Unknown, live)),
        going => Ok(going),
    }
}

// A request through a slot that leaves the set active: it lapses, ages, heeds, tries and waits.
pub fn go_through<S: Service + Drop>(
    card: Card,
    mut job: Job<S>,
    content: &Content,
) -> Result<Job<S>, End>
    ensures { result ≡ through (λ s. S.verdict s content.now card.address) card job }
{
    lapse(&mut job);
    wait(card, try_on(card, answer(job, content, card.address)?)?)
}
