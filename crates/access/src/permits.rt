// A permit from hand to hand: taken from the set, and brought back as sent or held. These two are public calls, each
// with its own step behind the return; and each promises what a refusal leaves, as the calls of `calls.rt` do.
ghost use Rattle.std.specs.Prelude.{◌≡◌, false, is_ok};
ghost use Rattle.rules.specs.Calls.{taken_job, sent_job, held_job, wait_now, take_answer, taken, back_answer, sent_back, held_back};
ghost use Rattle.access.specs.Sets.{in_condition, permit_for, taken_in};

use crate::permit::{Kept, Permit};
use crate::set::Set;
use parts::plan::NetworkPlan;
use parts::service::Service;
use parts::source::DrawSource;
use requests::jobs::{is_out, is_ready};
use rules::request::{Choice, Job};
use rules::station::Stay;
use signalling::refusal::Refusal;

// A ready permit is out once it is taken.
fn hand_over<S>(job: &mut Job<S>)
    ensures { job.new ≡ taken_job job.old }
{
    if let Job::Trying {
        choice: choice @ Choice::Ready,
        ..
    } = job
    {
        *choice = Choice::Out;
    }
}

// A transmission was made: the choice is spent, and the response window of WAIT + 2 slots starts.
fn note_sent<S>(job: &mut Job<S>, wait: u32)
    ensures { job.new ≡ sent_job wait job.old }
{
    if let Job::Trying {
        live,
        window,
        choice,
    } = job
    {
        live.sends = live.sends.saturating_add(1);
        live.since = 0;
        *window = wait.saturating_add(2);
        *choice = Choice::Unchosen;
    }
}

// The permit was not used: the choice is dropped, and nothing is counted.
fn note_held<S>(job: &mut Job<S>)
    ensures { job.new ≡ held_job job.old }
{
    if let Job::Trying { choice, .. } = job {
        *choice = Choice::Unchosen;
    }
}

// The response delay noted now.
fn wait_noted(stay: &Option<Stay>) -> u32
    ensures { result ≡ wait_now stay.now }
{
    stay.as_ref().map_or(0, |stay| stay.noted.wait)
}

impl<D: DrawSource, S: Service + Drop, P: NetworkPlan> Set<D, S, P> {
    // Hands over the permit that is ready, or an empty one.
    pub fn take(&mut self) -> Permit
        ensures answer { result ≡ permit_for (take_answer self.old.card self.old.condition) }
        ensures after { self.new ≡ in_condition self.old (taken self.old.condition) }
    {
        let ready = is_ready(&self.condition.job);
        hand_over(&mut self.condition.job);
        Permit {
            address: ready.then_some(self.card.address),
        }
    }

    // Whether a permit that is brought back is the one that is out.
    fn check_back(&self, permit: &Permit) -> Result<(), Refusal>
        ensures { result ≡ back_answer self.now.card self.now.condition permit.now.address }
    {
        if !is_out(&self.condition.job) {
            return Err(Refusal::NoPermit);
        }
        let address = permit.address.ok_or(Refusal::NoPermit)?;
        if address != self.card.address {
            return Err(Refusal::OtherAddress);
        }
        Ok(())
    }

    // Takes in the permit that is out; any other stays with its holder.
    fn take_in(&self, permit: Permit) -> Result<(), Kept>
        ensures { result ≡ taken_in (back_answer self.now.card self.now.condition permit.address) permit }
    {
        match self.check_back(&permit) {
            Ok(()) => {
                permit.spend();
                Ok(())
            }
            Err(refusal) => Err(Kept { refusal, permit }),
        }
    }

    // Brings the permit back after its transmission was made.
    pub fn sent(&mut self, permit: Permit) -> Result<(), Kept>
        ensures answer { result ≡ taken_in (back_answer self.old.card self.old.condition permit.address) permit }
        ensures after { self.new ≡ in_condition self.old (sent_back self.old.card self.old.condition permit.address) }
        ensures refused { is_ok result ≡ false → self.new ≡ self.old }
    {
        self.take_in(permit)?;
        let wait = wait_noted(&self.condition.station.stay);
        note_sent(&mut self.condition.job, wait);
        Ok(())
    }

    // Brings the permit back unused.
    pub fn held(&mut self, permit: Permit) -> Result<(), Kept>
        ensures answer { result ≡ taken_in (back_answer self.old.card self.old.condition permit.address) permit }
        ensures after { self.new ≡ in_condition self.old (held_back self.old.card self.old.condition permit.address) }
        ensures refused { is_ok result ≡ false → self.new ≡ self.old }
    {
        self.take_in(permit)?;
        note_held(&mut self.condition.job);
        Ok(())
    }
}
