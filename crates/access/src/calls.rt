// The calls of a set. Each that can be refused promises in a clause of its own that the set is then as it was: a name
// for the clause would be no plainer than the clause, and no type could say it.
ghost use Rattle.std.specs.Prelude.{◌≡◌, true, false, is_ok, Ok, Err, if◌then◌else◌};
ghost use Rattle.signalling.specs.declared.refusal.Refusal.TheVariants.{PermitOut};
ghost use Rattle.rules.specs.Calls.{tune_answer, tuned, begin_answer, begun, cancel_answer, cancelled, slot_answer, slotted};
ghost use Rattle.rules.specs.Cards.{card_judged};
ghost use Rattle.rules.specs.Jobs.{opened};
ghost use Rattle.rules.specs.Law.{RunLaw};
ghost use Rattle.rules.specs.Meanings.{meaning_of};
ghost use Rattle.rules.specs.Slots.{is_out};
ghost use Rattle.access.specs.Sets.{fresh_set, make_answer, in_condition};

use crate::set::{NotMade, Set};
use parts::plan::NetworkPlan;
use parts::service::Service;
use parts::source::DrawSource;
use parts::verdict::EndWord;
use requests::jobs::{is_free, is_out};
use requests::through::{end_of, lose};
use rules::card::Card;
use rules::request::{Choice, Condition, End, Job, Live, Told};
use signalling::content::Heard;
use signalling::range::is_channel;
use signalling::refusal::Refusal;
use stays::follow::seek;
use std::mem::replace;

// A request that is just opened.
fn open_for<S>(service: S) -> Live<S>
    ensures { result ≡ opened service }
{
    Live {
        service,
        age: 0,
        sends: 0,
        since: 0,
    }
}

impl<D: DrawSource, S: Service + Drop, P: NetworkPlan> Set<D, S, P> {
    // A set whose numbers are in range, as it is before any call.
    fn fresh(card: Card, channel: u32, source: D, plan: P) -> Set<D, S, P>
        requires { card_judged card channel ≡ Ok tt }
        ensures set { result ≡ fresh_set card channel source plan }
        ensures law { RunLaw (meaning_of D.DrawSource S.Service (P.accepts plan)) card channel source }
    {
        Set {
            card,
            plan,
            condition: Condition {
                station: seek(channel),
                job: Job::Free,
                source,
            },
        }
    }

    // A set that seeks on a channel and has no request; refused where a number is out of range. Whatever is called
    // of it from then on, every history of calls and answers keeps the run law.
    pub fn make(card: Card, channel: u32, source: D, plan: P) -> Result<Set<D, S, P>, NotMade<D, P>>
        ensures answer { result ≡ make_answer card channel source plan }
        ensures law { is_ok result ≡ true → RunLaw (meaning_of D.DrawSource S.Service (P.accepts plan)) card channel source }
    {
        match card.check(channel) {
            Ok(()) => Ok(Self::fresh(card, channel, source, plan)),
            Err(refusal) => Err(NotMade {
                refusal,
                source,
                plan,
            }),
        }
    }

    // Refuses a call that may not be made while a permit is out.
    fn check_no_permit_out(&self) -> Result<(), Refusal>
        ensures { result ≡ (if is_out self.now.condition.job then Err PermitOut else Ok tt) }
    {
        if is_out(&self.condition.job) {
            return Err(Refusal::PermitOut);
        }
        Ok(())
    }

    // Ends the stay, and with it an open request; takes the channel and seeks there.
    pub fn tune(&mut self, channel: u32) -> Result<Option<End>, Refusal>
        ensures answer { result ≡ tune_answer self.old.condition channel }
        ensures after { self.new ≡ in_condition self.old (tuned self.old.condition channel) }
        ensures refused { is_ok result ≡ false → self.new ≡ self.old }
    {
        self.check_no_permit_out()?;
        if !is_channel(channel) {
            return Err(Refusal::Channel);
        }
        let job = replace(&mut self.condition.job, Job::Free);
        self.condition.station = seek(channel);
        Ok(lose(job).err())
    }

    // Opens a request for a service.
    pub fn begin(&mut self, service: S) -> Result<(), Refusal>
        ensures answer { result ≡ begin_answer self.old.condition }
        ensures after { self.new ≡ in_condition self.old (begun self.old.condition service) }
        ensures refused { is_ok result ≡ false → self.new ≡ self.old }
    {
        self.check_no_permit_out()?;
        if self.condition.station.stay.is_none() {
            return Err(Refusal::NoStay);
        }
        if !is_free(&self.condition.job) {
            return Err(Refusal::RequestOpen);
        }
        self.condition.job = Job::Trying {
            live: open_for(service),
            window: 0,
            choice: Choice::Unchosen,
        };
        Ok(())
    }

    // Ends an open request as withdrawn.
    pub fn cancel(&mut self) -> Result<End, Refusal>
        ensures answer { result ≡ cancel_answer self.old.condition }
        ensures after { self.new ≡ in_condition self.old (cancelled self.old.condition) }
        ensures refused { is_ok result ≡ false → self.new ≡ self.old }
    {
        self.check_no_permit_out()?;
        match replace(&mut self.condition.job, Job::Free) {
            Job::Free => Err(Refusal::NoRequest),
            Job::Trying { live, .. } | Job::Waiting { live } => {
                Ok(end_of(EndWord::Withdrawn, live))
            }
        }
    }

    // One heard slot.
    pub fn slot(&mut self, heard: &Heard) -> Result<Told, Refusal>
        ensures answer { result ≡ slot_answer (meaning_of D.DrawSource S.Service (P.accepts self.old.plan)) self.old.card self.old.condition heard.now }
        ensures after { self.new ≡ in_condition self.old (slotted (meaning_of D.DrawSource S.Service (P.accepts self.old.plan)) self.old.card self.old.condition heard.now) }
        ensures refused { is_ok result ≡ false → self.new ≡ self.old }
    {
        self.check_no_permit_out()?;
        heard.check()?;
        Ok(self.hear(heard))
    }

    // The channel that the set is tuned to.
    pub fn channel(&self) -> u32
        ensures { result ≡ self.now.condition.station.channel }
    {
        self.condition.station.channel
    }
}
