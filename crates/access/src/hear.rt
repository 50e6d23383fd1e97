// One heard slot as a whole: the channel is followed, the request goes through, and it may choose a slot.
ghost use Rattle.std.specs.Prelude.{◌≡◌};
ghost use Rattle.rules.specs.declared.request.Job.TheVariants.{Free};
ghost use Rattle.rules.specs.Calls.{working};
ghost use Rattle.rules.specs.Meanings.{meaning_of};
ghost use Rattle.rules.specs.Slots.{progressed, heard_by, told_by};
ghost use Rattle.access.specs.Sets.{in_condition, chosen_in};

use crate::set::Set;
use parts::plan::NetworkPlan;
use parts::service::Service;
use parts::source::DrawSource;
use requests::choose::choose;
use requests::jobs::{end_in, is_ready, left_of, state_of};
use requests::through::{go_through, lose};
use rules::request::{End, Job, Told};
use signalling::content::{Content, Heard};
use stays::follow::follow;
use std::mem::replace;

impl<D: DrawSource, S: Service + Drop, P: NetworkPlan> Set<D, S, P> {
    // Takes the request through the slot: it is lost where the slot left the set without a stay.
    fn carry(&mut self, content: &Content) -> Result<Job<S>, End>
        ensures answer { result ≡ progressed (meaning_of D.DrawSource S.Service (P.accepts self.old.plan)) self.old.card self.old.condition.station.stay self.old.condition.job content.now }
        ensures after { self.new ≡ in_condition self.old (working self.old.condition Free) }
    {
        let job = replace(&mut self.condition.job, Job::Free);
        match self.condition.station.stay {
            Some(_) => go_through(self.card, job, content),
            None => lose(job),
        }
    }

    // Has what is left of the request choose a slot, where the set has a stay.
    fn settle(&mut self, progress: Result<Job<S>, End>, content: &Content)
        ensures { self.new ≡ in_condition self.old (chosen_in (meaning_of D.DrawSource S.Service (P.accepts self.old.plan)) self.old.card self.old.condition progress content.now) }
    {
        self.condition.job = left_of(progress);
        if let Some(stay) = &self.condition.station.stay {
            choose(
                &mut self.condition.source,
                &mut self.condition.job,
                stay,
                content,
                self.card.address,
            );
        }
    }

    // Hears a slot whose numbers are in range, while no permit is out.
    pub(crate) fn hear(&mut self, heard: &Heard) -> Told
        ensures answer { result ≡ told_by (meaning_of D.DrawSource S.Service (P.accepts self.old.plan)) self.old.card self.old.condition heard.now }
        ensures after { self.new ≡ in_condition self.old (heard_by (meaning_of D.DrawSource S.Service (P.accepts self.old.plan)) self.old.card self.old.condition heard.now) }
    {
        follow(&self.plan, self.card, &mut self.condition.station, heard);
        let progress = self.carry(&heard.content);
        let end = end_in(&progress);
        self.settle(progress, &heard.content);
        Told {
            state: state_of(&self.condition.station.stay, &self.condition.job),
            ready: is_ready(&self.condition.job),
            end,
        }
    }
}
