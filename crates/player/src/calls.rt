// The calls that a script makes of the set on the bench, and how each is answered.
ghost use Rattle.std.specs.Prelude.{◌≡◌, None};
ghost use Rattle.script.specs.declared.form.Form.TheVariants.{Take, Sent, Held};
ghost use Rattle.player.specs.Answers.{told, put_answer, call_answer, call_after};
ghost use Rattle.player.specs.Permits.{kept_address};

use crate::manned::Manned;
use access::permit::{Kept, Permit};
use printing::answer::Answer;
use script::fault::Fault;
use script::form::Form;
use signalling::refusal::Refusal;
use std::mem::replace;

// Answers the return of a permit. One that was refused goes into the place that it left empty.
fn put_back(place: &mut Permit, back: Result<(), Kept>) -> Result<Answer, Refusal>
    requires { place.old.address ≡ None }
    ensures answer { told result ≡ put_answer back }
    ensures after { place.new.address ≡ kept_address back }
{
    match back {
        Ok(()) => Ok(Answer::Done { end: None }),
        Err(Kept { refusal, permit }) => {
            *place = permit;
            Err(refusal)
        }
    }
}

impl Manned {
    // Takes a permit from the set; one that is handed over goes into the place of the empty one.
    fn take(&mut self) -> Answer
        ensures answer { result ≡ call_answer self.old Take }
        ensures after { self.new ≡ call_after self.old Take }
    {
        let permit = self.set.take();
        match permit.address() {
            Some(_) => {
                self.permit = permit;
                Answer::Done { end: None }
            }
            None => Answer::Empty,
        }
    }

    // Brings the permit back as sent.
    fn send(&mut self) -> Result<Answer, Refusal>
        ensures answer { told result ≡ call_answer self.old Sent }
        ensures after { self.new ≡ call_after self.old Sent }
    {
        let back = self.set.sent(replace(&mut self.permit, Permit::empty()));
        put_back(&mut self.permit, back)
    }

    // Brings the permit back unused.
    fn hold(&mut self) -> Result<Answer, Refusal>
        ensures answer { told result ≡ call_answer self.old Held }
        ensures after { self.new ≡ call_after self.old Held }
    {
        let back = self.set.held(replace(&mut self.permit, Permit::empty()));
        put_back(&mut self.permit, back)
    }

    // What a form is answered, or why its call is refused.
    fn call(&mut self, form: &Form) -> Result<Answer, Refusal>
        ensures answer { told result ≡ call_answer self.old form.now }
        ensures after { self.new ≡ call_after self.old form.now }
    {
        match form {
            Form::Make(_) => Ok(Answer::Bad(Fault::OutOfTurn)),
            Form::Tune { channel } => self.set.tune(*channel).map(|end| Answer::Done { end }),
            Form::Begin { service } => self
                .set
                .begin(*service)
                .map(|()| Answer::Done { end: None }),
            Form::Take => Ok(self.take()),
            Form::Sent => self.send(),
            Form::Held => self.hold(),
            Form::Cancel => self.set.cancel().map(|end| Answer::Done { end: Some(end) }),
            Form::Slot(heard) => self.set.slot(heard).map(Answer::Heard),
        }
    }

    // A form for a set: a refusal is an answer as well.
    pub(crate) fn turn(&mut self, form: &Form) -> Answer
        ensures answer { result ≡ call_answer self.old form.now }
        ensures after { self.new ≡ call_after self.old form.now }
    {
        self.call(form).unwrap_or_else(Answer::Refused)
    }
}
