// What a line does on the bench.
ghost use Rattle.std.specs.Prelude.{◌≡◌};
ghost use Rattle.script.specs.Judged.{reading};
ghost use Rattle.player.specs.Answers.{made_by, made_or, manned_by, form_answer, form_after, line_answer, line_after};

use crate::manned::Manned;
use access::permit::Permit;
use access::set::Set;
use parts::list_source::ListSource;
use printing::answer::Answer;
use script::fault::Fault;
use script::form::{Form, MakeForm};
use script::line::read;

// A set is made for the bench, unless it is refused.
fn man(bench: &mut Option<Manned>, make: &MakeForm) -> Answer
    requires { bench.old ≡ None }
    ensures answer { result ≡ made_or (made_by make.now) }
    ensures after { bench.new ≡ manned_by (made_by make.now) }
{
    match Set::make(
        make.card,
        make.channel,
        ListSource::new(make.draws),
        make.plan,
    ) {
        Ok(set) => {
            *bench = Some(Manned {
                set,
                permit: Permit::empty(),
            });
            Answer::Done { end: None }
        }
        Err(not_made) => Answer::Refused(not_made.refusal),
    }
}

// A form on the bench: a bare one takes none but make.
fn turn(bench: &mut Option<Manned>, form: &Form) -> Answer
    ensures answer { result ≡ form_answer bench.old form.now }
    ensures after { bench.new ≡ form_after bench.old form.now }
{
    match bench {
        Some(manned) => manned.turn(form),
        None => match form {
            Form::Make(make) => man(bench, make),
            _ => Answer::Bad(Fault::OutOfTurn),
        },
    }
}

// A line of a script: what it is answered.
pub(crate) fn answer(bench: &mut Option<Manned>, line: &[u8]) -> Answer
    ensures answer { result ≡ line_answer bench.old (reading line.now) }
    ensures after { bench.new ≡ line_after bench.old (reading line.now) }
{
    match read(line) {
        Ok(form) => turn(bench, &form),
        Err(fault) => Answer::Bad(fault),
    }
}
