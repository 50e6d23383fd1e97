// A whole line.
ghost use Rattle.std.specs.Prelude.{◌≡◌, ◌≤◌, length, Ok, Err};
ghost use Rattle.script.specs.Cursor.{line_of, Follows};
ghost use Rattle.script.specs.ReadAs.{ReadFrom};
ghost use Rattle.script.specs.Script.{code, form_fields, heard_fields, last};

use crate::fault::Fault;
use crate::form::Form;
use crate::names::FormName;
use crate::reader::{Reader, Sign};
use signalling::content::{Content, Heard};

impl Reader<'_> {
    // A system code and the space behind it, unless a content stands there.
    fn code(&mut self) -> Result<Option<u32>, Fault>
        ensures { Follows code self.old self.new result }
    {
        if self.is_at(Sign::Open) {
            return Ok(None);
        }
        let code: u32 = self.word()?;
        self.pass(Sign::Space)?;
        Ok(Some(code))
    }

    // What was heard: a content, or a system code and a content.
    fn heard_fields(&mut self) -> Result<Heard, Fault>
        ensures { Follows heard_fields self.old self.new result }
    {
        self.pass(Sign::Space)?;
        let code = self.code()?;
        let content: Content = self.inner_form()?;
        Ok(Heard { code, content })
    }

    // The closing bracket of the line's form, and the end behind it.
    fn last(&mut self) -> Result<(), Fault>
        ensures { Follows last self.old self.new result }
    {
        self.pass(Sign::Close)?;
        self.end()
    }

    // What follows the first word of a line's form.
    fn form_fields(&mut self, name: FormName) -> Result<Form, Fault>
        ensures { Follows (form_fields name) self.old self.new result }
    {
        match name {
            FormName::Make => self.make_fields().map(Form::Make),
            FormName::Tune => self.field().map(|channel| Form::Tune { channel }),
            FormName::Begin => self.field().map(|service| Form::Begin { service }),
            FormName::Take => Ok(Form::Take),
            FormName::Sent => Ok(Form::Sent),
            FormName::Held => Ok(Form::Held),
            FormName::Cancel => Ok(Form::Cancel),
            FormName::Slot => self.heard_fields().map(Form::Slot),
        }
    }

    // The form that is the whole line, from a reader at its start.
    fn whole(&mut self) -> Result<Form, Fault>
        requires { self.old.pos ≡ 0 }
        ensures { ReadFrom (line_of self.old) result }
    {
        self.pass(Sign::Open)?;
        let name: FormName = self.word()?;
        let form = self.form_fields(name)?;
        self.last()?;
        Ok(form)
    }
}

// A line of over 200 bytes is not read.
fn check_length(line: &[u8]) -> Result<(), Fault>
    ensures { elim result [ Err fault ↦ ReadFrom line.now (Err fault) | Ok _ ↦ length line.now ≤ 200 ] }
{
    if line.len() > 200 {
        Err(Fault::LineTooLong)
    } else {
        Ok(())
    }
}

// The form of a line of at most 200 bytes.
pub fn read(line: &[u8]) -> Result<Form, Fault>
    ensures { ReadFrom line.now result }
{
    check_length(line)?;
    Reader { line, pos: 0 }.whole()
}
