// Inner forms, each read as a line of its own.
ghost use Rattle.script.specs.Cursor.{Follows};
ghost use Rattle.script.specs.Inside.{Inside};
ghost use Rattle.script.specs.Inward.{Shut};
ghost use Rattle.script.specs.Reading.{Reads, enclosed, enclosed_field};

use crate::closing::closing;
use crate::fault::Fault;
use crate::reader::{Reader, Sign};

// What stands in brackets inside a form.
pub(crate) trait InnerForm: Sized + Drop {
    // how it is read between its brackets
    ghost within: { Reads Self };

    fn read_within(reader: &mut Reader<'_>) -> Result<Self, Fault>
        ensures { Follows within reader.old reader.new result };

    // what stands behind the bracket that closes it does not count
    ghost shut: { Shut (enclosed within) };
}

impl<'a> Reader<'a> {
    // A reader of the form at the cursor: its line ends behind the bracket that closes the form.
    fn inner(&self) -> Reader<'a>
        ensures { Inside self.now result }
    {
        let line = match closing(self.line, self.pos) {
            Some(close) => &self.line[..close + 1],
            None => self.line,
        };
        Reader {
            line,
            pos: self.pos,
        }
    }

    // A form in its brackets.
    fn in_brackets<T: InnerForm>(&mut self) -> Result<T, Fault>
        ensures { Follows (enclosed T.InnerForm.within) self.old self.new result }
    {
        self.pass(Sign::Open)?;
        let form = T::read_within(self)?;
        self.pass(Sign::Close)?;
        Ok(form)
    }

    // A form in its brackets, read as a line of its own.
    pub(crate) fn inner_form<T: InnerForm>(&mut self) -> Result<T, Fault>
        ensures { Follows (enclosed T.InnerForm.within) self.old self.new result }
    {
        let mut inner = self.inner();
        let form = inner.in_brackets();
        self.pos = inner.pos;
        form
    }

    // A space and such a form.
    pub(crate) fn inner_field<T: InnerForm>(&mut self) -> Result<T, Fault>
        ensures { Follows (enclosed_field T.InnerForm.within) self.old self.new result }
    {
        self.pass(Sign::Space)?;
        self.inner_form()
    }
}
