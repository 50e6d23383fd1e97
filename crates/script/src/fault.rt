// What is wrong with a line of a script.
ghost use Rattle.std.specs.Prelude.{◌≡◌};
ghost use Rattle.script.specs.Faults.{number_of, place_of};

// A fault answers a number and a place, the bytes of a line counted from 1.
#[derive(Clone, Copy)]
pub enum Fault {
    // the form can't go on at this place
    Malformed { place: usize },
    // a form before the set is made, or a second make
    OutOfTurn,
    // a line of over 200 bytes
    LineTooLong,
    // an input of too many bytes
    InputTooLong,
}

impl Fault {
    // The number of the fault. As a conversion to a number it would not say that it is not the place.
    pub fn number(self) -> u32
        ensures { result ≡ number_of self }
    {
        match self {
            Fault::Malformed { .. } => 31,
            Fault::OutOfTurn => 32,
            Fault::LineTooLong => 33,
            Fault::InputTooLong => 34,
        }
    }

    // The place of the fault: the byte of the line, counted from 1, or 0 where no line is at fault. It is no `Option`,
    // since 0 is what is printed then; and a method, as the number is.
    pub fn place(self) -> usize
        ensures { result ≡ place_of self }
    {
        match self {
            Fault::Malformed { place } => place,
            Fault::OutOfTurn => 1,
            Fault::LineTooLong => 201,
            Fault::InputTooLong => 0,
        }
    }
}
