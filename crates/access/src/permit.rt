// The permit to transmit once, in the return slot that comes next.
ghost use Rattle.std.specs.Prelude.{◌≡◌, false, is_some, None};
ghost use Rattle.access.specs.Sets.{permit_for};

use signalling::refusal::Refusal;

// A permit carries the address that it is for; an empty one carries none and permits nothing. One that carries
// an address goes back to its set by `sent` or `held`, and may not be let go. An `Option` of a permit would be no
// plainer: an empty one can be brought back like any other, and is refused.
pub struct Permit {
    pub(crate) address: Option<u32>,
}

impl Drop for Permit {
    fn drop(self)
        requires { is_some self.address ≡ false }
    {
        let Permit { address: _ } = self;
    }
}

impl Permit {
    // A permit that permits nothing.
    pub fn empty() -> Permit
        ensures { result ≡ permit_for None }
    {
        Permit { address: None }
    }

    // The address that the permit is for.
    pub fn address(&self) -> Option<u32>
        ensures { result ≡ self.now.address }
    {
        self.address
    }

    // Takes in a permit that came back to its set.
    pub(crate) fn spend(self) {
        let Permit { address: _ } = self;
    }
}

// A permit that was brought back and refused: why, and the permit, which stays with its holder.
pub struct Kept {
    pub refusal: Refusal,
    pub permit: Permit,
}
