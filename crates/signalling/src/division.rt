// The subdivision of the radio unit population by an address qualifier M and an address (7.2.2, 7.3.1).
ghost use Rattle.std.specs.Prelude.{◌≡◌, ◌==◌, ◌%◌, ◌^◌};
ghost use Rattle.signalling.specs.Division.{applicable, admits};

// A division: the units whose own address has the same M least significant bits as the address.
#[derive(Clone, Copy, PartialEq, Eq)]
pub struct Division {
    pub qualifier: u32,
    pub address: u32,
}

// Whether so many least significant bits of a number are those of another.
fn has_low_bits_of(number: u32, other: u32, bits: u32) -> bool
    ensures { result ≡ (number % 2 ^ bits == other % 2 ^ bits) }
{
    if bits < 32 {
        let population = 1u32 << bits;
        number % population == other % population
    } else {
        number == other
    }
}

impl Division {
    // Whether the unit with this own address belongs to the division.
    pub fn applies_to(self, own: u32) -> bool
        ensures { result ≡ applicable self own }
    {
        has_low_bits_of(own, self.address, self.qualifier)
    }

    // Whether the division lets a request choose a slot: an emergency needs only that M is below 20.
    pub fn admits(self, emergency: bool, own: u32) -> bool
        ensures { result ≡ admits emergency self own }
    {
        self.applies_to(own) || (emergency && self.qualifier < 20)
    }
}
