// Why a call is refused. Each refusal has one number, by which hosts, scripts and logs know it.
ghost use Rattle.std.specs.Prelude.{◌≡◌};
ghost use Rattle.signalling.specs.Refusals.{number_of};

#[derive(Clone, Copy, PartialEq, Eq)]
pub enum Refusal {
    // begin without a stay
    NoStay,
    // begin with a request open
    RequestOpen,
    // a permit is out
    PermitOut,
    // sent or held without a permit out, or with an empty one
    NoPermit,
    // sent or held with a permit of another address
    OtherAddress,
    // cancel with no request open
    NoRequest,
    // the own address is out of range
    Address,
    // a channel number is out of range
    Channel,
    // NR, the most transmissions of a request, is out of range
    MostTransmissions,
    // TC, TS or TJ is out of range
    Timer,
    // NW, the first response delay, is out of range
    FirstDelay,
    // the system code of a heard slot is out of range
    SystemCode,
    // a field of a heard slot's content is out of range
    ContentField,
    // a register source was to start at 0
    ZeroRegister,
}

impl Refusal {
    // The number of the refusal: a method, whose name says at each caller what a conversion to `u32` would hide.
    pub fn number(self) -> u32
        ensures { result ≡ number_of self }
    {
        match self {
            Refusal::NoStay => 1,
            Refusal::RequestOpen => 2,
            Refusal::PermitOut => 3,
            Refusal::NoPermit => 4,
            Refusal::OtherAddress => 5,
            Refusal::NoRequest => 6,
            Refusal::Address => 11,
            Refusal::Channel => 12,
            Refusal::MostTransmissions => 13,
            Refusal::Timer => 14,
            Refusal::FirstDelay => 15,
            Refusal::SystemCode => 21,
            Refusal::ContentField => 22,
            Refusal::ZeroRegister => 41,
        }
    }
}
