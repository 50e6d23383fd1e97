// Which numbers a heard slot may hold.
ghost use Rattle.std.specs.Prelude.{◌≡◌};
ghost use Rattle.signalling.specs.Range.{address_in_range, channel_in_range, division_in_range, first_in_range, content_in_range, heard_in_range};

use crate::content::{Content, FirstIdent, Heard};
use crate::division::Division;
use crate::refusal::Refusal;

// Whether a number is an address: prefix and ident, 20 bits.
pub fn is_address(address: u32) -> bool
    ensures { result ≡ address_in_range address }
{
    address <= 1_048_575
}

// Whether a number is a channel: 10 bits.
pub fn is_channel(channel: u32) -> bool
    ensures { result ≡ channel_in_range channel }
{
    channel <= 1_023
}

impl Division {
    // Whether M and the address are in range.
    pub fn is_in_range(self) -> bool
        ensures { result ≡ division_in_range self }
    {
        self.qualifier <= 20 && is_address(self.address)
    }
}

impl FirstIdent {
    // Whether a plain ident has 13 bits at most.
    pub fn is_in_range(self) -> bool
        ensures { result ≡ first_in_range self }
    {
        match self {
            FirstIdent::Regi => true,
            FirstIdent::Plain(ident) => ident <= 8_191,
        }
    }
}

impl Content {
    // Whether each field holds a number that its bits can hold.
    pub fn is_in_range(&self) -> bool
        ensures { result ≡ content_in_range self.now }
    {
        match self {
            Content::Data { rsa, mine } => *rsa <= 1 && *mine <= 1,
            Content::Aloha {
                number,
                wt,
                division,
                ..
            } => *number <= 15 && *wt <= 7 && division.is_in_range(),
            Content::Reply {
                qual,
                number,
                first,
                to,
                ..
            } => *qual <= 1 && *number <= 15 && first.is_in_range() && is_address(*to),
            Content::Go {
                to,
                partner,
                channel,
                number,
            } => is_address(*to) && is_address(*partner) && is_channel(*channel) && *number <= 3,
            Content::Ahy { ad, to } => *ad <= 1 && is_address(*to),
            Content::Ahyq { ipfixi, to } => *ipfixi <= 1 && is_address(*to),
            Content::Head { to } => is_address(*to),
            Content::Move { division, channel } => division.is_in_range() && is_channel(*channel),
            Content::Deaf | Content::Mark | Content::Bcast | Content::Other => true,
        }
    }
}

impl Heard {
    // Refuses a system code out of range, and then a content field out of range.
    pub fn check(&self) -> Result<(), Refusal>
        ensures { result ≡ heard_in_range self.now }
    {
        if self.code.is_some_and(|code| code > 32_767) {
            return Err(Refusal::SystemCode);
        }
        if !self.content.is_in_range() {
            return Err(Refusal::ContentField);
        }
        Ok(())
    }
}
