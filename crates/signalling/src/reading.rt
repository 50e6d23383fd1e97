// What the content of a heard slot has a unit do.
ghost use Rattle.std.specs.Prelude.{◌≡◌};
ghost use Rattle.signalling.specs.Frames.{slots_of};
ghost use Rattle.signalling.specs.Reading.{marked, noted, moved, leaves_free};

use crate::content::{Content, Noted};
use crate::frame_length::FrameLength;
use crate::tables::{four_bit_length, two_bit_length, wait_of};

impl Content {
    // The frame that this content marks, if it marks one.
    pub fn marks(&self) -> Option<FrameLength>
        ensures { slots_of result ≡ marked self.now }
    {
        match self {
            Content::Aloha { number, .. } | Content::Reply { number, .. } => {
                FrameLength::new(four_bit_length(*number))
            }
            Content::Go { number, .. } => FrameLength::new(two_bit_length(*number)),
            _ => None,
        }
    }

    // What an Aloha message has a unit note; no other content has it note anything.
    pub fn notes(&self) -> Option<Noted>
        ensures { result ≡ noted self.now }
    {
        match self {
            Content::Aloha {
                function,
                wt,
                division,
                ..
            } => Some(Noted {
                function: *function,
                division: *division,
                wait: wait_of(*wt),
            }),
            _ => None,
        }
    }

    // The channel that a move orders the unit with this address to.
    pub fn moves(&self, own: u32) -> Option<u32>
        ensures { result ≡ moved self.now own }
    {
        match self {
            Content::Move { division, channel } if division.applies_to(own) => Some(*channel),
            _ => None,
        }
    }

    // Whether the next return slot stays free for random access by the unit with this address.
    pub fn leaves_free(&self, own: u32) -> bool
        ensures { result ≡ leaves_free self.now own }
    {
        match self {
            Content::Aloha { division, .. } => {
                division.qualifier != 20 || division.applies_to(own)
            }
            Content::Reply { .. } | Content::Go { .. } | Content::Mark | Content::Bcast => true,
            Content::Ahy { ad, to } => *ad == 1 && *to != own,
            Content::Ahyq { ipfixi, to } => *ipfixi == 1 && *to != own,
            Content::Head { to } => *to != own,
            Content::Move { division, .. } => !division.applies_to(own),
            Content::Data { rsa, mine } => *rsa == 1 && *mine == 0,
            Content::Deaf | Content::Other => false,
        }
    }
}
