// The numbers that a set is made with, and stays with.
ghost use Rattle.std.specs.Prelude.{◌≡◌};
ghost use Rattle.rules.specs.Cards.{timer_in_range, card_judged};

use signalling::range::{is_address, is_channel};
use signalling::refusal::Refusal;

// The fitting card of a set: its own address, NR (the most transmissions of a request), the timers TC, TS and
// TJ in slots, and NW (the response delay until an Aloha message is heard).
#[derive(Clone, Copy, PartialEq, Eq)]
pub struct Card {
    pub address: u32,
    pub nr: u32,
    pub tc: u32,
    pub ts: u32,
    pub tj: u32,
    pub nw: u32,
}

// Whether a timer is 1 to 60,000 slots.
fn is_timer(slots: u32) -> bool
    ensures { result ≡ timer_in_range slots }
{
    (1..=60_000).contains(&slots)
}

impl Card {
    // Refuses the first number out of range, that of the channel to start on included; grants where a set can be made.
    pub fn check(&self, channel: u32) -> Result<(), Refusal>
        ensures { result ≡ card_judged self.now channel }
    {
        if !is_address(self.address) {
            return Err(Refusal::Address);
        }
        if !is_channel(channel) {
            return Err(Refusal::Channel);
        }
        if !(1..=32).contains(&self.nr) {
            return Err(Refusal::MostTransmissions);
        }
        if !(is_timer(self.tc) && is_timer(self.ts) && is_timer(self.tj)) {
            return Err(Refusal::Timer);
        }
        if self.nw > 15 {
            return Err(Refusal::FirstDelay);
        }
        Ok(())
    }
}
