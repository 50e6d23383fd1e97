// Following the control channel: how a heard slot starts, keeps and ends a stay, and what is noted in it. Plan and card
// are lent side by side, as a set has them: a struct for the two would be no plainer, and made anew for each slot.
ghost use Rattle.std.specs.Prelude.{◌≡◌};
ghost use Rattle.std.specs.Option.{option_map};
ghost use Rattle.signalling.specs.Reading.{marked};
ghost use Rattle.rules.specs.Frames.{mark_of};
ghost use Rattle.rules.specs.Stations.{new_stay, patient, acquired, retained, kept, heeding, seeking_on, acted, followed};

use crate::frames::{enter, no_frames};
use parts::plan::NetworkPlan;
use rules::card::Card;
use rules::station::{Mark, Station, Stay};
use signalling::content::{Content, Function, Heard, Noted};
use signalling::division::Division;

// A stay as it begins: nothing of what was heard before is in it.
fn new_stay(card: Card) -> Stay
    ensures { result ≡ new_stay card }
{
    Stay {
        patience: card.ts,
        noted: Noted {
            function: Function::Alhx,
            division: Division {
                qualifier: 0,
                address: 0,
            },
            wait: card.nw,
        },
        frames: no_frames(),
    }
}

// The stay that a slot's system code gives a seeking set.
fn acquire<P: NetworkPlan>(plan: &P, card: Card, code: Option<u32>) -> Option<Stay>
    ensures { result ≡ acquired (P.accepts plan.now) card code }
{
    code.is_some_and(|code| plan.is_accepted(code))
        .then(|| new_stay(card))
}

// With how much patience a slot's system code, or its absence, has an active set retain the channel; none where it is
// lost. An accepted code renews the patience with slots that have none, and each of those slots uses it up.
fn retain<P: NetworkPlan>(plan: &P, card: Card, stay: &Stay, code: Option<u32>) -> Option<u32>
    ensures { option_map (patient stay.now) result ≡ retained (P.accepts plan.now) card stay.now code }
{
    match code {
        Some(code) => plan.is_accepted(code).then_some(card.ts),
        None => stay.patience.checked_sub(1).filter(|left| *left > 0),
    }
}

// The stay after the system code of a slot, or its absence.
fn keep<P: NetworkPlan>(plan: &P, card: Card, stay: &mut Option<Stay>, code: Option<u32>)
    ensures { stay.new ≡ kept (P.accepts plan.now) card stay.old code }
{
    match stay {
        Some(active) => match retain(plan, card, active, code) {
            Some(patience) => active.patience = patience,
            None => *stay = None,
        },
        None => *stay = acquire(plan, card, code),
    }
}

// The record of the frame that a content marks, under the function noted.
fn marked_under(function: Function, content: &Content) -> Option<Mark>
    ensures { result ≡ mark_of function (marked content.now) }
{
    content.marks().map(|frame| Mark {
        function,
        slots: frame.slots(),
    })
}

// Adds what a slot's content says to a stay: an Aloha message is noted first, and a frame starts under the
// function now noted.
fn heed(stay: &mut Stay, content: &Content)
    ensures { stay.new ≡ heeding stay.old content.now }
{
    stay.noted = content.notes().unwrap_or(stay.noted);
    enter(&mut stay.frames, marked_under(stay.noted.function, content));
}

// A station that seeks on a channel.
pub fn seek(channel: u32) -> Station
    ensures { result ≡ seeking_on channel }
{
    Station {
        channel,
        stay: None,
    }
}

// Only a set that is active after the system code acts on the content: it leaves for the channel that it is ordered
// to, and else heeds what was said.
fn act(station: &mut Station, order: Option<u32>, content: &Content)
    ensures { station.new ≡ acted station.old.stay station.old.channel order content.now }
{
    if let Some(stay) = &mut station.stay {
        match order {
            Some(new) => *station = seek(new),
            None => heed(stay, content),
        }
    }
}

// Follows the channel through a heard slot.
pub fn follow<P: NetworkPlan>(plan: &P, card: Card, station: &mut Station, heard: &Heard)
    ensures { station.new ≡ followed (P.accepts plan.now) card station.old heard.now }
{
    keep(plan, card, &mut station.stay, heard.code);
    let order = heard.content.moves(card.address);
    act(station, order, &heard.content);
}
