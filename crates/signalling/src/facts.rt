// Worked facts that a reader can check by hand against the standard's tables.
ghost use Rattle.std.specs.Prelude.{◌≡◌, true};
ghost use Rattle.signalling.specs.Facts.{WorkedFacts};

use crate::content::{Content, FirstIdent, ReplyKind};
use crate::division::Division;
use crate::tables::{four_bit_length, two_bit_length, wait_of};

// The tables' rows: Aloha numbers and a response delay.
fn tables_hold() -> bool
    ensures { result ≡ true }
{
    four_bit_length(11) == 12 && two_bit_length(2) == 3 && wait_of(6) == 10
}

// The division of the population, for the own address 5.
fn divisions_hold() -> bool
    ensures { result ≡ true }
{
    let of_four = Division {
        qualifier: 2,
        address: 9,
    };
    let of_eight = Division {
        qualifier: 3,
        address: 9,
    };
    let of_all = Division {
        qualifier: 20,
        address: 9,
    };
    of_four.applies_to(5)
        && !of_eight.applies_to(5)
        && of_eight.admits(true, 5)
        && !of_all.admits(true, 5)
}

// Free and withdrawn return slots.
fn slots_hold() -> bool
    ensures { result ≡ true }
{
    let reply = Content::Reply {
        kind: ReplyKind::Ack,
        qual: 0,
        number: 0,
        first: FirstIdent::Regi,
        to: 5,
    };
    let data = Content::Data { rsa: 0, mine: 0 };
    reply.leaves_free(5) && !data.leaves_free(5)
}

// A self check for start-up: the facts hold of the definitions, and the code computes them.
pub fn self_check() -> bool
    ensures computed { result ≡ true }
    ensures facts { WorkedFacts }
{
    tables_hold() && divisions_hold() && slots_hold()
}
