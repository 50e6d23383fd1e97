// The records that a decoder delivers: one for each slot heard. A field holds whatever number the decoder brings. A flag
// of one bit is a number as well and no `bool`: refusing a number out of range with 22 is a promise. `range` says which
// numbers there are.

use crate::division::Division;

// The Aloha function of an ALOHA message: which kinds of request it invites (7.3.2).
#[derive(Clone, Copy, PartialEq, Eq)]
pub enum Function {
    Alh,
    Alhs,
    Alhd,
    Alhe,
    Alhr,
    Alhx,
    Alhf,
    Unknown,
}

// The kind of an acknowledgement (8.2.2); `Acko` is any other than the first five.
#[derive(Clone, Copy, PartialEq, Eq)]
pub enum ReplyKind {
    Ack,
    Acki,
    Ackx,
    Ackv,
    Acke,
    Acko,
}

// The first ident of an acknowledgement: the registration dummy REGI, or a plain ident. It is no `Option`, since
// REGI is an ident as well, and not the absence of one.
#[derive(Clone, Copy, PartialEq, Eq)]
pub enum FirstIdent {
    Regi,
    Plain(u32),
}

// What was decoded in one slot.
#[derive(Clone, Copy, PartialEq, Eq)]
pub enum Content {
    // nothing could be decoded; as a `None` round the others it would be no plainer, since each rule names it among them
    Deaf,
    // a data codeword: its reserved slot bit RSA, and whether its message is for this set
    Data {
        rsa: u32,
        mine: u32,
    },
    // an ALOHA message: function, Aloha number N, response delay WT, and the division that M and the address name
    Aloha {
        function: Function,
        number: u32,
        wt: u32,
        division: Division,
    },
    // an acknowledgement
    Reply {
        kind: ReplyKind,
        qual: u32,
        number: u32,
        first: FirstIdent,
        to: u32,
    },
    // Go To Channel, for the two addresses of a call
    Go {
        to: u32,
        partner: u32,
        channel: u32,
        number: u32,
    },
    // a general availability check; AD is 1 where a data codeword is appended to it
    Ahy {
        ad: u32,
        to: u32,
    },
    // a status check; `ipfixi` is 1 where its second ident is IPFIXI
    Ahyq {
        ipfixi: u32,
        to: u32,
    },
    // the head of a short data message
    Head {
        to: u32,
    },
    // a MARK message
    Mark,
    // a broadcast
    Bcast,
    // an order to the sets of a division to change the control channel
    Move {
        division: Division,
        channel: u32,
    },
    // any other address codeword without an Aloha number
    Other,
}

// One heard slot: its system code, where one was decoded, and its content.
#[derive(Clone, Copy, PartialEq, Eq)]
pub struct Heard {
    pub code: Option<u32>,
    pub content: Content,
}

// What an Aloha message has a unit note: the function, the division of the population, and the delay WAIT.
#[derive(Clone, Copy, PartialEq, Eq)]
pub struct Noted {
    pub function: Function,
    pub division: Division,
    pub wait: u32,
}
