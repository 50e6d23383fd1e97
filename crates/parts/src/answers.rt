// What acknowledgements mean: shared by the services.
ghost use Rattle.std.specs.Prelude.{◌≡◌};
ghost use Rattle.parts.specs.Services.{rejected, registration_answered, call_answered, registration_verdict, call_verdict};

use crate::verdict::{EndWord, Verdict};
use signalling::content::{Content, FirstIdent, ReplyKind};

// ACKX by its qualifier.
fn rejection(qual: u32) -> Verdict
    ensures { result ≡ rejected qual }
{
    if qual == 0 {
        Verdict::End(EndWord::Denied)
    } else {
        Verdict::End(EndWord::Overload)
    }
}

// An acknowledgement to a registration.
fn registration_answer(kind: ReplyKind, qual: u32) -> Verdict
    ensures { result ≡ registration_answered kind qual }
{
    match kind {
        ReplyKind::Ack if qual == 0 => Verdict::End(EndWord::Accepted),
        ReplyKind::Acki if qual == 1 => Verdict::Interim,
        ReplyKind::Ackx => rejection(qual),
        _ => Verdict::Nothing,
    }
}

// An acknowledgement to a call.
fn call_answer(kind: ReplyKind, qual: u32) -> Verdict
    ensures { result ≡ call_answered kind qual }
{
    match kind {
        ReplyKind::Acki => Verdict::Interim,
        ReplyKind::Ackx => rejection(qual),
        ReplyKind::Ackv => Verdict::End(EndWord::Unavailable),
        _ => Verdict::Nothing,
    }
}

// What a content means to a registration of the unit with this address.
pub(crate) fn judge_registration(content: &Content, own: u32) -> Verdict
    ensures { result ≡ registration_verdict content.now own }
{
    match content {
        Content::Reply {
            kind,
            qual,
            first: FirstIdent::Regi,
            to,
            ..
        } if *to == own => registration_answer(*kind, *qual),
        _ => Verdict::Nothing,
    }
}

// What a content means to a call, ordinary or emergency, of the unit with this address.
pub(crate) fn judge_call(content: &Content, own: u32) -> Verdict
    ensures { result ≡ call_verdict content.now own }
{
    match content {
        Content::Reply {
            kind,
            qual,
            first: FirstIdent::Plain(_),
            to,
            ..
        } if *to == own => call_answer(*kind, *qual),
        Content::Go { to, partner, .. } if *to == own || *partner == own => {
            Verdict::End(EndWord::Granted)
        }
        _ => Verdict::Nothing,
    }
}
