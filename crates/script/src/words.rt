// The words of the language, and what each stands for.
ghost use Rattle.std.specs.Prelude.{◌≡◌, ℕ, List, Option};
ghost use Rattle.script.specs.Words.{content_of, first_of, form_of, function_of, kind_of, number_in, service_of};

use crate::names::{ContentName, FormName};
use crate::number::number;
use parts::choice::AnyService;
use signalling::content::{FirstIdent, Function, ReplyKind};

// What a word can stand for.
pub trait Word: Sized {
    // the value that the bytes of a word stand for, if any
    ghost stands: { List ℕ → Option Self };

    fn of_word(bytes: &[u8]) -> Option<Self>
        ensures { result ≡ stands bytes.now };
}

impl Word for u32 {
    ghost stands = { number_in };

    fn of_word(bytes: &[u8]) -> Option<u32> {
        number(bytes)
    }
}

impl Word for FormName {
    ghost stands = { form_of };

    fn of_word(bytes: &[u8]) -> Option<FormName> {
        match bytes {
            b"make" => Some(FormName::Make),
            b"tune" => Some(FormName::Tune),
            b"begin" => Some(FormName::Begin),
            b"take" => Some(FormName::Take),
            b"sent" => Some(FormName::Sent),
            b"held" => Some(FormName::Held),
            b"cancel" => Some(FormName::Cancel),
            b"slot" => Some(FormName::Slot),
            _ => None,
        }
    }
}

impl Word for ContentName {
    ghost stands = { content_of };

    fn of_word(bytes: &[u8]) -> Option<ContentName> {
        match bytes {
            b"deaf" => Some(ContentName::Deaf),
            b"data" => Some(ContentName::Data),
            b"aloha" => Some(ContentName::Aloha),
            b"reply" => Some(ContentName::Reply),
            b"go" => Some(ContentName::Go),
            b"ahy" => Some(ContentName::Ahy),
            b"ahyq" => Some(ContentName::Ahyq),
            b"head" => Some(ContentName::Head),
            b"mark" => Some(ContentName::Mark),
            b"bcast" => Some(ContentName::Bcast),
            b"move" => Some(ContentName::Move),
            b"other" => Some(ContentName::Other),
            _ => None,
        }
    }
}

impl Word for AnyService {
    ghost stands = { service_of };

    fn of_word(bytes: &[u8]) -> Option<AnyService> {
        match bytes {
            b"rqs" => Some(AnyService::Rqs),
            b"rqr" => Some(AnyService::Rqr),
            b"rqe" => Some(AnyService::Rqe),
            _ => None,
        }
    }
}

impl Word for Function {
    ghost stands = { function_of };

    fn of_word(bytes: &[u8]) -> Option<Function> {
        match bytes {
            b"alh" => Some(Function::Alh),
            b"alhs" => Some(Function::Alhs),
            b"alhd" => Some(Function::Alhd),
            b"alhe" => Some(Function::Alhe),
            b"alhr" => Some(Function::Alhr),
            b"alhx" => Some(Function::Alhx),
            b"alhf" => Some(Function::Alhf),
            b"unknown" => Some(Function::Unknown),
            _ => None,
        }
    }
}

impl Word for ReplyKind {
    ghost stands = { kind_of };

    fn of_word(bytes: &[u8]) -> Option<ReplyKind> {
        match bytes {
            b"ack" => Some(ReplyKind::Ack),
            b"acki" => Some(ReplyKind::Acki),
            b"ackx" => Some(ReplyKind::Ackx),
            b"ackv" => Some(ReplyKind::Ackv),
            b"acke" => Some(ReplyKind::Acke),
            b"acko" => Some(ReplyKind::Acko),
            _ => None,
        }
    }
}

impl Word for FirstIdent {
    ghost stands = { first_of };

    fn of_word(bytes: &[u8]) -> Option<FirstIdent> {
        match bytes {
            b"regi" => Some(FirstIdent::Regi),
            _ => u32::of_word(bytes).map(FirstIdent::Plain),
        }
    }
}
