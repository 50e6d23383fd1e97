// A choice among the three services, itself a service: an enum, which needs no heap and no table of functions.
ghost use Rattle.parts.specs.Services.{choice_invited, choice_emergency, choice_verdict};
ghost use Rattle.std.proofs.Common.{rules};

use crate::emergency::EmergencyCall;
use crate::registration::Registration;
use crate::service::Service;
use crate::simple_call::SimpleCall;
use crate::verdict::Verdict;
use signalling::content::{Content, Function};

#[derive(Clone, Copy)]
pub enum AnyService {
    Rqs,
    Rqr,
    Rqe,
}

impl Service for AnyService {
    ghost invites = { choice_invited };

    ghost emergency = { choice_emergency };

    ghost verdict = { choice_verdict };

    ghost ordinary_not_by_alhe = { Prim.search rules };

    ghost closed_functions = { Prim.search rules };

    fn is_invited(&self, function: Function) -> bool {
        match self {
            AnyService::Rqs => SimpleCall.is_invited(function),
            AnyService::Rqr => Registration.is_invited(function),
            AnyService::Rqe => EmergencyCall.is_invited(function),
        }
    }

    fn is_emergency(&self) -> bool {
        matches!(self, AnyService::Rqe)
    }

    fn judge(&self, content: &Content, own: u32) -> Verdict {
        match self {
            AnyService::Rqs => SimpleCall.judge(content, own),
            AnyService::Rqr => Registration.judge(content, own),
            AnyService::Rqe => EmergencyCall.judge(content, own),
        }
    }
}
