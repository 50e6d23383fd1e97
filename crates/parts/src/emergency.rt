// RQE: an emergency call, the only service that is an emergency. A type of its own: one type for all three, with its
// tables as fields, would be no plainer, and would have to hold proofs of the laws as well.
ghost use Rattle.std.specs.Prelude.{true};
ghost use Rattle.parts.specs.Services.{emergency_invited, call_verdict};
ghost use Rattle.std.proofs.Common.{rules};

use crate::answers::judge_call;
use crate::service::Service;
use crate::verdict::Verdict;
use signalling::content::{Content, Function};

#[derive(Clone, Copy)]
pub struct EmergencyCall;

impl Service for EmergencyCall {
    ghost invites = { λ _. emergency_invited };

    ghost emergency = { λ _. true };

    ghost verdict = { λ _. call_verdict };

    ghost ordinary_not_by_alhe = { Prim.search rules };

    ghost closed_functions = { Prim.search rules };

    fn is_invited(&self, function: Function) -> bool {
        matches!(
            function,
            Function::Alh
                | Function::Alhs
                | Function::Alhd
                | Function::Alhe
                | Function::Alhr
                | Function::Alhx
        )
    }

    fn is_emergency(&self) -> bool {
        true
    }

    fn judge(&self, content: &Content, own: u32) -> Verdict {
        judge_call(content, own)
    }
}
