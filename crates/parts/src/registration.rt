// RQR: a registration. A type of its own: one type for all three, with its tables as
// fields, would be no plainer, and would have to hold proofs of the laws as well.
ghost use Rattle.std.specs.Prelude.{false};
ghost use Rattle.parts.specs.Services.{registration_invited, registration_verdict};
ghost use Rattle.std.proofs.Common.{rules};

use crate::answers::judge_registration;
use crate::service::Service;
use crate::verdict::Verdict;
use signalling::content::{Content, Function};

#[derive(Clone, Copy)]
pub struct Registration;

impl Service for Registration {
    ghost invites = { λ _. registration_invited };

    ghost emergency = { λ _. false };

    ghost verdict = { λ _. registration_verdict };

    ghost ordinary_not_by_alhe = { Prim.search rules };

    ghost closed_functions = { Prim.search rules };

    fn is_invited(&self, function: Function) -> bool {
        matches!(
            function,
            Function::Alh | Function::Alhs | Function::Alhd | Function::Alhr
        )
    }

    fn is_emergency(&self) -> bool {
        false
    }

    fn judge(&self, content: &Content, own: u32) -> Verdict {
        judge_registration(content, own)
    }
}
