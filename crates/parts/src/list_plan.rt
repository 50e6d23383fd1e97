// A network plan that lists its system codes.
ghost use Rattle.parts.specs.Plans.{stands_in};

use crate::plan::NetworkPlan;

// Accepts the codes that stand in a list, which its owner keeps.
#[derive(Clone, Copy)]
pub struct ListPlan<'a> {
    pub codes: &'a [u32],
}

impl NetworkPlan for ListPlan<'_> {
    ghost accepts = { λ plan code. stands_in code plan.codes.now };

    fn is_accepted(&self, code: u32) -> bool {
        // by a `for` and not by `contains`, the form wanted here: the comparison with each code stands in this code
        for listed in self.codes {
            if *listed == code {
                return true;
            }
        }
        false
    }
}
