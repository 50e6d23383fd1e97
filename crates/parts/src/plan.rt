// A network plan: the set of system codes that mark a control channel as one of the own network (6.2.1.1).
ghost use Rattle.std.specs.Prelude.{◌≡◌, ℕ, Bool};
ghost use Rattle.parts.specs.Plans.{mask_accepts};

pub trait NetworkPlan {
    // whether the plan accepts a system code
    ghost accepts: { Self → ℕ → Bool };

    fn is_accepted(&self, code: u32) -> bool
        ensures { result ≡ accepts self.now code };
}

// Accepts the codes that agree with a value in the bits of a mask.
#[derive(Clone, Copy)]
pub struct MaskPlan {
    pub mask: u32,
    pub value: u32,
}

impl NetworkPlan for MaskPlan {
    ghost accepts = { mask_accepts };

    fn is_accepted(&self, code: u32) -> bool {
        code & self.mask == self.value
    }
}
