// A service: what a request is for, which frames invite it, and what the network's answers mean to it.
ghost use Rattle.std.specs.Prelude.{◌≡◌, ℕ, Bool, false};
ghost use Rattle.signalling.specs.declared.content.Content.{Content};
ghost use Rattle.signalling.specs.declared.content.Function.{Function};
ghost use Rattle.signalling.specs.declared.content.Function.TheVariants.{Alhe, Alhf, Unknown};
ghost use Rattle.parts.specs.declared.verdict.Verdict.{Verdict};

use crate::verdict::Verdict;
use signalling::content::{Content, Function};

pub trait Service {
    // whether an Aloha function invites the service
    ghost invites: { Self → Function → Bool };

    // whether it is an emergency
    ghost emergency: { Self → Bool };

    // what a content means to a request of the unit with this own address
    ghost verdict: { Self → Content → ℕ → Verdict };

    fn is_invited(&self, function: Function) -> bool
        ensures { result ≡ invites self.now function };

    fn is_emergency(&self) -> bool
        ensures { result ≡ emergency self.now };

    fn judge(&self, content: &Content, own: u32) -> Verdict
        ensures { result ≡ verdict self.now content.now own };

    // ALHE invites nothing but emergencies
    ghost ordinary_not_by_alhe: { (s : Self) → emergency s ≡ false → invites s Alhe ≡ false };

    // fall-back mode and a function that is not known invite nothing
    ghost closed_functions: { (s : Self) → (invites s Alhf ≡ false) × (invites s Unknown ≡ false) };
}
