// The set that a script is played to, with the permit that is held for it.
use access::permit::{Kept, Permit};
use access::set::Set;
use parts::choice::AnyService;
use parts::few_numbers::FewNumbers;
use parts::list_source::ListSource;
use parts::plan::MaskPlan;
use std::marker::Model;

// A set that draws from the numbers of its make line, serves RQS, RQR and RQE, and goes by a mask.
pub type ScriptSet = Set<ListSource<FewNumbers>, AnyService, MaskPlan>;

// A set on the bench, and the permit that the bench holds for it: the one that the set has out, or an empty one. The
// bench itself is an `Option` of this: it is bare before a set is made.
pub struct Manned {
    pub(crate) set: ScriptSet,
    pub(crate) permit: Permit,
}

// Clauses see the set and the address of the permit.
impl Model for Manned {
    ghost use Rattle.std.specs.Prelude.{◌≡◌, true};
    ghost use Rattle.player.specs.Answers.{Manning, manning};
    ghost use Rattle.player.specs.Permits.{held_for};

    ghost Value = { Manning };

    ghost view = { λ m. manning m.set m.permit.address };

    ghost invariant = { λ m. held_for m.permit.address m.set ≡ true };
}

impl Drop for Manned {
    // A permit that is still out is held back; an empty one is refused, and let go.
    fn drop(self) {
        let Manned { mut set, permit } = self;
        match set.held(permit) {
            Ok(()) => {}
            Err(
                Kept {
                    refusal: _,
                    permit: _empty,
                },
            ) => {}
        }
    }
}
