// The forms of a script: what one line says.
ghost use Rattle.std.specs.Prelude.{◌≤◌};

use parts::choice::AnyService;
use parts::few_numbers::FewNumbers;
use parts::plan::MaskPlan;
use rules::card::Card;
use signalling::content::Heard;

// What a set is made of, as the line has it. At most 16 numbers are drawn, the first `count` of
// `draws`; a line that is read has 0 in the places behind them.
#[derive(Clone, Copy)]
pub struct MakeForm {
    pub card: Card,
    pub channel: u32,
    pub plan: MaskPlan,
    pub draws: FewNumbers,
    ghost few: { draws.count ≤ 16 },
}

// One line.
#[derive(Clone, Copy)]
pub enum Form {
    Make(MakeForm),
    Tune { channel: u32 },
    Begin { service: AnyService },
    Take,
    Sent,
    Held,
    Cancel,
    Slot(Heard),
}
