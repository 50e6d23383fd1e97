// The form that makes a set.
ghost use Rattle.script.specs.Cursor.{Follows};
ghost use Rattle.script.specs.Script.{drawing, draws_within, make_fields, mask_within};
ghost use Rattle.script.specs.Shut.{draws-shut, mask-shut};

use crate::fault::Fault;
use crate::form::MakeForm;
use crate::inner::InnerForm;
use crate::reader::{Reader, Sign};
use parts::few_numbers::FewNumbers;
use parts::plan::MaskPlan;
use rules::card::Card;

// Mask and value in their brackets: `(mask MASK VALUE)`.
impl InnerForm for MaskPlan {
    ghost within = { mask_within };

    ghost shut = { mask-shut };

    fn read_within(reader: &mut Reader<'_>) -> Result<MaskPlan, Fault> {
        reader.keyword("mask")?;
        let (mask, value) = reader.two()?;
        Ok(MaskPlan { mask, value })
    }
}

// The draws in their brackets: `(draws N...)`.
impl InnerForm for FewNumbers {
    ghost within = { draws_within };

    ghost shut = { draws-shut };

    fn read_within(reader: &mut Reader<'_>) -> Result<FewNumbers, Fault> {
        reader.keyword("draws")?;
        reader.drawing()
    }
}

impl Reader<'_> {
    // Up to 16 numbers, each behind a space.
    fn drawing(&mut self) -> Result<FewNumbers, Fault>
        ensures { Follows drawing self.old self.new result }
    {
        let mut draws = FewNumbers {
            numbers: [0; 16],
            count: 0,
        };
        for number in &mut draws.numbers {
            if !self.is_at(Sign::Space) {
                break;
            }
            *number = self.field()?;
            draws.count += 1;
        }
        Ok(draws)
    }

    // What follows the word `make`.
    pub(crate) fn make_fields(&mut self) -> Result<MakeForm, Fault>
        ensures { Follows make_fields self.old self.new result }
    {
        let (address, channel) = self.two()?;
        let (nr, tc) = self.two()?;
        let (ts, tj) = self.two()?;
        let nw: u32 = self.field()?;
        let plan: MaskPlan = self.inner_field()?;
        let draws: FewNumbers = self.inner_field()?;
        Ok(MakeForm {
            card: Card {
                address,
                nr,
                tc,
                ts,
                tj,
                nw,
            },
            channel,
            plan,
            draws,
        })
    }
}
