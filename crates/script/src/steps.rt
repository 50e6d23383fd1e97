// The steps of the reader: each takes one item, or stays at it and says that it is a fault.
ghost use Rattle.std.specs.Prelude.{◌≡◌, ℕ, ◌+◌, ◌<◌, ◌≤◌, true, false, length, drop, slice_index, if◌then◌else◌};
ghost use Rattle.script.specs.Cursor.{ahead, line_of, passes, place_in, rest, width, Follows};
ghost use Rattle.script.specs.Items.{in_word, items};
ghost use Rattle.script.specs.Reading.{at_end, field, got, means, stuck};
ghost use Rattle.script.specs.Script.{two};
ghost use Rattle.script.specs.Words.{only};
ghost use Rattle.script.specs.declared.fault.Fault.TheVariants.{Malformed};

use crate::fault::Fault;
use crate::reader::{Item, Reader, Sign};
use crate::words::Word;

// Whether a byte is part of a word.
fn in_word(b: u8) -> bool
    ensures { result ≡ in_word b }
{
    !matches!(char::from(b), '(' | ')' | ' ')
}

// How many of the first bytes are part of a word.
fn word_length(bytes: &[u8]) -> usize
    ensures within { result ≤ length bytes.now }
    ensures inside { (k : ℕ) → k < result → in_word (slice_index bytes.now k) ≡ true }
    ensures stops { result < length bytes.now → in_word (slice_index bytes.now result) ≡ false }
{
    bytes
        .iter()
        .position(|b| !in_word(*b))
        .unwrap_or(bytes.len())
}

impl<'a> Reader<'a> {
    // The item at the cursor.
    pub(crate) fn item(&self) -> Item<'a>
        ensures within { self.now.pos + width result ≤ length (line_of self.now) }
        ensures placed { place_in result (self.now.pos + 1) ≡ self.now.pos + 1 }
        ensures ahead { rest self.now ≡ ahead result (items (drop (self.now.pos + width result) (line_of self.now))) }
    {
        let Some(byte) = self.line.get(self.pos) else {
            return Item::End;
        };
        match char::from(*byte) {
            '(' => Item::Sign(Sign::Open),
            ')' => Item::Sign(Sign::Close),
            ' ' => Item::Sign(Sign::Space),
            _ => {
                let rest = &self.line[self.pos..];
                Item::Word {
                    bytes: &rest[..word_length(rest)],
                    place: self.pos + 1,
                }
            }
        }
    }

    // The fault of the item at the cursor.
    pub(crate) fn fault(&self) -> Fault
        ensures { result ≡ Malformed (self.now.pos + 1) }
    {
        Fault::Malformed {
            place: self.pos + 1,
        }
    }

    // Whether this bracket or space is the item at the cursor.
    pub(crate) fn is_at(&self, sign: Sign) -> bool
        ensures within { result ≡ true → self.now.pos < length (line_of self.now) }
        ensures passes { passes sign (rest self.now) ≡ (if result then got tt (items (drop (self.now.pos + 1) (line_of self.now))) else stuck (rest self.now)) }
    {
        matches!(self.item(), Item::Sign(found) if found == sign)
    }

    // A bracket or a space.
    pub(crate) fn pass(&mut self, sign: Sign) -> Result<(), Fault>
        ensures { Follows (passes sign) self.old self.new result }
    {
        if !self.is_at(sign) {
            return Err(self.fault());
        }
        self.pos += 1;
        Ok(())
    }

    // The end of the line.
    pub(crate) fn end(&self) -> Result<(), Fault>
        ensures { Follows at_end self.now self.now result }
    {
        match self.item() {
            Item::End => Ok(()),
            _ => Err(self.fault()),
        }
    }

    // A word that stands for a value of this kind.
    pub(crate) fn word<T: Word>(&mut self) -> Result<T, Fault>
        ensures { Follows (means T.Word.stands) self.old self.new result }
    {
        let Item::Word { bytes, place } = self.item() else {
            return Err(self.fault());
        };
        let value = T::of_word(bytes).ok_or(Fault::Malformed { place })?;
        self.pos += bytes.len();
        Ok(value)
    }

    // The word that is wanted here, and no other.
    pub(crate) fn keyword(&mut self, name: &str) -> Result<(), Fault>
        ensures { Follows (means (only name.now)) self.old self.new result }
    {
        match self.item() {
            Item::Word { bytes, .. } if bytes == name.as_bytes() => {
                self.pos += bytes.len();
                Ok(())
            }
            _ => Err(self.fault()),
        }
    }

    // A space and a word that stands for a value.
    pub(crate) fn field<T: Word>(&mut self) -> Result<T, Fault>
        ensures { Follows (field T.Word.stands) self.old self.new result }
    {
        self.pass(Sign::Space)?;
        self.word()
    }

    // Two numbers, each behind a space.
    pub(crate) fn two(&mut self) -> Result<(u32, u32), Fault>
        ensures { Follows two self.old self.new result }
    {
        Ok((self.field()?, self.field()?))
    }
}
