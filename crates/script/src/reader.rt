// A line that is read item by item.
ghost use Rattle.std.specs.Prelude.{◌≤◌, length};

// A line, and how many of its bytes are read.
#[derive(Drop)]
pub struct Reader<'a> {
    pub(crate) line: &'a [u8],
    pub(crate) pos: usize,
    ghost within: { pos ≤ length line.now },
    ghost short: { length line.now ≤ 200 },
}

// A bracket or a space: the items of one byte, each written in one way.
#[derive(Clone, Copy, PartialEq, Eq)]
pub enum Sign {
    Open,
    Close,
    Space,
}

// What stands at the cursor: a bracket or a space, a word, or the end of the line. A word is a part of the line,
// a whole run of other bytes, with its place, counted from 1.
#[derive(Clone, Copy)]
pub enum Item<'a> {
    Sign(Sign),
    Word { bytes: &'a [u8], place: usize },
    End,
}
