// The number of return slots in a random access frame: a type that holds 1 to 32 and nothing else (7.3.3).
ghost use Rattle.std.specs.Prelude.{◌≤◌};

#[derive(Clone, Copy, PartialEq, Eq)]
pub struct FrameLength {
    pub(crate) slots: u32,
    ghost least: { 1 ≤ slots },
    ghost most: { slots ≤ 32 },
}
