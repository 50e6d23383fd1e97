// A list of 32-bit numbers that is read by place, wherever it is kept.
ghost use Rattle.std.specs.Prelude.{◌≡◌, ℕ, ◌+◌, ◌^◌, ◌<◌, true, List, is_some, vec_items};
ghost use Rattle.std.specs.List.{slice_get};
ghost use Rattle.parts.specs.Numbers.{few_items};

use crate::few_numbers::FewNumbers;

pub trait NumberList {
    // the numbers, in their order
    ghost items: { Self → List ℕ };

    // The number at a place, counted from 0; none past the last.
    fn at(&self, place: usize) -> Option<u32>
        ensures value { result ≡ slice_get (items self.now) place }
        ensures bound { is_some result ≡ true → place + 1 < 2 ^ 64 };
}

impl NumberList for FewNumbers {
    ghost items = { few_items };

    fn at(&self, place: usize) -> Option<u32> {
        let counted = self.numbers.get(..self.count).unwrap_or(&self.numbers);
        counted.at(place)
    }
}

impl NumberList for &[u32] {
    ghost items = { λ numbers. numbers.now };

    fn at(&self, place: usize) -> Option<u32> {
        self.get(place).copied()
    }
}

impl NumberList for Vec<u32> {
    ghost items = { vec_items };

    fn at(&self, place: usize) -> Option<u32> {
        self.as_slice().at(place)
    }
}
