// A draw source over a given list of numbers.
ghost use Rattle.std.specs.Prelude.{◌≡◌, ℕ, List, length, drop};
ghost use Rattle.std.specs.List.{slice_get};
ghost use Rattle.parts.specs.Draws.{after_draws};
ghost use Rattle.parts.specs.Lists.{choice_by, list_ready, list_drawn, list_from};
ghost use Rattle.std.proofs.Common.{rules};

use crate::number_list::NumberList;
use crate::source::DrawSource;
use signalling::frame_length::FrameLength;

// The list, and how many of its numbers are used.
#[derive(Clone, Copy)]
pub struct ListSource<L> {
    pub(crate) list: L,
    pub(crate) used: usize,
}

impl<L: NumberList> ListSource<L> {
    // A source over a list of which so many numbers are used. After so many draws it has the choice ready that the
    // number at that place of the others gives, and behind the list the first slot.
    fn with_used(list: L, used: usize) -> ListSource<L>
        ensures list { result.list ≡ list }
        ensures used { result.used ≡ used }
        ensures later { (lengths : List ℕ) (slots : ℕ) → list_ready (L.items list) (after_draws (λ s _. list_drawn (L.items list) s) result lengths).used slots ≡ choice_by (slice_get (drop used (L.items list)) (length lengths)) slots }
    {
        ListSource { list, used }
    }

    // A source over a list of which nothing is used yet. After so many draws it has the choice ready that the number
    // at that place gives, and behind the list the first slot.
    pub fn new(list: L) -> ListSource<L>
        ensures answer { result ≡ list_from list }
        ensures later { (lengths : List ℕ) (slots : ℕ) → list_ready (L.items list) (after_draws (λ s _. list_drawn (L.items list) s) result lengths).used slots ≡ choice_by (slice_get (L.items list) (length lengths)) slots }
    {
        ListSource::with_used(list, 0)
    }
}

impl<L: NumberList> DrawSource for ListSource<L> {
    ghost ready = { λ s. list_ready (L.NumberList.items s.list) s.used };

    ghost drawn = { λ s _. list_drawn (L.NumberList.items s.list) s };

    ghost chosen_within = { Prim.search rules };

    fn draw(&mut self, frame: FrameLength) -> u32 {
        match self.list.at(self.used) {
            Some(number) => {
                self.used += 1;
                number % frame.slots() + 1
            }
            None => 1,
        }
    }
}
