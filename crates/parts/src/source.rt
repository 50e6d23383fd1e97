// A draw source: from where a set takes the random choice of a slot in a frame (7.3.5).
ghost use Rattle.std.specs.Prelude.{◌≡◌, ℕ, ◌≤◌};

use signalling::frame_length::FrameLength;

pub trait DrawSource {
    // the choice that is ready for a frame of so many slots
    ghost ready: { Self → ℕ → ℕ };

    // the source after a draw for a frame of so many slots
    ghost drawn: { Self → ℕ → Self };

    // Answers the choice that is ready and moves the source on.
    fn draw(&mut self, frame: FrameLength) -> u32
        ensures value { result ≡ ready self.old frame.slots }
        ensures after { self.new ≡ drawn self.old frame.slots };

    // a choice is a slot of the frame, counted from 1
    ghost chosen_within: { (s : Self) (slots : ℕ) → 1 ≤ slots → slots ≤ 32 → (1 ≤ ready s slots) × (ready s slots ≤ slots) };
}
