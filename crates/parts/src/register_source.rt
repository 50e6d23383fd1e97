// A draw source over a 16-bit shift register.
ghost use Rattle.std.specs.Prelude.{◌≡◌, ℕ, List, length, IfOk};
ghost use Rattle.parts.specs.Draws.{after_draws, repeated};
ghost use Rattle.parts.specs.Sources.{choice_of, register_ready, register_drawn, register_answer, shifted};
ghost use Rattle.std.proofs.Common.{rules};

use crate::source::DrawSource;
use signalling::frame_length::FrameLength;
use signalling::refusal::Refusal;

#[derive(Clone, Copy)]
pub struct RegisterSource {
    pub(crate) register: u16,
}

// The register after a draw: halved, and combined with the feedback taps if it was odd.
fn shift(register: u16) -> u16
    ensures { result ≡ shifted register }
{
    let half = register / 2;
    if register % 2 == 1 {
        half ^ 46_080
    } else {
        half
    }
}

impl RegisterSource {
    // A source that starts at a register; one that starts at 0 would stay there, and is refused. After so many
    // draws it has the choice ready that the register gives once it was shifted so often.
    pub fn new(register: u16) -> Result<RegisterSource, Refusal>
        ensures answer { result ≡ register_answer register }
        ensures later { IfOk result (λ s. (lengths : List ℕ) (slots : ℕ) → register_ready (after_draws register_drawn s lengths) slots ≡ choice_of (repeated shifted (length lengths) register) slots) }
    {
        if register == 0 {
            return Err(Refusal::ZeroRegister);
        }
        Ok(RegisterSource { register })
    }
}

impl DrawSource for RegisterSource {
    ghost ready = { register_ready };

    ghost drawn = { register_drawn };

    ghost chosen_within = { Prim.search rules };

    fn draw(&mut self, frame: FrameLength) -> u32 {
        let choice = u32::from(self.register) % frame.slots() + 1;
        self.register = shift(self.register);
        choice
    }
}
