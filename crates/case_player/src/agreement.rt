// One script and the lines that it should print.
ghost use Rattle.std.specs.Prelude.{◌≡◌, ◌↔◌, IfOk, IsTrue};
ghost use Rattle.player.specs.Playing.{played};

use player::play::play;
use std::alloc::Global;
use std::fmt;

// Whether a script prints what it should. Only want of memory keeps it from being told.
pub fn agrees(heap: Global, script: &[u8], expected: &[u8]) -> Result<bool, fmt::Error>
    ensures { IfOk result (λ same. IsTrue same ↔ (played script.now ≡ expected.now)) }
{
    let printed = play(heap, script)?;
    Ok(printed.as_bytes() == expected)
}
