// A whole script.
ghost use Rattle.std.specs.Prelude.{◌≡◌, ◌==◌, ◌++◌, IfOk, None, string_bytes, OnOk};
ghost use Rattle.std.specs.List.{position, before_first, after_first};
ghost use Rattle.player.specs.Lines.{lines};
ghost use Rattle.player.specs.Playing.{played_on, played};

use crate::turns::answer;
use printing::answer::Answer;
use printing::append::append;
use script::fault::Fault;
use std::alloc::Global;
use std::fmt;

// Where the first line of a script ends, unless it ends with the script.
fn line_end(script: &[u8]) -> Option<usize>
    ensures { result ≡ position (λ b. b == 10) script.now }
{
    script.iter().position(|b| *b == b'\n')
}

// The first line of a script, without its line end, and what stands behind it.
fn split_line(script: &[u8]) -> (&[u8], &[u8])
    ensures line { result.0.now ≡ before_first (λ b. b == 10) script.now }
    ensures behind { result.1.now ≡ after_first (λ b. b == 10) script.now }
{
    match line_end(script) {
        Some(end) => (&script[..end], &script[end + 1..]),
        None => (script, &[]),
    }
}

// Plays a script to a bare bench, and prints a line for each of its lines. `split_inclusive` would be no plainer: each
// cut asks for the meaning of its closure, and its line end has to be taken off, where `split_line` is proved alone.
fn play_lines(printed: &mut String, script: &[u8]) -> fmt::Result
    ensures { OnOk result (string_bytes printed.new ≡ string_bytes printed.old ++ played_on None (lines script.now)) }
{
    let mut bench = None;
    let mut rest = script;
    while !rest.is_empty() {
        let (line, behind) = split_line(rest);
        append(printed, &answer(&mut bench, line))?;
        rest = behind;
    }
    Ok(())
}

// What a script prints. Only want of memory for the printed lines keeps it from being played.
pub fn play(heap: Global, script: &[u8]) -> Result<String, fmt::Error>
    ensures { IfOk result (λ s. string_bytes s ≡ played script.now) }
{
    let mut printed = String::new(heap);
    if script.len() > 65_536 {
        append(&mut printed, &Answer::Bad(Fault::InputTooLong))?;
    } else {
        play_lines(&mut printed, script)?;
    }
    Ok(printed)
}
