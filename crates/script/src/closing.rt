// The bracket that closes a form.

ghost use Rattle.std.specs.Prelude.{◌≡◌, ◌<◌, length, slice_index};
ghost use Rattle.script.specs.Brackets.{Closes};

// The bracket that closes the form which opens at `start`: each inner form is gone through whole.
fn form_end(line: &[u8], start: usize) -> Option<usize>
    requires within { start < length line.now }
    requires opens { slice_index line.now start ≡ 40 }
    ensures { Closes line.now start result }
{
    // The index jumps over each inner form by the call for it, so that no iterator gives the places.
    let mut at = start + 1;
    while at < line.len() {
        match char::from(line[at]) {
            '(' => at = form_end(line, at)? + 1,
            ')' => return Some(at),
            _ => at += 1,
        }
    }
    None
}

// The first place where as many brackets have closed as opened from `start` on; none where no
// bracket opens at `start`, or where none closes it.
pub fn closing(line: &[u8], start: usize) -> Option<usize>
    ensures { Closes line.now start result }
{
    match char::from(*line.get(start)?) {
        '(' => form_end(line, start),
        _ => None,
    }
}
