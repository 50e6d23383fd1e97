// Numbers as a script writes them.

ghost use Rattle.std.specs.Prelude.{◌≡◌, true, false, None};
ghost use Rattle.script.specs.Decimal.{NumberOf, Trim};

// The most digits that a number has.
const MOST_DIGITS: usize = 7;

// Whether there are one to seven bytes, with no needless zero in front.
fn is_trim(bytes: &[u8]) -> bool
    ensures fits { result ≡ true → Trim bytes.now }
    ensures refused { result ≡ false → NumberOf bytes.now None }
{
    match bytes {
        [] => false,
        [_] => true,
        [first, ..] => bytes.len() <= MOST_DIGITS && *first != b'0',
    }
}

// The number that such bytes write, if each is a digit.
fn digits(bytes: &[u8]) -> Option<u32>
    requires { Trim bytes.now }
    ensures { NumberOf bytes.now result }
{
    // A fold would be no plainer: its closure would answer an option, and be told each time how large `n` is at most.
    let mut n = 0;
    for b in bytes {
        if !b.is_ascii_digit() {
            return None;
        }
        n = n * 10 + u32::from(*b - b'0');
    }
    Some(n)
}

// The number that the digits write: one to seven of them, with no needless zero in front.
pub fn number(bytes: &[u8]) -> Option<u32>
    ensures { NumberOf bytes.now result }
{
    if is_trim(bytes) { digits(bytes) } else { None }
}
