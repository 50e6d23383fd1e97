// Tables 7-1 and 7-2: what coded numbers stand for. As in the standard, a row is a number of slots, 0 for no frame: an
// `Option` in each row would be no plainer, and `Content::marks` makes one of it. One function a table: a match reads
// like the table's rows.
ghost use Rattle.std.specs.Prelude.{◌≡◌};
ghost use Rattle.signalling.specs.Tables.{four_bit_length, two_bit_length, wait_of};

// The slots of the frame that a four-bit Aloha number marks; 0 is no frame.
pub fn four_bit_length(number: u32) -> u32
    ensures { result ≡ four_bit_length number }
{
    match number {
        0..=10 => number,
        11 => 12,
        12 => 15,
        13 => 19,
        14 => 25,
        _ => 32,
    }
}

// The slots of the frame that a two-bit Aloha number marks; 0 is no frame.
pub fn two_bit_length(number: u32) -> u32
    ensures { result ≡ two_bit_length number }
{
    match number {
        0 | 1 => number,
        2 => 3,
        _ => 6,
    }
}

// The response delay WAIT, in slots, that the parameter WT gives.
pub fn wait_of(wt: u32) -> u32
    ensures { result ≡ wait_of wt }
{
    match wt {
        0..=5 => wt,
        6 => 10,
        _ => 15,
    }
}
