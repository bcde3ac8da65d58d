// The fields of a line: hexadecimal digits, two to a byte, the lowest byte of a number first.
ghost use Rattle.std.specs.Prelude.{◌<◌};

use rules::Length;

// No list has a line of so many bytes: a remainder by it only says so.
const FAR: usize = 1_048_576;

// What the digit at a place stands for: 48 to 57 are digits, and 97 to 102 the letters. What is neither counts as some digit, and what
// lies beyond the line as 0: such a line reads as some other one, and what is made of it differs from what is stored.
fn digit_at(line: &[u8], place: usize) -> u8
    ensures { result < 16 }
{
    match line.get(place) {
        Some(byte) => (byte % 16 + byte % 128 / 64 * 9) % 16,
        None => 0,
    }
}

// A place further on.
pub fn further(place: usize, by: usize) -> usize {
    place % FAR + by % FAR
}

pub fn byte_at(line: &[u8], place: usize) -> u8 {
    let high = digit_at(line, place);
    let low = digit_at(line, further(place, 1));
    high * 16 + low
}

// A byte that is not zero is yes.
pub fn flag_at(line: &[u8], place: usize) -> bool {
    byte_at(line, place) != 0
}

// So many bytes, one behind the other.
fn bytes_at<const N: usize>(line: &[u8], place: usize) -> [u8; N] {
    let mut bytes = [0u8; N];
    let mut at = place;
    for byte in bytes.iter_mut() {
        *byte = byte_at(line, at);
        at = further(at, 2);
    }
    bytes
}

// Numbers of two, four and eight bytes.
pub fn short_at(line: &[u8], place: usize) -> u16 {
    u16::from_le_bytes(bytes_at(line, place))
}

pub fn half_at(line: &[u8], place: usize) -> u32 {
    u32::from_le_bytes(bytes_at(line, place))
}

pub fn word_at(line: &[u8], place: usize) -> u64 {
    u64::from_le_bytes(bytes_at(line, place))
}

// A length: whether it is negative, its seconds, its nanoseconds.
pub fn length_at(line: &[u8], place: usize) -> Length {
    Length {
        negative: flag_at(line, place),
        seconds: word_at(line, further(place, 2)),
        nanoseconds: half_at(line, further(place, 18)),
    }
}
