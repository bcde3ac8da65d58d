// Numbers of two words: the product of two words, and its division by 10^9. A board's multiplier may have 32 bits and no more, so the
// product goes by pieces of sixteen, as on paper; the division goes by halves of 32 bits. So every step fits one word.
ghost use Rattle.std.specs.Prelude.{◌≡◌, ◌+◌, ◌*◌, ◌^◌, ◌≤◌, ◌<◌};
ghost use Rattle.lengths.specs.Columns.{pieces, column};
ghost use Rattle.lengths.specs.Wide.{Divides, InPieces, Carries};

// The number high * 2^64 + low.
#[derive(Clone, Copy)]
pub struct Wide {
    pub high: u64,
    pub low: u64,
}

#[derive(Clone, Copy)]
pub struct Divided {
    pub quotient: Wide,
    pub remainder: u64,
}

// 2^32: a word is two halves, each below it.
const HALF: u64 = 4_294_967_296;

const NANOS_PER_SEC: u64 = 1_000_000_000;

// A word is four pieces of sixteen bits, each below 2^16.
const PIECES: usize = 4;

const PIECE: u32 = 65_536;

// The lowest piece comes first. Each is held as 32 bits, and so is the product of two: no wider multiplication is asked for.
fn pieces(word: u64) -> [u32; 4]
    ensures { result ≡ pieces (2 ^ 16) 4 word }
{
    let low = (word % HALF) as u32;
    let high = (word >> 32) as u32;
    [low % PIECE, low >> 16, high % PIECE, high >> 16]
}

// The column at a position: the products of two pieces whose positions add up to it. One word's pieces are taken upwards and the other's
// downwards, both from what `end` leaves of that sum up to `end`.
fn column(a: &[u32; 4], b: &[u32; 4], position: usize) -> u64
    requires { InPieces a.now × InPieces b.now × (position < 8) }
    ensures { result ≡ column a.now b.now position }
{
    let end = PIECES.min(position + 1);
    let mut sum: u64 = 0;
    for i in position + 1 - end..end {
        sum += (a[i] * b[position - i]) as u64;
    }
    sum
}

// Four columns from a position on, with what is carried into the first. Of each sum the lowest piece stays, in the low word, and the rest is
// carried, in the end as the high one. A piece comes in at the top of the word and is moved down as the next ones come, so that no shift has to
// be counted.
fn four_columns(a: &[u32; 4], b: &[u32; 4], from: usize, carried: u64) -> Wide
    requires { InPieces a.now × InPieces b.now × (from ≤ 4) × (carried < 2 ^ 32) }
    ensures { Carries a.now b.now from carried result }
{
    let mut low: u64 = 0;
    let mut high = carried;
    for position in from..from + PIECES {
        let sum = column(a, b, position) + high;
        low = (low >> 16) + ((sum % PIECE as u64) << 48);
        high = sum >> 16;
    }
    Wide { high, low }
}

// The whole product: sixteen products of two pieces in seven columns, and an eighth that has only what is carried into it.
pub fn product(a: u64, b: u64) -> Wide
    ensures { result.high * 2 ^ 64 + result.low ≡ a * b }
{
    let x = pieces(a);
    let y = pieces(b);
    let first = four_columns(&x, &y, 0, 0);
    let second = four_columns(&x, &y, PIECES, first.high);
    Wide {
        high: second.low,
        low: first.low,
    }
}

// Long division, half by half from the top: what a step leaves stands before the next half.
pub fn divide_by_nanos(n: Wide) -> Divided
    ensures { Divides n (10 ^ 9) result }
{
    let first = n.high / HALF;
    let second = first % NANOS_PER_SEC * HALF + n.high % HALF;
    let third = second % NANOS_PER_SEC * HALF + n.low / HALF;
    let fourth = third % NANOS_PER_SEC * HALF + n.low % HALF;
    let high = first / NANOS_PER_SEC * HALF + second / NANOS_PER_SEC;
    let low = third / NANOS_PER_SEC * HALF + fourth / NANOS_PER_SEC;
    Divided {
        quotient: Wide { high, low },
        remainder: fourth % NANOS_PER_SEC,
    }
}
