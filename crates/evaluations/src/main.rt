// Reads stored cases of a number and a multiplier again, evaluates each, and says how many differ from the crate's length.
// A case is a line of LINE bytes: the digits WHOLE.FRACT, a space, hexadecimal digits (exponent, sign, multiplier, length), and
// spaces. A sign is a byte, an exponent and a coefficient have theirs in front, and a multiplier's power is two numbers, up and
// down.
#![tactic(auto)]

use lists::counts::count;
use lists::fields::{flag_at, further, length_at, short_at, word_at};
use lists::lines::{MOST_ENTRIES, read_line, until_end};
use lists::printed::print_number;
use rules::{DurationRepr, Exponent, Length, Multiplier, Span};
use value::digits::{parse_digits_strip_zeros, sum_digits};
use value::evaluation::evaluate;

const LINE: usize = 112;

// Where each field stands, counted from the place behind the digits of the number.
const EXPONENT_AT: usize = 1;

const SIGN_AT: usize = 7;

const MULTIPLIER_AT: usize = 9;

const LENGTH_AT: usize = 35;

// What stands in a line behind the digits of the number.
#[derive(Clone, Copy)]
struct Rest {
    exponent: Exponent,
    negative: bool,
    multiplier: Multiplier,
    length: Length,
}

fn exponent_at(line: &[u8], place: usize) -> Exponent {
    Exponent {
        negative: flag_at(line, place),
        power: short_at(line, further(place, 2)),
    }
}

fn multiplier_at(line: &[u8], place: usize) -> Multiplier {
    Multiplier {
        negative: flag_at(line, place),
        coefficient: word_at(line, further(place, 2)),
        up: short_at(line, further(place, 18)),
        down: short_at(line, further(place, 22)),
    }
}

fn rest_at(line: &[u8], place: usize) -> Rest {
    Rest {
        exponent: exponent_at(line, further(place, EXPONENT_AT)),
        negative: flag_at(line, further(place, SIGN_AT)),
        multiplier: multiplier_at(line, further(place, MULTIPLIER_AT)),
        length: length_at(line, further(place, LENGTH_AT)),
    }
}

// Whether a line's number comes to the length that stands in it. A line without a point is no case, and so does not.
fn agrees(line: &[u8]) -> bool {
    let before = parse_digits_strip_zeros(line, 0);
    let whole = before.whole;
    let point = whole.end;
    if line.len() <= point {
        return false;
    }
    let after = sum_digits(before.number, line, point + 1);
    let rest = rest_at(line, after.end);
    let typed = DurationRepr {
        negative: rest.negative,
        infinite: false,
        whole,
        fract: Span {
            start: point + 1,
            end: after.end,
        },
        exponent: rest.exponent,
        multiplier: rest.multiplier,
    };
    evaluate(line, typed, after.number) == rest.length
}

// Whether the next line of the list agrees, if there is one.
fn next_agrees() -> Option<bool> {
    let mut line = [0u8; LINE];
    read_line(&mut line)?;
    Some(agrees(&line))
}

fn main() {
    let mut differ = 0u64;
    let cases = until_end(MOST_ENTRIES, || {
        if !next_agrees()? {
            count(&mut differ);
        }
        Some(())
    });
    print_number(cases, b" cases, ");
    print_number(differ, b" differ\n");
}
