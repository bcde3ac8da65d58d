// What a spoken number is multiplied by: its numeral, its kind and its row, from left to right, each product tested for its range.
#![tactic(auto)]

ghost use Rattle.std.specs.Prelude.{◌≡◌, true, ◌+◌, ◌-◌, ◌≤◌};
ghost use Rattle.rules.specs.SettingsAndUnitTable.{times, in_range};
ghost use Rattle.rules.specs.Evaluation.{multiplied};
ghost use Rattle.rules.specs.Laws.Powers.{net};
ghost use Rattle.spoken.specs.Products.{product, spoken_product};

use rows::fields::within;
use rules::{Multiplier, Refusal, SpokenRepr};

// Two powers together. 16 bits need not hold them: two of 32768 make 65536.
fn together(a: u16, b: u16) -> u32
    ensures { result ≡ a + b }
{
    u32::from(a) + u32::from(b)
}

// How far one power stands above the other. In range that is at most 32768, which 16 bits hold again.
fn above(a: u32, b: u32) -> u16
    requires { a ≤ b + 32768 }
    ensures { result ≡ a - b }
{
    a.saturating_sub(b) as u16
}

// Whether a product lies in the range. The coefficient is not made, since 64 bits need not hold it.
fn product_in_range(m: Multiplier, n: Multiplier) -> bool
    ensures { result ≡ in_range (times m n) }
{
    let up = together(m.up, n.up);
    let down = together(m.down, n.down);
    within(m.coefficient, n.coefficient) && up <= down + 32_767 && down <= up + 32_768
}

// A product in range. Its powers are taken off each other, so that it can be multiplied once more.
fn times(m: Multiplier, n: Multiplier) -> Multiplier
    requires { in_range (times m n) ≡ true }
    ensures { result ≡ net (times m n) }
{
    let up = together(m.up, n.up);
    let down = together(m.down, n.down);
    Multiplier {
        negative: m.negative != n.negative,
        coefficient: m.coefficient * n.coefficient,
        up: above(up, down),
        down: above(down, up),
    }
}

fn multiplied(m: Multiplier, n: Multiplier) -> Result<Multiplier, Refusal>
    ensures { result ≡ product (multiplied m n) }
{
    if product_in_range(m, n) {
        Ok(times(m, n))
    } else {
        Err(Refusal::OutOfRange)
    }
}

pub fn spoken_product(d: SpokenRepr) -> Result<Multiplier, Refusal>
    ensures { result ≡ spoken_product d }
{
    let first = multiplied(d.numeral, d.kind)?;
    multiplied(first, d.row)
}
