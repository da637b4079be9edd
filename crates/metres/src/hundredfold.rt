// Exactly 100 times a number of metres, and what it is rounded to.

ghost use Rattle.std.specs.Prelude.{◌≡◌, ◌*◌, ◌<◌, ◌^◌, pos};
ghost use Rattle.metres.specs.Metres.{signed};
ghost use Rattle.metres.specs.Marks.{seen_from};

use crate::{Mark, MarkedWhole};
use std::cmp::Ordering;

// parts / 2 ^ halvings, below zero if minus is true.
#[derive(Clone, Copy)]
pub(crate) struct Hundredfold {
    pub(crate) minus: bool,
    pub(crate) parts: u64,
    pub(crate) halvings: u64,
    ghost few: { parts < 2 ^ 60 },
}

impl Hundredfold {
    ghost use Rattle.std.specs.Float.Ieee.Nearest.{closest};
    ghost use Rattle.metres.specs.Hundredfolds.{IsHundredfold, nearest_to};

    // Exactly 100 times a number, from two fields of its pattern: the exponent, and the binary digits after the leading 1. With an
    // exponent of 0 there is no leading 1, and the exponent counts as 1.
    pub(crate) fn times_hundred(x: f64) -> Option<Hundredfold>
        ensures { IsHundredfold x result }
    {
        if x.is_nan() || x > 10_000_000.0 || x < -10_000_000.0 {
            return None;
        }
        let pattern = x.to_bits();
        let minus = pattern >= 0x8000_0000_0000_0000;
        let exponent = pattern % 0x8000_0000_0000_0000 / 0x10_0000_0000_0000;
        let digits = pattern % 0x10_0000_0000_0000;
        if exponent == 0 {
            return Some(Hundredfold {
                minus,
                parts: digits * 100,
                halvings: 1074,
            });
        }
        Some(Hundredfold {
            minus,
            parts: (0x10_0000_0000_0000 + digits) * 100,
            halvings: 1075 - exponent,
        })
    }

    // The nearest whole number of centimetres, and where the hundredfold lies as seen from it.
    pub(crate) fn nearest(self) -> MarkedWhole
        ensures { result ≡ nearest_to self }
    {
        let n = self.rounded();
        MarkedWhole {
            whole: Some(with_sign(self.minus, n)),
            mark: side(self.minus, self.parts, self.scaled(n)),
        }
    }

    // Its size to the nearest whole number, a tie going to the even one.
    #[tactic(auto, using(crate::proofs::Rounding::none, crate::proofs::Rounding::closest_below, crate::proofs::Rounding::closest_above, crate::proofs::Rounding::closest_half))]
    fn rounded(self) -> u64
        ensures { result ≡ closest self.parts (2 ^ self.halvings) }
    {
        // The divisor is 2 ^ 62 or more, and there are fewer than 2 ^ 60 parts: less than a half.
        if self.halvings >= 62 {
            return 0;
        }
        let one = power(self.halvings);
        let whole = self.parts / one;
        let twice = self.parts % one * 2;
        if twice < one {
            return whole;
        }
        if twice > one {
            return whole + 1;
        }
        whole + whole % 2
    }

    // How many parts make n centimetres, where n is what the size was rounded to.
    #[tactic(auto, using(crate::proofs::Rounding::none, crate::proofs::Rounding::parts_few))]
    fn scaled(self, n: u64) -> u64
        requires { n ≡ closest self.parts (2 ^ self.halvings) }
        ensures { result ≡ n * 2 ^ self.halvings }
    {
        // Then n is 0.
        if self.halvings >= 62 {
            return 0;
        }
        n * power(self.halvings)
    }
}

// Where a size lies as seen from another, both with the same sign.
#[tactic(auto, using(crate::proofs::MarkLaws::seen_minus))]
fn side(minus: bool, size: u64, from: u64) -> Mark
    ensures { result ≡ seen_from (signed minus from) (signed minus size) }
{
    if minus {
        compared(from, size)
    } else {
        compared(size, from)
    }
}

// Where a number lies as seen from another.
#[tactic(auto, unfolding(crate::specs::Marks::seen_from))]
fn compared(n: u64, from: u64) -> Mark
    ensures { result ≡ seen_from (pos from) (pos n) }
{
    match n.cmp(&from) {
        Ordering::Less => Mark::Below,
        Ordering::Equal => Mark::Equal,
        Ordering::Greater => Mark::Above,
    }
}

fn power(k: u64) -> u64
    requires { k < 62 }
    ensures { result ≡ 2 ^ k }
{
    1u64 << k
}

fn with_sign(minus: bool, n: u64) -> i64
    requires { n < 2 ^ 62 }
    ensures { result ≡ signed minus n }
{
    if minus { -(n as i64) } else { n as i64 }
}
