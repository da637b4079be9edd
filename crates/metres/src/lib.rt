// Metres and whole centimetres, and binary64 numbers in bytes.
#![tactic(auto)]

ghost use Rattle.std.specs.Prelude.{◌≡◌, nat_abs};
ghost use Rattle.fields.specs.Fields.{inside};
ghost use Rattle.metres.specs.Metres.{centimetres_of, metres_of, whole_figures, length_figures, ReadsBack};
ghost use Rattle.metres.specs.Marks.{marked_of, is_rounded};
ghost use Rattle.metres.specs.Patterns.{number_of, pattern_of, is_plus_zero, number_at, put_number_at, ReadsThere};

mod hundredfold;

use hundredfold::Hundredfold;
use std::num;

// Where exactly 100 times a number of metres lies, as seen from its whole centimetres. `Equal`: nothing was lost.
#[derive(Clone, Copy, PartialEq, Eq)]
pub enum Mark {
    Equal,
    Below,
    Above,
}

// The whole centimetres that a number of metres becomes, `None` if it is refused, and how it was rounded. A number that is refused
// has the mark `Equal`.
#[derive(Clone, Copy)]
pub struct MarkedWhole {
    pub whole: Option<i64>,
    pub mark: Mark,
}

// Centimetres and metres as figures for C: the number of the refusal, 0 for none, and the number itself, 0 on a refusal.
#[derive(Clone, Copy)]
pub struct WholeFigures {
    pub refusal: u32,
    pub centimetres: i64,
}

#[derive(Clone, Copy)]
pub struct LengthFigures {
    pub refusal: u32,
    pub metres: f64,
}

pub const MOST_CENTIMETRES: u64 = 1_000_000_000;

// A number of metres in whole centimetres: the nearest to exactly 100 times the number, a tie going to the even one. `None` for NaN,
// an infinity and a size over 10,000,000: refusal 3.
#[tactic(auto, unfolding(crate::specs::Marks::marked_of))]
pub fn centimetres(x: f64) -> Option<i64>
    ensures { result ≡ centimetres_of x }
{
    marked(x).whole
}

// The same, and how the number was rounded.
#[tactic(auto, using(crate::proofs::MarkLaws::marked_exact, crate::proofs::MarkLaws::marked_refused))]
pub fn marked(x: f64) -> MarkedWhole
    ensures { result ≡ marked_of x }
{
    match Hundredfold::times_hundred(x) {
        Some(hundredfold) => hundredfold.nearest(),
        None => MarkedWhole {
            whole: None,
            mark: Mark::Equal,
        },
    }
}

// Whether a number with this mark lost something on the way to centimetres.
pub fn is_rounded(mark: Mark) -> bool
    ensures { result ≡ is_rounded mark }
{
    mark != Mark::Equal
}

// A number of centimetres in metres: divided by 100 and rounded once. Read again, it gives the same centimetres. `None` for a size
// over 1,000,000,000: refusal 3.
#[tactic(auto, using(crate::proofs::Back::not_written))]
pub fn metres(c: i64) -> Option<f64>
    ensures answer { result ≡ metres_of c }
    ensures back { ReadsBack c result }
{
    if size(c) > MOST_CENTIMETRES {
        return None;
    }
    Some(c as f64 / 100.0)
}

// The size of a number.
pub fn size(c: i64) -> u64
    ensures { result ≡ nat_abs c }
{
    c.unsigned_abs()
}

// An answer in centimetres as figures.
#[tactic(auto, unfolding(crate::specs::Metres::whole_figures))]
pub fn whole_figures(w: Option<i64>) -> WholeFigures
    ensures { result ≡ whole_figures w }
{
    let (refusal, centimetres) = match w {
        Some(centimetres) => (0, centimetres),
        None => (3, 0),
    };
    WholeFigures {
        refusal,
        centimetres,
    }
}

// An answer in metres as figures.
#[tactic(auto, using(crate::proofs::PatternLaws::zero_pattern), unfolding(crate::specs::Metres::length_figures))]
pub fn length_figures(l: Option<f64>) -> LengthFigures
    ensures { result ≡ length_figures l }
{
    let (refusal, metres) = match l {
        Some(metres) => (0, metres),
        None => (3, 0.0),
    };
    LengthFigures { refusal, metres }
}

// The number of a pattern of 64 bits, those of NaN too.
pub fn number_of(pattern: u64) -> f64
    ensures { result ≡ number_of pattern }
{
    num::f64_from_bits_with_nan(pattern)
}

// The pattern of a number. Each NaN has the one of the quiet NaN with no sign.
pub fn pattern_of(x: f64) -> u64
    ensures { result ≡ pattern_of x }
{
    num::f64_to_bits_with_nan(x)
}

// Whether a number is plus zero, which eight zero bytes stand for, and not minus zero.
#[tactic(auto, unfolding(crate::specs::Patterns::is_plus_zero))]
pub fn is_plus_zero(x: f64) -> bool
    ensures { result ≡ is_plus_zero x }
{
    pattern_of(x) == 0
}

// The number in the eight bytes of s from `at` on, `None` if they are not all inside s.
#[tactic(auto, unfolding(crate::specs::Patterns::number_at))]
pub fn number_at(s: &[u8], at: usize) -> Option<f64>
    ensures { result ≡ number_at s.now at }
{
    fields::eight_at(s, at).map(number_of)
}

// Puts a number into the eight bytes of s from `at` on and answers true; if they are not all inside s, changes nothing and
// answers false. What was put is read there again.
#[tactic(auto, using(crate::proofs::PatternLaws::put_number_read))]
pub fn put_number(s: &mut [u8], at: usize, x: f64) -> bool
    ensures answer { result ≡ inside 8 s.old at }
    ensures buffer { s.new ≡ put_number_at s.old at x }
    ensures back { ReadsThere s.old s.new at x }
{
    fields::put_eight(s, at, pattern_of(x))
}
