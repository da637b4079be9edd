// Places, chains and the readings expected at a place, in whole centimetres.
#![tactic(auto)]

ghost use Rattle.std.specs.Prelude.{◌≡◌, true, ◌<◌, ◌^◌};
ghost use Rattle.std.proofs.Math.IntN.{sub_ℕ};
ghost use Rattle.chart.specs.Places.{in_range, apart, distance_of};
ghost use Rattle.chart.specs.Factors.{is_factor, on_ground};
ghost use Rattle.chart.specs.Chains.{stations_of, all_in_range, no_two_equal, is_sound};
ghost use Rattle.chart.specs.Readings.{range_of, expected_at, said_by, figures_with};

use refusals::{Numbered, Refusal};

// A cell of the grid, by its easting and northing.
#[derive(Clone, Copy, PartialEq, Eq)]
pub struct Place {
    pub easting: u32,
    pub northing: u32,
}

// The stations of a chain, the master and the slaves A and B, and its scale factor in millionths.
#[derive(Clone, Copy)]
pub struct Chain {
    pub master: Place,
    pub a: Place,
    pub b: Place,
    pub factor: u32,
}

// The readings of a place, one for each slave.
#[derive(Clone, Copy)]
pub struct BothReadings {
    pub a: i64,
    pub b: i64,
}

// The readings as figures: the number of the refusal, 0 for none, and both readings, as lay.h has them.
#[derive(Clone, Copy)]
pub struct Figures {
    pub refusal: u32,
    pub a: i64,
    pub b: i64,
}

const MOST_EASTING: u32 = 100_000_000;

const MOST_NORTHING: u32 = 1_000_000_000;

// The factor with which ground and grid are the same length, and the ends of what is allowed.
pub const UNIT_FACTOR: u32 = 1_000_000;

const LEAST_FACTOR: u32 = 999_000;

const MOST_FACTOR: u32 = 1_001_000;

// Whether a place is in range.
#[tactic(auto, unfolding(crate::specs::Places::in_range))]
pub fn in_range(p: Place) -> bool
    ensures { result ≡ in_range p }
{
    p.easting <= MOST_EASTING && p.northing <= MOST_NORTHING
}

// Whether a scale factor is allowed.
#[tactic(auto, unfolding(crate::specs::Factors::is_factor))]
pub fn is_factor(f: u32) -> bool
    ensures { result ≡ is_factor f }
{
    LEAST_FACTOR <= f && f <= MOST_FACTOR
}

// Whether a chain is sound: its factor is allowed, all its stations are in range, and no two of them are equal.
#[tactic(auto, unfolding(crate::specs::Chains::is_sound))]
pub fn sound(c: Chain) -> bool
    ensures { result ≡ is_sound c }
{
    is_factor(c.factor) && all_in_range(c) && no_two_equal(c)
}

// The readings expected at a place: what a log would hold there.
#[tactic(auto, using(crate::proofs::ChainLaws::factor_allowed, crate::proofs::ChainLaws::stations_in_range), unfolding(crate::specs::Readings::said_by, crate::specs::Readings::expected_at))]
pub fn readings(c: Chain, p: Place) -> Result<BothReadings, Refusal>
    ensures { said_by result ≡ expected_at c p }
{
    if !in_range(p) {
        return Err(Refusal::Place);
    }
    if !sound(c) {
        return Err(Refusal::Chain);
    }
    let m = range(c, p, c.master);
    let a = less(range(c, p, c.a), m);
    let b = less(range(c, p, c.b), m);
    Ok(BothReadings { a, b })
}

// An answer of `readings` as figures, or one whose refusal is any number.
#[tactic(auto, unfolding(crate::specs::Readings::figures_with))]
pub fn as_figures<R: Numbered>(e: Result<BothReadings, R>) -> Figures
    ensures { result ≡ figures_with R.number_of e }
{
    match e {
        Ok(BothReadings { a, b }) => Figures { refusal: 0, a, b },
        Err(why) => Figures {
            refusal: why.as_number(),
            a: 0,
            b: 0,
        },
    }
}

fn all_in_range(c: Chain) -> bool
    ensures { result ≡ all_in_range (stations_of c) }
{
    in_range(c.master) && in_range(c.a) && in_range(c.b)
}

#[tactic(auto, unfolding(crate::specs::Places::same_place))]
fn no_two_equal(c: Chain) -> bool
    ensures { result ≡ no_two_equal (stations_of c) }
{
    c.master != c.a && c.master != c.b && c.a != c.b
}

// The range from a place to a station of a chain. What it asks of them is a clause: refusals 4 and 5 are about places and chains that
// lack it, and a second type of place would be built at each call.
#[tactic(auto, using(crate::proofs::RangeLaws::range_is_on_ground))]
fn range(c: Chain, p: Place, station: Place) -> u64
    requires { (is_factor c.factor ≡ true) × (in_range p ≡ true) × (in_range station ≡ true) }
    ensures { (result ≡ range_of c p station) × (result < 2 ^ 31) }
{
    on_ground(c.factor, distance(p, station))
}

// How long a distance of the grid is on the ground. `search` has its own: shared, it would be public, which asks nothing of callers, and
// so test the factor and the distance at every visit.
#[tactic(auto, using(crate::proofs::GroundLaws::factor_some, crate::proofs::GroundLaws::ground_small), unfolding(crate::specs::Factors::on_ground))]
fn on_ground(factor: u32, d: u64) -> u64
    requires { (is_factor factor ≡ true) × (d < 2 ^ 30) }
    ensures { (result ≡ on_ground factor d) × (result < 2 ^ 31) }
{
    d * UNIT_FACTOR as u64 / factor as u64
}

// Both squares fit, since both places are in range.
#[tactic(auto, using(crate::proofs::PlaceLaws::squares_small, squares::proofs::RootLaws::root_at_most), unfolding(crate::specs::Places::distance_of))]
fn distance(p: Place, station: Place) -> u64
    requires { (in_range p ≡ true) × (in_range station ≡ true) }
    ensures { (result ≡ distance_of p station) × (result < 2 ^ 30) }
{
    let e = gap(p.easting, station.easting);
    let n = gap(p.northing, station.northing);
    squares::root(e * e + n * n)
}

// How far two numbers lie apart.
pub fn gap(a: u32, b: u32) -> u64
    ensures { result ≡ apart a b }
{
    a.abs_diff(b) as u64
}

// The difference of two ranges, below 0 if the first is the smaller.
fn less(a: u64, b: u64) -> i64
    requires { (a < 2 ^ 31) × (b < 2 ^ 31) }
    ensures { result ≡ sub_ℕ a b }
{
    a as i64 - b as i64
}
