// The search of a window: every cell that matches, each once, in chart order.
#![tactic(auto)]

ghost use Rattle.std.specs.Prelude.{◌≡◌, true, ◌++◌, ◌∷◌, [], ◌+◌, ◌-◌, ◌*◌, ◌≤◌, ◌<◌, ◌^◌, leb, length, take, replicate, nat_abs, Err};
ghost use Rattle.std.proofs.Math.IntN.{sub_ℕ};
ghost use Rattle.chart.specs.Places.{in_range, squared_distance, distance_of};
ghost use Rattle.chart.specs.Factors.{is_factor, on_ground};
ghost use Rattle.chart.specs.Readings.{differ, wanted_of, within};
ghost use Rattle.search.specs.Windows.{is_window};
ghost use Rattle.search.specs.Windows as windows;
ghost use Rattle.search.specs.Questions.{rule_of, most_reading, none_too_large};
ghost use Rattle.search.specs.Walk.{Standing, start};
ghost use Rattle.search.specs.Walk as walk;
ghost use Rattle.search.specs.Answers.{ended, refusal_for, visits_before, stopped_by, list_of, search_left, search_figures};
ghost use Rattle.search.specs.Counts.{said_for, how_many_of};
ghost use Rattle.search.specs.Holding.{wanted_by, rule_by, question_by, least_for, OnChart, Holds, Represents};

mod hunt;

use chart::{Chain, Place};
use hunt::{Hunt, Wish};
use refusals::Refusal;

// The square of 2^k by 2^k cells whose south-west cell is the corner.
#[derive(Clone, Copy)]
pub struct Window {
    pub corner: Place,
    pub k: u32,
}

// What a search found, or a walk has found so far: how many places, in so many visits.
#[derive(Clone, Copy)]
pub struct Found {
    pub count: usize,
    pub visits: u64,
}

// Why a search found nothing, in the order of the refusals' numbers. Only three come with visits, so this is no `Stopped`.
#[derive(Clone, Copy)]
pub enum Unfound {
    ReadingTooLarge,
    Unsound,
    BadWindow,
    BadTolerance,
    NoMatch { visits: u64 },
    NoRoom { visits: u64 },
    AllowanceUsed { visits: u64 },
}

impl Unfound {
    // The refusal that it is.
    fn refusal(self) -> Refusal
        ensures { result ≡ refusal_for self }
    {
        match self {
            Unfound::ReadingTooLarge => Refusal::Number,
            Unfound::Unsound => Refusal::Chain,
            Unfound::BadWindow => Refusal::Window,
            Unfound::BadTolerance => Refusal::Tolerance,
            Unfound::NoMatch { visits: _ } => Refusal::NoMatch,
            Unfound::NoRoom { visits: _ } => Refusal::NoRoom,
            Unfound::AllowanceUsed { visits: _ } => Refusal::Allowance,
        }
    }

    // The visits made before it.
    fn visits(self) -> u64
        ensures { result ≡ visits_before self }
    {
        match self {
            Unfound::NoMatch { visits }
            | Unfound::NoRoom { visits }
            | Unfound::AllowanceUsed { visits } => visits,
            Unfound::ReadingTooLarge
            | Unfound::Unsound
            | Unfound::BadWindow
            | Unfound::BadTolerance => 0,
        }
    }
}

// An answer as figures, for C: the number of the refusal, 0 for none, the count of places and the visits.
#[derive(Clone, Copy)]
pub struct SearchFigures {
    pub refusal: u32,
    pub count: usize,
    pub visits: u64,
}

// How many places match: none, one or several, with the visits that it took to decide.
#[derive(Clone, Copy)]
pub enum HowMany {
    None { visits: u64 },
    One { place: Place, visits: u64 },
    Several { visits: u64 },
}

// A refusal, and the visits made before it.
#[derive(Clone, Copy)]
pub struct Stopped {
    pub refusal: Refusal,
    pub visits: u64,
}

impl From<Unfound> for Stopped {
    ghost from_gives = { λ why stopped. stopped ≡ stopped_by why };

    fn from(why: Unfound) -> Stopped {
        let visits = why.visits();
        let refusal = why.refusal();
        Stopped { refusal, visits }
    }
}

pub const MOST_EXPONENT: u32 = 24;

const MOST_READING: u64 = 1_000_000_000;

const UNIT_FACTOR: u64 = chart::UNIT_FACTOR as u64;

// How large a tolerance may be, in centimetres.
pub const MOST_TOLERANCE: u32 = 100_000;

// Whether k is at most 24 and every cell of the window in range.
#[tactic(auto, using(crate::proofs::WindowLaws::too_large_k, crate::proofs::WindowLaws::by_last_cell, chart::proofs::PlaceLaws::too_far_east, chart::proofs::PlaceLaws::too_far_north))]
pub fn is_window(w: Window) -> bool
    ensures { result ≡ is_window w }
{
    if w.k > MOST_EXPONENT {
        return false;
    }
    let last = side_of(w.k) - 1;
    if w.corner.easting > u32::MAX - last {
        return false;
    }
    if w.corner.northing > u32::MAX - last {
        return false;
    }
    chart::in_range(north_east(w.corner, last))
}

// Lists the places of the window that match the readings, in chart order, each as easting and northing. The rest of the list
// becomes zero, and on a refusal all of it.
pub fn search(
    list: &mut [u32],
    c: Chain,
    ra: i64,
    rb: i64,
    w: Window,
    tolerance: u32,
    allowance: u64,
) -> Result<Found, Unfound>
    ensures answer { result ≡ (search_left c (ra ∷ rb ∷ []) w tolerance allowance (length list.old)).answer }
    ensures list { list.new ≡ (search_left c (ra ∷ rb ∷ []) w tolerance allowance (length list.old)).list }
{
    if !none_too_large(ra, rb) {
        return refused(list, Unfound::ReadingTooLarge);
    }
    if !chart::sound(c) {
        return refused(list, Unfound::Unsound);
    }
    if !is_window(w) {
        return refused(list, Unfound::BadWindow);
    }
    if tolerance > MOST_TOLERANCE {
        return refused(list, Unfound::BadTolerance);
    }
    let a = wished(c.a, ra);
    let b = wished(c.b, rb);
    let room = list.len() / 2;
    let hunt = Hunt {
        factor: c.factor as u64,
        master: c.master,
        a,
        b,
        tolerance: tolerance as u64,
        allowance,
        room,
    };
    walked(list, &hunt, w)
}

// An answer of `search` as figures.
#[tactic(auto, unfolding(crate::specs::Answers::search_figures))]
pub fn as_figures(a: Result<Found, Unfound>) -> SearchFigures
    ensures { result ≡ search_figures a }
{
    match a {
        Ok(found) => SearchFigures {
            refusal: 0,
            count: found.count,
            visits: found.visits,
        },
        Err(why) => SearchFigures {
            refusal: why.refusal().number(),
            count: 0,
            visits: why.visits(),
        },
    }
}

// Whether no place of the window matches the readings, one, or several: a search with room for one place.
pub fn how_many(
    c: Chain,
    ra: i64,
    rb: i64,
    w: Window,
    tolerance: u32,
    allowance: u64,
) -> Result<HowMany, Stopped>
    ensures { result ≡ how_many_of (rule_of c (ra ∷ rb ∷ []) tolerance) w allowance }
{
    let mut list = [0u32; 2];
    let answer = search(&mut list, c, ra, rb, w, tolerance, allowance);
    let first = Place {
        easting: list[0],
        northing: list[1],
    };
    said_for(answer, first)
}

// What the answer of that search says, if `first` is what its list begins with.
#[tactic(auto, unfolding(crate::specs::Counts::said_for))]
fn said_for(a: Result<Found, Unfound>, first: Place) -> Result<HowMany, Stopped>
    ensures { result ≡ said_for a first }
{
    match a {
        Ok(Found { count: _, visits }) => Ok(HowMany::One {
            place: first,
            visits,
        }),
        Err(Unfound::NoMatch { visits }) => Ok(HowMany::None { visits }),
        Err(Unfound::NoRoom { visits }) => Ok(HowMany::Several { visits }),
        Err(why) => Err(Stopped::from(why)),
    }
}

// Whether both readings are at most 1,000,000,000 in size.
#[tactic(auto, unfolding(crate::specs::Questions::none_too_large))]
fn none_too_large(ra: i64, rb: i64) -> bool
    ensures { (c : Chain) → result ≡ none_too_large (wanted_of c (ra ∷ rb ∷ [])) }
{
    metres::size(ra) <= MOST_READING && metres::size(rb) <= MOST_READING
}

// A slave in range, and a reading that is not too large.
fn wished(slave: Place, reading: i64) -> Wish
    requires { (in_range slave ≡ true) × (nat_abs reading ≤ most_reading) }
    ensures { wanted_by result ≡ record { slave = slave; reading = reading } }
{
    let size = metres::size(reading);
    if reading < 0 {
        return Wish {
            slave,
            above: 0,
            below: size,
        };
    }
    Wish {
        slave,
        above: size,
        below: 0,
    }
}

// The side of a square of exponent k: 2^k.
fn side_of(k: u32) -> u32
    requires { k ≤ 24 }
    ensures { result ≡ 2 ^ k }
{
    1u32 << k
}

// The place d farther east; d farther north; d farther both ways. Each is the definition of its name, in one step: one function with two
// distances would take a 0 at two of its three calls.
fn east(p: Place, d: u32) -> Place
    requires { p.easting + d < 2 ^ 32 }
    ensures { result ≡ windows.east d p }
{
    Place {
        easting: p.easting + d,
        northing: p.northing,
    }
}

fn north(p: Place, d: u32) -> Place
    requires { p.northing + d < 2 ^ 32 }
    ensures { result ≡ windows.north d p }
{
    Place {
        easting: p.easting,
        northing: p.northing + d,
    }
}

fn north_east(p: Place, d: u32) -> Place
    requires { (p.easting + d < 2 ^ 32) × (p.northing + d < 2 ^ 32) }
    ensures { result ≡ windows.north_east d p }
{
    Place {
        easting: p.easting + d,
        northing: p.northing + d,
    }
}

// Every entry of the list from index `from` on becomes zero.
pub fn clear_entries(list: &mut [u32], from: usize)
    ensures { list.new ≡ take from list.old ++ replicate (length list.old - from) 0 }
{
    if from < list.len() {
        list[from..].fill(0);
    }
}

// A refusal, with the whole list cleared.
fn refused(list: &mut [u32], why: Unfound) -> Result<Found, Unfound>
    ensures answer { result ≡ Err why }
    ensures list { list.new ≡ replicate (length list.old) 0 }
{
    clear_entries(list, 0);
    Err(why)
}

// The walk from its start to its end. At the end, every entry of the list that holds no place of the answer is cleared.
fn walked(list: &mut [u32], h: &Hunt, w: Window) -> Result<Found, Unfound>
    requires { (is_window w ≡ true) × (2 * h.now.room ≤ length list.old) }
    ensures answer { result ≡ (ended (walk.visit (question_by h.now) w.k w.corner start)).answer }
    ensures list { list.new ≡ list_of (length list.old) (ended (walk.visit (question_by h.now) w.k w.corner start)).places }
{
    let begin = Found {
        count: 0,
        visits: 0,
    };
    match visit(list, h, w.k, side_of(w.k), w.corner, 0, begin) {
        Ok(Found { count, visits }) => {
            clear_entries(list, 2 * count);
            if count == 0 {
                return Err(Unfound::NoMatch { visits });
            }
            Ok(Found { count, visits })
        }
        Err(why) => refused(list, why), // what was found so far is no answer, and no part of one
    }
}

// Visits the square of side 2^k at p. The guess is the master's distance from the middle of the enclosing square. It is near
// enough that one of Newton's steps mostly finds the distance that is needed here.
fn visit(
    list: &mut [u32],
    h: &Hunt,
    k: u32,
    side: u32,
    p: Place,
    guess: u64,
    t: Found,
) -> Result<Found, Unfound>
    requires { OnChart k side p × (2 * h.now.room ≤ length list.old) }
    ensures { (s : Standing) → Holds s t list.old → Represents (walk.visit (question_by h.now) k p s) result list.new }
{
    if h.allowance <= t.visits {
        return Err(Unfound::AllowanceUsed { visits: t.visits });
    }
    let begun = Found {
        count: t.count,
        visits: t.visits + 1,
    };
    if k == 0 {
        return cell(list, h, p, guess, begun);
    }
    let half = side / 2;
    let middle = north_east(p, half);
    let m = distance(middle, h.master, guess);
    if !near(h, middle, m, h.tolerance + 2 * (side as u64) + 4) {
        return Ok(begun);
    }
    let south_east = east(p, half);
    let north_west = north(p, half);
    let sw = visit(list, h, k - 1, half, p, m, begun)?;
    let se = visit(list, h, k - 1, half, south_east, m, sw)?;
    let nw = visit(list, h, k - 1, half, north_west, m, se)?;
    visit(list, h, k - 1, half, middle, m, nw)
}

// Tests a cell. One that matches goes into the list, or stops the walk if the list is full.
#[tactic(auto, using(crate::proofs::HoldLaws::missed_holds, crate::proofs::HoldLaws::full_halts))]
fn cell(list: &mut [u32], h: &Hunt, p: Place, guess: u64, t: Found) -> Result<Found, Unfound>
    requires { (in_range p ≡ true) × (2 * h.now.room ≤ length list.old) }
    ensures { (s : Standing) → Holds s t list.old → Represents (walk.cell (question_by h.now) p s) result list.new }
{
    let m = distance(p, h.master, guess);
    if !near(h, p, m, h.tolerance) {
        return Ok(t);
    }
    let n = t.count;
    if h.room <= n {
        return Err(Unfound::NoRoom { visits: t.visits });
    }
    let i = 2 * n;
    list[i] = p.easting;
    let j = i + 1;
    list[j] = p.northing;
    Ok(Found {
        count: n + 1,
        visits: t.visits,
    })
}

// Whether every slave's reading at p differs from the wanted one by at most slack. d is the master's distance from p.
#[tactic(auto, using(chart::proofs::RangeLaws::range_is_on_ground), unfolding(chart::specs::Readings::within, chart::specs::Readings::reading_of))]
fn near(h: &Hunt, p: Place, d: u64, slack: u64) -> bool
    requires { (in_range p ≡ true) × (d ≡ distance_of p h.now.master) × (d < 2 ^ 30) × (slack < 2 ^ 28) }
    ensures { result ≡ within slack (rule_by h.now).chain (rule_by h.now).wanted p }
{
    let m = on_ground(h.factor, d);
    agrees(&h.a, h.factor, p, m, slack) && agrees(&h.b, h.factor, p, m, slack)
}

// The same for one slave; m is the master's range. The slave's distance is the root of y. Its range is at least r exactly if y is at
// least the square of the least distance for r; so no root is computed, and nothing is divided by the factor.
fn agrees(w: &Wish, factor: u64, p: Place, m: u64, slack: u64) -> bool
    requires { (is_factor factor ≡ true) × (in_range p ≡ true) × (m < 2 ^ 31) × (slack < 2 ^ 28) }
    ensures { result ≡ leb (differ (sub_ℕ (on_ground factor (distance_of p w.now.slave)) m) (sub_ℕ w.now.above w.now.below)) slack }
{
    let y = squared(p, w.slave);
    let far = m + w.above;
    if far + slack < w.below {
        return false;
    }
    let end = least_for(factor, far + slack - w.below + 1);
    if end * end <= y {
        return false;
    }
    if far <= w.below + slack {
        return true;
    }
    let start = least_for(factor, far - (w.below + slack));
    start * start <= y
}

// The least distance of the grid that is at least r long on the ground.
#[tactic(auto, using(chart::proofs::GroundLaws::factor_says))]
fn least_for(factor: u64, r: u64) -> u64
    requires { (is_factor factor ≡ true) × (r < 4_000_000_000) }
    ensures { (result ≡ least_for factor r) × (result < 2 ^ 32) }
{
    (r * factor + (UNIT_FACTOR - 1)) / UNIT_FACTOR
}

// How long a distance of the grid is on the ground, as in `chart`: its function says why there are two.
#[tactic(auto, using(chart::proofs::GroundLaws::factor_some, chart::proofs::GroundLaws::ground_small), unfolding(chart::specs::Factors::on_ground))]
fn on_ground(factor: u64, d: u64) -> u64
    requires { (is_factor factor ≡ true) × (d < 2 ^ 30) }
    ensures { (result ≡ on_ground factor d) × (result < 2 ^ 31) }
{
    d * UNIT_FACTOR / factor
}

// The distance of p from a station, computed from a guess of it: in a walk that takes a step or two where `chart` begins anew. That
// places are in range is a clause, here and above, as in `chart`.
#[tactic(auto, using(squares::proofs::RootLaws::root_at_most), unfolding(chart::specs::Places::distance_of))]
fn distance(p: Place, station: Place, guess: u64) -> u64
    requires { (in_range p ≡ true) × (in_range station ≡ true) }
    ensures { (result ≡ distance_of p station) × (result < 2 ^ 30) }
{
    squares::root_near(squared(p, station), guess)
}

#[tactic(auto, using(chart::proofs::PlaceLaws::squares_small))]
fn squared(p: Place, q: Place) -> u64
    requires { (in_range p ≡ true) × (in_range q ≡ true) }
    ensures { (result ≡ squared_distance p q) × (result < 2 ^ 60) }
{
    let e = chart::gap(p.easting, q.easting);
    let n = chart::gap(p.northing, q.northing);
    e * e + n * n
}
