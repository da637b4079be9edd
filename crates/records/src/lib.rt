// Log records, chain tables and jobs read from bytes of any content.
#![tactic(auto)]

ghost use Rattle.std.specs.Prelude.{◌≡◌, ◌&&◌, [], ◌∷◌, ◌+◌, ◌*◌, ◌≤◌, length, ℕ, Ok};
ghost use Rattle.fields.specs.Fields.{field_at};
ghost use Rattle.metres.specs.Metres.{centimetres_of};
ghost use Rattle.metres.specs.Marks.{mark_of};
ghost use Rattle.search.specs.declared.Stopped.{Stopped};
ghost use Rattle.records.specs.Bytes.{number_in, all_zero, are_zero, piece_end};
ghost use Rattle.records.specs.LogRecords.{log_bytes, raw_in, raw_record_of, is_hyperbolic, is_grid, is_hold, log_record_of, is_place, two_readings, placed, pair_of, with_pair, log_entry_of};
ghost use Rattle.records.specs.ChainTables.{chain_bytes, factor_bytes, is_table, one_to, chain_count_of, is_scale, scaled_count_of, place_at, chain_at, raw_chain_of, chain_in, chain_of};
ghost use Rattle.records.specs.Jobs.{job_in, raw_job_of, formed_job_of, accepted_job, job_of, visits_with, number_with, itself_stopped, number_stopped, many_with};
ghost use Rattle.records.specs.Marks.{marked_entry_of};
ghost use Rattle.records.specs.Gathered.{marked_as};

use chart::{Chain, Place};
use metres::Mark;
use refusals::Refusal;
use search::{HowMany, Stopped, Window};

// The fields of a log record as its bytes give them, valid or not. Bytes 2 and 3 should be zero.
#[derive(Clone, Copy)]
pub struct RawRecord {
    pub kind: u8,
    pub chain: u8,
    pub byte_2: u8,
    pub byte_3: u8,
    pub line: u32,
    pub first: f64,
    pub second: f64,
    pub third: f64,
}

// A log record by its kind, with the numbers that the kind uses, in metres. Line number and chain are in the raw record.
#[derive(Clone, Copy)]
pub enum LogRecord {
    Hyperbolic { a: f64, b: f64 },
    Grid { easting: f64, northing: f64 },
    Hold,
}

// The same in whole centimetres.
#[derive(Clone, Copy)]
pub enum LogEntry {
    Readings { a: i64, b: i64 },
    Place(Place),
    Hold,
}

// The same or its refusal, with the marks of its two numbers. A number that is not used, and one of a refused record, has the mark
// `Equal`.
#[derive(Clone, Copy)]
pub struct MarkedEntry {
    pub entry: Result<LogEntry, Refusal>,
    pub first: Mark,
    pub second: Mark,
}

// Where to search, and how.
#[derive(Clone, Copy)]
pub struct Job {
    pub window: Window,
    pub tolerance: u32,
    pub allowance: u64,
}

// The number of a refusal, and the visits made before it.
#[derive(Clone, Copy)]
pub struct Refused {
    pub number: u32,
    pub visits: u64,
}

// The refusal of a job as a caller has it: one of `refusals`, or any number.
pub trait JobRefusal {
    // The refusal of a question, with the visits made before it.
    type Answer;

    ghost with_visits: { Self → ℕ → Self.Answer };

    ghost of_stopped: { Stopped → Self.Answer };

    // The same after so many visits.
    fn with_visits(self, visits: u64) -> Self::Answer
        ensures { result ≡ with_visits self visits };

    // What stopped a search, in the same form.
    fn of_stopped(why: Stopped) -> Self::Answer
        ensures { result ≡ of_stopped why };
}

impl JobRefusal for Refusal {
    type Answer = Stopped;

    ghost with_visits = { visits_with };

    ghost of_stopped = { itself_stopped };

    fn with_visits(self, visits: u64) -> Stopped {
        Stopped {
            refusal: self,
            visits,
        }
    }

    fn of_stopped(why: Stopped) -> Stopped {
        why
    }
}

impl JobRefusal for u32 {
    type Answer = Refused;

    ghost with_visits = { number_with };

    ghost of_stopped = { number_stopped };

    fn with_visits(self, visits: u64) -> Refused {
        Refused {
            number: self,
            visits,
        }
    }

    fn of_stopped(why: Stopped) -> Refused {
        Refused {
            number: why.refusal.number(),
            visits: why.visits,
        }
    }
}

// How many bytes a log record, a chain, its factor and a job have.
pub const LOG_BYTES: usize = 32;

pub const CHAIN_BYTES: usize = 24;

pub const FACTOR_BYTES: usize = 4;

pub const JOB_BYTES: usize = 32;

// How many chains a table may have, and how many bytes it and its side file then have.
pub const MOST_CHAINS: usize = 16;

pub const TABLE_BYTES: usize = MOST_CHAINS * CHAIN_BYTES;

pub const SCALE_BYTES: usize = MOST_CHAINS * FACTOR_BYTES;

// The allowance of a job that names none: the most visits that a search under it makes.
pub const USUAL_ALLOWANCE: u64 = 1_000_000;

// The raw log record in 32 bytes.
#[tactic(auto, unfolding(crate::specs::LogRecords::raw_record_of))]
pub fn raw_record(s: &[u8]) -> Result<RawRecord, Refusal>
    ensures { result ≡ raw_record_of s.now }
{
    Ok(gathered(s.as_array().ok_or(Refusal::Length)?))
}

// The log record in 32 bytes, by its kind.
#[tactic(auto, unfolding(crate::specs::LogRecords::log_record_of))]
pub fn log_record(s: &[u8]) -> Result<LogRecord, Refusal>
    ensures { result ≡ log_record_of s.now }
{
    by_kind(s.as_array().ok_or(Refusal::Length)?)
}

// The log record in 32 bytes, in whole centimetres.
#[tactic(auto, unfolding(crate::specs::Marks::marked_entry_of, crate::specs::Marks::with_marks_of, crate::specs::LogRecords::log_entry_of))]
pub fn log_entry(s: &[u8]) -> Result<LogEntry, Refusal>
    ensures { result ≡ log_entry_of s.now }
{
    marked_entry(s).entry
}

// The same, and how its numbers were rounded.
#[tactic(auto, using(crate::proofs::MarkLaws::all_marked), unfolding(crate::specs::Marks::marked_entry_of))]
pub fn marked_entry(s: &[u8]) -> MarkedEntry
    ensures { result ≡ marked_entry_of s.now }
{
    match log_record(s) {
        Ok(LogRecord::Hyperbolic { a, b }) => marked_pair(a, b, readings),
        Ok(LogRecord::Grid { easting, northing }) => marked_pair(easting, northing, place),
        Ok(LogRecord::Hold) => with_marks(Ok(LogEntry::Hold), Mark::Equal, Mark::Equal),
        Err(refusal) => with_marks(Err(refusal), Mark::Equal, Mark::Equal),
    }
}

// Whether x and y are easting and northing of a place in range. They may be too large for the fields of a `Place`.
#[tactic(auto, using(crate::proofs::GridLaws::place_or_none))]
pub fn is_place(x: i64, y: i64) -> bool
    ensures { result ≡ is_place x y }
{
    let Ok(easting) = u32::try_from(x) else {
        return false;
    };
    let Ok(northing) = u32::try_from(y) else {
        return false;
    };
    chart::in_range(Place { easting, northing })
}

// Whether n is from 1 to `most`.
pub fn one_to(most: usize, n: u32) -> bool
    ensures { result ≡ one_to most n }
{
    n != 0 && n as usize <= most
}

// How many chains there are in the bytes of a table.
#[tactic(auto, unfolding(crate::specs::ChainTables::chain_count_of))]
pub fn chain_count(s: &[u8]) -> Result<usize, Refusal>
    ensures { result ≡ chain_count_of s.now }
{
    if !is_table(s) {
        return Err(Refusal::Length);
    }
    Ok(s.len() / CHAIN_BYTES)
}

// Whether these bytes are a side file for this many chains.
pub fn is_scale(chains: usize, s: &[u8]) -> bool
    ensures { result ≡ is_scale chains s.now }
{
    s.len() % FACTOR_BYTES == 0 && s.len() / FACTOR_BYTES == chains
}

// How many chains there are in the bytes of a table that its side file fits. The two are two files, and two arguments in C, whose
// functions lend them as they come.
#[tactic(auto, unfolding(crate::specs::ChainTables::chain_count_of, crate::specs::ChainTables::scaled_count_of))]
pub fn scaled_count(s: &[u8], scale: &[u8]) -> Result<usize, Refusal>
    ensures { result ≡ scaled_count_of s.now scale.now }
{
    let chains = chain_count(s)?;
    if !is_scale(chains, scale) {
        return Err(Refusal::Length);
    }
    Ok(chains)
}

// The chain with a given number in the bytes of a table and of its side file, if it is sound.
#[tactic(auto, using(crate::proofs::TableLaws::chain_inside, crate::proofs::TableLaws::one_to_says), unfolding(crate::specs::ChainTables::scaled_count_of, crate::specs::ChainTables::chain_of))]
pub fn chain_of(s: &[u8], scale: &[u8], number: u32) -> Result<Chain, Refusal>
    ensures { result ≡ chain_of s.now scale.now number }
{
    let chains = scaled_count(s, scale)?;
    if !one_to(chains, number) {
        return Err(Refusal::Chain); // not in the table
    }
    let chain = chain_in(s, scale, number as usize - 1);
    if !chart::sound(chain) {
        return Err(Refusal::Chain); // not sound
    }
    Ok(chain)
}

// The chain in 24 bytes with its factor, sound or not.
#[tactic(auto, unfolding(crate::specs::ChainTables::raw_chain_of))]
pub fn raw_chain(s: &[u8], factor: u32) -> Result<Chain, Refusal>
    ensures { result ≡ raw_chain_of s.now factor }
{
    let chain: &[u8; CHAIN_BYTES] = s.as_array().ok_or(Refusal::Length)?;
    Ok(chain_at(chain, 0, factor))
}

// The fields in the 32 bytes of a job, valid or not.
#[tactic(auto, unfolding(crate::specs::Jobs::raw_job_of))]
pub fn raw_job(s: &[u8]) -> Result<Job, Refusal>
    ensures { result ≡ raw_job_of s.now }
{
    Ok(job_in(s.as_array().ok_or(Refusal::Length)?))
}

// The same, if the bytes that must be zero are zero. Window and tolerance are not checked.
#[tactic(auto, unfolding(crate::specs::Jobs::formed_job_of))]
pub fn formed_job(s: &[u8]) -> Result<Job, Refusal>
    ensures { result ≡ formed_job_of s.now }
{
    let job = s.as_array().ok_or(Refusal::Length)?;
    if !job_zeros(job) {
        return Err(Refusal::Form);
    }
    Ok(job_in(job))
}

// The job in 32 bytes.
#[tactic(auto, unfolding(crate::specs::Jobs::job_of, crate::specs::Jobs::accepted_job))]
pub fn job_of(s: &[u8]) -> Result<Job, Refusal>
    ensures { result ≡ job_of s.now }
{
    accepted(formed_job(s)?)
}

// How many places of a job's window the readings allow, or the job's refusal.
#[tactic(auto, unfolding(crate::specs::Jobs::many_by, crate::specs::Jobs::many_with))]
pub fn many_by<R: JobRefusal>(
    job: Result<Job, R>,
    c: Chain,
    a: i64,
    b: i64,
) -> Result<HowMany, R::Answer>
    ensures { result ≡ many_with R.with_visits R.of_stopped job c (a ∷ b ∷ []) }
{
    match job {
        Ok(j) => match search::how_many(c, a, b, j.window, j.tolerance, j.allowance) {
            Ok(many) => Ok(many),
            Err(why) => Err(R::of_stopped(why)),
        },
        Err(refusal) => Err(refusal.with_visits(0)),
    }
}

// A well-formed job, if its window and its tolerance are allowed.
#[tactic(auto, unfolding(crate::specs::Jobs::accepted_job))]
fn accepted(j: Job) -> Result<Job, Refusal>
    ensures { result ≡ accepted_job (Ok j) }
{
    if !search::is_window(j.window) {
        return Err(Refusal::Window);
    }
    if j.tolerance > search::MOST_TOLERANCE {
        return Err(Refusal::Tolerance);
    }
    Ok(j)
}

// Where the piece of `bytes` bytes that begins at `done` ends, in a text of `length` bytes. The last piece may be shorter.
// The programs cut by `chunks`; this is for who uses the crate.
pub fn piece_end(done: usize, bytes: usize, length: usize) -> usize
    ensures { result ≡ piece_end done bytes length }
{
    done.saturating_add(bytes).min(length)
}

fn gathered(s: &[u8; LOG_BYTES]) -> RawRecord
    ensures { result ≡ raw_in s.now }
{
    RawRecord {
        kind: s[0],
        chain: s[1],
        byte_2: s[2],
        byte_3: s[3],
        line: line_number(s),
        first: number(s, 8),
        second: number(s, 16),
        third: number(s, 24),
    }
}

// The line number: any value, the lowest byte first.
fn line_number(s: &[u8; LOG_BYTES]) -> u32
    ensures { result ≡ field_at 4 s.now 4 }
{
    four(s, 4)
}

#[tactic(auto, unfolding(crate::specs::LogRecords::log_record_of))]
fn by_kind(s: &[u8; LOG_BYTES]) -> Result<LogRecord, Refusal>
    ensures { result ≡ log_record_of s.now }
{
    if is_hyperbolic(s) {
        return Ok(LogRecord::Hyperbolic {
            a: number(s, 8),
            b: number(s, 16),
        });
    }
    if is_grid(s) {
        return Ok(LogRecord::Grid {
            easting: number(s, 8),
            northing: number(s, 16),
        });
    }
    if is_hold(s) {
        return Ok(LogRecord::Hold);
    }
    Err(Refusal::Form)
}

fn is_hyperbolic(s: &[u8; LOG_BYTES]) -> bool
    ensures { result ≡ is_hyperbolic s.now }
{
    s[0] == 1 && are_zero(&s[2..4]) && last_zero(s)
}

fn is_grid(s: &[u8; LOG_BYTES]) -> bool
    ensures { result ≡ is_grid s.now }
{
    s[0] == 2 && unchained(s) && last_zero(s)
}

fn is_hold(s: &[u8; LOG_BYTES]) -> bool
    ensures { result ≡ is_hold s.now }
{
    s[0] == 3 && unchained(s) && eight_zero(s, 8) && eight_zero(s, 16) && last_zero(s)
}

// No chain is named, and bytes 2 and 3 are zero.
fn unchained(s: &[u8; LOG_BYTES]) -> bool
    ensures { result ≡ are_zero 3 s.now 1 }
{
    are_zero(&s[1..4])
}

// Whether the bytes of the third number, which no kind uses, are zero. Those of minus zero are not.
fn last_zero(s: &[u8; LOG_BYTES]) -> bool
    ensures { result ≡ are_zero 8 s.now 24 }
{
    eight_zero(s, 24)
}

// Eight bytes at once, as one number: byte by byte a hold takes a third longer.
fn eight_zero(s: &[u8; LOG_BYTES], at: usize) -> bool
    requires { at + 8 ≤ log_bytes }
    ensures { result ≡ are_zero 8 s.now at }
{
    eight(s, at) == 0
}

fn are_zero(s: &[u8]) -> bool
    ensures { result ≡ all_zero s.now }
{
    s.iter().all(|b| *b == 0)
}

// What two numbers in metres give once they are in centimetres, with their marks.
#[tactic(auto, unfolding(metres::specs::Marks::marked_of))]
fn marked_pair<F: FnOnce(Option<(i64, i64)>) -> Result<LogEntry, Refusal>>(
    x: f64,
    y: f64,
    give: F,
) -> MarkedEntry
    requires { F.IsAlwaysCallable give }
    ensures { (e : _) × F.post give (pair_of (centimetres_of x) (centimetres_of y)) e × (result ≡ marked_as e (mark_of x) (mark_of y)) }
{
    let x = metres::marked(x);
    let y = metres::marked(y);
    with_marks(give(x.whole.zip(y.whole)), x.mark, y.mark)
}

// An entry with these marks; with `Equal` if it is refused.
#[tactic(auto, unfolding(crate::specs::Gathered::marked_as, crate::specs::Marks::is_accepted))]
fn with_marks(entry: Result<LogEntry, Refusal>, first: Mark, second: Mark) -> MarkedEntry
    ensures { result ≡ marked_as entry first second }
{
    match entry {
        Ok(_) => MarkedEntry {
            entry,
            first,
            second,
        },
        Err(_) => MarkedEntry {
            entry,
            first: Mark::Equal,
            second: Mark::Equal,
        },
    }
}

fn readings(both: Option<(i64, i64)>) -> Result<LogEntry, Refusal>
    ensures { result ≡ with_pair two_readings both }
{
    let (a, b) = both.ok_or(Refusal::Number)?;
    Ok(LogEntry::Readings { a, b })
}

#[tactic(auto, using(crate::proofs::GridLaws::easting_fits, crate::proofs::GridLaws::northing_fits), unfolding(crate::specs::LogRecords::placed))]
fn place(both: Option<(i64, i64)>) -> Result<LogEntry, Refusal>
    ensures { result ≡ with_pair placed both }
{
    let (x, y) = both.ok_or(Refusal::Number)?;
    if !is_place(x, y) {
        return Err(Refusal::Place);
    }
    // Both are proved to fit: `try_from` would test again what `is_place` has.
    Ok(LogEntry::Place(Place {
        easting: x as u32,
        northing: y as u32,
    }))
}

// Whether these bytes are 1 to 16 whole chains.
fn is_table(s: &[u8]) -> bool
    ensures { result ≡ is_table s.now }
{
    s.len() % CHAIN_BYTES == 0 && !s.is_empty() && s.len() / CHAIN_BYTES <= MOST_CHAINS
}

// The chain with i others before it.
fn chain_in(s: &[u8], scale: &[u8], i: usize) -> Chain
    requires { (chain_bytes * i + chain_bytes ≤ length s.now) × (factor_bytes * i + factor_bytes ≤ length scale.now) }
    ensures { result ≡ chain_in s.now scale.now i }
{
    chain_at(s, CHAIN_BYTES * i, four(scale, FACTOR_BYTES * i))
}

fn chain_at(s: &[u8], at: usize, factor: u32) -> Chain
    requires { at + chain_bytes ≤ length s.now }
    ensures { result ≡ chain_at s.now at factor }
{
    Chain {
        master: place_at(s, at),
        a: place_at(s, at + 8),
        b: place_at(s, at + 16),
        factor,
    }
}

// Here and below a field is named by its offset, as in `fields`. As an array each piece would be cut out and converted at the call, and
// its fields proved to be those of the whole.
fn place_at(s: &[u8], at: usize) -> Place
    requires { at + 8 ≤ length s.now }
    ensures { result ≡ place_at s.now at }
{
    Place {
        easting: four(s, at),
        northing: four(s, at + 4),
    }
}

fn job_in(s: &[u8; JOB_BYTES]) -> Job
    ensures { result ≡ job_in s.now }
{
    Job {
        window: Window {
            corner: place_at(s, 0),
            k: u32::from(s[8]),
        },
        tolerance: four(s, 12),
        allowance: eight(s, 16),
    }
}

// Whether the bytes of a job that must be zero are zero.
fn job_zeros(s: &[u8; JOB_BYTES]) -> bool
    ensures { result ≡ (are_zero 3 s.now 9 && are_zero 8 s.now 24) }
{
    are_zero(&s[9..12]) && eight_zero(s, 24)
}

#[tactic(auto, using(crate::proofs::ReadLaws::four_inside))]
fn four(s: &[u8], at: usize) -> u32
    requires { at + 4 ≤ length s.now }
    ensures { result ≡ field_at 4 s.now at }
{
    fields::four_at(s, at).unwrap()
}

#[tactic(auto, using(crate::proofs::ReadLaws::eight_inside))]
fn eight(s: &[u8], at: usize) -> u64
    requires { at + 8 ≤ length s.now }
    ensures { result ≡ field_at 8 s.now at }
{
    fields::eight_at(s, at).unwrap()
}

#[tactic(auto, using(crate::proofs::ReadLaws::eight_inside), unfolding(metres::specs::Patterns::number_at))]
fn number(s: &[u8], at: usize) -> f64
    requires { at + 8 ≤ length s.now }
    ensures { result ≡ number_in s.now at }
{
    metres::number_at(s, at).unwrap()
}
