// The library for C and Rust: the functions that lay.h declares. Each but lay_version takes numbers and slices, sets the results
// that are lent to it, and returns the number of the refusal, 0 for none. A struct of lay.h is an array here: its fields lie in
// memory as the array's elements do.
#![tactic(auto)]

ghost use Rattle.std.specs.Prelude.{[], ◌∷◌, ◌≡◌, pos, length, get_or, replicate, ◌+◌, ◌<◌, Ok, Err};
ghost use Rattle.refusals.specs.Numbers.{refusal_number, number_told};
ghost use Rattle.chart.specs.Places.{place_of};
ghost use Rattle.metres.specs.Metres.{centimetres_of, metres_of, whole_figures, length_figures};
ghost use Rattle.metres.specs.Marks.{mark_of};
ghost use Rattle.writing.specs.Writing.{refusal_of, buffer_of};
ghost use Rattle.writing.specs.FactorWriting.{factor_refusal_of, factor_buffer_of};
ghost use Rattle.writing.specs.JobWriting.{job_refusal_of, job_buffer_of};
ghost use Rattle.lay.specs.Figures.{version, mark_figure, job_by, draft_by, chain_by, chain_lent, chain_told, chain_written, factor_after, factor_told, stations_lent, stations_told, expected_lent, expected_told, unsearched, searched_by, searched_in, search_told, found_in, many_figures, asked_in, many_told, numbers_of, entry_figures, marked_figures, record_figures, count_figures, count_told, job_answered, job_told, unasked, carried_in, held_figures, listed_figures, part_of, list_told};

use chart::{Chain, Place};
use listing::{Carried, Listed};
use metres::Mark;
use records::{Job, LogEntry, MarkedEntry};
use refusals::{Refusal, number_told};
use search::{HowMany, SearchFigures, Stopped, Window};
use writing::Draft;

// The figures below stand in for answers at the C interface, which knows no enums: a refusal is its number there, 0 for none.

// How many places readings allow.
#[derive(Clone, Copy)]
struct ManyFigures {
    refusal: u32,
    many: u32,
    place: Place,
    visits: u64,
}

// A log record in centimetres.
#[derive(Clone, Copy)]
struct EntryFigures {
    refusal: u32,
    kind: u32,
    chain: u32,
    line: u32,
    x: i64,
    y: i64,
}

// The same with the marks of x and y.
#[derive(Clone, Copy)]
struct RecordFigures {
    entry: EntryFigures,
    xmark: u32,
    ymark: u32,
}

#[derive(Clone, Copy)]
struct CountFigures {
    refusal: u32,
    count: usize,
}

#[derive(Clone, Copy)]
struct JobFigures {
    refusal: u32,
    job: Job,
}

// The place that a hold would repeat: `held` is 1 if there is one.
#[derive(Clone, Copy)]
struct HeldFigures {
    held: u32,
    place: Place,
    rounded: u32,
}

#[derive(Clone, Copy)]
struct ListedFigures {
    refusal: u32,
    length: usize,
    carried: HeldFigures,
}

// The version of what lay.h declares.
const VERSION: u32 = 3;

// How many numbers the stations of a chain have, and how many readings a chain has.
const CHAIN_NUMBERS: usize = 6;

const CHAIN_READINGS: usize = 2;

// The place in figures that give none.
const NOWHERE: Place = Place {
    easting: 0,
    northing: 0,
};

// 2^32, which splits a number of 64 bits into its two halves.
const HALF: usize = 1 << 32;

// The version of lay.h that this is made for.
pub fn lay_version() -> u32
    ensures { result ≡ version }
{
    VERSION
}

// Metres to whole centimetres, and how they were rounded.
#[tactic(auto, unfolding(metres::specs::Marks::marked_of))]
pub fn lay_centimetres(metres: f64, centimetres: &mut i64, mark: &mut u32) -> u32
    ensures answer { result ≡ (whole_figures (centimetres_of metres)).refusal }
    ensures centimetres { centimetres.new ≡ (whole_figures (centimetres_of metres)).centimetres }
    ensures mark { mark.new ≡ mark_figure (mark_of metres) }
{
    let m = metres::marked(metres);
    let whole = m.whole;
    let rounded = m.mark;
    let f = metres::whole_figures(whole);
    let z = f.centimetres;
    *centimetres = z;
    *mark = mark_figure(rounded);
    f.refusal
}

// Whole centimetres to metres.
pub fn lay_metres(centimetres: i64, metres: &mut f64) -> u32
    ensures answer { result ≡ (length_figures (metres_of centimetres)).refusal }
    ensures metres { metres.new ≡ (length_figures (metres_of centimetres)).metres }
{
    let f = metres::length_figures(metres::metres(centimetres));
    *metres = f.metres;
    f.refusal
}

// The readings expected at a place, for the chain in the bytes with its factor.
pub fn lay_expected(readings: &mut [i64], chain: &[u8], factor: u32, e: u32, n: u32) -> u32
    ensures answer { result ≡ (expected_told (length readings.old) chain.now factor e n).refusal }
    ensures readings { readings.new ≡ (expected_told (length readings.old) chain.now factor e n).holds }
{
    let place = Place {
        easting: e,
        northing: n,
    };
    let answer = expected(readings, records::raw_chain(chain, factor), place);
    number_told(&answer)
}

// Every cell of a job's window that matches the readings, in chart order. Chain and job are given as bytes, the chain with its factor.
pub fn lay_search(
    list: &mut [u32],
    chain: &[u8],
    factor: u32,
    readings: &[i64],
    job: &[u8],
    found: &mut [u64; 2],
) -> u32
    ensures answer { result ≡ (search_told chain.now factor readings.now job.now (length list.old)).figures.refusal }
    ensures list { list.new ≡ (search_told chain.now factor readings.now job.now (length list.old)).list }
    ensures found { found.new ≡ found_in (search_told chain.now factor readings.now job.now (length list.old)).figures }
{
    let f = searched(
        list,
        records::raw_chain(chain, factor),
        readings,
        records::formed_job(job),
    );
    *found = [f.count as u64, f.visits];
    f.refusal
}

// Whether no cell of a job's window matches the readings, one, or several. Chain and job are given as bytes, the chain with its factor.
pub fn lay_how_many(
    chain: &[u8],
    factor: u32,
    readings: &[i64],
    job: &[u8],
    answer: &mut u32,
    place: &mut [u32; 2],
    visits: &mut u64,
) -> u32
    ensures refusal { result ≡ (many_told chain.now factor readings.now job.now).refusal }
    ensures answer { answer.new ≡ (many_told chain.now factor readings.now job.now).many }
    ensures place { place.new ≡ numbers_of (many_told chain.now factor readings.now job.now).place }
    ensures visits { visits.new ≡ (many_told chain.now factor readings.now job.now).visits }
{
    let f = many_figures(asked(
        records::raw_chain(chain, factor),
        readings,
        records::formed_job(job),
    ));
    *answer = f.many;
    *place = [f.place.easting, f.place.northing];
    *visits = f.visits;
    f.refusal
}

// Reads a log record, in whole centimetres.
pub fn lay_read_record(
    bytes: &[u8],
    kind: &mut u32,
    chain: &mut u32,
    line: &mut u32,
    x: &mut i64,
    y: &mut i64,
    xmark: &mut u32,
    ymark: &mut u32,
) -> u32
    ensures answer { result ≡ (record_figures bytes.now).entry.refusal }
    ensures kind { kind.new ≡ (record_figures bytes.now).entry.kind }
    ensures chain { chain.new ≡ (record_figures bytes.now).entry.chain }
    ensures line { line.new ≡ (record_figures bytes.now).entry.line }
    ensures x { x.new ≡ (record_figures bytes.now).entry.x }
    ensures y { y.new ≡ (record_figures bytes.now).entry.y }
    ensures xmark { xmark.new ≡ (record_figures bytes.now).xmark }
    ensures ymark { ymark.new ≡ (record_figures bytes.now).ymark }
{
    let r = record_figures(bytes);
    *xmark = r.xmark;
    *ymark = r.ymark;
    let f = r.entry;
    *kind = f.kind;
    *chain = f.chain;
    *line = f.line;
    let first = f.x;
    let second = f.y;
    *x = first;
    *y = second;
    f.refusal
}

// Writes a log record into a buffer.
pub fn lay_write_record(
    buffer: &mut [u8],
    kind: u32,
    chain: u32,
    line: u32,
    first: i64,
    second: i64,
) -> u32
    ensures answer { result ≡ number_told (refusal_of (length buffer.old) (draft_by kind chain line first second)) }
    ensures buffer { buffer.new ≡ buffer_of (length buffer.old) (draft_by kind chain line first second) }
{
    let draft = Draft {
        kind,
        chain,
        line,
        x: first,
        y: second,
    };
    let answer = writing::write(buffer, draft);
    number_told(&answer)
}

// Reads the job in 32 bytes.
pub fn lay_read_job(
    bytes: &[u8],
    e: &mut u32,
    n: &mut u32,
    k: &mut u32,
    tolerance: &mut u32,
    allowance: &mut u64,
) -> u32
    ensures answer { result ≡ (job_told bytes.now).refusal }
    ensures e { e.new ≡ (job_told bytes.now).job.window.corner.easting }
    ensures n { n.new ≡ (job_told bytes.now).job.window.corner.northing }
    ensures k { k.new ≡ (job_told bytes.now).job.window.k }
    ensures tolerance { tolerance.new ≡ (job_told bytes.now).job.tolerance }
    ensures allowance { allowance.new ≡ (job_told bytes.now).job.allowance }
{
    let f = job_figures(records::job_of(bytes));
    *e = f.job.window.corner.easting;
    *n = f.job.window.corner.northing;
    *k = f.job.window.k;
    *tolerance = f.job.tolerance;
    *allowance = f.job.allowance;
    f.refusal
}

// Writes a job into a buffer.
pub fn lay_write_job(buffer: &mut [u8], ce: u32, cn: u32, k: u32, t: u32, allowance: u64) -> u32
    ensures answer { result ≡ number_told (job_refusal_of (length buffer.old) (job_by ce cn k t allowance)) }
    ensures buffer { buffer.new ≡ job_buffer_of (length buffer.old) (job_by ce cn k t allowance) }
{
    let window = Window {
        corner: Place {
            easting: ce,
            northing: cn,
        },
        k,
    };
    let job = Job {
        window,
        tolerance: t,
        allowance,
    };
    let answer = writing::write_job(buffer, job);
    number_told(&answer)
}

// How many chains a table has.
pub fn lay_count_chains(table: &[u8], count: &mut usize) -> u32
    ensures answer { result ≡ (count_told table.now).refusal }
    ensures count { count.new ≡ (count_told table.now).count }
{
    let f = count_figures(records::chain_count(table));
    *count = f.count;
    f.refusal
}

// The bytes and the factor of the chain with a given number in a table and its side file.
pub fn lay_chain(
    buffer: &mut [u8],
    table: &[u8],
    scale: &[u8],
    number: u32,
    factor: &mut u32,
) -> u32
    ensures answer { result ≡ (chain_told (length buffer.old) table.now scale.now number).refusal }
    ensures buffer { buffer.new ≡ (chain_told (length buffer.old) table.now scale.now number).holds }
    ensures factor { factor.new ≡ factor_told (length buffer.old) table.now scale.now number }
{
    let chain = records::chain_of(table, scale, number);
    let put = put_chain(buffer, chain);
    *factor = factor_after(put, chain);
    number_told(&put)
}

// The stations of a chain from its bytes and its factor, easting and northing in turn.
pub fn lay_read_chain(chain: &[u8], factor: u32, stations: &mut [u32]) -> u32
    ensures answer { result ≡ (stations_told (length stations.old) chain.now factor).refusal }
    ensures stations { stations.new ≡ (stations_told (length stations.old) chain.now factor).holds }
{
    let answer = read_chain(stations, records::raw_chain(chain, factor));
    number_told(&answer)
}

// Writes a chain into a buffer, from the numbers of its stations and its factor.
pub fn lay_write_chain(buffer: &mut [u8], stations: &[u32], factor: u32) -> u32
    ensures answer { result ≡ (chain_written (length buffer.old) stations.now factor).refusal }
    ensures buffer { buffer.new ≡ (chain_written (length buffer.old) stations.now factor).holds }
{
    let answer = put_chain(buffer, chain_by(stations, factor));
    number_told(&answer)
}

// Writes a factor into a buffer.
pub fn lay_write_factor(buffer: &mut [u8], factor: u32) -> u32
    ensures answer { result ≡ number_told (factor_refusal_of (length buffer.old) factor) }
    ensures buffer { buffer.new ≡ factor_buffer_of (length buffer.old) factor }
{
    let answer = writing::write_factor(buffer, factor);
    number_told(&answer)
}

// Puts the listing of a log, or of a further part of one, into a buffer as text. On entry `part` has the place carried to it; on
// return, the length of the text and the place carried on.
pub fn lay_list(
    text: &mut [u8],
    job: &[u8],
    table: &[u8],
    scale: &[u8],
    log: &[u8],
    part: &mut [u32; 6],
) -> u32
    ensures answer { result ≡ (list_told text.old job.now table.now scale.now log.now part.old).figures.refusal }
    ensures text { text.new ≡ (list_told text.old job.now table.now scale.now log.now part.old).text }
    ensures part { part.new ≡ part_of (list_told text.old job.now table.now scale.now log.now part.old).figures }
{
    let place = Place {
        easting: part[3],
        northing: part[4],
    };
    let before = carried_in(part[2], place, part[5]);
    let f = listed_figures(listing::list(text, job, table, scale, log, before));
    let low = (f.length % HALF) as u32;
    let high = (f.length / HALF) as u32;
    let to = f.carried;
    *part = [
        low,
        high,
        to.held,
        to.place.easting,
        to.place.northing,
        to.rounded,
    ];
    f.refusal
}

#[tactic(auto, unfolding(crate::specs::Figures::expected_lent))]
fn expected(
    readings: &mut [i64],
    chain: Result<Chain, Refusal>,
    place: Place,
) -> Result<(), Refusal>
    ensures answer { number_told result ≡ (expected_lent (length readings.old) chain place).refusal }
    ensures readings { readings.new ≡ (expected_lent (length readings.old) chain place).holds }
{
    clear_readings(readings);
    let c = chain?;
    put_expected(readings, c, place)
}

fn clear_readings(readings: &mut [i64])
    ensures { readings.new ≡ replicate (length readings.old) (pos 0) }
{
    readings.fill(0);
}

// Puts the readings expected for a chain into a list of zeros.
#[tactic(auto, unfolding(crate::specs::Figures::expected_lent, chart::specs::Readings::figures_of, chart::specs::Readings::said_by))]
fn put_expected(readings: &mut [i64], c: Chain, place: Place) -> Result<(), Refusal>
    requires { readings.old ≡ replicate (length readings.old) (pos 0) }
    ensures answer { number_told result ≡ (expected_lent (length readings.old) (Ok c) place).refusal }
    ensures readings { readings.new ≡ (expected_lent (length readings.old) (Ok c) place).holds }
{
    if readings.len() != CHAIN_READINGS {
        return Err(Refusal::Length);
    }
    let f = chart::readings(c, place)?;
    let a = f.a;
    let b = f.b;
    readings.copy_from_slice(&[a, b]);
    Ok(())
}

#[tactic(auto, unfolding(crate::specs::Figures::searched_in))]
fn searched(
    list: &mut [u32],
    chain: Result<Chain, Refusal>,
    readings: &[i64],
    job: Result<Job, Refusal>,
) -> SearchFigures
    ensures answer { result ≡ (searched_in chain readings.now job (length list.old)).figures }
    ensures list { list.new ≡ (searched_in chain readings.now job (length list.old)).list }
{
    match chain {
        Ok(c) => searched_for(list, c, readings, job),
        Err(refusal) => not_searched(list, refusal),
    }
}

#[tactic(auto, using(crate::proofs::Lists::two_read), unfolding(crate::specs::Figures::searched_in))]
fn searched_for(
    list: &mut [u32],
    c: Chain,
    readings: &[i64],
    job: Result<Job, Refusal>,
) -> SearchFigures
    ensures answer { result ≡ (searched_in (Ok c) readings.now job (length list.old)).figures }
    ensures list { list.new ≡ (searched_in (Ok c) readings.now job (length list.old)).list }
{
    if readings.len() != CHAIN_READINGS {
        return not_searched(list, Refusal::Length);
    }
    let a = readings[0];
    let b = readings[1];
    searched_by(list, c, a, b, job)
}

#[tactic(auto, unfolding(crate::specs::Figures::searched_by))]
fn searched_by(
    list: &mut [u32],
    c: Chain,
    a: i64,
    b: i64,
    job: Result<Job, Refusal>,
) -> SearchFigures
    ensures answer { result ≡ (searched_by c (a ∷ b ∷ []) job (length list.old)).figures }
    ensures list { list.new ≡ (searched_by c (a ∷ b ∷ []) job (length list.old)).list }
{
    match job {
        Ok(j) => search::as_figures(search::search(
            list,
            c,
            a,
            b,
            j.window,
            j.tolerance,
            j.allowance,
        )),
        Err(refusal) => not_searched(list, refusal),
    }
}

fn not_searched(list: &mut [u32], refusal: Refusal) -> SearchFigures
    ensures answer { result ≡ (unsearched refusal (length list.old)).figures }
    ensures list { list.new ≡ (unsearched refusal (length list.old)).list }
{
    list.fill(0);
    SearchFigures {
        refusal: refusal.number(),
        count: 0,
        visits: 0,
    }
}

#[tactic(auto, unfolding(crate::specs::Figures::asked_in))]
fn asked(
    chain: Result<Chain, Refusal>,
    readings: &[i64],
    job: Result<Job, Refusal>,
) -> Result<HowMany, Stopped>
    ensures { result ≡ asked_in chain readings.now job }
{
    let c = chain.map_err(not_asked)?;
    asked_for(c, readings, job)
}

#[tactic(auto, using(crate::proofs::Lists::two_read, records::proofs::JobLaws::many_refused), unfolding(crate::specs::Figures::asked_in))]
fn asked_for(c: Chain, readings: &[i64], job: Result<Job, Refusal>) -> Result<HowMany, Stopped>
    ensures { result ≡ asked_in (Ok c) readings.now job }
{
    if readings.len() != CHAIN_READINGS {
        return Err(not_asked(Refusal::Length));
    }
    let a = readings[0];
    let b = readings[1];
    records::many_by(job, c, a, b)
}

fn not_asked(refusal: Refusal) -> Stopped
    ensures { result ≡ unasked refusal }
{
    Stopped { refusal, visits: 0 }
}

#[tactic(auto, unfolding(crate::specs::Figures::many_figures))]
fn many_figures(m: Result<HowMany, Stopped>) -> ManyFigures
    ensures { result ≡ many_figures m }
{
    let (refusal, many, place, visits) = match m {
        Ok(HowMany::None { visits }) => (0, 1, NOWHERE, visits),
        Ok(HowMany::One { place, visits }) => (0, 2, place, visits),
        Ok(HowMany::Several { visits }) => (0, 3, NOWHERE, visits),
        Err(stopped) => (stopped.refusal.number(), 0, NOWHERE, stopped.visits),
    };
    ManyFigures {
        refusal,
        many,
        place,
        visits,
    }
}

#[tactic(auto, unfolding(crate::specs::Figures::chain_lent))]
fn put_chain(buffer: &mut [u8], a: Result<Chain, Refusal>) -> Result<(), Refusal>
    ensures answer { number_told result ≡ (chain_lent (length buffer.old) a).refusal }
    ensures buffer { buffer.new ≡ (chain_lent (length buffer.old) a).holds }
{
    match a {
        Ok(c) => writing::write_chain(buffer, c),
        Err(refusal) => no_chain(buffer, refusal),
    }
}

// The factor of a chain whose bytes were put, 0 after a refusal.
#[tactic(auto, unfolding(crate::specs::Figures::factor_after))]
fn factor_after(put: Result<(), Refusal>, chain: Result<Chain, Refusal>) -> u32
    ensures { result ≡ factor_after (number_told put) chain }
{
    match put.and(chain) {
        Ok(c) => c.factor,
        Err(_) => 0,
    }
}

fn no_chain(buffer: &mut [u8], refusal: Refusal) -> Result<(), Refusal>
    ensures answer { result ≡ Err refusal }
    ensures buffer { buffer.new ≡ replicate (length buffer.old) 0 }
{
    buffer.fill(0);
    Err(refusal)
}

// The chain with these numbers of its stations and this factor; refused if there are not six numbers.
#[tactic(auto, unfolding(crate::specs::Figures::chain_by))]
fn chain_by(stations: &[u32], factor: u32) -> Result<Chain, Refusal>
    ensures { result ≡ chain_by stations.now factor }
{
    if stations.len() != CHAIN_NUMBERS {
        return Err(Refusal::Length);
    }
    Ok(Chain {
        master: place_by(stations, 0),
        a: place_by(stations, 2),
        b: place_by(stations, 4),
        factor,
    })
}

fn place_by(stations: &[u32], at: usize) -> Place
    requires { at + 1 < length stations.now }
    ensures { result ≡ place_of (get_or stations.now at 0) (get_or stations.now (at + 1) 0) }
{
    Place {
        easting: stations[at],
        northing: stations[at + 1],
    }
}

#[tactic(auto, unfolding(crate::specs::Figures::stations_lent))]
fn read_chain(stations: &mut [u32], a: Result<Chain, Refusal>) -> Result<(), Refusal>
    ensures answer { number_told result ≡ (stations_lent (length stations.old) a).refusal }
    ensures stations { stations.new ≡ (stations_lent (length stations.old) a).holds }
{
    stations.fill(0);
    let c = a?;
    put_stations(stations, c)
}

// Puts the numbers of a chain's stations into a list of zeros.
#[tactic(auto, unfolding(crate::specs::Figures::stations_lent, search::specs::Answers::entries_of))]
fn put_stations(stations: &mut [u32], c: Chain) -> Result<(), Refusal>
    requires { stations.old ≡ replicate (length stations.old) 0 }
    ensures answer { number_told result ≡ (stations_lent (length stations.old) (Ok c)).refusal }
    ensures stations { stations.new ≡ (stations_lent (length stations.old) (Ok c)).holds }
{
    if stations.len() != CHAIN_NUMBERS {
        return Err(Refusal::Length);
    }
    if !chart::sound(c) {
        return Err(Refusal::Chain);
    }
    stations.copy_from_slice(&[
        c.master.easting,
        c.master.northing,
        c.a.easting,
        c.a.northing,
        c.b.easting,
        c.b.northing,
    ]);
    Ok(())
}

#[tactic(auto, unfolding(crate::specs::Figures::record_by))]
fn record_figures(bytes: &[u8]) -> RecordFigures
    ensures { result ≡ record_figures bytes.now }
{
    match records::raw_record(bytes) {
        Ok(raw) => marked_figures(raw.line, u32::from(raw.chain), records::marked_entry(bytes)),
        Err(refusal) => RecordFigures {
            entry: entry_figures(0, 0, Err(refusal)),
            xmark: 0,
            ymark: 0,
        },
    }
}

#[tactic(auto, unfolding(crate::specs::Figures::marked_figures))]
fn marked_figures(line: u32, chain: u32, m: MarkedEntry) -> RecordFigures
    ensures { result ≡ marked_figures line chain m }
{
    let e = m.entry;
    let first = m.first;
    let second = m.second;
    RecordFigures {
        entry: entry_figures(line, chain, e),
        xmark: mark_figure(first),
        ymark: mark_figure(second),
    }
}

#[tactic(auto, unfolding(crate::specs::Figures::mark_figure))]
fn mark_figure(mark: Mark) -> u32
    ensures { result ≡ mark_figure mark }
{
    match mark {
        Mark::Equal => 0,
        Mark::Below => 1,
        Mark::Above => 2,
    }
}

#[tactic(auto, unfolding(crate::specs::Figures::entry_figures))]
fn entry_figures(line: u32, chain: u32, e: Result<LogEntry, Refusal>) -> EntryFigures
    ensures { result ≡ entry_figures line chain e }
{
    let (refusal, kind, chain, line, x, y) = match e {
        Ok(LogEntry::Readings { a, b }) => (0, 1, chain, line, a, b),
        Ok(LogEntry::Place(p)) => (0, 2, 0, line, i64::from(p.easting), i64::from(p.northing)),
        Ok(LogEntry::Hold) => (0, 3, 0, line, 0, 0),
        Err(refusal) => (refusal.number(), 0, 0, line, 0, 0),
    };
    EntryFigures {
        refusal,
        kind,
        chain,
        line,
        x,
        y,
    }
}

#[tactic(auto, unfolding(crate::specs::Figures::count_figures))]
fn count_figures(chains: Result<usize, Refusal>) -> CountFigures
    ensures { result ≡ count_figures chains }
{
    CountFigures {
        refusal: number_told(&chains),
        count: chains.unwrap_or(0),
    }
}

#[tactic(auto, unfolding(crate::specs::Figures::job_answered))]
fn job_figures(job: Result<Job, Refusal>) -> JobFigures
    ensures { result ≡ job_answered job }
{
    let none = Job {
        window: Window {
            corner: NOWHERE,
            k: 0,
        },
        tolerance: 0,
        allowance: 0,
    };
    JobFigures {
        refusal: number_told(&job),
        job: job.unwrap_or(none),
    }
}

#[tactic(auto, unfolding(crate::specs::Figures::carried_in))]
fn carried_in(held: u32, place: Place, rounded: u32) -> Option<Carried>
    ensures { result ≡ carried_in held place.easting place.northing rounded }
{
    if held == 0 {
        return None;
    }
    Some(Carried {
        place,
        rounded: rounded != 0,
    })
}

#[tactic(auto, unfolding(crate::specs::Figures::held_figures))]
fn held_figures(carried: Option<Carried>) -> HeldFigures
    ensures { result ≡ held_figures carried }
{
    match carried {
        Some(c) => HeldFigures {
            held: 1,
            place: c.place,
            rounded: u32::from(c.rounded),
        },
        None => HeldFigures {
            held: 0,
            place: NOWHERE,
            rounded: 0,
        },
    }
}

#[tactic(auto, unfolding(crate::specs::Figures::listed_figures))]
fn listed_figures(l: Result<Listed, Refusal>) -> ListedFigures
    ensures { result ≡ listed_figures l }
{
    match l {
        Ok(listed) => ListedFigures {
            refusal: 0,
            length: listed.length,
            carried: held_figures(listed.carried),
        },
        Err(refusal) => ListedFigures {
            refusal: refusal.number(),
            length: 0,
            carried: held_figures(None),
        },
    }
}
