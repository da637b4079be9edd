// The listing of a log as text: what each record answers, its line, and the lines of a whole log or of parts of it.
#![tactic(auto)]

ghost use Rattle.std.specs.Prelude.{◌≡◌, ◌∷◌, [], ◌+◌, ◌*◌, ◌/◌, ◌≤◌, ◌<◌, length, take, Ok, IfOk};
ghost use Rattle.records.specs.Bytes.{byte_at};
ghost use Rattle.records.specs.LogRecords.{log_bytes};
ghost use Rattle.records.specs.Marks.{any_rounded};
ghost use Rattle.records.specs.ChainTables.{chain_count_of};
ghost use Rattle.text.specs.Texts.{spaced, figures_text};
ghost use Rattle.text.specs.Puts.{Put};
ghost use Rattle.listing.specs.Answers.{RecordAnswer, fix_by, hold_of, carried_by, program_room};
ghost use Rattle.listing.specs.Listings.{head_of, line_of, notice_of, longest_line, list_left};
ghost use Rattle.listing.specs.Putting.{answer_in, lines_in, listing_in, Gives, Tells, told_found, list_entries, word_text, stopped_text, last_text};

use chart::{Chain, Place};
use metres::Mark;
use records::{Job, LOG_BYTES, LogEntry};
use refusals::Refusal;
use search::{Found, Stopped, Unfound};

// The place that a record hands on to the next one, for a hold, and whether a number of the record was rounded.
#[derive(Clone, Copy)]
pub struct Carried {
    pub place: Place,
    pub rounded: bool,
}

// A listing in a buffer: how many bytes of text there are, and the place carried on from its last record, if it hands on one.
#[derive(Clone, Copy)]
pub struct Listed {
    pub length: usize,
    pub carried: Option<Carried>,
}

// What the records of a log are answered from, the same for all of them.
#[derive(Clone, Copy)]
struct Sources<'a> {
    job: Job,
    table: &'a [u8],
    scale: &'a [u8],
}

#[derive(Clone, Copy)]
enum Word {
    Fix,
    Grid,
    Hold,
}

// What a record answers that is not refused, without its places, which are in a list.
#[derive(Clone, Copy)]
struct Told {
    word: Word,
    count: usize,
    visits: u64,
    rounded: bool,
}

// Where the text of the lines so far ends, and the place carried on to the next record.
#[derive(Clone, Copy)]
struct LinesSoFar {
    end: usize,
    carried: Option<Carried>,
}

// No record's line has more bytes than this.
pub const LONGEST_LINE: usize = 5_760;

// Puts the listing of a log, or of a further part of a log, at the start of a buffer; `before` is the place carried to it. The
// buffer must have room for the longest line, 5,760 bytes, for each whole record of the log and for one more; else it is refused.
pub fn list(
    out: &mut [u8],
    job: &[u8],
    table: &[u8],
    scale: &[u8],
    log: &[u8],
    before: Option<Carried>,
) -> Result<Listed, Refusal>
    ensures answer { result ≡ (list_left out.old job.now table.now scale.now log.now before).answer }
    ensures out { out.new ≡ (list_left out.old job.now table.now scale.now log.now before).buffer }
{
    if out.len() / LONGEST_LINE <= log.len() / LOG_BYTES {
        return Err(Refusal::NoRoom);
    }
    match records::job_of(job) {
        Ok(j) => {
            let sources = Sources {
                job: j,
                table,
                scale,
            };
            Ok(by_job(out, &sources, log, before))
        }
        Err(refusal) => Ok(notice(out, b"JOB", refusal)),
    }
}

fn by_job(out: &mut [u8], sources: &Sources<'_>, log: &[u8], before: Option<Carried>) -> Listed
    requires { length log.now / log_bytes < length out.old / longest_line }
    ensures { Gives out.old (listing_in (chain_count_of sources.now.table.now) sources.now before log.now) out.new result }
{
    match records::chain_count(sources.table) {
        Ok(chains) => by_scale(out, chains, sources, log, before),
        Err(refusal) => notice(out, b"CHAIN", refusal),
    }
}

fn by_scale(
    out: &mut [u8],
    chains: usize,
    sources: &Sources<'_>,
    log: &[u8],
    before: Option<Carried>,
) -> Listed
    requires { length log.now / log_bytes < length out.old / longest_line }
    ensures { Gives out.old (listing_in (Ok chains) sources.now before log.now) out.new result }
{
    if !records::is_scale(chains, sources.scale) {
        return notice(out, b"SCALE", Refusal::Length);
    }
    lines(out, sources, log, before)
}

// Puts the only line that is printed if the job, the table or its side file is refused.
fn notice(out: &mut [u8], word: &[u8], refusal: Refusal) -> Listed
    requires { (length word.now ≤ 5) × (longest_line ≤ length out.old) }
    ensures { Gives out.old (notice_of word.now refusal) out.new result }
{
    let a = text::put(out, 0, word);
    let b = text::put(out, a, b" REFUSED");
    let c = put_figure(out, b, u64::from(refusal.number()));
    let length = text::put(out, c, b"\n");
    Listed {
        length,
        carried: None,
    }
}

// The program's list has room for 256 places, two entries each.
fn lines(out: &mut [u8], sources: &Sources<'_>, log: &[u8], before: Option<Carried>) -> Listed
    requires { length log.now / log_bytes < length out.old / longest_line }
    ensures { Gives out.old (lines_in sources.now before log.now) out.new result }
{
    let mut list = [0u32; 512];
    each_line(out, &mut list, sources, log, before)
}

fn each_line(
    out: &mut [u8],
    list: &mut [u32],
    sources: &Sources<'_>,
    log: &[u8],
    before: Option<Carried>,
) -> Listed
    requires { (length list.old ≡ list_entries) × (length log.now / log_bytes < length out.old / longest_line) }
    ensures { Gives out.old (lines_in sources.now before log.now) out.new result }
{
    let mut carried = before;
    let mut length = 0;
    for record in log.chunks(LOG_BYTES) {
        let r = one(out, length, list, sources, record, carried);
        length = r.end;
        carried = r.carried;
    }
    Listed { length, carried }
}

// Puts the line of one record, and returns the place that it carries on.
fn one(
    out: &mut [u8],
    at: usize,
    list: &mut [u32],
    sources: &Sources<'_>,
    s: &[u8],
    before: Option<Carried>,
) -> LinesSoFar
    requires { (length list.old ≡ list_entries) × (at + longest_line ≤ length out.old) }
    ensures line { Put out.old at (line_of s.now (answer_in sources.now before s.now)) out.new result.end }
    ensures end { result.end ≤ at + longest_line }
    ensures carried { result.carried ≡ carried_by (answer_in sources.now before s.now) }
{
    let t = answer(list, sources, s, before);
    let end = put_line(out, at, list, s, t);
    let carried = carry(list, t);
    LinesSoFar { end, carried }
}

// What a record answers. Its places go to the list.
fn answer(
    list: &mut [u32],
    sources: &Sources<'_>,
    s: &[u8],
    before: Option<Carried>,
) -> Result<Told, Stopped>
    requires { length list.old ≡ list_entries }
    ensures { Tells (answer_in sources.now before s.now) result list.new }
{
    let m = records::marked_entry(s);
    let first = m.first;
    let second = m.second;
    let rounded = any_rounded(first, second);
    let entry = m.entry;
    match entry {
        Ok(LogEntry::Readings { a, b }) => {
            let chain = records::chain_of(sources.table, sources.scale, chain_byte(s));
            fix(list, sources.job, chain, a, b, rounded)
        }
        Ok(LogEntry::Place(p)) => Ok(single(list, Word::Grid, p, rounded)),
        Ok(LogEntry::Hold) => hold(list, before),
        Err(refusal) => Err(unvisited(refusal)),
    }
}

// Whether one of two numbers was rounded.
#[tactic(auto, unfolding(records::specs::Marks::any_rounded))]
fn any_rounded(first: Mark, second: Mark) -> bool
    ensures { result ≡ any_rounded (first ∷ second ∷ []) }
{
    metres::is_rounded(first) || metres::is_rounded(second)
}

fn chain_byte(s: &[u8]) -> u32
    ensures { result ≡ byte_at s.now 1 }
{
    s.get(1).copied().unwrap_or(0) as u32
}

// A refusal before any search.
fn unvisited(refusal: Refusal) -> Stopped
    ensures { result ≡ record { refusal = refusal; visits = 0 } }
{
    Stopped { refusal, visits: 0 }
}

fn fix(
    list: &mut [u32],
    job: Job,
    chain: Result<Chain, Refusal>,
    a: i64,
    b: i64,
    rounded: bool,
) -> Result<Told, Stopped>
    requires { length list.old ≡ list_entries }
    ensures { Tells (fix_by job (a ∷ b ∷ []) rounded chain) result list.new }
{
    match chain {
        Ok(c) => {
            let answer = search::search(list, c, a, b, job.window, job.tolerance, job.allowance);
            found(answer, rounded)
        }
        Err(refusal) => Err(unvisited(refusal)),
    }
}

// What a record answers from its search, whose places are in a list.
#[tactic(auto, unfolding(crate::specs::Putting::told_found))]
fn found(answer: Result<Found, Unfound>, rounded: bool) -> Result<Told, Stopped>
    ensures { result ≡ told_found rounded answer }
{
    let f = answer?;
    Ok(Told {
        word: Word::Fix,
        count: f.count,
        visits: f.visits,
        rounded,
    })
}

// A hold repeats the place carried to it, and how its line ends.
fn hold(list: &mut [u32], before: Option<Carried>) -> Result<Told, Stopped>
    requires { length list.old ≡ list_entries }
    ensures { Tells (hold_of before) result list.new }
{
    match before {
        Some(Carried { place, rounded }) => Ok(single(list, Word::Hold, place, rounded)),
        None => Err(unvisited(Refusal::Hold)),
    }
}

// An answer with one place, which goes to the list.
fn single(list: &mut [u32], word: Word, p: Place, rounded: bool) -> Told
    requires { length list.old ≡ list_entries }
    ensures told { result ≡ record { word = word; count = 1; visits = 0; rounded = rounded } }
    ensures list { take 2 list.new ≡ p.easting ∷ p.northing ∷ [] }
{
    list[0] = p.easting;
    list[1] = p.northing;
    Told {
        word,
        count: 1,
        visits: 0,
        rounded,
    }
}

// The place carried on: the only place of the answer, or nothing if it has none or several.
fn carry(list: &[u32], t: Result<Told, Stopped>) -> Option<Carried>
    requires { length list.now ≡ list_entries }
    ensures { (a : RecordAnswer) → Tells a t list.now → result ≡ carried_by a }
{
    let Ok(told) = t else {
        return None;
    };
    if told.count != 1 {
        return None;
    }
    let place = Place {
        easting: list[0],
        northing: list[1],
    };
    Some(Carried {
        place,
        rounded: told.rounded,
    })
}

fn put_line(out: &mut [u8], at: usize, list: &[u32], s: &[u8], t: Result<Told, Stopped>) -> usize
    requires { (length list.now ≡ list_entries) × (IfOk t (λ x. x.count ≤ program_room) × (at + longest_line ≤ length out.old)) }
    ensures text { (a : RecordAnswer) → Tells a t list.now → Put out.old at (line_of s.now a) out.new result }
    ensures end { result ≤ at + longest_line }
{
    let a = put_head(out, at, s);
    let end = match t {
        Ok(t) => {
            let b = put_word(out, a, t.word);
            let c = put_figure(out, b, t.count as u64);
            let d = put_figure(out, c, t.visits);
            put_entries(out, d, &list[..2 * t.count])
        }
        Err(stopped) => put_refused(out, a, stopped),
    };
    let f = put_last(out, end, t);
    text::put(out, f, b"\n")
}

// Puts the line number, or a dash if the record does not have 32 bytes.
fn put_head(out: &mut [u8], at: usize, s: &[u8]) -> usize
    requires { at + 10 ≤ length out.old }
    ensures text { Put out.old at (head_of s.now) out.new result }
    ensures end { result ≤ at + 10 }
{
    match records::raw_record(s) {
        Ok(r) => text::put_number(out, at, u64::from(r.line)),
        Err(_) => text::put(out, at, b"-"),
    }
}

fn put_word(out: &mut [u8], at: usize, w: Word) -> usize
    requires { at + 8 ≤ length out.old }
    ensures text { Put out.old at (word_text w) out.new result }
    ensures end { result ≤ at + 8 }
{
    match w {
        Word::Fix => text::put(out, at, b" FIX"),
        Word::Grid => text::put(out, at, b" GRID"),
        Word::Hold => text::put(out, at, b" HOLD"),
    }
}

// Puts what is printed of a refused record after the head of its line.
fn put_refused(out: &mut [u8], at: usize, stopped: Stopped) -> usize
    requires { at + 50 ≤ length out.old }
    ensures text { Put out.old at (stopped_text stopped) out.new result }
    ensures end { result ≤ at + 50 }
{
    let a = text::put(out, at, b" REFUSED");
    let b = put_figure(out, a, u64::from(stopped.refusal.number()));
    put_figure(out, b, stopped.visits)
}

// Puts whether a number was rounded, unless the record is refused.
fn put_last(out: &mut [u8], at: usize, t: Result<Told, Stopped>) -> usize
    requires { at + 2 ≤ length out.old }
    ensures text { Put out.old at (last_text t) out.new result }
    ensures end { result ≤ at + 2 }
{
    let Ok(t) = t else {
        return at;
    };
    text::put_flag(out, at, t.rounded)
}

// Puts the entries of a list.
fn put_entries(out: &mut [u8], at: usize, list: &[u32]) -> usize
    requires { at + 11 * length list.now + 10 ≤ length out.old }
    ensures text { Put out.old at (figures_text list.now) out.new result }
    ensures end { result ≤ at + 11 * length list.now }
{
    let mut end = at;
    for entry in list {
        end = put_figure(out, end, u64::from(*entry));
    }
    end
}

// Puts a space, then a number.
fn put_figure(out: &mut [u8], at: usize, n: u64) -> usize
    requires { at + 21 ≤ length out.old }
    ensures text { Put out.old at (spaced n) out.new result }
    ensures end { result ≤ at + 21 }
{
    let a = text::put(out, at, b" ");
    text::put_number(out, a, n)
}
