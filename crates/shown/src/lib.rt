// Puts into text what the files hold, one line for each record, the readings expected at a place, and whether readings allow one
// place. The buffer and where its text ends are two parameters, as in `text`, whose promises are about them.
#![tactic(auto)]

ghost use Rattle.std.specs.Prelude.{◌≡◌, ◌++◌, ◌∷◌, [], ◌+◌, ◌*◌, ◌≤◌, length, Ok};
ghost use Rattle.refusals.specs.Numbers.{number_told};
ghost use Rattle.chart.specs.Readings.{said_by};
ghost use Rattle.records.specs.LogRecords.{log_entry_of};
ghost use Rattle.records.specs.Jobs.{job_of};
ghost use Rattle.writing.specs.Writing.{metres_bytes};
ghost use Rattle.text.specs.Texts.{figures_text, hex_of, bytes_in};
ghost use Rattle.shown.specs.Fields.{centimetres_text, decimal_text, metres_text, hex_text, refused_text};
ghost use Rattle.shown.specs.Lines.{job_text, job_line, station_figures, has_factor, factor_or, factor_text, chain_text, soundness, checked_chain, chain_line, scale_line, raw_text, record_text, record_line};
ghost use Rattle.shown.specs.Expected.{by_chain, expected_in, is_rounded_back, written_text, slave_line, expected_text};
ghost use Rattle.shown.specs.Counted.{chain_or_none, counted_in, many_line, many_reply};
ghost use Rattle.shown.specs.Rooms.{has_line_room, shown_in, reply_of, Puts, IsShown};

use chart::{BothReadings, Chain, Place};
use records::RawRecord;
use refusals::Refusal;
use search::{HowMany, Stopped};

// Room for the longest line, without the record's bytes in hexadecimal.
pub const LINE_ROOM: usize = 208;

const SPOT: Place = Place {
    easting: 0,
    northing: 0,
};

// Puts the line of a job at the start of a buffer, and returns how many bytes of text there are. Here and below, the buffer must have
// room for 208 bytes, and for two more for each byte of `s`; else the answer is refusal 9.
pub fn job(out: &mut [u8], s: &[u8]) -> Result<usize, Refusal>
    ensures answer { result ≡ (shown_in out.old (length s.now) (Ok (job_line s.now))).answer }
    ensures out { out.new ≡ (shown_in out.old (length s.now) (Ok (job_line s.now))).buffer }
{
    let a = put_word(out, b"JOB", s.len())?;
    let b = put_job(out, a, s);
    Ok(put_end(out, b, job_refusal(s), s))
}

// Puts the line of a chain, from its number in the table, the side file, which may be empty, and its 24 bytes.
pub fn chain(out: &mut [u8], number: u32, scale: &[u8], s: &[u8]) -> Result<usize, Refusal>
    ensures answer { result ≡ (shown_in out.old (length s.now) (Ok (chain_line scale.now number s.now))).answer }
    ensures out { out.new ≡ (shown_in out.old (length s.now) (Ok (chain_line scale.now number s.now))).buffer }
{
    let a = put_word(out, b"CHAIN", s.len())?;
    let b = put_chain(out, a, number, scale, s);
    let refusal = refusals::number_told(&chain_refusal(scale, number, s));
    Ok(put_end(out, b, refusal, s))
}

// Puts the line of a side file that does not fit its table.
pub fn scale(out: &mut [u8], s: &[u8]) -> Result<usize, Refusal>
    ensures answer { result ≡ (shown_in out.old (length s.now) (Ok (scale_line s.now))).answer }
    ensures out { out.new ≡ (shown_in out.old (length s.now) (Ok (scale_line s.now))).buffer }
{
    let a = put_word(out, b"SCALE", s.len())?;
    Ok(put_end(out, a, Refusal::Length.number(), s))
}

// Puts the line of a log record: a word, the fields and the end, as in `job`, of which only the end could be shared.
pub fn record(out: &mut [u8], s: &[u8]) -> Result<usize, Refusal>
    ensures answer { result ≡ (shown_in out.old (length s.now) (Ok (record_line s.now))).answer }
    ensures out { out.new ≡ (shown_in out.old (length s.now) (Ok (record_line s.now))).buffer }
{
    let a = put_word(out, b"LOG", s.len())?;
    let b = put_record(out, a, s);
    Ok(put_end(out, b, entry_refusal(s), s))
}

// Puts the readings expected at a place, for the chain with this number in the table: one line for each slave.
pub fn expected(
    out: &mut [u8],
    table: &[u8],
    scale: &[u8],
    chain: u32,
    place: Place,
) -> Result<usize, Refusal>
    ensures answer { result ≡ (shown_in out.old 0 (reply_of (expected_in table.now scale.now chain place))).answer }
    ensures out { out.new ≡ (shown_in out.old 0 (reply_of (expected_in table.now scale.now chain place))).buffer }
{
    if !has_line_room(out.len(), 0) {
        return Err(Refusal::NoRoom);
    }
    let both = readings(table, scale, chain, place)?;
    Ok(put_slaves(out, both.a, both.b))
}

// Puts whether the readings allow no place, one or several, by a table with its side file, the number of a chain in it, and a job: one
// line.
pub fn how_many(
    out: &mut [u8],
    table: &[u8],
    scale: &[u8],
    job: &[u8],
    chain: u32,
    a: i64,
    b: i64,
) -> Result<usize, Refusal>
    ensures answer { result ≡ (shown_in out.old 0 (many_reply (counted_in table.now scale.now job.now chain (a ∷ b ∷ [])))).answer }
    ensures out { out.new ≡ (shown_in out.old 0 (many_reply (counted_in table.now scale.now job.now chain (a ∷ b ∷ [])))).buffer }
{
    if !has_line_room(out.len(), 0) {
        return Err(Refusal::NoRoom);
    }
    match counted(table, scale, job, chain, a, b) {
        Ok(HowMany::None { visits }) => Ok(put_many(out, b"NONE", &[visits])),
        Ok(HowMany::One { place, visits }) => Ok(put_many(
            out,
            b"ONE",
            &[visits, place.easting as u64, place.northing as u64],
        )),
        Ok(HowMany::Several { visits }) => Ok(put_many(out, b"SEVERAL", &[visits])),
        Err(stopped) => Err(stopped.refusal),
    }
}

// Puts the word of a line, if there is room for the whole line of a record of `count` bytes.
fn put_word(out: &mut [u8], word: &[u8], count: usize) -> Result<usize, Refusal>
    requires { length word.now ≤ 208 }
    ensures { IsShown out.old count (Ok word.now) result out.new }
{
    if !has_line_room(out.len(), count) {
        return Err(Refusal::NoRoom);
    }
    Ok(text::put(out, 0, word))
}

fn has_line_room(bytes: usize, count: usize) -> bool
    ensures { result ≡ has_line_room bytes count }
{
    bytes >= LINE_ROOM && count <= (bytes - LINE_ROOM) / 2
}

// The number with which the job is refused, 0 if it is not.
fn job_refusal(s: &[u8]) -> u32
    ensures { result ≡ number_told (job_of s.now) }
{
    refusals::number_told(&records::job_of(s))
}

// The chain with its factor, or why it is refused.
#[tactic(auto, unfolding(crate::specs::Lines::soundness))]
fn chain_refusal(scale: &[u8], number: u32, s: &[u8]) -> Result<Chain, Refusal>
    ensures { result ≡ checked_chain scale.now number s.now }
{
    soundness(records::raw_chain(s, factor_or(scale, number))?)
}

#[tactic(auto, unfolding(crate::specs::Lines::soundness))]
fn soundness(chain: Chain) -> Result<Chain, Refusal>
    ensures { result ≡ soundness (Ok chain) }
{
    if !chart::sound(chain) {
        return Err(Refusal::Chain);
    }
    Ok(chain)
}

// The factor of the chain with this number, or 1,000,000 if the side file has none for it.
fn factor_or(scale: &[u8], number: u32) -> u32
    ensures { result ≡ factor_or scale.now number }
{
    if !has_factor(scale, number) {
        return chart::UNIT_FACTOR;
    }
    fields::four_at(scale, records::FACTOR_BYTES * (number as usize - 1)).unwrap()
}

// The number with which the log record is refused, 0 if it is not.
fn entry_refusal(s: &[u8]) -> u32
    ensures { result ≡ number_told (log_entry_of s.now) }
{
    refusals::number_told(&records::log_entry(s))
}

// The readings, or why there are none. Table and side file are tested first, then the place, then the chain.
#[tactic(auto, unfolding(chart::specs::Readings::said_by, crate::specs::Expected::by_table))]
fn readings(table: &[u8], scale: &[u8], chain: u32, place: Place) -> Result<BothReadings, Refusal>
    ensures { said_by result ≡ expected_in table.now scale.now chain place }
{
    records::scaled_count(table, scale)?;
    if !chart::in_range(place) {
        return Err(Refusal::Place);
    }
    by_chain(records::chain_of(table, scale, chain), place)
}

#[tactic(auto, unfolding(chart::specs::Readings::said_by, crate::specs::Expected::by_chain))]
fn by_chain(chain: Result<Chain, Refusal>, place: Place) -> Result<BothReadings, Refusal>
    ensures { said_by result ≡ by_chain chain place }
{
    chart::readings(chain?, place)
}

// How many places the readings allow, or why that is not answered. Table and side file are tested first, then the job's form.
#[tactic(auto, unfolding(crate::specs::Counted::many_in))]
fn counted(
    table: &[u8],
    scale: &[u8],
    job: &[u8],
    chain: u32,
    a: i64,
    b: i64,
) -> Result<HowMany, Stopped>
    ensures { result ≡ counted_in table.now scale.now job.now chain (a ∷ b ∷ []) }
{
    records::scaled_count(table, scale).map_err(|refusal| Stopped { refusal, visits: 0 })?;
    let formed = records::formed_job(job);
    let c = chain_or_none(records::chain_of(table, scale, chain));
    records::many_by(formed, c, a, b)
}

// The chain, or if there is none three stations on one spot, which the search refuses with 5 when its turn comes.
#[tactic(auto, unfolding(crate::specs::Counted::chain_or_none))]
fn chain_or_none(chain: Result<Chain, Refusal>) -> Chain
    ensures { result ≡ chain_or_none chain }
{
    chain.unwrap_or(Chain {
        master: SPOT,
        a: SPOT,
        b: SPOT,
        factor: chart::UNIT_FACTOR,
    })
}

// Puts the word, the figures and the newline.
fn put_many(out: &mut [u8], word: &[u8], figures: &[u64]) -> usize
    requires { (length word.now ≤ 7) × (length figures.now ≤ 3) }
    ensures { Puts out.old 0 (many_line word.now figures.now) 71 out.new result }
{
    let a = text::put(out, 0, word);
    let b = put_figures(out, a, figures);
    text::put(out, b, b"\n")
}

fn put_job(out: &mut [u8], at: usize, s: &[u8]) -> usize
    ensures { Puts out.old at (job_text s.now) 105 out.new result }
{
    match records::raw_job(s) {
        Ok(j) => put_figures(
            out,
            at,
            &[
                j.window.corner.easting as u64,
                j.window.corner.northing as u64,
                j.window.k as u64,
                j.tolerance as u64,
                j.allowance,
            ],
        ),
        Err(_) => at,
    }
}

fn put_chain(out: &mut [u8], at: usize, number: u32, scale: &[u8], s: &[u8]) -> usize
    ensures { Puts out.old at (chain_text scale.now number s.now) 168 out.new result }
{
    match records::raw_chain(s, factor_or(scale, number)) {
        Ok(c) => {
            let end = put_stations(out, at, number, c);
            put_factor(out, end, scale, number)
        }
        Err(_) => at,
    }
}

fn has_factor(scale: &[u8], number: u32) -> bool
    ensures { result ≡ has_factor scale.now number }
{
    records::one_to(scale.len() / records::FACTOR_BYTES, number)
}

fn put_stations(out: &mut [u8], at: usize, number: u32, c: Chain) -> usize
    ensures { Puts out.old at (figures_text (number ∷ station_figures c)) 147 out.new result }
{
    put_figures(
        out,
        at,
        &[
            number as u64,
            c.master.easting as u64,
            c.master.northing as u64,
            c.a.easting as u64,
            c.a.northing as u64,
            c.b.easting as u64,
            c.b.northing as u64,
        ],
    )
}

fn put_factor(out: &mut [u8], at: usize, scale: &[u8], number: u32) -> usize
    ensures { Puts out.old at (factor_text scale.now number) 21 out.new result }
{
    if !has_factor(scale, number) {
        return at;
    }
    put_figures(out, at, &[factor_or(scale, number) as u64])
}

fn put_record(out: &mut [u8], at: usize, s: &[u8]) -> usize
    ensures { Puts out.old at (record_text s.now) 105 out.new result }
{
    match records::raw_record(s) {
        Ok(r) => put_raw(out, at, r),
        Err(_) => at,
    }
}

fn put_raw(out: &mut [u8], at: usize, r: RawRecord) -> usize
    ensures { Puts out.old at (raw_text r) 105 out.new result }
{
    let first = r.first;
    let second = r.second;
    let a = put_figures(out, at, &[r.kind as u64, r.chain as u64, r.line as u64]);
    let b = put_centimetres(out, a, first);
    put_centimetres(out, b, second)
}

// Puts a number of metres in centimetres, or a dash if it is refused.
fn put_centimetres(out: &mut [u8], at: usize, x: f64) -> usize
    ensures { Puts out.old at (centimetres_text x) 21 out.new result }
{
    let a = text::put(out, at, b" ");
    match metres::centimetres(x) {
        Some(z) => text::put_whole(out, a, z),
        None => text::put(out, a, b"-"),
    }
}

// Puts numbers, each with a space before it. Every private function that puts a text promises it only if there is room for it.
fn put_figures(out: &mut [u8], at: usize, ns: &[u64]) -> usize
    ensures { Puts out.old at (figures_text ns.now) (21 * length ns.now) out.new result }
{
    let mut end = at;
    for n in ns {
        let a = text::put(out, end, b" ");
        end = text::put_number(out, a, *n);
    }
    end
}

// Puts the refusal, if the record is refused, and the newline.
fn put_end(out: &mut [u8], at: usize, number: u32, s: &[u8]) -> usize
    ensures { Puts out.old at (refused_text number s.now ++ bytes_in "\n") (31 + 2 * length s.now) out.new result }
{
    let a = put_refused(out, at, number, s);
    text::put(out, a, b"\n")
}

fn put_refused(out: &mut [u8], at: usize, number: u32, s: &[u8]) -> usize
    ensures { Puts out.old at (refused_text number s.now) (30 + 2 * length s.now) out.new result }
{
    if number == 0 {
        return at;
    }
    let a = text::put(out, at, b" REFUSED");
    let b = put_figures(out, a, &[number as u64]);
    put_hex(out, b, s)
}

fn put_hex(out: &mut [u8], at: usize, s: &[u8]) -> usize
    ensures { Puts out.old at (hex_text s.now) (1 + 2 * length s.now) out.new result }
{
    if s.len() == 0 {
        return at;
    }
    let a = text::put(out, at, b" ");
    text::put_bytes(out, a, s)
}

// Puts the lines of slaves A and B.
fn put_slaves(out: &mut [u8], a: i64, b: i64) -> usize
    ensures { Puts out.old 0 (expected_text (a ∷ b ∷ [])) 192 out.new result }
{
    let end = put_slave(out, 0, b'A', a);
    put_slave(out, end, b'B', b)
}

// Puts the line of a slave: its letter and its reading.
fn put_slave(out: &mut [u8], at: usize, letter: u8, z: i64) -> usize
    ensures { Puts out.old at (slave_line letter z) 96 out.new result }
{
    let a = text::put(out, at, &[letter]);
    let b = text::put(out, a, b" ");
    let c = text::put_whole(out, b, z);
    let d = put_written(out, c, z);
    text::put(out, d, b"\n")
}

// Puts a reading in metres, the bytes that a log record has for it, and whether it is rounded when these are read back; refusal 3
// if it is too large to be written.
fn put_written(out: &mut [u8], at: usize, z: i64) -> usize
    ensures { Puts out.old at (written_text z) 73 out.new result }
{
    if metres::size(z) > metres::MOST_CENTIMETRES {
        return text::put(out, at, b" REFUSED 3");
    }
    let a = text::put(out, at, b" ");
    let b = put_metres(out, a, z);
    let c = text::put(out, b, b" ");
    let d = put_number_bytes(out, c, z);
    text::put_flag(out, d, is_rounded_back(z))
}

fn is_rounded_back(z: i64) -> bool
    ensures { result ≡ is_rounded_back z }
{
    let f = metres::length_figures(metres::metres(z));
    metres::is_rounded(metres::marked(f.metres).mark)
}

// Puts centimetres as metres with two decimals.
fn put_metres(out: &mut [u8], at: usize, z: i64) -> usize
    ensures { Puts out.old at (metres_text z) 24 out.new result }
{
    if z < 0 {
        let a = text::put(out, at, b"-");
        return put_decimal(out, a, metres::size(z));
    }
    put_decimal(out, at, metres::size(z))
}

fn put_decimal(out: &mut [u8], at: usize, n: u64) -> usize
    ensures { Puts out.old at (decimal_text n) 23 out.new result }
{
    let a = text::put_number(out, at, n / 100);
    let b = text::put(out, a, b".");
    text::put(out, b, &[b'0' + (n / 10 % 10) as u8, b'0' + (n % 10) as u8])
}

// Puts, in hexadecimal, the eight bytes that a log record has for `z` centimetres.
fn put_number_bytes(out: &mut [u8], at: usize, z: i64) -> usize
    ensures { Puts out.old at (hex_of (metres_bytes z)) 16 out.new result }
{
    let mut bytes = [0u8; 8];
    let f = metres::length_figures(metres::metres(z));
    metres::put_number(&mut bytes, 0, f.metres);
    text::put_bytes(out, at, &bytes)
}
