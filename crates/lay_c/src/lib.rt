// The library for C and Rust: each function of lay.h, under its name, is that of the crate `lay` and promises the same.
#![tactic(auto)]

ghost use Rattle.std.specs.Prelude.{◌≡◌, length};
ghost use Rattle.refusals.specs.Numbers.{number_told};
ghost use Rattle.metres.specs.Metres.{centimetres_of, metres_of, whole_figures, length_figures};
ghost use Rattle.metres.specs.Marks.{mark_of};
ghost use Rattle.writing.specs.Writing.{refusal_of, buffer_of};
ghost use Rattle.writing.specs.FactorWriting.{factor_refusal_of, factor_buffer_of};
ghost use Rattle.writing.specs.JobWriting.{job_refusal_of, job_buffer_of};
ghost use Rattle.lay.specs.Figures.{version, mark_figure, job_by, draft_by, chain_told, chain_written, factor_told, stations_told, expected_told, search_told, found_in, many_told, numbers_of, record_figures, count_told, job_told, part_of, list_told};

// The version of lay.h that this is made for.
#[unsafe(no_mangle)]
pub extern "C" fn lay_version() -> u32
    ensures { result ≡ version }
{
    lay::lay_version()
}

// Metres to whole centimetres, and how they were rounded.
#[unsafe(no_mangle)]
pub extern "C" fn lay_centimetres(metres: f64, centimetres: &mut i64, mark: &mut u32) -> u32
    ensures answer { result ≡ (whole_figures (centimetres_of metres)).refusal }
    ensures centimetres { centimetres.new ≡ (whole_figures (centimetres_of metres)).centimetres }
    ensures mark { mark.new ≡ mark_figure (mark_of metres) }
{
    lay::lay_centimetres(metres, centimetres, mark)
}

// Whole centimetres to metres.
#[unsafe(no_mangle)]
pub extern "C" fn lay_metres(centimetres: i64, metres: &mut f64) -> u32
    ensures answer { result ≡ (length_figures (metres_of centimetres)).refusal }
    ensures metres { metres.new ≡ (length_figures (metres_of centimetres)).metres }
{
    lay::lay_metres(centimetres, metres)
}

// The readings expected at a place, for the chain in the bytes with its factor.
#[unsafe(no_mangle)]
pub extern "C" fn lay_expected(
    readings: &mut [i64],
    chain: &[u8],
    factor: u32,
    e: u32,
    n: u32,
) -> u32
    ensures answer { result ≡ (expected_told (length readings.old) chain.now factor e n).refusal }
    ensures readings { readings.new ≡ (expected_told (length readings.old) chain.now factor e n).holds }
{
    lay::lay_expected(readings, chain, factor, e, n)
}

// Every cell of a job's window that matches the readings, in chart order. Chain and job are given as bytes, the chain with its factor.
#[unsafe(no_mangle)]
pub extern "C" fn lay_search(
    list: &mut [u32],
    chain: &[u8],
    factor: u32,
    readings: &[i64],
    job: &[u8],
    found: &mut [u64; 2],
) -> u32
    ensures answer { result ≡ (search_told chain.now factor readings.now job.now (length list.old)).figures.refusal }
    ensures list { list.new ≡ (search_told chain.now factor readings.now job.now (length list.old)).list }
    ensures found { found.new ≡ found_in (search_told chain.now factor readings.now job.now (length list.old)).figures }
{
    lay::lay_search(list, chain, factor, readings, job, found)
}

// Whether no cell of a job's window matches the readings, one, or several. Chain and job are given as bytes, the chain with its factor.
#[unsafe(no_mangle)]
pub extern "C" fn lay_how_many(
    chain: &[u8],
    factor: u32,
    readings: &[i64],
    job: &[u8],
    answer: &mut u32,
    place: &mut [u32; 2],
    visits: &mut u64,
) -> u32
    ensures refusal { result ≡ (many_told chain.now factor readings.now job.now).refusal }
    ensures answer { answer.new ≡ (many_told chain.now factor readings.now job.now).many }
    ensures place { place.new ≡ numbers_of (many_told chain.now factor readings.now job.now).place }
    ensures visits { visits.new ≡ (many_told chain.now factor readings.now job.now).visits }
{
    lay::lay_how_many(chain, factor, readings, job, answer, place, visits)
}

// Reads a log record, in whole centimetres.
#[unsafe(no_mangle)]
pub extern "C" fn lay_read_record(
    bytes: &[u8],
    kind: &mut u32,
    chain: &mut u32,
    line: &mut u32,
    x: &mut i64,
    y: &mut i64,
    xmark: &mut u32,
    ymark: &mut u32,
) -> u32
    ensures answer { result ≡ (record_figures bytes.now).entry.refusal }
    ensures kind { kind.new ≡ (record_figures bytes.now).entry.kind }
    ensures chain { chain.new ≡ (record_figures bytes.now).entry.chain }
    ensures line { line.new ≡ (record_figures bytes.now).entry.line }
    ensures x { x.new ≡ (record_figures bytes.now).entry.x }
    ensures y { y.new ≡ (record_figures bytes.now).entry.y }
    ensures xmark { xmark.new ≡ (record_figures bytes.now).xmark }
    ensures ymark { ymark.new ≡ (record_figures bytes.now).ymark }
{
    lay::lay_read_record(bytes, kind, chain, line, x, y, xmark, ymark)
}

// Writes a log record into a buffer.
#[unsafe(no_mangle)]
pub extern "C" fn lay_write_record(
    buffer: &mut [u8],
    kind: u32,
    chain: u32,
    line: u32,
    first: i64,
    second: i64,
) -> u32
    ensures answer { result ≡ number_told (refusal_of (length buffer.old) (draft_by kind chain line first second)) }
    ensures buffer { buffer.new ≡ buffer_of (length buffer.old) (draft_by kind chain line first second) }
{
    lay::lay_write_record(buffer, kind, chain, line, first, second)
}

// Reads the job in 32 bytes.
#[unsafe(no_mangle)]
pub extern "C" fn lay_read_job(
    bytes: &[u8],
    e: &mut u32,
    n: &mut u32,
    k: &mut u32,
    tolerance: &mut u32,
    allowance: &mut u64,
) -> u32
    ensures answer { result ≡ (job_told bytes.now).refusal }
    ensures e { e.new ≡ (job_told bytes.now).job.window.corner.easting }
    ensures n { n.new ≡ (job_told bytes.now).job.window.corner.northing }
    ensures k { k.new ≡ (job_told bytes.now).job.window.k }
    ensures tolerance { tolerance.new ≡ (job_told bytes.now).job.tolerance }
    ensures allowance { allowance.new ≡ (job_told bytes.now).job.allowance }
{
    lay::lay_read_job(bytes, e, n, k, tolerance, allowance)
}

// Writes a job into a buffer.
#[unsafe(no_mangle)]
pub extern "C" fn lay_write_job(
    buffer: &mut [u8],
    ce: u32,
    cn: u32,
    k: u32,
    t: u32,
    allowance: u64,
) -> u32
    ensures answer { result ≡ number_told (job_refusal_of (length buffer.old) (job_by ce cn k t allowance)) }
    ensures buffer { buffer.new ≡ job_buffer_of (length buffer.old) (job_by ce cn k t allowance) }
{
    lay::lay_write_job(buffer, ce, cn, k, t, allowance)
}

// How many chains a table has.
#[unsafe(no_mangle)]
pub extern "C" fn lay_count_chains(table: &[u8], count: &mut usize) -> u32
    ensures answer { result ≡ (count_told table.now).refusal }
    ensures count { count.new ≡ (count_told table.now).count }
{
    lay::lay_count_chains(table, count)
}

// The bytes and the factor of the chain with a given number in a table and its side file.
#[unsafe(no_mangle)]
pub extern "C" fn lay_chain(
    buffer: &mut [u8],
    table: &[u8],
    scale: &[u8],
    number: u32,
    factor: &mut u32,
) -> u32
    ensures answer { result ≡ (chain_told (length buffer.old) table.now scale.now number).refusal }
    ensures buffer { buffer.new ≡ (chain_told (length buffer.old) table.now scale.now number).holds }
    ensures factor { factor.new ≡ factor_told (length buffer.old) table.now scale.now number }
{
    lay::lay_chain(buffer, table, scale, number, factor)
}

// The stations of a chain from its bytes and its factor, easting and northing in turn.
#[unsafe(no_mangle)]
pub extern "C" fn lay_read_chain(chain: &[u8], factor: u32, stations: &mut [u32]) -> u32
    ensures answer { result ≡ (stations_told (length stations.old) chain.now factor).refusal }
    ensures stations { stations.new ≡ (stations_told (length stations.old) chain.now factor).holds }
{
    lay::lay_read_chain(chain, factor, stations)
}

// Writes a chain into a buffer, from the numbers of its stations and its factor.
#[unsafe(no_mangle)]
pub extern "C" fn lay_write_chain(buffer: &mut [u8], stations: &[u32], factor: u32) -> u32
    ensures answer { result ≡ (chain_written (length buffer.old) stations.now factor).refusal }
    ensures buffer { buffer.new ≡ (chain_written (length buffer.old) stations.now factor).holds }
{
    lay::lay_write_chain(buffer, stations, factor)
}

// Writes a factor into a buffer.
#[unsafe(no_mangle)]
pub extern "C" fn lay_write_factor(buffer: &mut [u8], factor: u32) -> u32
    ensures answer { result ≡ number_told (factor_refusal_of (length buffer.old) factor) }
    ensures buffer { buffer.new ≡ factor_buffer_of (length buffer.old) factor }
{
    lay::lay_write_factor(buffer, factor)
}

// Puts the listing of a log, or of a further part of one, into a buffer as text. On entry `part` has the place carried to it; on
// return, the length of the text and the place carried on.
#[unsafe(no_mangle)]
pub extern "C" fn lay_list(
    text: &mut [u8],
    job: &[u8],
    table: &[u8],
    scale: &[u8],
    log: &[u8],
    part: &mut [u32; 6],
) -> u32
    ensures answer { result ≡ (list_told text.old job.now table.now scale.now log.now part.old).figures.refusal }
    ensures text { text.new ≡ (list_told text.old job.now table.now scale.now log.now part.old).text }
    ensures part { part.new ≡ part_of (list_told text.old job.now table.now scale.now log.now part.old).figures }
{
    lay::lay_list(text, job, table, scale, log, part)
}
