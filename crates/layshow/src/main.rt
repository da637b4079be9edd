// Prints what job.dat, chain.dat, scale.dat and lay.dat hold, one line for each record, in the folder that it is run in. A
// missing file counts as empty, and a note says so. A refused argument or a failure is reported on standard error, and nothing is
// printed after it.
#![tactic(auto)]

ghost use Rattle.std.specs.Prelude.{◌≡◌, ◌+◌, ◌^◌, ◌≤◌, ◌<◌, length};
ghost use Rattle.text.specs.Puts.{Put};
ghost use Rattle.shown.specs.Lines.{job_line, chain_line, scale_line, record_line};
ghost use Rattle.shown.specs.Rooms.{text_of, line_room};
ghost use Rattle.layshow.specs.Walks.{record_lines, chain_lines, scaled_lines, table_lines, file_lines, PutLine, longest_job, longest_table, longest_scale, whole_table, chains_room, table_room, stretch_bytes, stretch_room};

use files::{EprintBytes, Opened, Tool};
use refusals::Refusal;
use std::fs::File;
use std::io::Print;
use std::rt::Files;

// How many bytes of the log are read at a time.
const STRETCH_BYTES: usize = 65_536;

// Room for the lines of the 2,048 records in a stretch, 272 bytes each. Job, table and side file take less.
const STRETCH_ROOM: usize = STRETCH_BYTES / records::LOG_BYTES
    * (shown::LINE_ROOM + 2 * records::LOG_BYTES);

// What was read of the job, the table and its side file: at most a byte more than each may have.
#[derive(Clone, Copy)]
struct FilesRead<'a> {
    job: &'a [u8],
    table: &'a [u8],
    scale: &'a [u8],
    ghost job_short: { length job.now ≤ longest_job },
    ghost table_short: { length table.now ≤ longest_table },
    ghost scale_short: { length scale.now ≤ longest_scale },
}

fn main(rt: HostRuntime) {
    let tool = Tool {
        rt: &rt,
        name: b"layshow",
    };
    let words = tool.no_arguments(
        b"layshow prints what job.dat, chain.dat, scale.dat and lay.dat in this folder hold, as layjob, laychain and
laywrite take it:

  JOB E N K T ALLOWANCE               window corner, exponent, tolerance, allowance
  CHAIN NUMBER E N E N E N FACTOR     easting and northing of master, A and B, and the scale factor
  LOG KIND CHAIN LINE X Y             1: readings A and B; 2: easting and northing; 3: a hold

Lengths are in centimetres; a dash is for one that cannot be read. A refused record has REFUSED, the
number and its bytes in hexadecimal after it. If scale.dat does not fit chain.dat, the chains have no
factor, and a line SCALE REFUSED 1 follows. A missing file counts as empty, and a note says so.

Without its first word, LOG, the line of a record is what laywrite takes: so a log can be mended as
text, and written again.

  layshow
  layshow | sed -n 's/^LOG //p' >log.txt
",
    );
    if tool.none_given(words, b"no argument was expected") {
        show(&tool);
    }
}

fn show(tool: &Tool<'_, impl Files<File = File> + Print + EprintBytes>) {
    let mut out = out_buffer();
    // One byte more than a job has, so that a file that is too long is noticed.
    let mut job = [0u8; records::JOB_BYTES + 1];
    let Some(n) = tool.start(b"job.dat", &mut job) else {
        return;
    };
    show_with(tool, &mut out, &job[..n]);
}

// Table and side file belong together: the table must still be there when the side file has been read.
fn show_with(
    tool: &Tool<'_, impl Files<File = File> + Print + EprintBytes>,
    out: &mut [u8],
    job: &[u8],
)
    requires { (length out.old ≡ stretch_room) × (length job.now ≤ longest_job) }
{
    let mut table = [0u8; records::TABLE_BYTES + 1];
    let mut scale = [0u8; records::SCALE_BYTES + 1];
    let file = tool.open(b"chain.dat");
    let Some(t) = tool.start_of(&file, b"chain.dat", &mut table) else {
        return;
    };
    let Some(f) = tool.start(b"scale.dat", &mut scale) else {
        return;
    };
    if tool.is_still(b"chain.dat", &file) {
        let read = FilesRead {
            job,
            table: &table[..t],
            scale: &scale[..f],
        };
        show_files(tool, out, &read);
    }
}

// The buffer for the text. It is made in a function of its own, so that proofs elsewhere know only its length.
fn out_buffer() -> [u8; STRETCH_ROOM] {
    [0u8; STRETCH_ROOM]
}

// Prints the lines of job, table and side file before the log is opened, because opening may fail.
fn show_files(
    tool: &Tool<'_, impl Files<File = File> + Print + EprintBytes>,
    out: &mut [u8],
    read: &FilesRead<'_>,
)
    requires { length out.old ≡ stretch_room }
{
    let n = put_files(out, read);
    if files_printed(tool, &out[..n], read) {
        show_log(tool, out);
    }
}

// Prints the text of job, table and side file, and returns whether that succeeded. These are there only for the contract.
fn files_printed(
    tool: &Tool<'_, impl Print + EprintBytes>,
    text: &[u8],
    read: &FilesRead<'_>,
) -> bool
    requires { text.now ≡ file_lines read.now.job.now read.now.table.now read.now.scale.now }
{
    tool.print(text)
}

fn put_files(out: &mut [u8], read: &FilesRead<'_>) -> usize
    requires { length out.old ≡ stretch_room }
    ensures { Put out.old 0 (file_lines read.now.job.now read.now.table.now read.now.scale.now) out.new result }
{
    let end = put_job(out, 0, read.job);
    put_table(out, end, read.table, read.scale)
}

// This one, `put_chain`, `put_scale` and `put_record` have two lines alike: what a function that took the call between them would have to
// ask of it is longer than these.
fn put_job(out: &mut [u8], at: usize, s: &[u8]) -> usize
    requires { at + line_room (length s.now) ≤ length out.old }
    ensures { PutLine out.old at (job_line s.now) (length s.now) out.new result }
{
    let most = at + shown::LINE_ROOM + 2 * s.len();
    after(at, shown::job(&mut out[at..most], s))
}

// A table that is refused has one line.
fn put_table(out: &mut [u8], at: usize, table: &[u8], scale: &[u8]) -> usize
    requires { (at + table_room ≤ length out.old) × (length table.now ≤ longest_table) × (length scale.now ≤ longest_scale) }
    ensures { Put out.old at (table_lines table.now scale.now) out.new result }
{
    match records::chain_count(table) {
        Ok(n) => {
            let fits = records::is_scale(n, scale);
            put_scaled(out, at, fits, table, scale)
        }
        Err(_) => put_chain(out, at, b"", 0, table),
    }
}

// A side file that does not fit has a line after the chains, which then have no factors.
fn put_scaled(out: &mut [u8], at: usize, fits: bool, table: &[u8], scale: &[u8]) -> usize
    requires { (at + table_room ≤ length out.old) × (length table.now ≤ whole_table) × (length scale.now ≤ longest_scale) }
    ensures { Put out.old at (scaled_lines fits table.now scale.now) out.new result }
{
    if fits {
        return put_chains(out, at, scale, table);
    }
    let end = put_chains(out, at, b"", table);
    put_scale(out, end, scale)
}

fn put_chains(out: &mut [u8], at: usize, scale: &[u8], table: &[u8]) -> usize
    requires { (at + chains_room ≤ length out.old) × (length table.now ≤ whole_table) }
    ensures text { Put out.old at (chain_lines scale.now table.now) out.new result }
    ensures end { result ≤ at + chains_room }
{
    let mut end = at;
    let mut number = 1;
    for chain in table.chunks(records::CHAIN_BYTES) {
        end = put_chain(out, end, scale, number, chain);
        number += 1;
    }
    end
}

fn put_chain(out: &mut [u8], at: usize, scale: &[u8], number: u32, s: &[u8]) -> usize
    requires { at + line_room (length s.now) ≤ length out.old }
    ensures { PutLine out.old at (chain_line scale.now number s.now) (length s.now) out.new result }
{
    let most = at + shown::LINE_ROOM + 2 * s.len();
    after(at, shown::chain(&mut out[at..most], number, scale, s))
}

fn put_scale(out: &mut [u8], at: usize, s: &[u8]) -> usize
    requires { at + line_room (length s.now) ≤ length out.old }
    ensures { PutLine out.old at (scale_line s.now) (length s.now) out.new result }
{
    let most = at + shown::LINE_ROOM + 2 * s.len();
    after(at, shown::scale(&mut out[at..most], s))
}

// Where a line that begins at `at` ends. A refusal for lack of room never happens here.
fn after(at: usize, line: Result<usize, Refusal>) -> usize
    requires { at + text_of line < 2 ^ 64 }
    ensures { result ≡ at + text_of line }
{
    at + line.unwrap_or(0)
}

// Opens the log and prints its lines.
fn show_log(tool: &Tool<'_, impl Files<File = File> + Print + EprintBytes>, out: &mut [u8])
    requires { length out.old ≡ stretch_room }
{
    match tool.open(b"lay.dat") {
        Opened::File(log) => show_stretches(tool, out, &log),
        Opened::Missing => {
            tool.missing(b"lay.dat");
        }
        Opened::Failed => {}
    }
}

// Prints the lines of the log, stretch by stretch.
fn show_stretches(tool: &Tool<'_, impl Print + EprintBytes>, out: &mut [u8], log: &File)
    requires { length out.old ≡ stretch_room }
{
    for _ in 0..files::MOST_STRETCHES {
        if !show_stretch(tool, out, log) {
            return;
        }
    }
}

// Reads a stretch of the log and prints all its lines before the next stretch is read, because reading may fail. Returns whether
// there may be a next stretch.
fn show_stretch(tool: &Tool<'_, impl Print + EprintBytes>, out: &mut [u8], log: &File) -> bool
    requires { length out.old ≡ stretch_room }
{
    let mut stretch = [0u8; 65_536];
    let Some(n) = tool.fill(b"lay.dat", log, &mut stretch) else {
        return false;
    };
    show_records(tool, out, &stretch[..n]) && n == stretch.len()
}

fn show_records(tool: &Tool<'_, impl Print + EprintBytes>, out: &mut [u8], log: &[u8]) -> bool
    requires { (length out.old ≡ stretch_room) × (length log.now ≤ stretch_bytes) }
{
    let n = put_records(out, log);
    records_printed(tool, &out[..n], log)
}

// Prints the text of a stretch, and returns whether that succeeded. `log` is there only for the contract.
fn records_printed(tool: &Tool<'_, impl Print + EprintBytes>, text: &[u8], log: &[u8]) -> bool
    requires { text.now ≡ record_lines log.now }
{
    tool.print(text)
}

fn put_records(out: &mut [u8], log: &[u8]) -> usize
    requires { (length out.old ≡ stretch_room) × (length log.now ≤ stretch_bytes) }
    ensures { Put out.old 0 (record_lines log.now) out.new result }
{
    let mut end = 0;
    for record in log.chunks(records::LOG_BYTES) {
        end = put_record(out, end, record);
    }
    end
}

fn put_record(out: &mut [u8], at: usize, s: &[u8]) -> usize
    requires { at + line_room (length s.now) ≤ length out.old }
    ensures { PutLine out.old at (record_line s.now) (length s.now) out.new result }
{
    let most = at + shown::LINE_ROOM + 2 * s.len();
    after(at, shown::record(&mut out[at..most], s))
}
