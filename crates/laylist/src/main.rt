// Lists a lay log: reads job.dat, chain.dat, scale.dat and lay.dat in the folder that it is run in, and prints the listing of the log.
// A file that is missing counts as empty, and a note says so. A failure is reported on standard error, and nothing is listed after it.
#![tactic(auto)]

ghost use Rattle.std.specs.Prelude.{◌≡◌, true, length, is_ok};
ghost use Rattle.records.specs.ChainTables.{chain_count_of, scaled_count_of};
ghost use Rattle.records.specs.Jobs.{job_of};
ghost use Rattle.laylist.specs.Walks.{AllGood, listing_with, part_room, bytes_at_once, AtOnce, BeginsWith, GoesOn};

use files::{EprintBytes, Opened, Tool};
use listing::{Carried, Listed};
use std::fs::File;
use std::io::Print;
use std::rt::Files;

// The bytes of the job, of the table and of its side file, as far as they have been read.
#[derive(Clone, Copy)]
struct Inputs<'a> {
    job: &'a [u8],
    table: &'a [u8],
    scale: &'a [u8],
}

// The place carried on to the next part of the log, if any is. Functions return none of this if nothing follows: the log has ended,
// or a failure has been reported.
#[derive(Clone, Copy)]
struct Next {
    carried: Option<Carried>,
}

// At most 128 records are listed at once.
const PART_BYTES: usize = 128 * records::LOG_BYTES;

// Room for 129 longest lines: one for each of these records and one more, as `listing::list` requires.
const PART_ROOM: usize = 129 * listing::LONGEST_LINE;

fn main(rt: HostRuntime) {
    let tool = Tool {
        rt: &rt,
        name: b"laylist",
    };
    let words = tool.no_arguments(
        b"laylist lists a lay log: it reads job.dat, chain.dat, scale.dat and lay.dat in this folder, and
prints one line for each record.

  LINE FIX COUNT VISITS E N E N .. ROUNDED    the places that two readings allow, in chart order
  LINE GRID 1 0 E N ROUNDED                   the place that a grid record names
  LINE HOLD 1 0 E N ROUNDED                   the place of the record just before
  LINE REFUSED NUMBER VISITS                  a record that is refused

LINE is the record's line number; eastings and northings are in centimetres. ROUNDED is 0 if both
numbers of the record are exactly whole centimetres, 1 if one was rounded; a hold repeats it. A job
that is refused prints JOB REFUSED alone, a table CHAIN REFUSED, and a side file of factors that does
not fit the table SCALE REFUSED. A missing file counts as empty, and a note says so.

  laylist           lists this folder
  laylist FOLDER    lists that folder
",
    );
    if tool.none_given(words, b"no argument was expected") {
        list_files(&tool);
    }
}

fn list_files(tool: &Tool<'_, impl Files<File = File> + Print + EprintBytes>) {
    let mut out = out_buffer();
    // One byte more than a job has, so that a file that is too long is noticed.
    let mut job = [0u8; records::JOB_BYTES + 1];
    let Some(n) = tool.start(b"job.dat", &mut job) else {
        return;
    };
    by_job(tool, &mut out, &job[0..n]);
}

// The buffer for the text. It is made in a function of its own, so that proofs elsewhere know only its length.
fn out_buffer() -> [u8; PART_ROOM] {
    [0u8; PART_ROOM]
}

// A refused job is printed before the table is read, because reading may fail.
fn by_job(
    tool: &Tool<'_, impl Files<File = File> + Print + EprintBytes>,
    out: &mut [u8],
    job: &[u8],
)
    requires { length out.old ≡ part_room }
{
    if !job_accepted(tool, out, job) {
        return;
    }
    // One byte more than the longest table has, for the same reason.
    let mut table = [0u8; records::TABLE_BYTES + 1];
    let file = tool.open(b"chain.dat");
    let Some(n) = tool.start_of(&file, b"chain.dat", &mut table) else {
        return;
    };
    by_table(tool, out, job, &table[0..n], file);
}

// Whether the job is accepted. If not, its refusal is all that is printed, whatever the table and the log.
fn job_accepted(tool: &Tool<'_, impl Print + EprintBytes>, out: &mut [u8], job: &[u8]) -> bool
    requires { length out.old ≡ part_room }
    ensures { result ≡ is_ok (job_of job.now) }
{
    if records::job_of(job).is_ok() {
        return true;
    }
    let inputs = Inputs {
        job,
        table: b"",
        scale: b"",
    };
    print_part(tool, out, &inputs, b"", None);
    false
}

// A refused table is printed before the side file is read. `file` is the table's: it must still be there when the side file has been
// read, since the two belong together.
fn by_table(
    tool: &Tool<'_, impl Files<File = File> + Print + EprintBytes>,
    out: &mut [u8],
    job: &[u8],
    table: &[u8],
    file: Opened,
)
    requires { (length out.old ≡ part_room) × (is_ok (job_of job.now) ≡ true) }
{
    if !table_accepted(tool, out, job, table) {
        return;
    }
    let mut scale = [0u8; records::SCALE_BYTES + 1];
    let Some(n) = tool.start(b"scale.dat", &mut scale) else {
        return;
    };
    if tool.is_still(b"chain.dat", &file) {
        let inputs = Inputs {
            job,
            table,
            scale: &scale[0..n],
        };
        by_scale(tool, out, &inputs);
    }
}

// Whether the table is accepted. If not, its refusal is all that is printed, whatever the side file and the log.
fn table_accepted(
    tool: &Tool<'_, impl Print + EprintBytes>,
    out: &mut [u8],
    job: &[u8],
    table: &[u8],
) -> bool
    requires { length out.old ≡ part_room }
    ensures { result ≡ is_ok (chain_count_of table.now) }
{
    if records::chain_count(table).is_ok() {
        return true;
    }
    let inputs = Inputs {
        job,
        table,
        scale: b"",
    };
    print_part(tool, out, &inputs, b"", None);
    false
}

fn by_scale(
    tool: &Tool<'_, impl Files<File = File> + Print + EprintBytes>,
    out: &mut [u8],
    inputs: &Inputs<'_>,
)
    requires { (length out.old ≡ part_room) × (is_ok (job_of inputs.now.job.now) ≡ true) }
{
    if scale_accepted(tool, out, inputs) {
        list_log(tool, out, inputs);
    }
}

// Whether the side file fits the table. If not, its refusal is all that is printed, whatever the log.
fn scale_accepted(
    tool: &Tool<'_, impl Print + EprintBytes>,
    out: &mut [u8],
    inputs: &Inputs<'_>,
) -> bool
    requires { length out.old ≡ part_room }
    ensures { result ≡ is_ok (scaled_count_of inputs.now.table.now inputs.now.scale.now) }
{
    if records::scaled_count(inputs.table, inputs.scale).is_ok() {
        return true;
    }
    print_part(tool, out, inputs, b"", None);
    false
}

// Opens the log and prints its lines.
fn list_log(
    tool: &Tool<'_, impl Files<File = File> + Print + EprintBytes>,
    out: &mut [u8],
    inputs: &Inputs<'_>,
)
    requires { (length out.old ≡ part_room) × AllGood inputs.now }
{
    match tool.open(b"lay.dat") {
        Opened::File(log) => list_stretches(tool, out, inputs, &log),
        Opened::Missing => {
            tool.missing(b"lay.dat");
        }
        Opened::Failed => {}
    }
}

// Prints the lines of the log, stretch by stretch.
fn list_stretches(
    tool: &Tool<'_, impl Print + EprintBytes>,
    out: &mut [u8],
    inputs: &Inputs<'_>,
    log: &File,
)
    requires { (length out.old ≡ part_room) × AllGood inputs.now }
{
    let mut carried = None;
    for _ in 0..files::MOST_STRETCHES {
        let Some(Next { carried: last }) = list_stretch(tool, out, inputs, log, carried) else {
            return;
        };
        carried = last;
    }
}

// Reads a stretch of the log and prints its lines before the next stretch is read, because reading may fail.
fn list_stretch(
    tool: &Tool<'_, impl Print + EprintBytes>,
    out: &mut [u8],
    inputs: &Inputs<'_>,
    log: &File,
    before: Option<Carried>,
) -> Option<Next>
    requires { (length out.old ≡ part_room) × AllGood inputs.now }
{
    let mut stretch = [0u8; 65_536];
    let n = tool.fill(b"lay.dat", log, &mut stretch)?;
    let next = list_parts(tool, out, inputs, &stretch[0..n], before)?;
    if n < stretch.len() {
        return None;
    }
    Some(next)
}

// Lists a stretch of the log, part by part, each with the place carried from the one before.
fn list_parts(
    tool: &Tool<'_, impl Print + EprintBytes>,
    out: &mut [u8],
    inputs: &Inputs<'_>,
    log: &[u8],
    before: Option<Carried>,
) -> Option<Next>
    requires { (length out.old ≡ part_room) × AllGood inputs.now }
    ensures { GoesOn (listing_with inputs.now log.now before) result }
{
    let bytes = bytes_at_once(inputs.job);
    let mut carried = before;
    for part in log.chunks(bytes) {
        let next = print_part(tool, out, inputs, part, carried)?;
        carried = next.carried;
    }
    Some(Next { carried })
}

// How many bytes of the log are listed before their lines are printed. If a search may take long it is one record, so that every
// line is out before the next search begins.
fn bytes_at_once(job: &[u8]) -> usize
    ensures { result ≡ bytes_at_once (job_of job.now) }
{
    let Ok(j) = records::job_of(job) else {
        return PART_BYTES;
    };
    if j.allowance > records::USUAL_ALLOWANCE {
        return records::LOG_BYTES;
    }
    PART_BYTES
}

// Lists a part of the log and prints its text.
fn print_part(
    tool: &Tool<'_, impl Print + EprintBytes>,
    out: &mut [u8],
    inputs: &Inputs<'_>,
    part: &[u8],
    before: Option<Carried>,
) -> Option<Next>
    requires { (length out.old ≡ part_room) × AtOnce inputs.now.job.now part.now }
    ensures { GoesOn (listing_with inputs.now part.now before) result }
{
    let listed = list_part(out, inputs, part, before);
    let n = listed.length;
    if !printed(tool, &out[..n], inputs, part, before) {
        return None;
    }
    let carried = listed.carried;
    Some(Next { carried })
}

// Puts the listing of a part of the log at the start of a buffer.
fn list_part(out: &mut [u8], inputs: &Inputs<'_>, part: &[u8], before: Option<Carried>) -> Listed
    requires { (length out.old ≡ part_room) × AtOnce inputs.now.job.now part.now }
    ensures { BeginsWith out.new (listing_with inputs.now part.now before) result }
{
    match listing::list(out, inputs.job, inputs.table, inputs.scale, part, before) {
        Ok(listed) => listed,
        // This never happens: there is room for every part.
        Err(_) => Listed {
            length: 0,
            carried: before,
        },
    }
}

// Prints a text and returns whether that succeeded. Everything that is printed except the help goes through here, and must be the
// listing of a part. The other parameters are there only to state this.
fn printed(
    tool: &Tool<'_, impl Print + EprintBytes>,
    text: &[u8],
    inputs: &Inputs<'_>,
    part: &[u8],
    before: Option<Carried>,
) -> bool
    requires { text.now ≡ (listing_with inputs.now part.now before).text }
{
    tool.print(text)
}
