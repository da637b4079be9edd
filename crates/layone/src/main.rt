// Prints whether two readings allow no place, one or several, by chain.dat, scale.dat and job.dat in the folder that it is run in. Its
// three arguments are the chain's number and the readings. What is refused or fails is reported on standard error; then no line is
// printed.
#![tactic(auto)]

use files::{EprintBytes, Opened, Tool, Words};
use parsing::{Form, ReadingsAsked};
use refusals::Refusal;
use std::fs::File;
use std::io::Print;
use std::rt::{Env, Files};

// An answer that may take more visits than this may take more than a few seconds, which is announced.
const QUIET_VISITS: u64 = 100_000_000;

fn main(rt: HostRuntime) {
    let tool = Tool {
        rt: &rt,
        name: b"layone",
    };
    // Without the newline, which the arguments do not have.
    let mut line = [0u8; files::LINE_BYTES - 1];
    let words = tool.arguments(
        &mut line,
        b"layone CHAIN A B says whether two readings allow no place, one or several, by chain.dat, scale.dat and
job.dat in this folder.

  CHAIN  the chain's number in the table, 1 to 16
  A B    the readings of slaves A and B, at most 1000000000 in size, in centimetres in digits alone,
         or in metres with two decimals: -20000 is -200.00

It looks in the job's window, with the job's tolerance, and stops at the second place. One line is
printed, in centimetres:

  NONE VISITS     no place of the window fits the readings
  ONE VISITS E N  exactly one does: this easting and northing
  SEVERAL VISITS  more than one does; laylist lists all places of a record

VISITS is how many squares of the chart were visited. If the job's allowance ends before this is
decided, that is refusal 10. A refusal is printed with its number.
The readings -100.00 m and -200.00 m of chain 1:

  layone 1 -10000 -20000
",
    );
    match words {
        Words::Line(n) => take(&tool, &line[..n]),
        Words::Unfit(which) => unfit(&tool, which),
        Words::Helped => {}
    }
}

fn unfit(tool: &Tool<'_, impl Env + EprintBytes>, which: usize) {
    tool.refused_argument(
        Refusal::Line.number(),
        which,
        b"an argument is one word, and all of them have at most 65534 bytes",
    );
}

fn take(tool: &Tool<'_, impl Files<File = File> + Print + EprintBytes>, line: &[u8]) {
    match parsing::readings(line) {
        Ok(asked) => answer(tool, line, asked),
        Err(_) => other_form(tool, line),
    }
}

fn other_form(tool: &Tool<'_, impl EprintBytes>, line: &[u8]) {
    tool.refused_form(0, line, Form::Readings);
}

fn answer(
    tool: &Tool<'_, impl Files<File = File> + Print + EprintBytes>,
    line: &[u8],
    asked: ReadingsAsked,
) {
    // One byte more than the longest table, so that a file that is too long is noticed.
    let mut table = [0u8; records::TABLE_BYTES + 1];
    let file = tool.open(b"chain.dat");
    let Some(n) = tool.start_of(&file, b"chain.dat", &mut table) else {
        return;
    };
    with_scale(tool, line, &table[..n], file, asked);
}

// `file` is the table's: it must still be there when the side file has been read, since the two belong together.
fn with_scale(
    tool: &Tool<'_, impl Files<File = File> + Print + EprintBytes>,
    line: &[u8],
    table: &[u8],
    file: Opened,
    asked: ReadingsAsked,
) {
    let mut scale = [0u8; records::SCALE_BYTES + 1];
    let Some(n) = tool.start(b"scale.dat", &mut scale) else {
        return;
    };
    if tool.is_still(b"chain.dat", &file) {
        with_job(tool, line, table, &scale[..n], asked);
    }
}

fn with_job(
    tool: &Tool<'_, impl Files<File = File> + Print + EprintBytes>,
    line: &[u8],
    table: &[u8],
    scale: &[u8],
    asked: ReadingsAsked,
) {
    let mut job = [0u8; records::JOB_BYTES + 1];
    let Some(n) = tool.start(b"job.dat", &mut job) else {
        return;
    };
    announce(tool, &job[..n]);
    print_answer(tool, line, table, scale, &job[..n], asked);
}

fn announce(tool: &Tool<'_, impl EprintBytes>, job: &[u8]) {
    let Ok(j) = records::job_of(job) else {
        return;
    };
    if j.allowance > QUIET_VISITS {
        tool.note(b"job.dat allows more than 100000000 visits: the answer may take minutes");
    }
}

fn print_answer(
    tool: &Tool<'_, impl Print + EprintBytes>,
    line: &[u8],
    table: &[u8],
    scale: &[u8],
    job: &[u8],
    asked: ReadingsAsked,
) {
    let mut out = [0u8; shown::LINE_ROOM];
    match shown::how_many(&mut out, table, scale, job, asked.chain, asked.a, asked.b) {
        Ok(n) => {
            tool.print(&out[..n]);
        }
        Err(refusal) => refuse(tool, line, table, scale, asked, refusal),
    }
}

fn refuse(
    tool: &Tool<'_, impl EprintBytes>,
    line: &[u8],
    table: &[u8],
    scale: &[u8],
    asked: ReadingsAsked,
    refusal: Refusal,
) {
    match refusal {
        Refusal::Length => refuse_length(tool, table, scale),
        Refusal::Form => refused(tool, refusal, b"a byte of job.dat that must be zero is not"),
        Refusal::Number => refuse_reading(tool, line, asked.a),
        Refusal::Chain => refuse_chain(tool, line, table, asked.chain),
        Refusal::Window => refused(
            tool,
            refusal,
            b"the window in job.dat has an exponent over 24, or cells out of range",
        ),
        Refusal::Tolerance => refused(
            tool,
            refusal,
            b"the tolerance in job.dat is over 100000 centimetres",
        ),
        _ => refused(
            tool,
            refusal,
            b"the visits that job.dat allows ended before this was decided",
        ),
    }
}

// The table is tested first, then the side file.
fn refuse_length(tool: &Tool<'_, impl EprintBytes>, table: &[u8], scale: &[u8]) {
    let Ok(n) = records::chain_count(table) else {
        refused(
            tool,
            Refusal::Length,
            b"chain.dat was expected to hold 1 to 16 chains of 24 bytes",
        );
        return;
    };
    if records::is_scale(n, scale) {
        refused(
            tool,
            Refusal::Length,
            b"job.dat was expected to hold one job of 32 bytes",
        );
        return;
    }
    refused(
        tool,
        Refusal::Length,
        b"scale.dat was expected to hold 4 bytes for each chain of chain.dat",
    );
}

fn refuse_reading(tool: &Tool<'_, impl EprintBytes>, line: &[u8], a: i64) {
    refused_word(
        tool,
        line,
        Refusal::Number,
        reading_at_fault(a),
        b"a reading is at most 1000000000 centimetres in size",
    );
}

// The word of reading A if that is too large, else that of reading B.
fn reading_at_fault(a: i64) -> usize {
    if metres::size(a) > metres::MOST_CENTIMETRES {
        1
    } else {
        2
    }
}

// A chain of the table that is refused is not sound.
fn refuse_chain(tool: &Tool<'_, impl EprintBytes>, line: &[u8], table: &[u8], chain: u32) {
    let Ok(n) = records::chain_count(table) else {
        return;
    };
    if records::one_to(n, chain) {
        refused_word(
            tool,
            line,
            Refusal::Chain,
            0,
            b"this chain has a station out of range, two on one spot, or a factor out of range",
        );
        return;
    }
    refused_word(
        tool,
        line,
        Refusal::Chain,
        0,
        b"chain.dat has no chain of this number",
    );
}

fn refused(tool: &Tool<'_, impl EprintBytes>, refusal: Refusal, sentence: &[u8]) {
    tool.refused(0, refusal.number(), sentence);
}

fn refused_word(
    tool: &Tool<'_, impl EprintBytes>,
    line: &[u8],
    refusal: Refusal,
    word: usize,
    sentence: &[u8],
) {
    tool.refused_word(0, refusal.number(), line, word, sentence);
}
