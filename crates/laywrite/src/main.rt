// Appends log records to lay.dat in the folder that it is run in, one record for each line of standard input. Every line that is
// refused, and anything that fails, is reported on standard error; then nothing is appended, except that at a keyboard a refused line
// can be typed again, and the accepted ones are appended.
#![tactic(auto)]

ghost use Rattle.std.specs.Prelude.{◌≡◌, ◌+◌, ◌≤◌, ◌&&◌, ◌++◌, length, take, if◌then◌else◌, ◌==◌, Ok, Some};
ghost use Rattle.records.specs.LogRecords.{log_bytes};
ghost use Rattle.parsing.specs.Parsed.{parsed_draft};
ghost use Rattle.laywrite.specs.Waiting.{waiting_of, all_dropped, Wait, IsKept, KeptAfter, chain_named, judged_of, IsJudged, IsTaken, kept_of, ended_by, HoldRecords};

use files::{EprintBytes, Input, Opened, Target, Tool, Words};
use parsing::Form;
use records::LOG_BYTES;
use refusals::Refusal;
use std::fs::File;
use std::io;
use std::io::{IsTerminal, Print, Seek, SeekFrom};
use std::rt::{Clock, Files};
use writing::Draft;

// The log: the file that is there, open to read, or none yet; and how many records it has.
#[derive(Drop)]
struct Log {
    old: Option<File>,
    records: u64,
}

// What a line is: a record, with the chain that it names, if any; one that is passed over; or a refused one. Each is kept, counted
// and reported in another way, so this is no Result.
#[derive(Clone, Copy)]
enum Judged {
    Record(Option<u32>),
    Passed,
    Refused(Refusal),
}

// How the lines fared: how many were accepted, how many refused, and the first of these; how many name a chain that chain.dat does
// not have, and the first of these; and whether the last one was refused.
#[derive(Clone, Copy, Default)]
struct Lines {
    accepted: u64,
    refused: u64,
    first: Option<u64>,
    unknown: u64,
    named: Option<u64>,
    gap: bool,
}

impl Lines {
    fn counted(self, line: u64, judged: Judged, chains: usize, keyboard: bool) -> Lines {
        match judged {
            Judged::Record(chain) => {
                self.one_accepted(line, chain.is_some_and(|chain| chain as usize > chains))
            }
            Judged::Passed => self,
            Judged::Refused(_) => self.one_refused(line, keyboard),
        }
    }

    fn one_accepted(self, line: u64, unknown: bool) -> Lines {
        let accepted = Lines {
            accepted: self.accepted.wrapping_add(1),
            gap: false,
            ..self
        };
        if !unknown {
            return accepted;
        }
        Lines {
            unknown: self.unknown.wrapping_add(1),
            named: self.named.or(Some(line)),
            ..accepted
        }
    }

    fn one_refused(self, line: u64, keyboard: bool) -> Lines {
        Lines {
            refused: self.refused.wrapping_add(1),
            first: self.first.or(Some(line)),
            gap: keyboard,
            ..self
        }
    }
}

// What was read: how many bytes of records wait in a buffer, none if they are dropped, and how the lines fared.
#[derive(Clone, Copy)]
struct Read {
    waiting: Option<usize>,
    tally: Lines,
}

const LOG: Target<'static> = Target {
    name: b"lay.dat",
    fresh: b"lay.dat.new",
};

// The size of the buffer in which records wait. They are written out when it is full.
const WAIT_BYTES: usize = 65_536;

fn main(rt: HostRuntime) {
    let tool = Tool {
        rt: &rt,
        name: b"laywrite",
    };
    let words = tool.no_arguments(
        b"laywrite appends records to lay.dat, the log in this folder, or begins it where there is none.

Each line of standard input is a record, KIND CHAIN LINE X Y:

  1 CHAIN LINE A B    readings of slaves A and B, -1000000000 to 1000000000; chain 1 to 16
  2 CHAIN LINE E N    a place, easting 0 to 100000000 and northing 0 to 1000000000; any chain
  3 CHAIN LINE X Y    a hold, the place of the record before it; any chain, X and Y

LINE is 0 to 4294967295. X and Y are centimetres in digits alone, or metres with two decimals, with a
minus sign before them if they are below 0: -10000 is -100.00. Blank lines, and lines that begin with #,
are passed over.

Each refused line is reported as soon as it is read, with the number of its refusal; then nothing is
appended. At a keyboard it can be typed again: at the end, which is Ctrl-D, the accepted lines are
appended. Readings of -100 m and -200 m in chain 1, as line 1 of the log:

  echo 1 1 1 -10000 -20000 | laywrite
",
    );
    // For the help, the log is not looked at.
    if let Words::Helped = words {
        return;
    }
    let expected = b"the records are read from standard input, one line each";
    if is_ready(&tool) && tool.none_given(words, expected) {
        write_log(&tool, rt.stdin().is_terminal());
    }
}

// Whether records can be appended here: nobody else is writing the log, and the one that is there has whole records.
fn is_ready(tool: &Tool<'_, impl Files<File = File> + Clock + EprintBytes>) -> bool {
    tool.is_free(LOG) && open_log(tool).is_some()
}

fn open_log(tool: &Tool<'_, impl Files<File = File> + EprintBytes>) -> Option<Log> {
    match tool.open(LOG.name) {
        Opened::File(file) => {
            let length = end_of(&file);
            whole(tool, file, length)
        }
        Opened::Missing => Some(Log {
            old: None,
            records: 0,
        }),
        Opened::Failed => None,
    }
}

fn end_of(file: &File) -> io::Result<u64> {
    let mut file = file;
    file.seek(SeekFrom::End(0))
}

fn whole(tool: &Tool<'_, impl EprintBytes>, file: File, length: io::Result<u64>) -> Option<Log> {
    let bytes = match length {
        Ok(bytes) => bytes,
        Err(error) => {
            tool.failed(LOG.name, error);
            return None;
        }
    };
    if bytes % LOG_BYTES as u64 != 0 {
        let expected =
            b"lay.dat was expected to hold whole records of 32 bytes, and its last one is short";
        tool.refused(0, Refusal::Length.number(), expected);
        return None;
    }
    Some(Log {
        old: Some(file),
        records: bytes / LOG_BYTES as u64,
    })
}

// The records stay in a scratch file until every line has been read. Its name is removed at once, so that nothing is left of it if
// the program is stopped later.
fn write_log(
    tool: &Tool<'_, impl Files<File = File> + Clock + Print + io::Input + EprintBytes>,
    keyboard: bool,
) {
    let Some(chains) = known_chains(tool) else {
        return;
    };
    let Some(scratch) = tool.scratch(LOG.name) else {
        return;
    };
    let mut out = [0u8; WAIT_BYTES];
    let read = read_records(tool, &mut out, &scratch, chains, keyboard);
    let Some(n) = read.waiting else {
        drop_all(tool, read.tally);
        return;
    };
    if written(tool, &scratch, &out[..n]) {
        append(tool, &scratch, read.tally);
    }
}

// How many chains there are in chain.dat: none if it is missing or refused. If it cannot be read, that has been printed.
fn known_chains(tool: &Tool<'_, impl Files<File = File> + EprintBytes>) -> Option<usize> {
    match tool.open(b"chain.dat") {
        Opened::File(file) => chains_in(tool, &file),
        Opened::Missing => Some(0),
        Opened::Failed => None,
    }
}

fn chains_in(tool: &Tool<'_, impl EprintBytes>, file: &File) -> Option<usize> {
    // One byte more than the longest table, so that a file that is too long is noticed.
    let mut table = [0u8; records::TABLE_BYTES + 1];
    let n = tool.fill(b"chain.dat", file, &mut table)?;
    Some(records::chain_count(&table[..n]).unwrap_or(0))
}

// Reads every line, and answers with what waits in `out` when all have been read.
fn read_records(
    tool: &Tool<'_, impl io::Input + EprintBytes>,
    out: &mut [u8],
    scratch: &File,
    chains: usize,
    keyboard: bool,
) -> Read
    requires { log_bytes ≤ length out.old }
    ensures { HoldRecords out.new (kept_of result) }
{
    let mut buffer = [0u8; files::LINE_BYTES];
    each_line(tool, &mut buffer, out, scratch, chains, keyboard)
}

fn each_line(
    tool: &Tool<'_, impl io::Input + EprintBytes>,
    buffer: &mut [u8],
    out: &mut [u8],
    scratch: &File,
    chains: usize,
    keyboard: bool,
) -> Read
    requires { log_bytes ≤ length out.old }
    ensures { HoldRecords out.new (kept_of result) }
{
    let mut from = buffer.len();
    let mut to = buffer.len();
    let mut records = Some(0);
    let mut tally = Lines::default();
    let mut bytes = [0u8; LOG_BYTES];
    for line in 1..=u64::MAX {
        let input = tool.next_line(buffer, from, to);
        let Input::Line { start, end, stop } = input else {
            return ended(tool, input, line, records, tally, keyboard);
        };
        let judged = judge(&mut bytes, &buffer[start..end], tally.gap);
        report(tool, line, &buffer[start..end], judged);
        records = take(tool, out, records, scratch, judged, &bytes, keyboard);
        tally = tally.counted(line, judged, chains, keyboard);
        from = end + 1;
        to = stop;
    }
    kept(None, tally)
}

// What is kept when no line comes next. Text that is cut off is a refused line, and the last. If reading failed, nothing is kept.
fn ended(
    tool: &Tool<'_, impl EprintBytes>,
    input: Input,
    line: u64,
    records: Option<usize>,
    tally: Lines,
    keyboard: bool,
) -> Read
    ensures { kept_of result ≡ ended_by input records keyboard }
{
    match input {
        Input::Cut => cut(tool, line, records, tally, keyboard),
        Input::End => kept(records, tally),
        _ => kept(None, tally),
    }
}

fn cut(
    tool: &Tool<'_, impl EprintBytes>,
    line: u64,
    records: Option<usize>,
    tally: Lines,
    keyboard: bool,
) -> Read
    ensures { kept_of result ≡ (if keyboard then records else all_dropped) }
{
    let sentence =
        b"a line ends with a newline, the last one too, and has at most 65535 bytes with it";
    tool.refused(line, Refusal::Line.number(), sentence);
    kept(
        after_refusal(records, keyboard),
        tally.one_refused(line, keyboard),
    )
}

fn kept(records: Option<usize>, tally: Lines) -> Read
    ensures { kept_of result ≡ records }
{
    Read {
        waiting: records,
        tally,
    }
}

// What a line is. The bytes of its record go to `bytes`. A hold is refused if the line before it was, since it has the place of the
// record before it.
fn judge(bytes: &mut [u8], text: &[u8], gap: bool) -> Judged
    requires { length bytes.old ≡ log_bytes }
    ensures { IsJudged gap (parsed_draft text.now) bytes.new result }
{
    match parsing::draft(text) {
        Ok(Some(draft)) => judge_draft(bytes, draft, gap),
        Ok(None) => Judged::Passed,
        Err(refusal) => Judged::Refused(refusal),
    }
}

fn judge_draft(bytes: &mut [u8], d: Draft, gap: bool) -> Judged
    requires { length bytes.old ≡ log_bytes }
    ensures { IsJudged gap (Ok (Some d)) bytes.new result }
{
    if lacks_record(gap, d) {
        return Judged::Refused(Refusal::Hold);
    }
    by_refusal(writing::write(bytes, d), chain_named(d))
}

// Whether a draft is a hold after a refused line.
fn lacks_record(gap: bool, d: Draft) -> bool
    ensures { result ≡ gap && (d.kind == 3) }
{
    gap && d.kind == 3
}

#[tactic(auto, unfolding(crate::specs::Waiting::judged_of))]
fn by_refusal(written: Result<(), Refusal>, chain: Option<u32>) -> Judged
    ensures { result ≡ judged_of written chain }
{
    match written {
        Ok(()) => Judged::Record(chain),
        Err(why) => Judged::Refused(why),
    }
}

// The chain that a record names: only readings do.
fn chain_named(d: Draft) -> Option<u32>
    ensures { result ≡ chain_named d }
{
    if d.kind != 1 {
        return None;
    }
    Some(d.chain)
}

// What waits after a line. At a keyboard, a refused line drops nothing.
fn take(
    tool: &Tool<'_, impl EprintBytes>,
    out: &mut [u8],
    before: Option<usize>,
    scratch: &File,
    judged: Judged,
    bytes: &[u8],
    keyboard: bool,
) -> Option<usize>
    requires before_in_bounds { waiting_of before ≤ length out.old }
    requires bytes_in_bounds { length bytes.now ≤ length out.old }
    ensures { IsTaken before out.old judged bytes.now keyboard out.new result }
{
    match judged {
        Judged::Record(_) => keep_after(tool, out, before, scratch, bytes),
        Judged::Passed => before,
        Judged::Refused(_) => after_refusal(before, keyboard),
    }
}

fn after_refusal(before: Option<usize>, keyboard: bool) -> Option<usize>
    ensures { result ≡ (if keyboard then before else all_dropped) }
{
    if keyboard { before } else { None }
}

// Once records were dropped, later ones are too.
fn keep_after(
    tool: &Tool<'_, impl EprintBytes>,
    out: &mut [u8],
    before: Option<usize>,
    scratch: &File,
    bytes: &[u8],
) -> Option<usize>
    requires before_in_bounds { waiting_of before ≤ length out.old }
    requires bytes_in_bounds { length bytes.now ≤ length out.old }
    ensures { KeptAfter before out.old bytes.now out.new result }
{
    let at = before?;
    keep(tool, out, at, scratch, bytes)
}

// Puts a record after those that wait. If there is no room for it, those are written out first; if that fails, all are dropped.
fn keep(
    tool: &Tool<'_, impl EprintBytes>,
    out: &mut [u8],
    at: usize,
    scratch: &File,
    bytes: &[u8],
) -> Option<usize>
    requires at_in_bounds { at ≤ length out.old }
    requires bytes_in_bounds { length bytes.now ≤ length out.old }
    ensures { IsKept (take at out.old) bytes.now out.new result }
{
    if out.len() - at >= bytes.len() {
        return put(out, at, bytes);
    }
    if !written(tool, scratch, &out[..at]) {
        return None;
    }
    put(out, 0, bytes)
}

fn put(out: &mut [u8], at: usize, bytes: &[u8]) -> Option<usize>
    requires { at + length bytes.now ≤ length out.old }
    ensures { Wait (take at out.old ++ bytes.now) out.new result }
{
    Some(text::put(out, at, bytes))
}

// Writes bytes to the scratch file. Returns whether all were written.
fn written(tool: &Tool<'_, impl EprintBytes>, scratch: &File, bytes: &[u8]) -> bool {
    tool.write(LOG.name, scratch, bytes)
}

// Makes the new log beside the old one, from its records and those of the scratch file, and puts it in its place.
fn append(
    tool: &Tool<'_, impl Files<File = File> + Clock + Print + EprintBytes>,
    scratch: &File,
    tally: Lines,
) {
    if tally.unknown > 0 {
        tool.chains_unknown(tally.unknown, tally.named.unwrap_or(0));
    }
    if tally.accepted == 0 {
        if let Some(log) = open_log(tool) {
            confirm(tool, log.records, tally, b"nothing is written");
        }
        return;
    }
    let Some(file) = tool.begin(LOG, files::END_TRIES) else {
        return;
    };
    let Some(log) = open_log(tool) else {
        tool.give_up(LOG, file);
        return;
    };
    let now = log.records.wrapping_add(tally.accepted);
    if !copied(tool, &log, scratch, &file, now) {
        tool.give_up(LOG, file);
        return;
    }
    if tool.finish(LOG, file) {
        confirm(tool, now, tally, b"the accepted ones are written");
    }
}

// Copies the old log and the scratch file to the fresh file, which then has `now` records. Returns whether that succeeded.
fn copied(
    tool: &Tool<'_, impl EprintBytes>,
    log: &Log,
    scratch: &File,
    file: &File,
    now: u64,
) -> bool {
    if let Some(old) = &log.old {
        if !copy_all(tool, old, file) {
            return false;
        }
    }
    copy_all(tool, scratch, file) && is_complete(tool, file, now)
}

// Whether a file has so many records up to where it is written. A log that another program changes while it is copied may have more
// or fewer.
fn is_complete(tool: &Tool<'_, impl EprintBytes>, file: &File, records: u64) -> bool {
    let bytes = place_of(file);
    if bytes % LOG_BYTES as u64 == 0 && bytes / LOG_BYTES as u64 == records {
        return true;
    }
    let changed = b"it was changed while it was copied; nothing is written";
    tool.trouble(LOG.name, changed)
}

// How many bytes come before the place where a file is written. If that is not known, it is a number of bytes that no records have.
fn place_of(file: &File) -> u64 {
    let mut file = file;
    file.seek(SeekFrom::Current(0)).unwrap_or(1)
}

// Copies a file from its start.
fn copy_all(tool: &Tool<'_, impl EprintBytes>, from: &File, to: &File) -> bool {
    let mut start = from;
    match start.seek(SeekFrom::Start(0)) {
        Ok(_) => copy_rest(tool, from, to),
        Err(error) => tool.failed(LOG.name, error),
    }
}

fn copy_rest(tool: &Tool<'_, impl EprintBytes>, from: &File, to: &File) -> bool {
    for _ in 0..files::MOST_STRETCHES {
        match copy_some(tool, from, to) {
            Some(0) => return true,
            Some(_) => {}
            None => return false,
        }
    }
    false
}

// Copies a stretch of a file, and returns how many bytes it has: 0 at the file's end.
fn copy_some(tool: &Tool<'_, impl EprintBytes>, from: &File, to: &File) -> Option<usize> {
    let mut bytes = [0u8; 65_536];
    let n = tool.fill(LOG.name, from, &mut bytes)?;
    if !tool.write(LOG.name, to, &bytes[..n]) {
        return None;
    }
    Some(n)
}

// Prints what was written, and that there are `now` records.
fn confirm(tool: &Tool<'_, impl Print + EprintBytes>, now: u64, tally: Lines, sentence: &[u8]) {
    tool.written(LOG.name, b"record", tally.accepted, now);
    lines_refused(tool, tally, sentence);
}

// Prints that nothing is written, if lines were refused. Otherwise something failed, which has been printed.
fn drop_all(tool: &Tool<'_, impl EprintBytes>, tally: Lines) {
    lines_refused(tool, tally, b"nothing is written");
}

fn lines_refused(tool: &Tool<'_, impl EprintBytes>, tally: Lines, sentence: &[u8]) {
    if tally.refused > 0 {
        let first = tally.first.unwrap_or(0);
        tool.lines_refused(tally.refused, first, tally.accepted, sentence);
    }
}

// Prints the refusal of a line that is refused.
fn report(tool: &Tool<'_, impl EprintBytes>, line: u64, text: &[u8], judged: Judged) {
    let Judged::Refused(refusal) = judged else {
        return;
    };
    match refusal {
        Refusal::Hold => {
            let why = b"a hold has the place of the record before it, and that line was refused";
            tool.refused(line, refusal.number(), why);
        }
        Refusal::Line => {
            tool.refused_form(line, text, Form::Draft);
        }
        _ => refuse_numbers(tool, line, text, refusal),
    }
}

fn refuse_numbers(tool: &Tool<'_, impl EprintBytes>, line: u64, text: &[u8], refusal: Refusal) {
    let Ok(Some(draft)) = parsing::draft(text) else {
        return;
    };
    let word = parsing::draft_fault(refusal.number(), draft);
    let sentence: &[u8] = match refusal {
        Refusal::Form => b"the kind is 1, 2 or 3: readings, a place or a hold",
        Refusal::Number => b"a reading or a place is -1000000000 to 1000000000 centimetres",
        Refusal::Place if word == 3 => b"the easting of a place is 0 to 100000000 centimetres",
        Refusal::Place => b"the northing of a place is 0 to 1000000000 centimetres",
        _ => b"the chain of readings is 1 to 16",
    };
    tool.refused_word(line, refusal.number(), text, word, sentence);
}
