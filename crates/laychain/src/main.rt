// Writes chain.dat and scale.dat in the folder that it is run in, one chain and its factor for each line of standard input. Every line
// that is refused is reported on standard error; then both files stay as they were.
#![tactic(auto)]

ghost use Rattle.std.specs.Prelude.{◌≡◌, ◌*◌, ◌<◌, ◌≤◌, ◌&&◌, length, if◌then◌else◌, Ok, Some};
ghost use Rattle.records.specs.ChainTables.{chain_bytes, most_chains, factor_bytes};
ghost use Rattle.writing.specs.FactorWriting.{factor_buffer_of};
ghost use Rattle.text.specs.Puts.{with_text};
ghost use Rattle.parsing.specs.Parsed.{parsed_chain};
ghost use Rattle.files.specs.Input.{at_end};
ghost use Rattle.laychain.specs.Tables.{verdict_of, line_verdict, table_with, scale_with, chains_after, is_well, HoldsChains};

use chart::Chain;
use files::{EprintBytes, Input, Target, Tool};
use parsing::{ChainFault, Form};
use records::{CHAIN_BYTES, FACTOR_BYTES, MOST_CHAINS, SCALE_BYTES, TABLE_BYTES};
use refusals::Refusal;
use std::fs::File;
use std::io;
use std::io::Print;
use std::rt::{Clock, Files};

// What becomes of a line: its chain is in the table, it is passed over, or it is refused. Each is counted in another way, so this is
// no Result.
#[derive(Clone, Copy)]
enum Verdict {
    Chain,
    Passed,
    Refused(Refusal),
}

// How many lines were accepted, how many refused, and the number of the first of these.
#[derive(Clone, Copy, Default)]
struct Sum {
    accepted: u64,
    refused: u64,
    first: Option<u64>,
}

impl Sum {
    fn counted(self, line: u64, verdict: Verdict) -> Sum {
        match verdict {
            Verdict::Chain => Sum {
                accepted: self.accepted.wrapping_add(1),
                ..self
            },
            Verdict::Passed => self,
            Verdict::Refused(_) => self.one_refused(line),
        }
    }

    fn one_refused(self, line: u64) -> Sum {
        Sum {
            refused: self.refused.wrapping_add(1),
            first: self.first.or(Some(line)),
            ..self
        }
    }
}

const TABLE: Target<'static> = Target {
    name: b"chain.dat",
    fresh: b"chain.dat.new",
};

const SCALE: Target<'static> = Target {
    name: b"scale.dat",
    fresh: b"scale.dat.new",
};

fn main(rt: HostRuntime) {
    let tool = Tool {
        rt: &rt,
        name: b"laychain",
    };
    let words = tool.no_arguments(
        b"laychain writes chain.dat, the table of station chains, and scale.dat, their scale factors, in place of
those in this folder.

Each line of standard input is a chain, 1 to 16 of them, the first one chain 1:

  E N E N E N [FACTOR]

  E N     easting and northing of master, slave A and slave B, 0 to 100000000 and 0 to 1000000000,
          no two stations on one spot; in centimetres in digits alone, or in metres with two
          decimals: 30001 is 300.01
  FACTOR  how long the chart's grid is for a length on the ground, in millionths, 999000 to 1001000;
          1000000, the same length, if it is left out

Blank lines, and lines that begin with #, are passed over. Each refused line is reported as soon as
it is read, with the number of its refusal; then both files stay as they were.
The chain with its master at (0, 0), A at (30000, 0) and B at (0, 40000), and the same with the factor 0.9996:

  echo 0 0 30000 0 0 40000 | laychain
  echo 0 0 30000 0 0 40000 999600 | laychain
",
    );
    let expected = b"the chains are read from standard input, one line each";
    if tool.none_given(words, expected) && tool.is_free(TABLE) && tool.is_free(SCALE) {
        make_table(&tool);
    }
}

fn make_table(tool: &Tool<'_, impl Files<File = File> + Clock + Print + io::Input + EprintBytes>) {
    let mut buffer = [0u8; files::LINE_BYTES];
    let mut table = [0u8; TABLE_BYTES];
    let mut scale = [0u8; SCALE_BYTES];
    let chains = read_chains(tool, &mut buffer, &mut table, &mut scale);
    if chains == 0 {
        return;
    }
    let first = &table[..CHAIN_BYTES * chains];
    let second = &scale[..FACTOR_BYTES * chains];
    if tool.replace_pair(TABLE, first, SCALE, second, files::END_TRIES) {
        tool.written(TABLE.name, b"chain", chains as u64, chains as u64);
        tool.written(SCALE.name, b"factor", chains as u64, chains as u64);
    }
}

// Reads the chains into the table, and their factors into the side file, and returns how many there are; 0 if something was refused,
// which has been printed.
fn read_chains(
    tool: &Tool<'_, impl io::Input + EprintBytes>,
    buffer: &mut [u8],
    table: &mut [u8],
    scale: &mut [u8],
) -> usize
    requires { (length table.old ≡ chain_bytes * most_chains) × (length scale.old ≡ factor_bytes * most_chains) }
    ensures { HoldsChains table.new scale.new result }
{
    let mut from = buffer.len();
    let mut to = buffer.len();
    let mut count = 0;
    let mut well = true;
    let mut tally = Sum::default();
    for line in 1..=u64::MAX {
        let input = tool.next_line(buffer, from, to);
        let Input::Line { start, end, stop } = input else {
            return ended(tool, input, line, count, well, tally);
        };
        let verdict = put_line(table, scale, count, &buffer[start..end]);
        report(tool, line, &buffer[start..end], verdict);
        count = chains_after(count, verdict);
        well = accepted(well, verdict);
        tally = tally.counted(line, verdict);
        if count > MOST_CHAINS {
            return none(tool, tally);
        }
        from = end + 1;
        to = stop;
    }
    0
}

// How many lines with chains there are after one more line.
fn chains_after(count: usize, verdict: Verdict) -> usize
    requires { count ≤ most_chains }
    ensures { result ≡ chains_after count verdict }
{
    match verdict {
        Verdict::Chain => count + 1,
        Verdict::Passed => count,
        Verdict::Refused(_) => count + 1,
    }
}

// Whether no line was refused, this one included.
fn accepted(well: bool, verdict: Verdict) -> bool
    ensures { result ≡ well && is_well verdict }
{
    match verdict {
        Verdict::Chain => well,
        Verdict::Passed => well,
        Verdict::Refused(_) => false,
    }
}

// How many chains there are when no line comes next: 0 if something was refused or failed.
fn ended(
    tool: &Tool<'_, impl EprintBytes>,
    input: Input,
    line: u64,
    count: usize,
    well: bool,
    tally: Sum,
) -> usize
    ensures { result ≡ at_end input (if well then count else 0) 0 }
{
    match input {
        Input::Cut => cut(tool, line, tally),
        Input::End => chains(tool, count, well, tally),
        _ => 0,
    }
}

fn cut(tool: &Tool<'_, impl EprintBytes>, line: u64, tally: Sum) -> usize
    ensures { result ≡ 0 }
{
    let sentence =
        b"a line ends with a newline, the last one too, and has at most 65535 bytes with it";
    tool.refused(line, Refusal::Line.number(), sentence);
    none(tool, tally.one_refused(line))
}

fn chains(tool: &Tool<'_, impl EprintBytes>, count: usize, well: bool, tally: Sum) -> usize
    ensures { result ≡ (if well then count else 0) }
{
    if !well {
        return none(tool, tally);
    }
    if count == 0 {
        let sentence = b"a table has 1 to 16 chains, a line each, and there was none";
        tool.refused(0, Refusal::Length.number(), sentence);
    }
    count
}

// Prints how many lines were refused, and returns 0 for no chains.
fn none(tool: &Tool<'_, impl EprintBytes>, tally: Sum) -> usize
    ensures { result ≡ 0 }
{
    let first = tally.first.unwrap_or(0);
    tool.lines_refused(tally.refused, first, tally.accepted, b"nothing is written");
    0
}

// Puts the chain of a line into the table and its factor into the side file, after `before` others.
#[tactic(auto, unfolding(crate::specs::Tables::line_verdict))]
fn put_line(table: &mut [u8], scale: &mut [u8], before: usize, line: &[u8]) -> Verdict
    requires { (length table.old ≡ chain_bytes * most_chains) × (length scale.old ≡ factor_bytes * most_chains) }
    ensures answer { result ≡ line_verdict before (parsed_chain line.now) }
    ensures table { table.new ≡ table_with table.old before (parsed_chain line.now) }
    ensures scale { scale.new ≡ scale_with scale.old before (parsed_chain line.now) }
{
    match parsing::chain(line) {
        Ok(Some(c)) => put_chain(table, scale, before, c),
        Ok(None) => Verdict::Passed,
        Err(refusal) => Verdict::Refused(refusal),
    }
}

fn put_chain(table: &mut [u8], scale: &mut [u8], before: usize, c: Chain) -> Verdict
    requires { (length table.old ≡ chain_bytes * most_chains) × (length scale.old ≡ factor_bytes * most_chains) }
    ensures answer { result ≡ line_verdict before (Ok (Some c)) }
    ensures table { table.new ≡ table_with table.old before (Ok (Some c)) }
    ensures scale { scale.new ≡ scale_with scale.old before (Ok (Some c)) }
{
    if before >= MOST_CHAINS {
        return Verdict::Refused(Refusal::Length);
    }
    put_factor(scale, before, c.factor);
    let at = CHAIN_BYTES * before;
    by_refusal(writing::write_chain(&mut table[at..at + CHAIN_BYTES], c))
}

// The factor of a chain that is refused does not matter: then nothing is written.
fn put_factor(scale: &mut [u8], before: usize, factor: u32)
    requires { (length scale.old ≡ factor_bytes * most_chains) × (before < most_chains) }
    ensures { scale.new ≡ with_text scale.old (factor_bytes * before) (factor_buffer_of factor_bytes factor) }
{
    let at = FACTOR_BYTES * before;
    let _ = writing::write_factor(&mut scale[at..at + FACTOR_BYTES], factor);
}

#[tactic(auto, unfolding(crate::specs::Tables::verdict_of))]
fn by_refusal(written: Result<(), Refusal>) -> Verdict
    ensures { result ≡ verdict_of written }
{
    match written {
        Ok(()) => Verdict::Chain,
        Err(why) => Verdict::Refused(why),
    }
}

// Prints the refusal of a line that is refused.
fn report(tool: &Tool<'_, impl EprintBytes>, line: u64, text: &[u8], verdict: Verdict) {
    let Verdict::Refused(refusal) = verdict else {
        return;
    };
    match refusal {
        Refusal::Length => {
            tool.refused(line, refusal.number(), b"a table has at most 16 chains");
        }
        Refusal::Chain => refuse_chain(tool, line, text),
        _ => {
            tool.refused_form(line, text, Form::Chain);
        }
    }
}

fn refuse_chain(tool: &Tool<'_, impl EprintBytes>, line: u64, text: &[u8]) {
    if let Ok(Some(c)) = parsing::chain(text) {
        refuse_stations(tool, line, text, parsing::chain_fault(c));
    }
}

fn refuse_stations(tool: &Tool<'_, impl EprintBytes>, line: u64, text: &[u8], fault: ChainFault) {
    let word = match fault {
        ChainFault::Range(word) => word,
        ChainFault::Spot(word) => word,
        ChainFault::Factor => 6,
    };
    let sentence: &[u8] = match fault {
        ChainFault::Range(word) if word % 2 == 0 => b"an easting is 0 to 100000000 centimetres",
        ChainFault::Range(_) => b"a northing is 0 to 1000000000 centimetres",
        ChainFault::Spot(_) => b"this station stands on the spot of one before it",
        ChainFault::Factor => b"a factor is 999000 to 1001000 millionths",
    };
    tool.refused_word(line, Refusal::Chain.number(), text, word, sentence);
}
