// Prints the readings expected at a place for a chain of chain.dat, with its factor from scale.dat, in the folder that it is run
// in. Its three arguments are the chain's number and the place. What is refused or fails is reported on standard error; then no
// readings are printed.
#![tactic(auto)]

use files::{EprintBytes, Opened, Tool, Words};
use parsing::{Form, PlaceAsked};
use refusals::Refusal;
use std::fs::File;
use std::io::Print;
use std::rt::{Env, Files};

fn main(rt: HostRuntime) {
    let tool = Tool {
        rt: &rt,
        name: b"layexpect",
    };
    // Without the newline, which the arguments do not have.
    let mut line = [0u8; files::LINE_BYTES - 1];
    let words = tool.arguments(
        &mut line,
        b"layexpect CHAIN E N prints the readings expected at a place, for a chain of chain.dat, with its scale
factor from scale.dat, in this folder.

  CHAIN  the chain's number in the table, 1 to 16
  E N    easting and northing of the place, 0 to 100000000 and 0 to 1000000000, in centimetres
         in digits alone, or in metres with two decimals: 30001 is 300.01

A line is printed for slave A and one for slave B: the reading in centimetres, the same in metres,
its eight bytes in a log record, and 0 if these are exactly the reading, 1 if they are rounded when
they are read back. A refusal is printed with its number.
The readings at (30000, 40000) for chain 1:

  layexpect 1 30000 40000
",
    );
    match words {
        Words::Line(n) => take(&tool, &line[..n]),
        Words::Unfit(which) => unfit(&tool, which),
        Words::Helped => {}
    }
}

fn unfit(tool: &Tool<'_, impl Env + EprintBytes>, which: usize) {
    tool.refused_argument(
        Refusal::Line.number(),
        which,
        b"an argument is one word, and all of them have at most 65534 bytes",
    );
}

fn take(tool: &Tool<'_, impl Files<File = File> + Print + EprintBytes>, line: &[u8]) {
    match parsing::question(line) {
        Ok(asked) => answer(tool, line, asked),
        Err(_) => other_form(tool, line),
    }
}

fn other_form(tool: &Tool<'_, impl EprintBytes>, line: &[u8]) {
    tool.refused_form(0, line, Form::Question);
}

fn answer(
    tool: &Tool<'_, impl Files<File = File> + Print + EprintBytes>,
    line: &[u8],
    asked: PlaceAsked,
) {
    // One byte more than the longest table, so that a file that is too long is noticed.
    let mut table = [0u8; records::TABLE_BYTES + 1];
    let file = tool.open(b"chain.dat");
    let Some(n) = tool.start_of(&file, b"chain.dat", &mut table) else {
        return;
    };
    with_scale(tool, line, &table[..n], file, asked);
}

// `file` is the table's: it must still be there when the side file has been read, since the two belong together.
fn with_scale(
    tool: &Tool<'_, impl Files<File = File> + Print + EprintBytes>,
    line: &[u8],
    table: &[u8],
    file: Opened,
    asked: PlaceAsked,
) {
    let mut scale = [0u8; records::SCALE_BYTES + 1];
    let Some(n) = tool.start(b"scale.dat", &mut scale) else {
        return;
    };
    if tool.is_still(b"chain.dat", &file) {
        print_expected(tool, line, table, &scale[..n], asked);
    }
}

fn print_expected(
    tool: &Tool<'_, impl Print + EprintBytes>,
    line: &[u8],
    table: &[u8],
    scale: &[u8],
    asked: PlaceAsked,
) {
    let mut out = [0u8; shown::LINE_ROOM];
    match shown::expected(&mut out, table, scale, asked.chain, asked.place) {
        Ok(n) => {
            tool.print(&out[..n]);
        }
        Err(refusal) => refuse(tool, line, table, asked, refusal),
    }
}

fn refuse(
    tool: &Tool<'_, impl EprintBytes>,
    line: &[u8],
    table: &[u8],
    asked: PlaceAsked,
    refusal: Refusal,
) {
    match refusal {
        Refusal::Place => refuse_place(tool, line, parsing::place_fault(asked.place)),
        Refusal::Chain => refuse_chain(tool, line, table, asked.chain),
        _ => refuse_length(tool, table),
    }
}

// The table is tested first.
fn refuse_length(tool: &Tool<'_, impl EprintBytes>, table: &[u8]) {
    match records::chain_count(table) {
        Err(_) => {
            refused_file(
                tool,
                b"chain.dat was expected to hold 1 to 16 chains of 24 bytes",
            )
        }
        Ok(_) => {
            refused_file(
                tool,
                b"scale.dat was expected to hold 4 bytes for each chain of chain.dat",
            )
        }
    }
}

fn refused_file(tool: &Tool<'_, impl EprintBytes>, sentence: &[u8]) {
    tool.refused(0, Refusal::Length.number(), sentence);
}

fn refuse_place(tool: &Tool<'_, impl EprintBytes>, line: &[u8], fault: usize) {
    match fault {
        0 => refused(
            tool,
            line,
            Refusal::Place,
            1,
            b"the easting is 0 to 100000000 centimetres",
        ),
        _ => refused(
            tool,
            line,
            Refusal::Place,
            2,
            b"the northing is 0 to 1000000000 centimetres",
        ),
    }
}

// A chain of the table that is refused is not sound.
fn refuse_chain(tool: &Tool<'_, impl EprintBytes>, line: &[u8], table: &[u8], chain: u32) {
    let Ok(n) = records::chain_count(table) else {
        return;
    };
    if records::one_to(n, chain) {
        refused(
            tool,
            line,
            Refusal::Chain,
            0,
            b"this chain has a station out of range, two on one spot, or a factor out of range",
        );
        return;
    }
    refused(
        tool,
        line,
        Refusal::Chain,
        0,
        b"chain.dat has no chain of this number",
    );
}

fn refused(
    tool: &Tool<'_, impl EprintBytes>,
    line: &[u8],
    refusal: Refusal,
    word: usize,
    sentence: &[u8],
) {
    tool.refused_word(0, refusal.number(), line, word, sentence);
}
