// Writes job.dat in the folder that it is run in, from the four or five words of a job in its arguments. What is refused or fails is
// reported on standard error; then the file stays as it was.
#![tactic(auto)]

use files::{EprintBytes, Target, Tool, Words};
use parsing::Form;
use records::Job;
use refusals::Refusal;
use std::fs::File;
use std::io::Print;
use std::rt::{Clock, Files};

const JOB: Target<'static> = Target {
    name: b"job.dat",
    fresh: b"job.dat.new",
};

fn main(rt: HostRuntime) {
    let tool = Tool {
        rt: &rt,
        name: b"layjob",
    };
    // Without the newline, which the arguments do not have.
    let mut line = [0u8; files::LINE_BYTES - 1];
    let words = tool.arguments(
        &mut line,
        b"layjob E N K T [ALLOWANCE] writes job.dat, the job of a search, in place of the one in this folder.

  E N        easting and northing of the window's south-west cell
  K          exponent, 0 to 24: the window has 2^K by 2^K cells of a centimetre, every one of them
             with an easting of 0 to 100000000 and a northing of 0 to 1000000000
  T          tolerance, 0 to 100000
  ALLOWANCE  how many visits a search may make, 0 to 18446744073709551615; 1000000 if it is left out

E, N and T are centimetres in digits alone, or metres with two decimals: 30001 is 300.01.

An honest record takes some hundred to some thousand visits, and 1000000 visits take about 0.03 s. A
record that cannot be placed makes all of them: without a limit some would take months. If good
records are refused with 10, give a smaller window, or an allowance of 100000000 (3 s a record).

A refusal is printed with its number, and then job.dat stays as it was.
The window of 2 by 2 cells at (30000, 40000), tolerance 0, 100 visits:

  layjob 30000 40000 1 0 100
",
    );
    match words {
        Words::Line(n) => take(&tool, &line[..n]),
        Words::Unfit(which) => {
            let sentence = b"an argument is one word, and all of them have at most 65534 bytes";
            tool.refused_argument(Refusal::Line.number(), which, sentence);
        }
        Words::Helped => {}
    }
}

fn take(tool: &Tool<'_, impl Files<File = File> + Clock + Print + EprintBytes>, line: &[u8]) {
    match parsing::job(line) {
        Ok(job) => write(tool, line, job),
        Err(_) => {
            tool.refused_form(0, line, Form::Job);
        }
    }
}

fn write(
    tool: &Tool<'_, impl Files<File = File> + Clock + Print + EprintBytes>,
    line: &[u8],
    job: Job,
) {
    let mut bytes = [0u8; records::JOB_BYTES];
    if let Err(refusal) = writing::write_job(&mut bytes, job) {
        let word = parsing::job_fault(refusal.number(), job);
        refuse(tool, line, refusal, word);
        return;
    }
    if tool.replace(JOB, &bytes, files::START_TRIES) {
        tool.job_written(job.allowance);
    }
}

// Prints the refusal of a job whose words are of the form, with the word at fault.
fn refuse(tool: &Tool<'_, impl EprintBytes>, line: &[u8], refusal: Refusal, word: usize) {
    let sentence: &[u8] = match word {
        0 => {
            b"the cells of the window have eastings of 0 to 100000000, from E up to E + 2^K - 1"
        }
        1 => {
            b"the cells of the window have northings of 0 to 1000000000, from N up to N + 2^K - 1"
        }
        2 => b"the exponent is 0 to 24",
        _ => b"the tolerance is 0 to 100000 centimetres",
    };
    tool.refused_word(0, refusal.number(), line, word, sentence);
}
