// The arguments of a program as one line.
ghost use Rattle.std.specs.Prelude.{◌≡◌, ℕ, ◌+◌, ◌-◌, ◌≤◌, length, take};
ghost use Rattle.files.specs.Answers.{AreWords, IsLineOf, IsGiven, PutsWord};

use crate::{EprintBytes, Tool, Words};
use std::env::FillError;
use std::fs;
use std::fs::File;
use std::io::Print;
use std::os::fd::{AsRawFd, IntoRawFd};
use std::rt::{Env, Files};

impl<R: Env + Print + EprintBytes> Tool<'_, R> {
    // If help is asked for, it is printed, and there is no line.
    pub(crate) fn words_of(&self, asked: bool, line: &mut [u8], help: &[u8]) -> Words
        ensures { IsGiven asked line.new result }
    {
        if asked {
            self.print(help);
            return Words::Helped;
        }
        joined(self.rt, line, argument_count(self.rt))
    }
}

// A program may be started with standard input, output or error closed. A file that it opens would then get that descriptor, and
// what is printed would go into the file. So the three descriptors, 0 to 2, are taken first.
pub(crate) fn take_standard(files: &impl Files<File = File>) {
    if takes_one(files) && takes_one(files) {
        takes_one(files);
    }
}

fn takes_one(files: &impl Files<File = File>) -> bool {
    let Ok(file) = fs::open(files, "/dev/null") else {
        return false;
    };
    if file.as_raw_fd() > 2 {
        return false;
    }
    file.into_raw_fd(); // it stays open
    true
}

pub(crate) fn asks_help(env: &impl Env) -> bool {
    let mut word = [0u8; 6];
    // An argument that is longer gives no bytes.
    let n = argument(env, 1, &mut word);
    &word[..n] == b"--help".as_slice()
}

// Puts argument `i` at the start of a buffer, and returns how many bytes it has. One that is missing, empty or too long gives no
// bytes.
fn argument(env: &impl Env, i: usize, buffer: &mut [u8]) -> usize
    ensures { result ≤ length buffer.new }
{
    env.arg(i, buffer).unwrap_or(0)
}

// How many arguments there are, the program's own name among them.
fn argument_count(env: &impl Env) -> usize {
    for i in 0..usize::MAX {
        if let Err(FillError::NotPresent) = env.arg(i, &mut []) {
            return i;
        }
    }
    usize::MAX
}

// Joins the arguments into one line. The program's own name is included in `count`, but not in the line.
fn joined(env: &impl Env, line: &mut [u8], count: usize) -> Words
    ensures { IsLineOf (count - 1) line.new result }
{
    let mut end = 0;
    for i in 1..count {
        let Words::Line(e) = one_more(env, line, end, i) else {
            return Words::Unfit(i - 1);
        };
        end = e;
    }
    Words::Line(end)
}

// Puts argument `i`, of those that follow the program's own name at 0, after those that are there, which end at `end`.
fn one_more(env: &impl Env, line: &mut [u8], end: usize, i: usize) -> Words
    requires end_in_bounds { end ≤ length line.old }
    requires le_i { 1 ≤ i }
    ensures { (n : ℕ) → AreWords n (take end line.old) → n ≡ i - 1 → IsLineOf (n + 1) line.new result }
{
    if end == 0 {
        return put_argument(env, line, 0, i);
    }
    if end == line.len() {
        return Words::Unfit(i - 1);
    }
    line[end] = b' ';
    put_argument(env, line, end + 1, i)
}

// Puts argument `i` into the line from `at` on. One that is empty, or too long for the rest of the line, gives no bytes.
fn put_argument(env: &impl Env, line: &mut [u8], at: usize, i: usize) -> Words
    requires at_in_bounds { at ≤ length line.old }
    requires le_i { 1 ≤ i }
    ensures { PutsWord line.old at i line.new result }
{
    let n = argument(env, i, &mut line[at..]);
    if n == 0 {
        return Words::Unfit(i - 1);
    }
    let end = at + n;
    if !parsing::is_word(&line[at..end]) {
        return Words::Unfit(i - 1);
    }
    Words::Line(end)
}
