// What the programs share to call the operating system: files by name, arguments, lines of standard input, standard output, and
// messages on standard error. No contract can say what is read or written; each says what it can about the answer. If the answer
// depends on what another call returned, a private function takes that as an argument, and its answer follows from it.
//
// All of it is in the methods of `Tool`, which is the program that calls. A function that returns false or none has printed why. A
// file is in the folder that the program is started in.
#![tactic(auto)]

mod forms;
mod joining;
mod lines;
mod messages;
mod replacing;
mod system;
mod unnamed;

ghost use Rattle.std.specs.Prelude.{◌≡◌, ℕ, ◌≤◌, true, false, T, length};
ghost use Rattle.std.specs.Int.Signed.{non_neg};
ghost use Rattle.std.specs.Fd.{file_raw_fd};
ghost use Rattle.files.specs.declared.Opened.TheVariants as opened;
ghost use Rattle.files.specs.Answers.{opened_by, IsOpen, IsBegun, filled_bytes, no_bytes, IsStarted, IsArguments, IsSpare, none_given};
ghost use Rattle.files.specs.Input.{IsNext};

use messages::Message;
use parsing::{Form, Span};
use refusals::Refusal;
use replacing::{EEXIST, ENOENT, is_error};
use std::env::FillError;
use std::fs::File;
use std::io;
use std::io::{Print, Read, Write};
use std::os::fd::AsRawFd;
use std::rt::{Clock, Env, Files, HostRuntime};

// The length of the longest line, with its newline.
pub const LINE_BYTES: usize = 65_535;

// A loop over a file reads a stretch of 65,536 bytes in each turn, fewer in the last. It must be proved to end, so it counts its
// turns, at most this many. No file has so many stretches: the loop reaches the end of the file first.
pub const MOST_STRETCHES: u64 = u64::MAX;

// How often a fresh file that is there is tried again, with 100 ms between two tries: 5 s for a program that has nothing to lose,
// and 60 s for one that has read what was typed.
pub const START_TRIES: u32 = 50;

pub const END_TRIES: u32 = 600;

// What can print bytes on standard error that need not be text.
pub trait EprintBytes {
    fn eprint_bytes(&self, bytes: &[u8]) -> io::Result<()>;
}

impl EprintBytes for HostRuntime {
    fn eprint_bytes(&self, bytes: &[u8]) -> io::Result<()> {
        self.stderr().write_all(bytes)
    }
}

// A program: what its `main` is given, and its name, with which every message begins.
#[derive(Drop)]
pub struct Tool<'a, R> {
    pub rt: &'a R,
    pub name: &'a [u8],
}

// A file that is to be replaced, and the fresh one beside it, which takes its name in the end.
#[derive(Clone, Copy)]
pub struct Target<'a> {
    pub name: &'a [u8],
    pub fresh: &'a [u8],
}

// A file to read. It is an enum, since callers treat each of the three cases in another way, and a missing file is no error.
#[derive(Drop)]
pub enum Opened {
    File(File),
    Missing,
    Failed,
}

// The arguments as one line at the start of a buffer, and its length. Or `Unfit`: the number, from 0, of the first argument that is
// not a word or does not fit the buffer. If help was asked for, it has been printed. Three cases, so it is no Result.
#[derive(Drop)]
pub enum Words {
    Line(usize),
    Unfit(usize),
    Helped,
}

// What comes next in the input: a line of the buffer, without its newline, and `stop`, where the text read so far ends. Or `Cut`:
// text without a newline, which was cut off or is too long for the buffer. Or the end. Four cases, so it is no Option.
#[derive(Drop)]
pub enum Input {
    Line {
        start: usize,
        end: usize,
        stop: usize,
    },
    Cut,
    End,
    Failed,
}

// What prints alone, and what is done with a file that is open.
impl<R: EprintBytes> Tool<'_, R> {
    // `file` is what opening returned.
    fn opened_by(&self, name: &[u8], file: io::Result<File>) -> Opened
        ensures { result ≡ opened_by file }
    {
        match file {
            Ok(file) => {
                if file.as_raw_fd() >= 0 {
                    return Opened::File(file);
                }
                Opened::Failed
            }
            Err(error) => {
                if is_error(error, ENOENT) {
                    return Opened::Missing;
                }
                self.failed(name, error);
                Opened::Failed
            }
        }
    }

    // Prints a note that a file is missing, and returns true.
    pub fn missing(&self, name: &[u8]) -> bool
        ensures { result ≡ true }
    {
        let mut text = Message::<1024>::new();
        text.put_empty(name);
        self.note(text.bytes())
    }

    // Fills a buffer from a file, completely unless the file ends first. Returns how many bytes it filled.
    pub fn fill(&self, name: &[u8], file: &File, buffer: &mut [u8]) -> Option<usize>
        ensures room { filled_bytes result ≤ length buffer.new }
        ensures none { length buffer.old ≡ 0 → result ≡ no_bytes }
    {
        let mut reader = file;
        let mut done = 0;
        // A turn fills as much as one read gives: there is no index to count.
        while done < buffer.len() {
            let more = match reader.read(&mut buffer[done..]) {
                Ok(more) => more,
                Err(error) => {
                    self.failed(name, error);
                    return None;
                }
            };
            if more == 0 {
                return Some(done);
            }
            done += more;
        }
        Some(done)
    }

    // Reads the start of a file that was opened, as much as fits the buffer. A missing one counts as empty, and a note is printed.
    pub fn start_of(&self, file: &Opened, name: &[u8], buffer: &mut [u8]) -> Option<usize>
        ensures { IsStarted file.now (length buffer.new) result }
    {
        match file {
            Opened::File(file) => self.fill(name, file, buffer),
            Opened::Missing => {
                self.missing(name);
                Some(0)
            }
            Opened::Failed => None,
        }
    }

    fn changed(&self, name: &[u8]) -> bool
        ensures { result ≡ false }
    {
        self.trouble(name, b"this file was changed while it was read; try again")
    }

    // Writes bytes to a file. Returns whether all were written.
    pub fn write(&self, name: &[u8], file: &File, s: &[u8]) -> bool
        ensures { length s.now ≡ 0 → result ≡ true }
    {
        if s.len() == 0 {
            return true;
        }
        let mut writer = file;
        self.is_written(name, writer.write_all(s))
    }

    // Whether all bytes were written, from what the call returned. If not, it prints why.
    fn is_written(&self, name: &[u8], done: io::Result<()>) -> bool {
        match done {
            Ok(()) => true,
            Err(error) => self.failed(name, error),
        }
    }

    fn is_stored(&self, name: &[u8], file: &File, bytes: &[u8]) -> bool {
        self.write(name, file, bytes) && self.is_written(name, file.sync_all())
    }

    // Prints a note that records name chains that chain.dat does not have: how many, and the line of the first. Returns true.
    pub fn chains_unknown(&self, count: u64, first: u64) -> bool
        ensures { result ≡ true }
    {
        let mut what = Message::<256>::new();
        what.put_unknown(count, first);
        self.note(what.bytes())
    }

    fn not_made(&self, target: Target<'_>, error: io::Error) -> bool
        ensures { result ≡ false }
    {
        if is_error(error, EEXIST) {
            return self.taken(target);
        }
        self.failed(target.name, error)
    }

    fn unpaired(&self, side: &[u8]) -> bool
        ensures { result ≡ false }
    {
        self.trouble(side, b"this file is missing now; give the same lines again")
    }

    // Prints a note, which does not mean that something failed. Returns true.
    pub fn note(&self, sentence: &[u8]) -> bool
        ensures { result ≡ true }
    {
        self.trouble(b"note", sentence);
        true
    }

    // Prints why the operating system failed at a file. Returns false.
    pub fn failed(&self, name: &[u8], error: io::Error) -> bool
        ensures { result ≡ false }
    {
        let mut text = Message::<1024>::new();
        text.put_failure(self.name, name, error);
        let _ = self.rt.eprint_bytes(text.bytes());
        false
    }

    // Prints what is wrong with a file. Returns false.
    pub fn trouble(&self, name: &[u8], sentence: &[u8]) -> bool
        ensures { result ≡ false }
    {
        let mut text = Message::<1024>::new();
        text.put_message(self.name, name, sentence);
        let _ = self.rt.eprint_bytes(text.bytes());
        false
    }

    // Prints a refusal by its number, with the number of the input line that is refused, 0 for none. Returns false. Any number is printed,
    // here and below: a `Refusal` would ask more of callers.
    pub fn refused(&self, line: u64, number: u32, sentence: &[u8]) -> bool
        ensures { result ≡ false }
    {
        let mut text = Message::<1024>::new();
        text.put_refusal(self.name, line, number, sentence);
        let _ = self.rt.eprint_bytes(text.bytes());
        false
    }

    // The same for a word of a line, counted from 0: the word is shown, or said to be missing.
    pub fn refused_word(
        &self,
        line: u64,
        number: u32,
        text: &[u8],
        word: usize,
        sentence: &[u8],
    ) -> bool
        ensures { result ≡ false }
    {
        let Span { start, end } = parsing::word_at(text, word);
        let mut what = Message::<512>::new();
        if start >= end {
            what.put_missing(word, sentence);
            return self.refused(line, number, what.bytes());
        }
        what.put_word(word, &text[start..end], sentence);
        self.refused(line, number, what.bytes())
    }

    // Refuses a line that is not of its form with 12, and prints what is wrong with the first word at fault. Returns false.
    pub fn refused_form(&self, line: u64, text: &[u8], form: Form) -> bool
        ensures { result ≡ false }
    {
        let word = parsing::good_words(text, form);
        let mut what = Message::<256>::new();
        what.put_fault(text, form, word);
        self.refused_word(line, Refusal::Line.number(), text, word, what.bytes())
    }

    // Prints how many lines of the input were refused, the first of them, how many were accepted, and what that means. Returns
    // false.
    pub fn lines_refused(&self, count: u64, first: u64, accepted: u64, sentence: &[u8]) -> bool
        ensures { result ≡ false }
    {
        let mut what = Message::<256>::new();
        what.put_lines_refused(count, first, accepted, sentence);
        let mut out = Message::<512>::new();
        out.put_said(self.name, what.bytes());
        let _ = self.rt.eprint_bytes(out.bytes());
        false
    }
}

// What prints on standard output.
impl<R: Print + EprintBytes> Tool<'_, R> {
    // Prints a text on standard output. Returns whether all of it was written.
    pub fn print(&self, text: &[u8]) -> bool
        ensures { length text.now ≡ 0 → result ≡ true }
    {
        if text.len() == 0 {
            return true;
        }
        self.is_written(b"standard output", Print::write_all(self.rt, text))
    }

    // Prints on standard output what a program has written to a file: NAME: COUNT NOUNs written, TOTAL there now. If that cannot be
    // printed, a note says that it is written. Returns true.
    pub fn written(&self, name: &[u8], noun: &[u8], count: u64, total: u64) -> bool
        ensures { result ≡ true }
    {
        let mut text = Message::<1024>::new();
        text.put_written(name, noun, count, total);
        self.confirmed(name, text.bytes())
    }

    // The same for a job, with its allowance.
    pub fn job_written(&self, allowance: u64) -> bool
        ensures { result ≡ true }
    {
        let mut text = Message::<1024>::new();
        text.put_job_written(allowance);
        self.confirmed(b"job.dat", text.bytes())
    }

    fn confirmed(&self, name: &[u8], text: &[u8]) -> bool
        ensures { result ≡ true }
    {
        if self.print(text) {
            return true;
        }
        let mut what = Message::<256>::new();
        what.put_all_the_same(name);
        self.note(what.bytes())
    }
}

// The arguments.
impl<R: Env + EprintBytes> Tool<'_, R> {
    // Whether a program that takes no argument may go on: none was given, and help was not asked for. The first argument is refused
    // with 12; then `sentence` is printed.
    pub fn none_given(&self, words: Words, sentence: &[u8]) -> bool
        ensures { result ≡ none_given words }
    {
        match words {
            Words::Line(0) => true,
            Words::Line(_) | Words::Unfit(_) => {
                self.refused_argument(Refusal::Line.number(), 0, sentence)
            }
            Words::Helped => false,
        }
    }

    // Prints the refusal of an argument of the program, counted from 0, whether or not it is a word. Of a long one, the start is
    // enough. Returns false.
    pub fn refused_argument(&self, number: u32, which: usize, sentence: &[u8]) -> bool
        ensures { result ≡ false }
    {
        let mut start = [0u8; 64];
        let got = self.rt.arg(which.wrapping_add(1), &mut start);
        let mut what = Message::<512>::new();
        if let Err(FillError::TooLong) = got {
            what.put_word(which, &start, sentence);
            return self.refused(0, number, what.bytes());
        }
        let n = got.unwrap_or(0);
        what.put_word(which, &start[0..n], sentence);
        self.refused(0, number, what.bytes())
    }
}

impl<R: Files<File = File> + Env + Print + EprintBytes> Tool<'_, R> {
    // Puts the arguments of the program into one line, with single spaces between them. None of them may be empty or contain a
    // blank. If the first is `--help`, the help text is printed instead. A program calls this before it opens a file.
    pub fn arguments(&self, line: &mut [u8], help: &[u8]) -> Words
        ensures { IsArguments line.new result }
    {
        joining::take_standard(self.rt);
        self.words_of(joining::asks_help(self.rt), line, help)
    }

    // The arguments of a program that takes none. Any argument is one too many, so one byte is enough to see whether there is one.
    pub fn no_arguments(&self, help: &[u8]) -> Words
        ensures { IsSpare result }
    {
        let mut none = [0u8; 1];
        self.arguments(&mut none, help)
    }
}

// Standard input.
impl<R: io::Input + EprintBytes> Tool<'_, R> {
    // The next line of standard input. The text read but not yet used is in the buffer from `from` up to `to`; if it has no whole
    // line, more is read, as it comes, until it has. For the first line, `from` and `to` are the buffer's length; after a line,
    // `from` is just after its newline and `to` is its `stop`. With its newline, a line is at most as long as the buffer.
    pub fn next_line(&self, buffer: &mut [u8], from: usize, to: usize) -> Input
        ensures { IsNext buffer.old from to buffer.new result }
    {
        let stop = lines::least(to, buffer.len());
        let there = lines::next_in(buffer, from, stop);
        if let Input::Line { .. } = there {
            return there;
        }
        self.read_more(buffer, from, stop)
    }
}

// Files by name: reading, and replacing.
impl<R: Files + EprintBytes> Tool<'_, R> {
    // Whether a name still belongs to the file that was opened by it, or still to none: so another file, read in between, belongs to
    // it too. If not, that is printed.
    pub fn is_still(&self, name: &[u8], file: &Opened) -> bool
        ensures { file.now ≡ opened.Failed → result ≡ false }
    {
        let there = system::of_name(self.rt, name);
        match file {
            Opened::File(file) => {
                system::is_same(there, system::of_file(file)) || self.changed(name)
            }
            Opened::Missing => there.is_err() || self.changed(name),
            Opened::Failed => false,
        }
    }

    fn is_kept(&self, target: Target<'_>, file: &File) -> bool {
        replacing::is_ours(self.rt, target.fresh, file) || self.lost(target)
    }
}

impl<R: Files> Tool<'_, R> {
    // Closes the fresh file and removes it, unless it is another's by now. Returns false.
    pub fn give_up(&self, target: Target<'_>, file: File) -> bool
        ensures { result ≡ false }
    {
        if replacing::is_ours(self.rt, target.fresh, &file) {
            let _ = replacing::removed(self.rt, target.fresh);
        }
        false
    }
}

impl<R: Files<File = File> + EprintBytes> Tool<'_, R> {
    // Opens a file to read. If it is missing, nothing is printed. It is looked at first, since opening a FIFO would wait.
    pub fn open(&self, name: &[u8]) -> Opened
        ensures { IsOpen result }
    {
        let seen = match system::of_name(self.rt, name) {
            Ok(seen) => seen,
            Err(error) => return self.opened_by(name, Err(error)),
        };
        if !system::is_regular(seen.mode) {
            self.not_regular(name);
            return Opened::Failed;
        }
        let file = system::opened(self.rt, name);
        self.opened_by(name, file)
    }

    // Reads the start of a file, as much as fits the buffer. A missing file counts as empty, and a note is printed.
    pub fn start(&self, name: &[u8], buffer: &mut [u8]) -> Option<usize>
        ensures { filled_bytes result ≤ length buffer.new }
    {
        self.start_of(&self.open(name), name, buffer)
    }

    // Makes a file to write to and to read again, of which nothing is left when the program ends: it has a name beside the file
    // `name`, which is removed at once.
    pub fn scratch(&self, name: &[u8]) -> Option<File>
        ensures { IsBegun result }
    {
        let scratch = match unnamed::made(self.rt, name) {
            Ok(scratch) => scratch,
            Err(error) => {
                self.failed(name, error);
                return None;
            }
        };
        if scratch.as_raw_fd() < 0 {
            return None;
        }
        Some(scratch)
    }

    // Ends the replacing of a file: the bytes are stored, and the fresh file takes the old one's name. If that fails, the fresh file
    // is removed and the old one stays. Somebody may have removed the fresh file, so that another tool could make its own: then
    // nothing is done.
    pub fn finish(&self, target: Target<'_>, file: File) -> bool
        ensures { non_neg (file_raw_fd file) ≡ false → result ≡ false }
    {
        if file.as_raw_fd() < 0 {
            return false;
        }
        if let Err(error) = file.sync_all() {
            self.failed(target.name, error);
            return self.give_up(target, file);
        }
        if !self.is_kept(target, &file) {
            return false;
        }
        drop(file);
        if let Err(error) = replacing::renamed(self.rt, target) {
            self.failed(target.name, error);
            let _ = replacing::removed(self.rt, target.fresh);
            return false;
        }
        if !replacing::stored_folder(self.rt) {
            self.note(b"the file has its new bytes, but its folder may not be stored yet");
        }
        true
    }

    // Both take their names. What fails leaves the second file missing, which is printed.
    fn finish_pair(&self, target: Target<'_>, file: File, side: Target<'_>, other: File) -> bool {
        if !self.finish(target, file) {
            self.give_up(side, other);
            return self.unpaired(side.name);
        }
        self.finish(side, other) || self.unpaired(side.name)
    }

    // Removes a file, and asks that this is stored before anything else is done. One that is missing counts as removed.
    fn is_removed(&self, name: &[u8]) -> bool {
        match replacing::removed(self.rt, name) {
            Err(error) if !is_error(error, ENOENT) => self.failed(name, error),
            _ => {
                replacing::stored_folder(self.rt);
                true
            }
        }
    }
}

impl<R: Files<File = File> + Clock + EprintBytes> Tool<'_, R> {
    // Whether a program may begin that will replace a file in the end: no other tool is writing it, which is waited for, and it may
    // be replaced.
    pub fn is_free(&self, target: Target<'_>) -> bool
        ensures { length target.entry.name.now ≡ 0 → result ≡ false }
    {
        target.name.len() != 0 && self.nothing_in_the_way(target, START_TRIES)
    }

    // Begins to replace a file: makes the fresh file, which keeps other tools from doing the same. While another has made it, that
    // is tried again, up to `tries` times. What is read of the old file from now on stays true until the end.
    pub fn begin(&self, target: Target<'_>, tries: u32) -> Option<File>
        ensures { IsBegun result }
    {
        let lock = match self.made(target, tries) {
            Ok(lock) => lock,
            Err(error) => {
                self.not_made(target, error);
                return None;
            }
        };
        if lock.as_raw_fd() < 0 {
            return None;
        }
        if !self.is_prepared(target.name, &lock) {
            self.give_up(target, lock);
            return None;
        }
        Some(lock)
    }

    // Replaces a file by some bytes. There is always the old file, or the new one with all its bytes. With no bytes nothing is done,
    // and the answer is false.
    pub fn replace(&self, target: Target<'_>, bytes: &[u8], tries: u32) -> bool
        ensures { length bytes.now ≡ 0 → result ≡ false }
    {
        if bytes.len() == 0 {
            return false;
        }
        let Some(file) = self.begin(target, tries) else {
            return false;
        };
        if !self.write(target.name, &file, bytes) {
            return self.give_up(target, file);
        }
        self.finish(target, file)
    }

    // Replaces two files that belong together by some bytes each. Both fresh files are stored, and looked at once more, before
    // anything is changed; and the second old file is removed before the first new one takes its name. So there is never an old file
    // beside a new one, but the second one is missing for a moment, and stays so if the tool is killed then. With no bytes for the
    // first nothing is done, and the answer is false.
    pub fn replace_pair(
        &self,
        target: Target<'_>,
        first: &[u8],
        side: Target<'_>,
        second: &[u8],
        tries: u32,
    ) -> bool
        ensures { length first.now ≡ 0 → result ≡ false }
    {
        if first.len() == 0 {
            return false;
        }
        let Some(file) = self.begin(target, tries) else {
            return false;
        };
        let Some(other) = self.begin(side, tries) else {
            return self.give_up(target, file);
        };
        if !self.is_stored(target.name, &file, first)
            || !self.is_stored(side.name, &other, second)
            || !self.is_kept(target, &file)
            || !self.is_kept(side, &other)
            || !self.is_removed(side.name)
        {
            self.give_up(side, other);
            return self.give_up(target, file);
        }
        self.finish_pair(target, file, side, other)
    }
}
