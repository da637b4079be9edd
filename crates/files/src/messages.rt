// Texts for standard error and standard output, put together in a buffer. Text for which there is no room is left out.
ghost use Rattle.std.specs.Prelude.{◌≡◌, ◌≤◌, length};
ghost use Rattle.files.specs.Messages.{shown_byte};

use crate::Target;
use std::fmt::Write;
use std::{fmt, io};

// At most this many bytes of a word are shown.
const SHOWN_BYTES: usize = 40;

// How much of the text of an error is kept.
const REASON_BYTES: usize = 256;

// A text of at most N bytes: those of the buffer up to `end`.
#[derive(Drop)]
pub(crate) struct Message<const N: usize> {
    pub(crate) buffer: [u8; N],
    pub(crate) end: usize,
    ghost inside: { end ≤ length buffer },
}

impl<const N: usize> Message<N> {
    pub(crate) fn new() -> Message<N> {
        Message {
            buffer: [0; N],
            end: 0,
        }
    }

    pub(crate) fn bytes(&self) -> &[u8] {
        &self.buffer[..self.end]
    }

    pub(crate) fn put(&mut self, s: &[u8]) {
        self.end = text::put(&mut self.buffer, self.end, s);
    }

    fn put_number(&mut self, n: u64) {
        self.end = text::put_number(&mut self.buffer, self.end, n);
    }

    // TOOL: SUBJECT: SENTENCE, and a newline.
    pub(crate) fn put_message(&mut self, tool: &[u8], subject: &[u8], sentence: &[u8]) {
        self.put_subject(tool, subject);
        self.put(b": ");
        self.put(sentence);
        self.put(b"\n");
    }

    // TOOL: SENTENCE, and a newline.
    pub(crate) fn put_said(&mut self, tool: &[u8], sentence: &[u8]) {
        self.put_subject(tool, sentence);
        self.put(b"\n");
    }

    // TOOL: SUBJECT
    fn put_subject(&mut self, tool: &[u8], subject: &[u8]) {
        self.put(tool);
        self.put(b": ");
        self.put(subject);
    }

    // TOOL: SUBJECT: why the operating system failed, and a newline.
    pub(crate) fn put_failure(&mut self, tool: &[u8], subject: &[u8], error: io::Error) {
        self.put_subject(tool, subject);
        self.put(b": ");
        self.put_reason(error);
        self.put(b"\n");
    }

    // Why the operating system failed, without the number of the error.
    fn put_reason(&mut self, error: io::Error) {
        let mut reason = Message::<REASON_BYTES>::new();
        let _ = reason.write(error);
        let text = reason.bytes();
        self.put(&text[..number_at(text)]);
    }

    // TOOL: REFUSED N: SENTENCE, with the number of the line before it if that is not 0, and a newline.
    pub(crate) fn put_refusal(&mut self, tool: &[u8], line: u64, number: u32, sentence: &[u8]) {
        self.put(tool);
        self.put_line(line);
        self.put(b"REFUSED ");
        self.put_number(number as u64);
        self.put(b": ");
        self.put(sentence);
        self.put(b"\n");
    }

    fn put_line(&mut self, line: u64) {
        self.put(b": ");
        if line != 0 {
            self.put(b"line ");
            self.put_number(line);
            self.put(b" ");
        }
    }

    // word W, `TEXT`: SENTENCE. The word is counted from 0, and shown from 1.
    pub(crate) fn put_word(&mut self, word: usize, text: &[u8], sentence: &[u8]) {
        self.put_place(word);
        self.put(b", `");
        self.put_shown(text);
        self.put(b"`: ");
        self.put(sentence);
    }

    // word W is missing: SENTENCE
    pub(crate) fn put_missing(&mut self, word: usize, sentence: &[u8]) {
        self.put_place(word);
        self.put(b" is missing: ");
        self.put(sentence);
    }

    fn put_place(&mut self, word: usize) {
        self.put(b"word ");
        self.put_number((word as u64).wrapping_add(1));
    }

    // The start of a text as it is shown, and two dots if there is more.
    fn put_shown(&mut self, text: &[u8]) {
        for b in &text[..text.len().min(SHOWN_BYTES)] {
            self.put(&[shown_byte(*b)]);
        }
        if text.len() > SHOWN_BYTES {
            self.put(b"..");
        }
    }

    // NAME is missing, and counts as empty
    pub(crate) fn put_empty(&mut self, name: &[u8]) {
        self.put(name);
        self.put(b" is missing, and counts as empty");
    }

    // NAME.scr and the number of the try in three digits: the name of a scratch file.
    pub(crate) fn put_scratch(&mut self, name: &[u8], i: u32) {
        self.put(name);
        self.put(b".scr");
        self.put_number(100 + i as u64);
    }

    // That a fresh file is there and is waited for.
    pub(crate) fn put_waiting(&mut self, target: Target<'_>) {
        self.put(target.fresh);
        self.put(b" is there: waiting for the tool that is writing ");
        self.put(target.name);
        self.put(b"; if none is running, remove ");
        self.put(target.fresh);
    }

    // That a fresh file is there, and what to do about it.
    pub(crate) fn put_taken(&mut self, target: Target<'_>) {
        self.put(target.fresh);
        self.put(b" is there: another tool is writing ");
        self.put(target.name);
        self.put(b", or was stopped while it did; ");
        self.put(target.name);
        self.put(b", if it is there, is whole. If none is running, remove ");
        self.put(target.fresh);
        self.put(b" and start again");
    }

    // job.dat: 1 job written, 1 there now; a search may make ALLOWANCE visits, and a newline.
    pub(crate) fn put_job_written(&mut self, allowance: u64) {
        self.put(b"job.dat: 1 job written, 1 there now; a search may make ");
        self.put_number(allowance);
        self.put(b" visits\n");
    }

    // NAME is written all the same
    pub(crate) fn put_all_the_same(&mut self, name: &[u8]) {
        self.put(name);
        self.put(b" is written all the same");
    }

    // COUNT records name a chain that chain.dat does not have (the first is line FIRST)
    pub(crate) fn put_unknown(&mut self, count: u64, first: u64) {
        self.put_number(count);
        if count == 1 {
            self.put(b" record names a chain that chain.dat does not have (line ");
        } else {
            self.put(b" records name a chain that chain.dat does not have (the first is line ");
        }
        self.put_number(first);
        self.put(b")");
    }

    // That the fresh file is not the one that was made.
    pub(crate) fn put_lost(&mut self, fresh: &[u8]) {
        self.put(fresh);
        self.put(b" was removed or replaced, or cannot be looked at; nothing is written");
    }

    // NAME: COUNT NOUNs written, TOTAL there now, and a newline.
    pub(crate) fn put_written(&mut self, name: &[u8], noun: &[u8], count: u64, total: u64) {
        self.put(name);
        self.put(b": ");
        self.put_number(count);
        self.put(b" ");
        self.put(noun);
        if count != 1 {
            self.put(b"s");
        }
        self.put(b" written, ");
        self.put_number(total);
        self.put(b" there now\n");
    }

    // COUNT lines refused (the first is line FIRST), ACCEPTED accepted; SENTENCE.
    pub(crate) fn put_lines_refused(
        &mut self,
        count: u64,
        first: u64,
        accepted: u64,
        sentence: &[u8],
    ) {
        if count == 1 {
            self.put(b"1 line refused (line ");
        } else {
            self.put_number(count);
            self.put(b" lines refused (the first is line ");
        }
        self.put_number(first);
        self.put(b"), ");
        self.put_number(accepted);
        self.put(b" accepted; ");
        self.put(sentence);
    }
}

impl<const N: usize> fmt::Write for Message<N> {
    fn write_str(&mut self, s: &str) -> fmt::Result {
        self.put(s.as_bytes());
        Ok(())
    }
}

// Where the number of an error begins in its text, after a space and a bracket: at the text's end if it has none.
fn number_at(text: &[u8]) -> usize
    ensures { result ≤ length text.now }
{
    match text.iter().position(|b| *b == b'(') {
        Some(i) => i.saturating_sub(1),
        None => text.len(),
    }
}

// A byte as it is shown: one that a terminal might take for a command as a question mark.
fn shown_byte(b: u8) -> u8
    ensures { result ≡ shown_byte b }
{
    if b < 32 || b == 127 { b'?' } else { b }
}
