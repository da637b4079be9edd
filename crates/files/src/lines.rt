// Lines of standard input in a buffer.
ghost use Rattle.std.specs.Prelude.{◌≡◌, ◌≤◌, min, ◌++◌, length, take, drop};
ghost use Rattle.files.specs.Input.{IsRead, Comes, next_in, between};

use crate::{EprintBytes, Input, Tool};
use std::io;
use std::io::Read;

pub(crate) fn least(a: usize, b: usize) -> usize
    ensures { result ≡ min a b }
{
    a.min(b)
}

// What comes next in the text from `from` up to `to` in a buffer.
pub(crate) fn next_in(buffer: &[u8], from: usize, to: usize) -> Input
    requires { to ≤ length buffer.now }
    ensures { result ≡ next_in buffer.now from to }
{
    if from >= to {
        return Input::End;
    }
    let n = parsing::line_end(&buffer[from..to]);
    if n >= to - from {
        return Input::Cut;
    }
    Input::Line {
        start: from,
        end: from + n,
        stop: to,
    }
}

impl<R: io::Input + EprintBytes> Tool<'_, R> {
    // Moves the text from `from` up to `to` to the front of the buffer, reads more after it, and returns what comes next.
    pub(crate) fn read_more(&self, buffer: &mut [u8], from: usize, to: usize) -> Input
        requires { to ≤ length buffer.old }
        ensures { IsRead buffer.old from to buffer.new result }
    {
        let kept = front(buffer, from, to);
        self.read_line(buffer, kept)
    }

    // Reads after the first `kept` bytes of a buffer, as much as there is at a time, until there is a newline, the buffer is full or
    // the input ends.
    fn read_line(&self, buffer: &mut [u8], kept: usize) -> Input
        requires { kept ≤ length buffer.old }
        ensures kept { take kept buffer.new ≡ take kept buffer.old }
        ensures next { Comes kept buffer.new result }
    {
        let mut input = self.rt.reader();
        let mut end = kept;
        // A turn takes as much as one read gives: there is no index to count.
        while end < buffer.len() {
            let more = match input.read(&mut buffer[end..]) {
                Ok(more) => more,
                Err(error) => {
                    self.failed(b"standard input", error);
                    return Input::Failed;
                }
            };
            if more == 0 {
                return next_in(buffer, 0, end);
            }
            let before = end;
            end += more;
            if parsing::line_end(&buffer[before..end]) < more {
                return next_in(buffer, 0, end);
            }
        }
        next_in(buffer, 0, end)
    }
}

// Moves the text from `from` up to `to` to the front of the buffer, and returns how many bytes it has.
fn front(buffer: &mut [u8], from: usize, to: usize) -> usize
    requires { to ≤ length buffer.old }
    ensures count { result ≡ length (between from to buffer.old) }
    ensures buffer { buffer.new ≡ between from to buffer.old ++ drop result buffer.old }
{
    if from >= to {
        return 0;
    }
    buffer.copy_within(from..to, 0);
    to - from
}
