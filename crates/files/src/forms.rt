// What is wrong with a line that is not of its form, as a sentence about the first word at fault.
use crate::messages::Message;
use parsing::{Form, Taken, Wrong};

impl<const N: usize> Message<N> {
    // The sentence about the word i of a line, counted from 0: what it is, and what it may be.
    pub(crate) fn put_fault(&mut self, line: &[u8], form: Form, i: usize) {
        match parsing::wrong_at(line, form, i) {
            Wrong::Missing => self.put_about(form, i, expected(form, i)),
            Wrong::Spare => self.put(words(form)),
            Wrong::Digits => self.put_about(form, i, DIGITS),
            Wrong::Large => self.put_about(form, i, most(form)),
            Wrong::Decimals => self.put_about(form, i, DECIMALS),
            Wrong::Sign => self.put_about(form, i, b" has no minus sign"),
            Wrong::Figures => self.put_about(form, i, LENGTH),
        }
    }

    fn put_about(&mut self, form: Form, i: usize, sentence: &[u8]) {
        self.put(name(form, i));
        self.put(sentence);
    }
}

const DIGITS: &[u8] = b" is a number in digits alone";

const DECIMALS: &[u8] = b" in metres has digits before the point and two after it";

const LENGTH: &[u8] = b" is centimetres in digits alone, or metres with two decimals";

fn expected(form: Form, i: usize) -> &'static [u8] {
    match parsing::taken_for(form, i) {
        Taken::Length | Taken::Reading => LENGTH,
        _ => DIGITS,
    }
}

fn most(form: Form) -> &'static [u8] {
    match form {
        Form::Job => b" is at most 18446744073709551615",
        _ => b" is at most 4294967295",
    }
}

fn words(form: Form) -> &'static [u8] {
    match form {
        Form::Job => b"a job has four words, or five with its allowance",
        Form::Chain => b"a chain has six words, or seven with its factor",
        Form::Draft => b"a record has five words",
        Form::Question | Form::Readings => b"a question has three words",
    }
}

// What the word i is called.
fn name(form: Form, i: usize) -> &'static [u8] {
    match (form, i) {
        (Form::Job, 0) => b"the easting",
        (Form::Job, 1) => b"the northing",
        (Form::Job, 2) => b"the exponent",
        (Form::Job, 3) => b"the tolerance",
        (Form::Job, _) => b"the allowance",
        (Form::Chain, 6) => b"the factor",
        (Form::Chain, _) if i % 2 == 0 => b"an easting",
        (Form::Chain, _) => b"a northing",
        (Form::Draft, 0) => b"the kind",
        (Form::Draft, 1) => b"the chain",
        (Form::Draft, 2) => b"the line number",
        (Form::Draft, 3) => b"X",
        (Form::Draft, _) => b"Y",
        (Form::Question | Form::Readings, 0) => b"the chain",
        (Form::Question, 1) => b"the easting",
        (Form::Question, _) => b"the northing",
        (Form::Readings, 1) => b"reading A",
        (Form::Readings, _) => b"reading B",
    }
}
