// Text that a person types: lines, their words, and the job, chain, log record or question that a line stands for.
#![tactic(auto)]

ghost use Rattle.std.specs.Prelude.{◌≡◌, ◌+◌, ◌-◌, ◌≤◌, ℕ, Bool, cond, leb, pos, nat_abs, length, drop};
ghost use Rattle.metres.specs.Metres.{most_centimetres};
ghost use Rattle.chart.specs.Places.{same_place};
ghost use Rattle.chart.specs.Chains.{is_sound};
ghost use Rattle.records.specs.LogRecords.{is_place};
ghost use Rattle.text.specs.Texts.{numeral, numeral_from};
ghost use Rattle.parsing.specs.Words.{run, are_all, is_in_line, is_blank, is_in_word, is_one_word, word_at, start_at, span_at, Spans, no_word, is_passed};
ghost use Rattle.parsing.specs.Numbers.{is_digit, is_number, is_metres, is_length, centimetres_in, is_below, size_in, is_reading, value_at, length_at, held, held_reading};
ghost use Rattle.parsing.specs.Forms.{words_of, taken_for, is_taken, good_words, is_form, has_point, wrong_in, wrong_at};
ghost use Rattle.parsing.specs.Parsed.{place_in, window_in, allowance_in, factor_in, parsed_job, parsed_chain, parsed_draft, parsed_question, parsed_readings};
ghost use Rattle.parsing.specs.Faults.{place_fault, job_fault, draft_fault, unscaled, chain_fault};
ghost use Rattle.parsing.specs.Scanning.{Tests, sized_of, held_to, held_in};
ghost use Rattle.parsing.specs.declared.ChainFault.TheVariants as fault;
ghost use Rattle.parsing.specs.declared.Form.TheVariants as forms;
ghost use Rattle.parsing.specs.declared.Taken.TheVariants as kinds;

use chart::{Chain, Place};
use records::Job;
use refusals::Refusal;
use search::Window;
use writing::Draft;

// A question for the readings of a chain, by its number, at a place.
#[derive(Clone, Copy)]
pub struct PlaceAsked {
    pub chain: u32,
    pub place: Place,
}

// A question for the places at which a chain, by its number, has these readings.
#[derive(Clone, Copy)]
pub struct ReadingsAsked {
    pub chain: u32,
    pub a: i64,
    pub b: i64,
}

// What a line is taken for.
#[derive(Clone, Copy)]
pub enum Form {
    Job,
    Chain,
    Draft,
    Question,
    Readings,
}

// What a word of a line is taken for.
#[derive(Clone, Copy)]
pub enum Taken {
    Number,
    Line,
    Allowance,
    Length,
    Reading,
    Factor,
}

// What is wrong with a word: it is missing, or one too many; a number that is not in digits alone, or too large; metres without two
// decimals; a minus sign where there may be none; or a length that is neither centimetres nor metres.
#[derive(Clone, Copy)]
pub enum Wrong {
    Missing,
    Spare,
    Digits,
    Large,
    Decimals,
    Sign,
    Figures,
}

// The word of a chain that is at fault, counted from 0: it is out of range, or begins a station that stands where one before it does.
// Or it is the factor.
#[derive(Clone, Copy)]
pub enum ChainFault {
    Range(usize),
    Spot(usize),
    Factor,
}

// Some bytes of a line: from `start` on, up to but without `end`.
#[derive(Clone, Copy)]
pub struct Span {
    pub start: usize,
    pub end: usize,
}

// How many bytes are before the first newline of a text; all of them if there is none.
pub fn line_end(text: &[u8]) -> usize
    ensures { result ≡ run is_in_line text.now }
{
    scan(text, 0, in_line)
}

// Whether a text is one word and nothing else.
pub fn is_word(s: &[u8]) -> bool
    ensures { result ≡ is_one_word s.now }
{
    all_of(s, in_word)
}

// The job in a line. A line of another form is refused here and below; that test is all that these have in common.
#[tactic(auto, using(crate::proofs::Values::held_32), unfolding(crate::specs::Parsed::parsed_job))]
pub fn job(line: &[u8]) -> Result<Job, Refusal>
    ensures { result ≡ parsed_job line.now }
{
    if !is_form(line, Form::Job) {
        return Err(Refusal::Line);
    }
    Ok(Job {
        window: window(line),
        tolerance: as_32(length(line, 3)),
        allowance: allowance(line),
    })
}

// The chain in a line, or none if the line is passed over.
#[tactic(auto, unfolding(crate::specs::Parsed::parsed_chain))]
pub fn chain(line: &[u8]) -> Result<Option<Chain>, Refusal>
    ensures { result ≡ parsed_chain line.now }
{
    if is_passed(line) {
        return Ok(None);
    }
    if !is_form(line, Form::Chain) {
        return Err(Refusal::Line);
    }
    Ok(Some(Chain {
        master: place(line, 0),
        a: place(line, 2),
        b: place(line, 4),
        factor: factor(line),
    }))
}

// The draft of a log record in a line, or none if the line is passed over.
#[tactic(auto, using(crate::proofs::Values::held_32), unfolding(crate::specs::Parsed::parsed_draft))]
pub fn draft(line: &[u8]) -> Result<Option<Draft>, Refusal>
    ensures { result ≡ parsed_draft line.now }
{
    if is_passed(line) {
        return Ok(None);
    }
    if !is_form(line, Form::Draft) {
        return Err(Refusal::Line);
    }
    let x = reading(line, 3);
    let y = reading(line, 4);
    Ok(Some(Draft {
        kind: as_32(number(line, 0)),
        chain: as_32(number(line, 1)),
        line: as_32(number(line, 2)),
        x,
        y,
    }))
}

// The chain number and the place that a line asks about.
#[tactic(auto, using(crate::proofs::Values::held_32), unfolding(crate::specs::Parsed::parsed_question))]
pub fn question(line: &[u8]) -> Result<PlaceAsked, Refusal>
    ensures { result ≡ parsed_question line.now }
{
    if !is_form(line, Form::Question) {
        return Err(Refusal::Line);
    }
    let chain = as_32(number(line, 0));
    let place = place(line, 1);
    Ok(PlaceAsked { chain, place })
}

// The chain number and the two readings that a line asks about.
#[tactic(auto, using(crate::proofs::Values::held_32), unfolding(crate::specs::Parsed::parsed_readings))]
pub fn readings(line: &[u8]) -> Result<ReadingsAsked, Refusal>
    ensures { result ≡ parsed_readings line.now }
{
    if !is_form(line, Form::Readings) {
        return Err(Refusal::Line);
    }
    let chain = as_32(number(line, 0));
    let a = reading(line, 1);
    let b = reading(line, 2);
    Ok(ReadingsAsked { chain, a, b })
}

// How many words of a line are what they are taken for, up to the first that is not; so it is the word to name in a refusal.
pub fn good_words(line: &[u8], form: Form) -> usize
    ensures { result ≡ good_words form line.now }
{
    let n = words_of(form);
    for i in 0..n {
        if !is_taken(word_of(line, i), taken_for(form, i)) {
            return i;
        }
    }
    n
}

// What is wrong with the word i of a line, counted from 0, if it is not what it is taken for.
#[tactic(auto, unfolding(crate::specs::Forms::wrong_at))]
pub fn wrong_at(line: &[u8], form: Form, i: usize) -> Wrong
    ensures { result ≡ wrong_at form line.now i }
{
    if no_word(line, i) {
        return Wrong::Missing;
    }
    if i >= words_of(form) {
        return Wrong::Spare;
    }
    wrong_in(word_of(line, i), taken_for(form, i))
}

// What the word i of a line, counted from 0, is taken for.
pub fn taken_for(form: Form, i: usize) -> Taken
    ensures { result ≡ taken_for form i }
{
    match form {
        Form::Job => in_job(i),
        Form::Chain => in_chain(i),
        Form::Draft => in_draft(i),
        Form::Question => in_question(i),
        Form::Readings => in_readings(i),
    }
}

// How many words a line of the form has.
#[tactic(auto, unfolding(crate::specs::Forms::words_of))]
pub fn words_of(form: Form) -> usize
    ensures { result ≡ words_of form }
{
    match form {
        Form::Job => 5,
        Form::Chain => 7,
        Form::Draft => 5,
        Form::Question => 3,
        Form::Readings => 3,
    }
}

// Where the word after i others starts and ends: at the same place if there is none.
pub fn word_at(line: &[u8], i: usize) -> Span
    ensures span { result ≡ span_at i line.now }
    ensures word { Spans line.now (word_at i line.now) result }
{
    word(line, i)
}

// The same, and where the search for it begins, which only the functions here need.
fn word(s: &[u8], i: usize) -> Span
    ensures span { Spans s.now (word_at i s.now) result }
    ensures start { result.start ≡ start_at i s.now }
{
    let mut at = 0;
    for _passed in 0..i {
        at = scan(s, scan(s, at, is_blank), in_word);
    }
    let start = scan(s, at, is_blank);
    let end = scan(s, start, in_word);
    Span { start, end }
}

// The word after i others: empty if there is none.
fn word_of(s: &[u8], i: usize) -> &[u8]
    ensures { result.now ≡ word_at i s.now }
{
    let Span { start, end } = word(s, i);
    &s[start..end]
}

// The word at fault, counted from 0, in a place out of range: 0 or 1.
#[tactic(auto, unfolding(crate::specs::Faults::place_fault))]
pub fn place_fault(p: Place) -> usize
    ensures { result ≡ place_fault p }
{
    if chart::in_range(Place { northing: 0, ..p }) {
        1
    } else {
        0
    }
}

// The same in a job that is refused with 6 or 7. Any number may be given: a `Refusal` would ask more of callers.
#[tactic(auto, unfolding(crate::specs::Faults::job_fault))]
pub fn job_fault(number: u32, j: Job) -> usize
    ensures { result ≡ job_fault number j }
{
    if number == 7 {
        return 3;
    }
    let Window { corner, k } = j.window;
    if k > search::MOST_EXPONENT {
        return 2;
    }
    let corner = Place {
        northing: 0,
        ..corner
    };
    if search::is_window(Window { corner, k }) {
        1
    } else {
        0
    }
}

// The same in a draft that is refused with 2 to 5, by a number as in `job_fault`.
#[tactic(auto, unfolding(crate::specs::Faults::draft_fault))]
pub fn draft_fault(number: u32, d: Draft) -> usize
    ensures { result ≡ draft_fault number d }
{
    match number {
        2 => 0,
        3 => sized_fault(d.x),
        4 => ranged_fault(d.x),
        _ => 1,
    }
}

// The same in a chain that is not sound.
#[tactic(auto, using(crate::proofs::FaultLaws::place_few), unfolding(crate::specs::Faults::chain_fault))]
pub fn chain_fault(c: Chain) -> ChainFault
    ensures { result ≡ chain_fault c }
{
    if !chart::in_range(c.master) {
        return ChainFault::Range(place_fault(c.master));
    }
    if !chart::in_range(c.a) {
        return ChainFault::Range(2 + place_fault(c.a));
    }
    if !chart::in_range(c.b) {
        return ChainFault::Range(4 + place_fault(c.b));
    }
    on_grid_fault(c)
}

// The same if all stations are in range.
fn on_grid_fault(c: Chain) -> ChainFault
    ensures { result ≡ cond (is_sound (unscaled c)) fault.Factor (fault.Spot (cond (same_place c.master c.a) 2 4)) }
{
    if chart::sound(Chain {
        factor: chart::UNIT_FACTOR,
        ..c
    }) {
        return ChainFault::Factor;
    }
    ChainFault::Spot(spot_fault(c))
}

// The first word of A if it stands where the master does, else that of B.
#[tactic(auto, unfolding(chart::specs::Places::same_place))]
fn spot_fault(c: Chain) -> usize
    ensures { result ≡ cond (same_place c.master c.a) 2 4 }
{
    if c.master == c.a { 2 } else { 4 }
}

fn sized_fault(x: i64) -> usize
    ensures { result ≡ cond (leb (nat_abs x) most_centimetres) 4 3 }
{
    if metres::size(x) <= metres::MOST_CENTIMETRES {
        4
    } else {
        3
    }
}

fn ranged_fault(x: i64) -> usize
    ensures { result ≡ cond (is_place x (pos 0)) 4 3 }
{
    if records::is_place(x, 0) { 4 } else { 3 }
}

#[tactic(auto, unfolding(crate::specs::Forms::taken_for))]
fn in_job(i: usize) -> Taken
    ensures { result ≡ taken_for forms.Job i }
{
    match i {
        2 => Taken::Number,
        4 => Taken::Allowance,
        _ => Taken::Length,
    }
}

#[tactic(auto, unfolding(crate::specs::Forms::taken_for))]
fn in_chain(i: usize) -> Taken
    ensures { result ≡ taken_for forms.Chain i }
{
    match i {
        6 => Taken::Factor,
        _ => Taken::Length,
    }
}

#[tactic(auto, unfolding(crate::specs::Forms::taken_for))]
fn in_draft(i: usize) -> Taken
    ensures { result ≡ taken_for forms.Draft i }
{
    match i {
        0 | 1 => Taken::Number,
        2 => Taken::Line,
        _ => Taken::Reading,
    }
}

#[tactic(auto, unfolding(crate::specs::Forms::taken_for))]
fn in_question(i: usize) -> Taken
    ensures { result ≡ taken_for forms.Question i }
{
    if i == 0 { Taken::Number } else { Taken::Length }
}

#[tactic(auto, unfolding(crate::specs::Forms::taken_for))]
fn in_readings(i: usize) -> Taken
    ensures { result ≡ taken_for forms.Readings i }
{
    if i > 0 {
        return Taken::Reading;
    }
    Taken::Number
}

fn is_form(s: &[u8], form: Form) -> bool
    ensures { result ≡ is_form form s.now }
{
    let n = words_of(form);
    good_words(s, form) == n && no_word(s, n)
}

#[tactic(auto, unfolding(crate::specs::Forms::is_taken))]
fn is_taken(w: &[u8], taken: Taken) -> bool
    ensures { result ≡ is_taken taken w.now }
{
    match taken {
        Taken::Number => is_number(w),
        Taken::Line => is_line_number(w),
        Taken::Allowance => is_allowance(w),
        Taken::Length => is_length(w),
        Taken::Reading => is_reading(w),
        Taken::Factor => is_factor(w),
    }
}

#[tactic(auto, unfolding(crate::specs::Forms::wrong_in))]
fn wrong_in(w: &[u8], taken: Taken) -> Wrong
    ensures { result ≡ wrong_in taken w.now }
{
    match taken {
        Taken::Number => Wrong::Digits,
        Taken::Line => wrong_number(w),
        Taken::Allowance => wrong_number(w),
        Taken::Length => wrong_length(w),
        Taken::Reading => wrong_reading(w),
        Taken::Factor => Wrong::Digits,
    }
}

// What is wrong with a word that is taken for a number, a length or a reading: each has a test of its own.
#[tactic(auto, unfolding(crate::specs::Forms::wrong_in))]
fn wrong_number(w: &[u8]) -> Wrong
    ensures { result ≡ wrong_in kinds.Line w.now }
{
    if is_number(w) {
        return Wrong::Large;
    }
    Wrong::Digits
}

#[tactic(auto, unfolding(crate::specs::Forms::wrong_in))]
fn wrong_length(w: &[u8]) -> Wrong
    ensures { result ≡ wrong_in kinds.Length w.now }
{
    if is_below(w) {
        return Wrong::Sign;
    }
    wrong_reading(w)
}

#[tactic(auto, unfolding(crate::specs::Forms::wrong_in))]
fn wrong_reading(w: &[u8]) -> Wrong
    ensures { result ≡ wrong_in kinds.Reading w.now }
{
    if has_point(w) {
        return Wrong::Decimals;
    }
    Wrong::Figures
}

fn has_point(w: &[u8]) -> bool
    ensures { result ≡ has_point w.now }
{
    w.contains(&b'.')
}

#[tactic(auto, unfolding(crate::specs::Forms::is_taken))]
fn is_line_number(w: &[u8]) -> bool
    ensures { result ≡ is_taken kinds.Line w.now }
{
    is_number(w) && value(w).is_some_and(|n| n <= u32::MAX as u64)
}

#[tactic(auto, unfolding(crate::specs::Forms::is_taken))]
fn is_allowance(w: &[u8]) -> bool
    ensures { result ≡ is_taken kinds.Allowance w.now }
{
    w.is_empty() || is_number(w) && value(w).is_some()
}

#[tactic(auto, unfolding(crate::specs::Forms::is_taken))]
fn is_factor(w: &[u8]) -> bool
    ensures { result ≡ is_taken kinds.Factor w.now }
{
    is_number(w) || w.is_empty()
}

fn is_reading(w: &[u8]) -> bool
    ensures { result ≡ is_reading w.now }
{
    is_length(size(w))
}

fn is_length(w: &[u8]) -> bool
    ensures { result ≡ is_length w.now }
{
    is_number(w) || is_metres(w)
}

fn is_metres(w: &[u8]) -> bool
    ensures { result ≡ is_metres w.now }
{
    let n = w.len();
    n >= 4 && is_number(&w[..n - 3]) && w[n - 3] == b'.' && is_number(&w[n - 2..])
}

// Whether a line is passed over.
fn is_passed(s: &[u8]) -> bool
    ensures { result ≡ is_passed s.now }
{
    let w = word_of(s, 0);
    w.is_empty() || w[0] == b'#'
}

fn no_word(s: &[u8], n: usize) -> bool
    ensures { result ≡ no_word n s.now }
{
    word_of(s, n).is_empty()
}

#[tactic(auto, using(crate::proofs::Values::held_32))]
fn window(s: &[u8]) -> Window
    ensures { result ≡ window_in s.now }
{
    let corner = place(s, 0);
    let k = as_32(number(s, 2));
    Window { corner, k }
}

// Where there is no word, the usual allowance; below, the factor with which ground and grid are the same.
fn allowance(s: &[u8]) -> u64
    ensures { result ≡ held 64 (allowance_in s.now) }
{
    if no_word(s, 4) {
        return records::USUAL_ALLOWANCE;
    }
    number(s, 4).unwrap_or(u64::MAX)
}

#[tactic(auto, using(crate::proofs::Values::held_32))]
fn factor(s: &[u8]) -> u32
    ensures { result ≡ held 32 (factor_in s.now) }
{
    if no_word(s, 6) {
        return chart::UNIT_FACTOR;
    }
    as_32(number(s, 6))
}

// The place in the words i and i + 1, counted from 0.
#[tactic(auto, using(crate::proofs::Values::held_32))]
fn place(s: &[u8], i: usize) -> Place
    requires { i ≤ 4 }
    ensures { result ≡ place_in s.now i }
{
    let easting = as_32(length(s, i));
    let northing = as_32(length(s, i + 1));
    Place { easting, northing }
}

fn reading(s: &[u8], i: usize) -> i64
    ensures { result ≡ held_reading s.now i }
{
    let w = word_of(s, i);
    let below = is_below(w);
    let n = held_to(centimetres(size(w)), i64::MAX as u64) as i64;
    if below {
        return -n;
    }
    n
}

// The number in the word i of a line, counted from 0; none if it has more than 64 bits. So it is with the numbers below.
fn number(s: &[u8], i: usize) -> Option<u64>
    ensures { result ≡ sized_of (value_at s.now i) }
{
    value(word_of(s, i))
}

// The length in the word i of a line, counted from 0: as above but for what the word says.
fn length(s: &[u8], i: usize) -> Option<u64>
    ensures { result ≡ sized_of (length_at s.now i) }
{
    centimetres(word_of(s, i))
}

// The centimetres that a length says. Two digits follow the point, so with them the number is that of centimetres.
fn centimetres(w: &[u8]) -> Option<u64>
    ensures { result ≡ sized_of (centimetres_in w.now) }
{
    if !is_metres(w) {
        return value(w);
    }
    let n = w.len();
    let metres = value(&w[..n - 3])?;
    value_from(metres, &w[n - 2..])
}

#[tactic(auto, using(crate::proofs::Values::held_within))]
fn as_32(n: Option<u64>) -> u32
    ensures { result ≡ held_in 32 n }
{
    held_to(n, u32::MAX as u64) as u32
}

// A number in a field that holds at most `most`: a larger number counts as `most`.
#[tactic(auto, unfolding(crate::specs::Scanning::held_to))]
fn held_to(n: Option<u64>, most: u64) -> u64
    ensures { result ≡ held_to most n }
{
    n.unwrap_or(most).min(most)
}

// A word without its minus sign, if it has one.
fn size(w: &[u8]) -> &[u8]
    ensures { result.now ≡ size_in w.now }
{
    if is_below(w) { &w[1..] } else { w }
}

fn is_below(w: &[u8]) -> bool
    ensures { result ≡ is_below w.now }
{
    w.first() == Some(&b'-')
}

fn is_number(w: &[u8]) -> bool
    ensures { result ≡ is_number w.now }
{
    all_of(w, is_digit)
}

// Whether s is not empty and all its bytes pass a test.
fn all_of<F: Fn(u8) -> bool>(s: &[u8], such: F) -> bool
    requires { F.IsAlwaysCallable such }
    ensures { (test : ℕ → Bool) → Tests (F.post such) test → result ≡ are_all test s.now }
{
    !s.is_empty() && scan(s, 0, such) == s.len()
}

// The number that digits stand for.
#[tactic(auto, unfolding(text::specs::Texts::numeral))]
fn value(w: &[u8]) -> Option<u64>
    ensures { result ≡ sized_of (numeral w.now) }
{
    value_from(0, w)
}

// The same if other digits come before them, whose number is `before`.
fn value_from(before: u64, w: &[u8]) -> Option<u64>
    ensures { result ≡ sized_of (numeral_from before w.now) }
{
    let mut n = before;
    for b in w {
        n = n.checked_mul(10)?.checked_add(digit(*b))?;
    }
    Some(n)
}

fn digit(b: u8) -> u64
    ensures { result ≡ b - 48 }
{
    u64::from(b.saturating_sub(b'0'))
}

// Where the run of bytes that pass a test and begins at `from` ends.
fn scan<F: Fn(u8) -> bool>(s: &[u8], from: usize, such: F) -> usize
    requires within { from ≤ length s.now }
    requires callable { F.IsAlwaysCallable such }
    ensures { (test : ℕ → Bool) → Tests (F.post such) test → result ≡ from + run test (drop from s.now) }
{
    for i in from..s.len() {
        if !such(s[i]) {
            return i;
        }
    }
    s.len()
}

fn in_line(b: u8) -> bool
    ensures { result ≡ is_in_line b }
{
    b != b'\n'
}

fn in_word(b: u8) -> bool
    ensures { result ≡ is_in_word b }
{
    !is_blank(b)
}

fn is_blank(b: u8) -> bool
    ensures { result ≡ is_blank b }
{
    matches!(b, b' ' | b'\t' | b'\r')
}

fn is_digit(b: u8) -> bool
    ensures { result ≡ is_digit b }
{
    b.is_ascii_digit()
}
