// The refusals, and the number of each in the tables of 01 and 02.
#![tactic(auto)]

ghost use Rattle.std.specs.Prelude.{◌≡◌, ℕ};
ghost use Rattle.refusals.specs.Numbers.{refusal_number, any_number, number_told};

// Why there is no answer, in the order of the numbers.
#[derive(Clone, Copy, PartialEq, Eq)]
pub enum Refusal {
    // the length of a file, or its count of records
    Length,
    // a kind that is unknown, or a byte that must be zero
    Form,
    // a number that is none, or too large
    Number,
    // a place out of range
    Place,
    // a chain that is not in the table, or not sound
    Chain,
    // a window that is too large, or not wholly in range
    Window,
    // a tolerance that is too large
    Tolerance,
    // no matching cell
    NoMatch,
    // no room in the list
    NoRoom,
    // the allowance is used up
    Allowance,
    // a hold with nothing to hold
    Hold,
    // a typed line of another form
    Line,
}

impl Refusal {
    // Its number.
    pub fn number(self) -> u32
        ensures { result ≡ refusal_number self }
    {
        match self {
            Refusal::Length => 1,
            Refusal::Form => 2,
            Refusal::Number => 3,
            Refusal::Place => 4,
            Refusal::Chain => 5,
            Refusal::Window => 6,
            Refusal::Tolerance => 7,
            Refusal::NoMatch => 8,
            Refusal::NoRoom => 9,
            Refusal::Allowance => 10,
            Refusal::Hold => 11,
            Refusal::Line => 12,
        }
    }
}

// A refusal as a caller has it: one of these, or any number.
pub trait Numbered {
    ghost number_of: { Self → ℕ };

    // Its number.
    fn as_number(self) -> u32
        ensures { result ≡ number_of self };
}

impl Numbered for Refusal {
    ghost number_of = { refusal_number };

    fn as_number(self) -> u32 {
        Refusal::number(self)
    }
}

impl Numbered for u32 {
    ghost number_of = { any_number };

    fn as_number(self) -> u32 {
        self
    }
}

// The number of the refusal that an answer is, 0 if it is none.
pub fn number_told<T>(answer: &Result<T, Refusal>) -> u32
    ensures { result ≡ number_told answer.now }
{
    match answer {
        Ok(_) => 0,
        Err(refusal) => refusal.number(),
    }
}
