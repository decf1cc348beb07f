// The answer of every function of the software: six numbers, and how causes and verdicts lead to them.
#![tactic(auto)]

ghost use Rattle.std.specs.Prelude.{◌≡◌};
ghost use Rattle.answers.specs.Numbers.{six_numbers, which_number};

// The six numbers of an answer: code, file, a, b, c, d.
#[derive(Clone, Copy, PartialEq, Eq)]
pub struct Answer {
    pub code: usize,
    pub file: usize,
    pub a: usize,
    pub b: usize,
    pub c: usize,
    pub d: usize,
}

impl Answer {
    // An answer that names nothing but a: b, c and d are 0.
    pub fn of(code: usize, file: usize, a: usize) -> Answer
        ensures { result ≡ six_numbers code file a }
    {
        Answer {
            code,
            file,
            a,
            b: 0,
            c: 0,
            d: 0,
        }
    }
}

// Which of the two tables is meant.
#[derive(Clone, Copy, PartialEq, Eq)]
pub enum Which {
    Left,
    Right,
}

// An answer names it by a number.
impl From<Which> for usize {
    ghost from_gives = { λ which number. number ≡ which_number which };

    fn from(which: Which) -> usize {
        match which {
            Which::Left => 0,
            Which::Right => 1,
        }
    }
}
