// Why a file is refused, and the six numbers of each refusal. A refusal does not know which file it is of: the caller gives the file's number.
#![tactic(auto)]

ghost use Rattle.std.specs.Prelude.{◌≡◌};
ghost use Rattle.refusals.specs.Refusals.{table_answer, certificate_answer, relation_answer};

use answers::Answer;

// Why a table is refused; the last three carry the first such step.
#[derive(Clone, Copy, PartialEq, Eq)]
pub enum TableRefusal {
    Short,
    Magic,
    Version,
    States,
    Start,
    Starts,
    Steps,
    Length,
    StepEnd(usize),
    Doubled(usize),
    NotGreater(usize),
}

// Why a certificate is refused; the last carries the first such row.
#[derive(Clone, Copy, PartialEq, Eq)]
pub enum CertificateRefusal {
    Short,
    Magic,
    Version,
    Sizes,
    Length,
    RowBit(usize),
}

// Why a relation is refused; the last carries the first such row.
#[derive(Clone, Copy, PartialEq, Eq)]
pub enum RelationRefusal {
    Length,
    RowBit(usize),
}

impl TableRefusal {
    // The six numbers of the refusal of the file with this number.
    pub fn answer(self, file: usize) -> Answer
        ensures { result ≡ table_answer self file }
    {
        let (code, a) = match self {
            TableRefusal::Short => (1, 0),
            TableRefusal::Magic => (2, 0),
            TableRefusal::Version => (3, 0),
            TableRefusal::States => (4, 0),
            TableRefusal::Start => (5, 0),
            TableRefusal::Starts => (28, 0),
            TableRefusal::Steps => (6, 0),
            TableRefusal::Length => (7, 0),
            TableRefusal::StepEnd(j) => (8, j),
            TableRefusal::Doubled(again) => (9, again),
            TableRefusal::NotGreater(later) => (24, later),
        };
        Answer::of(code, file, a)
    }
}

impl CertificateRefusal {
    // The six numbers of the refusal of the file with this number.
    pub fn answer(self, file: usize) -> Answer
        ensures { result ≡ certificate_answer self file }
    {
        let (code, a) = match self {
            CertificateRefusal::Short => (10, 0),
            CertificateRefusal::Magic => (11, 0),
            CertificateRefusal::Version => (12, 0),
            CertificateRefusal::Sizes => (13, 0),
            CertificateRefusal::Length => (14, 0),
            CertificateRefusal::RowBit(s) => (15, s),
        };
        Answer::of(code, file, a)
    }
}

impl RelationRefusal {
    // The six numbers of the refusal of the file with this number.
    pub fn answer(self, file: usize) -> Answer
        ensures { result ≡ relation_answer self file }
    {
        let (code, a) = match self {
            RelationRefusal::Length => (20, 0),
            RelationRefusal::RowBit(s) => (15, s),
        };
        Answer::of(code, file, a)
    }
}
