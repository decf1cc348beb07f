// The judge: six numbers for any three byte strings. What it looks at stands in two sides, which are made once a call.
#![tactic(auto)]

ghost use Rattle.std.specs.Prelude.{◌≡◌, get_or};
ghost use Rattle.lists.specs.Below.{sum_below};
ghost use Rattle.words.specs.Bits.{count_bits};
ghost use Rattle.sweeps.specs.SideVerdicts.{end_answer};
ghost use Rattle.checker.specs.Judge.{AllRead, files_verdict, read_answer, judge_known, judge_answer};
ghost use Rattle.checker.specs.OnSides.{sides_verdict};

use answers::Answer;
use certificate_reader::read_certificate;
use certificates::{Sizes, rows};
use obligations::BothRanks;
use relation_words::{column_words, row_words};
use sides::{Side, View};
use starts::check_starts;
use sweeps::{Tally, check_all};
use table_pairs::{Heads, read_tables};
use table_reader::Known;
use tables::{Head, labels, steps};
use words::Row;

// The related pairs: the ones of all words.
fn count_pairs(words: &[u64; Head::MAX_STATES]) -> usize
    ensures { result ≡ sum_below 64 (λ s. count_bits (get_or words.now s 0)) }
{
    let mut pairs: usize = 0;
    for word in words {
        pairs += Row(*word).count();
    }
    pairs
}

// The answer at the end of all checks.
fn end_answer(end: Result<Tally, Answer>, pairs: usize) -> Answer
    ensures { result ≡ end_answer pairs end }
{
    match end {
        Ok(met) => Answer {
            code: 0,
            file: 0,
            a: pairs,
            b: met.steps,
            c: met.stutters,
            d: met.matches,
        },
        Err(answer) => answer,
    }
}

// The starts rule and then all checks of two sides: the obligations counted by clause, or the first refusal.
#[tactic(auto, unfolding(crate::specs::OnSides::sides_verdict))]
fn check_sides(view: View, certificate: &[u8], sizes: Sizes) -> Result<Tally, Answer>
    ensures { result ≡ sides_verdict view.entry.ours.now view.entry.theirs.now certificate.now sizes }
{
    check_starts(view)?;
    check_all(view, BothRanks::of(certificate, sizes))
}

// The judge's answer where all three files are read, from the headers of the two tables.
fn judge_read(left: &[u8], right: &[u8], certificate: &[u8], heads: Heads) -> Answer
    requires { AllRead left.now right.now certificate.now heads.left heads.right }
    ensures { result ≡ read_answer left.now right.now certificate.now }
{
    let sizes = Sizes::of(heads.left, heads.right);
    let words = row_words(rows(certificate, sizes), sizes.n1 as usize);
    let columns = column_words(&words);
    let ours = Side::of(heads.left, labels(left), steps(left), &words);
    let theirs = Side::of(heads.right, labels(right), steps(right), &columns);
    let view = View {
        ours: &ours,
        theirs: &theirs,
    };
    let end = check_sides(view, certificate, sizes);
    end_answer(end, count_pairs(&words))
}

// Reads the left table, the right table, and the certificate. Each read is taken apart by let else: the product's forms ask for it (docs/DECISIONS.md 14).
#[tactic(auto, unfolding(crate::specs::Judge::files_verdict))]
fn read(left: &[u8], right: &[u8], certificate: &[u8], known: Known) -> Result<Heads, Answer>
    ensures { result ≡ files_verdict known left.now right.now certificate.now }
{
    let tables = read_tables(left, right, known);
    let Ok(heads) = tables else {
        return tables;
    };
    let third = read_certificate(certificate, Sizes::of(heads.left, heads.right));
    let Ok(_) = third else {
        return Err(third.unwrap_err().answer(2));
    };
    tables
}

// A judge that knows these kinds of table: for any three byte strings, the six numbers of its answer.
pub fn judge_known(left: &[u8], right: &[u8], certificate: &[u8], known: Known) -> Answer
    ensures { result ≡ judge_known known left.now right.now certificate.now }
{
    match read(left, right, certificate, known) {
        Ok(heads) => judge_read(left, right, certificate, heads),
        Err(refusal) => refusal,
    }
}

// The judge: for any three byte strings, the six numbers of its answer. It knows both kinds of table.
pub fn judge(left: &[u8], right: &[u8], certificate: &[u8]) -> Answer
    ensures { result ≡ judge_answer left.now right.now certificate.now }
{
    judge_known(left, right, certificate, Known::Both)
}
