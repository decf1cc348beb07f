// Two tables, read together: the headers of both, or the answer that refuses one of them, or the two for being of different kinds.
#![tactic(auto)]

ghost use Rattle.std.specs.Prelude.{◌≡◌};
ghost use Rattle.answers.specs.Verdicts.{refusal_of};
ghost use Rattle.table_pairs.specs.TablePairs.{same_kind, tables_verdict};

use answers::Answer;
use table_reader::{Known, read_table, table_answer};
use tables::{Head, is_keyed};

// The headers of the two tables.
#[derive(Clone, Copy)]
pub struct Heads {
    pub left: Head,
    pub right: Head,
}

// Whether the steps of both have keys, or those of neither.
#[tactic(auto, unfolding(crate::specs::TablePairs::same_kind))]
fn same_kind(left: &[u8], right: &[u8]) -> bool
    ensures { result ≡ same_kind left.now right.now }
{
    is_keyed(left) == is_keyed(right)
}

// Reads the left table and the right table, which are of one kind, and of those that are known. Each read is taken apart by let else: the product's forms
// ask for it (docs/DECISIONS.md 14).
#[tactic(auto, unfolding(crate::specs::TablePairs::tables_verdict))]
pub fn read_tables(left: &[u8], right: &[u8], known: Known) -> Result<Heads, Answer>
    ensures { result ≡ tables_verdict known left.now right.now }
{
    let first = read_table(left, known);
    let Ok(head) = first else {
        return Err(table_answer(first, 0));
    };
    let second = read_table(right, known);
    let Ok(head2) = second else {
        return Err(table_answer(second, 1));
    };
    if !same_kind(left, right) {
        return Err(Answer::of(30, 1, 0));
    }
    Ok(Heads {
        left: head,
        right: head2,
    })
}

// The answer of a read that is refused; for any other it is blank.
pub fn tables_answer(read: Result<Heads, Answer>) -> Answer
    ensures { result ≡ refusal_of read }
{
    match read {
        Ok(_) => Answer::of(0, 0, 0),
        Err(answer) => answer,
    }
}
